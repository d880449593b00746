//! The rules on features: which features of crates a policy does not allow, denies or does not know, and
//! where it checks the feature `default`.
#![tactic(auto)]

mod banned;
mod crates;
mod default_enabled;
mod feature_keys;
mod feature_match;
mod listed;
mod mismatched;
mod not_allowed;
mod reached;
mod steps;
mod unknown;

pub use crates::{default_level_at, enabled_at, has};
pub use feature_keys::add_feature_keys;
pub use listed::unlisted;
