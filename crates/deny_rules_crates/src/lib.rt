//! The rules on crates: the keys of bans and their wrappers, of the allow list, of skips and skipped trees,
//! and of duplicates; and which entries are hit.
#![tactic(auto)]

mod allowed;
mod ban_keys;
mod banned;
mod duplicates;
mod hits;
mod skips;

pub use ban_keys::add_ban_keys;
pub use duplicates::add_duplicate_keys;
pub use hits::hits_of;
pub use skips::add_skip_keys;
