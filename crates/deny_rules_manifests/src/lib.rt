//! The rules on manifests: dependencies whose requirement any version meets, crates that members declare
//! several times and not always by the entry that the workspace shares, and shared entries that no crate
//! comes from.
//!
//! # Choices
//!
//! The declarations that count for shared dependencies are found once, by the crates that they resolve to (`Uses`), for
//! the keys and for what is reported of them.
#![tactic(auto)]

mod active;
mod asked;
mod keys;
mod manifest_keys;
mod sharing;
mod uses;
mod wildcard_keys;
mod wildcards;

pub use active::is_active;
pub use manifest_keys::add_manifest_keys;
pub use uses::{Use, Uses, is_unshared, uses_of};
pub use wildcards::{is_active_in, is_shared};
