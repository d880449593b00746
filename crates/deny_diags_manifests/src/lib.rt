//! The messages about manifests: dependencies whose requirement any version meets, and what a workspace
//! shares. Each subject has a file, as in the definitions.
#![tactic(auto)]

mod sharing;
mod wildcards;

pub use sharing::{unused_entry_diag, workspace_duplicate_diag};
pub use wildcards::{unresolved_diag, wildcard_diag};
