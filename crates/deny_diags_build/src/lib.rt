//! The messages about build scripts and the files of packages, and about bypasses. Each subject has a file;
//! the parts of notes have files beside them.
#![tactic(auto)]

mod at_hand;
mod by_text;
mod files;
mod globs;
mod message;
mod mismatch;
mod notes;
mod scripts;
mod sums;
mod unmatched;

pub use at_hand::AtHand;
pub use files::{
    bypassed_by_glob_diag, denied_by_extension_diag, detected_diag, path_bypassed_diag,
    script_diag, unable_to_check_diag,
};
pub use mismatch::{checksum_match_diag, checksum_mismatch_diag};
pub use scripts::{features_enabled_diag, script_denied_diag};
pub use sums::script_sums;
pub use unmatched::{unmatched_bypass_diag, unmatched_glob_diag, unmatched_path_diag};
