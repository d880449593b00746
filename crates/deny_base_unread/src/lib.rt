//! Manifests are read here, with an entry for each that was not read. Definitions say the causes of
//! such entries, limits and failed calls, and what was read of a crate's files.
//!
//! # Choices
//!
//! What was not read and why, and the call that reads manifests, are here; the entries themselves (`Purpose`, `Unread`)
//! are in `deny_base`, since a report has them as it has keys and codes.
//!
//! The cause of an entry is a computed test: a bound explains it where the size, or the count of bytes given where the
//! disk tells no size, reaches the purpose's limit; what no bound explains is counted against failed calls. Each call
//! says so of its own entries, and laws join calls that follow one another.
//!
//! Only manifests are read whole, so the call that reads is one for manifests. Clauses on causes take the folder of
//! each crate, since the bound on lists counts what a package lists.
//!
//! `is_unread` tests whether an entry ties in the order, and two laws show that this is membership.
#![tactic(auto)]

mod manifest;

pub use deny_base::{Purpose, Unread, unread_order};
pub use manifest::read_manifest;
