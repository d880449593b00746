//! Large valid inputs, generated for a number of crates: a policy, the metadata of its graph, and a disk.
//!
//! # Choices
//!
//! The texts are definitions, so `generate N` is a run over texts that are known; that they are short is a law, and no
//! test at run time. The metadata has no `dep_kinds`, which means one normal kind.
#![tactic(auto)]

mod disk;
mod made;
mod metadata;
mod policy;

pub use disk::disk_of;
pub use metadata::metadata_of;
pub use policy::policy_of;
