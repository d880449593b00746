//! What the text of a crate's manifest says of its dependencies: which of its declarations are written
//! there, where, and with what. Nothing is read from a disk.
//!
//! # Choices
//!
//! How a declaration is written is a list of all sections, first those for all targets and then by the keys of targets
//! in byte order: where it is found is the first of these that agrees and has its key, so a key whose table lacks it
//! does not end the search.
//!
//! Whether two keys of targets agree is a relation of grammars; definitions take a test that decides it, and hold for
//! each such test, so that they compute. A law shows that there is one.
//!
//! `Manifest::parse` tests the TOML before it looks the crate up.
#![tactic(auto)]

mod declarations;
mod fault;
mod firsts;
mod found;
mod ignored;
mod manifest;
mod sections;
mod targets;

pub use declarations::ManifestDep;
pub use fault::ManifestFault;
pub use found::{below, rename_of, version_of, workspace_of};
pub use manifest::{Manifest, ManifestDeps};
