//! What is seen of the packages of a graph: scripts, folders and files are read as the build check
//! asks, each once, and what cannot be read has an entry with its cause.
//!
//! # Choices
//!
//! A package is scanned once, and what was seen of it is kept: its build script where one is asked for, the folders
//! that were not listed, and each file by its path with what decides of it. Rules, hits and diagnostics read that, and
//! no disk.
//!
//! No path is taken apart where a bypass allows no file, and globs are not asked where there are none.
//!
//! Paths of a package begin alike, so the order by components skips what two of them share 16 bytes at a time, and
//! compares single bytes from there on.
//!
//! A member's manifest is read twice where its package is scanned, for its own sake and as a file, and each read may
//! fail for itself.
#![tactic(auto)]

mod decide;
mod entry;
mod file;
mod files;
mod fitting;
mod folders;
mod laws;
mod order;
mod package;
mod packages;
mod paths;
mod read;
mod script;

pub use laws::one_sight;
pub use package::see_package;
pub use packages::see_packages;
