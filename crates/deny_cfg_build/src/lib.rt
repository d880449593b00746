//! The table `build` of a policy, as the rules take it: with the globs that are read from its texts, and the built-in
//! globs in a file of their own.
//!
//! # Choices
//!
//! `allow-build-scripts` in `bans` is read as a table `build` where there is none, and is deprecated there; beside a
//! table it is read for faults, and has no effect.
//!
//! Texts that are no globs are left out of a set, so that what a table `build` says is defined also where something in
//! it is wrong.
//!
//! A table and its entries keep that the characters of their globs are those of the texts of their patterns
//! (`AreWritten`). With what a set of globs says of itself (`GlobSet::are_read`), whoever matches paths by a table knows
//! which texts match, and asks nothing of its caller.
#![tactic(auto)]

mod build;
mod builtin;
mod fitting;
mod gathered;
mod glob_set;
mod pattern;
mod valid;
mod view;
mod wrong;

pub use build::{build_by, older_key_by, valid_build};
pub use glob_set::ValidGlobSet;
pub use pattern::GlobPattern;
pub use valid::{ValidBuildConfig, ValidBypass};
pub use view::globs_file;
pub use wrong::{BuildFault, wrong_in};
