//! The rules on build scripts and on the files of packages, by what was seen of packages: the keys
//! that hold, and the hits of the entries that let something pass. The checks of one file, and which
//! crates lead to one that executes at build time, are handed on from the crates below.
//!
//! # Choices
//!
//! Findings of files are in the order of their codes, entries, and paths as they are shown, byte by byte; the first
//! file that hits a path or a glob is that by components, `a/b` before `a-b`.
//!
//! A crate is judged alone by the functions that judge all: the context names the crate, its graph is read as if that
//! were its only crate, and its packages begin at the place of the crate. So keys and hits of one crate need no rule of
//! their own, and keep their places.
#![tactic(auto)]

mod build_keys;
mod ctx;
mod file_keys;
mod files;
mod glob_texts;
mod hits;
mod keys;
mod krate_check;
mod laws;
mod matched;
mod scanned_krate;
mod scanning;
mod script_keys;
mod unmatched;
mod users;

pub use build_keys::add_build_keys;
pub use ctx::BuildCtx;
pub use deny_build_file::{
    CheckEnd, ExecutableKind, NativeKind, check_is_executable, checksum_file, home_path,
    validate_checksum,
};
pub use deny_krates_reach::build_reach;
pub use hits::bypass_hits;
pub use krate_check::{BuildNotes, check_build};
pub use laws::{joined_checks, joined_keys};
