//! The walk through the folders of a package: its files, and the folders that could not be listed.
//!
//! # Choices
//!
//! A walk takes the least path that is pending. The path of a child is greater than its folder's, so the paths that are
//! met ascend: no folder is met twice, what was listed is one view, and entries come in order. So no set of met folders
//! is kept.
//!
//! The files of a walk are a set, by a relation on the lists of folders that were read; the list is *the* ascending
//! one. What a folder holds is moved to where it belongs among the files found so far, one place for all of it, so that
//! the list ascends as it grows; that it does is shown by putting it in order at the end, which then compares
//! neighbours alone. The relation of folders takes which names a folder has as an argument, so that a walk under way
//! and the view share it.
//!
//! A folder is taken only where it fits into what is left of 2^24 entries. So the count stays within the bound and the
//! walk ends; the bound that explains the entry is reached by the whole walk, not by that call alone.
//!
//! That a folder without room is past the bound is said of the walk itself (`IsPastBound`): the folders that were
//! listed before it, each once, and it. Of entries alone, where it is counted how many a failed call has to explain, a
//! bound is that of the whole package, since this test asks nothing but the disk; the failure that is kept of each such
//! folder says which of the two it was.
//!
//! `.git` is left out by its name right in the crate's folder, whether it is a folder or a file; deeper, and where the
//! crate did not come by git, it is walked as any other.
//!
//! Files are handed out by the paths at which they are read; what compares them with paths of the policy takes the
//! folder off.
#![tactic(auto)]

mod folder;
mod walk;

pub use folder::{NoList, list_folder};
pub use walk::{Unlisted, Walked, walk_package};
