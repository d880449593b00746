//! An index of the names that the entries of a policy give: the numbers of the entries with the name of a crate.
//!
//! To find the numbers of a name:
//!
//! ```rust
//! pub fn numbers_of(alloc: Global, names: &[&str], name: &str) -> Result<Vec<usize>, NoMemory> {
//!     let mut index = SpecIndex::new(alloc);
//!     for entry in names {
//!         index.add(entry)?;
//!     }
//!     let mut numbers = Vec::new(alloc);
//!     index.numbers_of(name, &mut numbers)?;
//!     Ok(numbers)
//! }
//! ```
//!
//! # Choices
//!
//! Names are found by a hash first, which compares no names, and then by a binary search among those of that hash, so
//! that few names are compared whatever the hashes are, and adding a name moves only names of its hash. The hash is a
//! definition, since equal names must have equal hashes; only the time that adding takes depends on different names
//! having different hashes.
//!
//! `numbers_of` is `find` without a counter. Without memory for all numbers the list holds the first of them.
#![tactic(auto)]

mod bucket;
mod hash;
mod spec_index;

pub use spec_index::SpecIndex;
