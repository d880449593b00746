//! The crates of a workspace's metadata, in order, the dependencies between them, and an index of their
//! ids.
//!
//! # Choices
//!
//! Crates are ordered by the text of their version, and clauses see a version by its parts: these agree, since a
//! version that was read is printed again as it was written.
//!
//! Dependencies of a crate are the dependents in the graph whose edges are reversed: one law serves both. Neighbours
//! are sorted by the ranks of their ids, which are found once, so no id is copied or compared for an edge.
//!
//! The value of the JSON is dropped before the graph is made, and packages are moved into it: no two crates have one
//! package, so a package is taken out of its place, and one without texts is left there.
//!
//! A target edge has a kind and a target, and the graph keeps both its target edges and its edges, which have no
//! target: a declaration resolves by the first, chains and dependents follow the second. `IsOrderly` says that the
//! second are the first without targets. The type of a target edge is in `deny_spec`, since the graph holds it and no
//! lower crate needs it.
//!
//! A dependency of a node for a target that is written twice counts once, as an edge does.
//!
//! 2^28 packages or nodes, which no text of fewer bytes holds, would be answered as out of memory: two lengths are
//! tested instead of a proof that the text is too short for so many. So are a lock text of 2^29 bytes, and 2^32 nodes
//! (crates with their enabled features), by sums that subtract what each crate needs from what is left.
//!
//! The folder of a path without `/`, which is never in metadata without fault, is `/`.
#![tactic(auto)]

mod bounds;
mod crates;
mod direct;
mod filtered;
mod graph;
mod ids;
mod krate;
mod reach;
mod read;

pub use filtered::reached_without;
pub use ids::{IdEntry, place_of};
pub use krate::{Dependency, DirectDependent, Krate};
pub use read::{CrateGraph, graph_at};
