//! The dependency graph of a workspace, read from what `cargo metadata` prints.
//!
//! # Choices
//!
//! Contracts see `Krates` as the graph of `deny_spec`; a version by its parts, a requirement by its comparators, an
//! address by its text as `url` writes it, features as a finite map (`Krate::features` is a `TextMap`, a small type
//! over std's map, since clauses compare it with a finite map); the other fields of a crate by its record. So the graph
//! of the definitions needs no type of another crate.
//!
//! `deny_krates_metadata` reads the text, `deny_krates_sources` what the texts and ids in it say, `deny_krates_graph`
//! the crates of it with their edges and neighbours, and this crate keeps those as the graph. Crates above name it
//! alone: it hands on the items and the definitions that its clauses cite.
//!
//! The target of a declaration and that of a resolved dependency are compared as texts, and two of the same meaning are
//! two. A declaration without target resolves by target edges without target alone.
//!
//! The two ways along edges, `Dependencies` and `Dependents`, are what a search of `deny_base_lists` walks; its clauses
//! speak of steps. Distances are one search along the edges or against them, and their clauses speak of chains of edges.
//!
//! A crate's number among the nodes is its place; features follow, crate by crate. So the node of a crate needs no
//! look-up, and one list of first numbers finds the crate of a feature.
//!
//! `incoming` lists distinct pairs of source and kind: two declarations of one kind are one source, a normal and a dev
//! one are two. That is a function that puts them in order and drops repeats.
//!
//! Where no feature that a declaration asks for is enabled, the parent leads to the crate: this is taken for each
//! declaration, so of two of one kind one can lead to a feature and the other to the crate.
//!
//! An entry `n/f` has the kind of the declaration also where it leads to a feature of the same crate. A declaration
//! whose rename ends in `?` is named by `n?/f` in both ways.
//!
//! What the graph keeps for `incoming` is one ascending list of resolved declarations, by child, parent and number, in
//! which a binary search finds them; features that lead by `n/f` are looked for among those of the direct dependents
//! alone.
#![tactic(auto)]

mod distances;
mod incoming;
mod krates;
mod leads;
mod names;
mod neighbours;
mod nodes;
mod numbers;
mod resolution;
mod resolved;
mod shown;

pub use deny_base::DepKind;
pub use deny_krates_graph::{Dependency, DirectDependent, Krate};
pub use deny_krates_metadata::{MetadataFault, Target};
pub use deny_krates_sources::{GitSpec, Source, address_in, source_in};
pub use distances::{dependent_distances, distances_from};
pub use krates::Krates;
pub use neighbours::{Dependencies, Dependents};
pub use nodes::{InEdge, NodeId};
pub use shown::{kid_at, krate_at, krate_text};
