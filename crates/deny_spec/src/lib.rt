//! The definitions that contracts cite: what a graph, a policy, a package and a key are, which keys each rule gives,
//! and the parts of diagnostics. Contracts cite them, and no definition follows the code that meets it. Functions with
//! empty bodies carry laws of the definitions; the others make keys and labels.
//!
//! # Choices
//!
//! The wrapper of a dependent is the first of the dependent's name in the entry. An empty list of wrappers is no list.
//!
//! The ban of a crate without direct dependents is waived by any wrappers. An edge from a crate to itself makes it its
//! own dependent.
//!
//! A group is reduced by the dependents of its crates in the graph, not in the group, so that reducing it again would
//! change nothing. Edges of every kind count for whether all direct dependents of a crate have its name.
//!
//! Bans, the allow list, and whether a skipped tree is hit or unmatched, go over all crates of the graph; skips,
//! skipped trees and groups over those that count.
//!
//! An entry is found again by its span, which identifies it; labels and levels follow from the key alone. Of two
//! entries with the same span the first would count, but a policy that was read has none.
//!
//! Each wrapper has at most one hit, by the first dependent that it wraps.
//!
//! An exempt member that an entry of the allow list matches is reported as allowed; only `not-allowed` is not reported
//! of it.
//!
//! An entry of `skip-tree` has a number in the policy, as a crate has its place in the graph, so that facts can be kept
//! as marks.
#![tactic(auto)]

mod keys;
mod labels;
mod laws;
mod package;
mod target_edge;

pub use keys::{crate_key, key_of, no_span, unused_key};
pub use labels::{primary, secondary};
pub use laws::one_group;
pub use package::{ExecutableKind, Failure, Found, NativeKind, Package, PackageFile, Seen};
pub use target_edge::{TargetEdge, target_edge_order};
