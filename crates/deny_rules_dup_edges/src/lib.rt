//! The edges of duplicates: those that lead to their crates.
//!
//! # Choices
//!
//! One list of distances serves all duplicates, and each search resets what it set, so that a duplicate costs its own
//! crates and edges, not the graph's.
//!
//! A duplicate without crates, which cannot hold, would show no simplest set.
#![tactic(auto)]

mod above;
mod dup_edges;

pub use dup_edges::{DupEdge, DupEdges, DupSet, dup_edges_of};
