//! The trees that findings show of a graph: the nodes that lead to a crate, or to one of its features.
//!
//! # Choices
//!
//! A tree is a function of the graph, grown depth first with the list of the nodes that were met, so many levels high
//! as there are nodes and one more; worked cases compute it. A repeat is marked also where it would have no parents.
//! The heading of a feature is no node that was met.
//!
//! Building a tree, writing its text and its JSON, and dropping it use work lists and no recursion: a tree may be as
//! deep as the graph. A tree of the library is nested values, whose drop nests as deep, so the program takes its trees
//! apart before they are dropped (`drop_trees`).
#![tactic(auto)]

mod build;
mod dropping;
mod graphs;
mod laws;
mod node;
mod parents;
mod shown;
mod text;

/// Trees of the graph, by cargo-deny's names.
pub mod grapher {
    pub use crate::node::{GraphNode, NodeInner};
}

pub use dropping::drop_trees;
pub use graphs::{GraphEnd, InclusionGrapher, graphs_of};
pub use laws::levels_are_enough;
pub use text::write_graph_as_text;
