//! Trees of graphs, as text.
use crate::graphs::{B_NEEDS_A, FEATURES};
use crate::krates::built;
use deny_base::{GraphNode, Kid};
use deny_base_lists::{NoMemory, Text};
use deny_krates::Krates;
use deny_krates_trees::{GraphEnd, InclusionGrapher, write_graph_as_text};
use std::alloc::Global;

fn node(alloc: Global, id: &str, feature: Option<&str>) -> Result<GraphNode, NoMemory> {
    let feature = match feature {
        Some(feature) => Some(Text::from_str(alloc, feature)?),
        None => None,
    };
    Ok(GraphNode {
        kid: Kid(Text::from_str(alloc, id)?),
        feature,
    })
}

/// The tree of a node as text; without one the text says so.
fn tree_text(
    alloc: Global,
    krates: &Krates,
    node: &GraphNode,
    depth: usize,
) -> Result<Text, NoMemory> {
    match InclusionGrapher::new(krates).build_graph(alloc, node, depth) {
        Ok(tree) => write_graph_as_text(alloc, &tree),
        Err(GraphEnd::NoNode) => Text::from_str(alloc, "no node"),
        Err(GraphEnd::Memory) => Err(NoMemory),
    }
}

/// Whether a node of this graph has this tree.
fn has_tree(alloc: Global, graph: &str, node: &GraphNode, depth: usize, wanted: &str) -> bool {
    match built(alloc, graph) {
        Ok(krates) => {
            matches!(tree_text(alloc, &krates, node, depth), Ok(text) if text.as_str() == wanted)
        }
        Err(_) => false,
    }
}

#[test]
fn the_tree_of_a_crate_is_written(rt: HostRuntime) -> Result<(), NoMemory> {
    let a = node(rt.alloc(), "a", None)?;
    assert!(rt; has_tree(rt.alloc(), B_NEEDS_A, &a, 0, "a v1.0.0\n└── b v0.1.0\n"));
    Ok(())
}

const OF_STD: &str =
    "x v1.0.0\n└── x feature 'std' \n    └── x feature 'default' \n        └── app v0.1.0\n";

#[test]
fn the_tree_of_a_feature_is_written(rt: HostRuntime) -> Result<(), NoMemory> {
    let std = node(rt.alloc(), "x", Some("std"))?;
    assert!(rt; has_tree(rt.alloc(), FEATURES, &std, 9, OF_STD));
    Ok(())
}

/// A feature that no crate has, and a crate that is not there.
#[test]
fn without_a_node_there_is_no_tree(rt: HostRuntime) -> Result<(), NoMemory> {
    let more = node(rt.alloc(), "x", Some("more"))?;
    let b = node(rt.alloc(), "b", None)?;
    assert!(rt; has_tree(rt.alloc(), FEATURES, &more, 9, "no node"));
    assert!(rt; has_tree(rt.alloc(), FEATURES, &b, 9, "no node"));
    Ok(())
}
