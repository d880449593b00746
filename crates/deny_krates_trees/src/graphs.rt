//! The trees that a finding shows.
ghost use Rattle.std.specs.Prelude.{◌≡◌, ◌≢◌, ◌<◌, ◌++◌, AllPairs, IfOk, OnOk};
ghost use Rattle.std.specs.Prelude.{Some, filter_map, length, ok_or, option_copied};
ghost use Rattle.std.specs.Option.{option_to_list};
ghost use Rattle.deny_base_lists.specs.Reader.{Answers};
ghost use Rattle.deny_krates.specs.Nodes.{node_at, nodes_of};
ghost use Rattle.deny_krates_trees.specs.Once.{ShowsOnce};
ghost use Rattle.deny_krates_trees.specs.Shown.{crate_shown, depth_shown, graphs_shown};
ghost use Rattle.deny_krates_trees.specs.Tree.{graph_of, headed_tree};

use crate::build::tree_of;
use crate::dropping::{drop_trees, push_tree};
use crate::node::GraphNode;
use crate::shown::krate_inner;
use deny_base::{Diag, Kid};
use deny_base_lists::{List, NoMemory};
use deny_krates::{Krates, NodeId};
use std::alloc::Global;
use thiserror::Error;

/// Why there is no tree.
#[derive(Debug, Clone, Copy, Error)]
pub enum GraphEnd {
    #[error("the graph has no such crate, or the feature is not enabled")]
    NoNode,
    #[error("memory ran out")]
    Memory,
}

/// Builds trees of a graph.
#[derive(Drop)]
pub struct InclusionGrapher<'a> {
    pub krates: &'a Krates,
}

impl<'a> InclusionGrapher<'a> {
    /// A grapher of this graph.
    pub fn new(krates: &'a Krates) -> InclusionGrapher<'a>
        ensures { result.krates.now ≡ krates.now }
    {
        InclusionGrapher { krates }
    }

    /// The tree of a crate, or of an enabled feature of one: the nodes that lead to it, depth first. A node
    /// that was met before is marked as a repeat. Above a node at a depth below `max_feature_depth` features
    /// are shown, and above others crates alone; the root has depth 0. `NoNode` comes exactly where the
    /// graph has no such node, and `Memory` where an allocation fails.
    pub fn build_graph(
        &self,
        alloc: Global,
        id: &deny_base::GraphNode,
        max_feature_depth: usize,
    ) -> Result<GraphNode, GraphEnd>
        ensures tree { Answers GraphEnd.Memory
            (ok_or (graph_of self.now.krates.now (Some max_feature_depth) id.now) GraphEnd.NoNode) result }
        ensures once { IfOk result (ShowsOnce self.now.krates.now id.now.feature) }
    {
        match graph_of(alloc, self.krates, Some(max_feature_depth), id) {
            Ok(Some(tree)) => Ok(tree),
            Ok(None) => Err(GraphEnd::NoNode),
            Err(NoMemory) => Err(GraphEnd::Memory),
        }
    }
}

/// The trees that are shown with a finding about this crate, or about no single one: those of the nodes that
/// the finding names, or else that of its crate, but none for a finding about a file of a package. A node that
/// the graph does not have has no tree.
pub fn graphs_of(
    alloc: Global,
    grapher: &InclusionGrapher<'_>,
    kid: Option<&Kid>,
    diag: &Diag,
) -> Result<List<GraphNode>, NoMemory>
    ensures { IfOk result (λ trees. trees ≡ graphs_shown grapher.now.krates.now (option_copied kid.entry) diag.now) }
{
    let most = depth_shown(diag.with_features);
    if !diag.graph_nodes.as_slice().is_empty() {
        return trees_of(alloc, grapher.krates, most, diag.graph_nodes.as_slice());
    }
    let shown = crate_shown(alloc, diag.key.code.is_of_path(), kid)?;
    trees_of(alloc, grapher.krates, most, shown.as_slice())
}

// The bound of depths below which features are shown: none, or 0.
fn depth_shown(with_features: bool) -> Option<usize>
    ensures { result ≡ depth_shown with_features }
{
    if with_features { None } else { Some(0) }
}

// A tree for each of these nodes that the graph has.
fn trees_of(
    alloc: Global,
    krates: &Krates,
    most: Option<usize>,
    shown: &[deny_base::GraphNode],
) -> Result<List<GraphNode>, NoMemory>
    ensures { IfOk result (λ trees. trees ≡ filter_map (graph_of krates.now most) shown.now) }
{
    let mut trees = List::new(alloc);
    match add_trees(alloc, krates, most, shown, &mut trees) {
        Ok(()) => Ok(trees),
        Err(NoMemory) => {
            drop_trees(trees);
            Err(NoMemory)
        },
    }
}

fn add_trees(
    alloc: Global,
    krates: &Krates,
    most: Option<usize>,
    shown: &[deny_base::GraphNode],
    trees: &mut List<GraphNode>,
) -> Result<(), NoMemory>
    ensures { OnOk result (trees.new ≡ trees.old ++ filter_map (graph_of krates.now most) shown.now) }
{
    for node in shown {
        let tree = graph_of(alloc, krates, most, node)?;
        push_shown(trees, tree)?;
    }
    Ok(())
}

fn push_shown(trees: &mut List<GraphNode>, tree: Option<GraphNode>) -> Result<(), NoMemory>
    ensures { OnOk result (trees.new ≡ trees.old ++ option_to_list tree) }
{
    match tree {
        Some(tree) => push_tree(trees, tree),
        None => Ok(()),
    }
}

// The tree that is shown of a node, if the graph has it.
fn graph_of(
    alloc: Global,
    krates: &Krates,
    most: Option<usize>,
    shown: &deny_base::GraphNode,
) -> Result<Option<GraphNode>, NoMemory>
    ensures { IfOk result (λ tree. tree ≡ graph_of krates.now most shown.now) }
{
    match krates.get_node(&shown.kid, feature_of(shown)) {
        Some(node) => Ok(Some(headed_tree(alloc, krates, most, node)?)),
        None => Ok(None),
    }
}

fn feature_of(shown: &deny_base::GraphNode) -> Option<&str>
    ensures { option_copied result ≡ shown.now.feature }
{
    match &shown.feature {
        Some(feature) => Some(feature.as_str()),
        None => None,
    }
}

// The tree of a node; that of a feature is put under its crate, as under a heading.
fn headed_tree(
    alloc: Global,
    krates: &Krates,
    most: Option<usize>,
    node: NodeId,
) -> Result<GraphNode, NoMemory>
    requires inside { node.0 < length (nodes_of krates.now) }
    requires own { AllPairs (λ a b. a ≢ b) (nodes_of krates.now) }
    ensures { IfOk result (λ tree. tree ≡ headed_tree krates.now most (node_at krates.now node.0)) }
{
    if krates.node_feature(node).is_none() {
        return tree_of(alloc, krates, most, node);
    }
    let inner = krate_inner(alloc, krates, krates.node_place(node), None)?;
    let tree = tree_of(alloc, krates, most, node)?;
    let mut parents = List::new(alloc);
    push_tree(&mut parents, tree)?;
    Ok(GraphNode {
        inner,
        repeat: false,
        parents,
    })
}

// The crate of a finding, unless the finding is about a path.
fn crate_shown(
    alloc: Global,
    is_of_path: bool,
    kid: Option<&Kid>,
) -> Result<List<deny_base::GraphNode>, NoMemory>
    ensures { IfOk result (λ shown. shown ≡ crate_shown is_of_path (option_copied kid.entry)) }
{
    let mut shown = List::new(alloc);
    if let Some(kid) = kid
        && !is_of_path
    {
        shown.push(deny_base::GraphNode {
            kid: kid.clone()?,
            feature: None,
        })?;
    }
    Ok(shown)
}
