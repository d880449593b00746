//! The tree of a node, grown depth first.
ghost use Rattle.std.specs.Prelude.{◌≡◌, ◌≢◌, ◌<◌, ◌≤◌, ◌++◌, ◌∷◌, [], AllPairs, IfOk};
ghost use Rattle.std.specs.Prelude.{MatchOption, OnOk, Option, ℕ, length, true, vec_capacity, vec_len};
ghost use Rattle.deny_spec.specs.Graph.{Graph};
ghost use Rattle.deny_krates.specs.Nodes.{incoming_at, node_at, nodes_of};
ghost use Rattle.deny_krates_trees.specs.Tree.{inner_of, node_with, tree_of};
ghost use Rattle.deny_krates_trees.specs.private.Growing.{Advances, AreOpen, GrowToTree, IsInside, IsOpened};

use crate::dropping::{drop_trees, push_tree};
use crate::node::{GraphNode, NodeInner};
use crate::parents::parents_of;
use crate::shown::inner_of;
use deny_base_lists::{List, NoMemory};
use deny_krates::{InEdge, Krates, NodeId};
use std::alloc::Global;
use std::collections::BTreeSet;

// A node whose parents are grown in their order: `next` is the index of the next one.
#[derive(Drop)]
struct Open {
    inner: NodeInner,
    parents: List<InEdge>,
    next: usize,
    grown: List<GraphNode>,
}

// A tree that is partly grown: the open nodes, the root first, each a parent of the one before it; and the
// numbers of the nodes that were met.
#[derive(Drop)]
struct Growth {
    nodes: Vec<Open>,
    met: BTreeSet<u32>,
}

/// The tree of a node. Features are shown above the nodes of lesser depths than `most`, and above all nodes
/// where it is none.
pub fn tree_of(
    alloc: Global,
    krates: &Krates,
    most: Option<usize>,
    node: NodeId,
) -> Result<GraphNode, NoMemory>
    requires inside { node.0 < length (nodes_of krates.now) }
    requires own { AllPairs (λ a b. a ≢ b) (nodes_of krates.now) }
    ensures { IfOk result (λ tree. tree ≡ tree_of krates.now most (node_at krates.now node.0)) }
{
    let root = InEdge { node, kind: None };
    let mut growth = Growth {
        nodes: Vec::new(alloc),
        met: BTreeSet::new(alloc),
    };
    growth.met.insert(node.0)?;
    growth.nodes.push(open_at(alloc, krates, most, 0, root)?)?;
    let tree = grow(alloc, krates, most, &mut growth);
    if tree.is_err() {
        drop_open(growth.nodes);
    }
    tree
}

// Grows the open nodes until the tree is whole.
fn grow(
    alloc: Global,
    krates: &Krates,
    most: Option<usize>,
    growth: &mut Growth,
) -> Result<GraphNode, NoMemory>
    requires own { AllPairs (λ a b. a ≢ b) (nodes_of krates.now) }
    requires nodes { AreOpen krates.now growth.old.met.keys growth.old.nodes.items }
    requires some { 0 < vec_len growth.old.nodes }
    ensures { IfOk result (GrowToTree krates.now most growth.old.met.keys growth.old.nodes.items) }
{
    while let Some(top) = growth.nodes.pop() {
        if top.next < top.parents.len() {
            meet_next(alloc, krates, most, growth, top)?;
        } else if let Some(tree) = close(growth, top)? {
            return Ok(tree);
        }
    }
    unreachable!()
}

// Meets the next parent of an open node, and puts the node back: a parent that was met before becomes a
// repeat, another one is opened.
fn meet_next(
    alloc: Global,
    krates: &Krates,
    most: Option<usize>,
    growth: &mut Growth,
    top: Open,
) -> Result<(), NoMemory>
    requires own { AllPairs (λ a b. a ≢ b) (nodes_of krates.now) }
    requires nodes { AreOpen krates.now growth.old.met.keys (growth.old.nodes.items ++ top ∷ []) }
    requires room { vec_len growth.old.nodes < vec_capacity growth.old.nodes }
    requires more { top.next < length top.parents }
    ensures { OnOk result (Advances krates.now most growth.old.met.keys (growth.old.nodes.items ++ top ∷ [])
        growth.new.met.keys growth.new.nodes.items) }
{
    let mut top = top;
    let edge = top.parents.as_slice()[top.next];
    top.next += 1;
    let depth = growth.nodes.len() + 1;
    let Ok(is_new) = growth.met.insert(edge.node.0) else {
        growth.nodes.push_reserved(top);
        return Err(NoMemory);
    };
    if is_new {
        growth.nodes.push_reserved(top);
        let above = open_at(alloc, krates, most, depth, edge)?;
        growth.nodes.push(above)?;
        Ok(())
    } else {
        let repeat = add_repeat(alloc, krates, edge, &mut top.grown);
        growth.nodes.push_reserved(top);
        repeat
    }
}

// Opens the node that an edge comes from, at this depth, with all its parents still to be grown.
fn open_at(
    alloc: Global,
    krates: &Krates,
    most: Option<usize>,
    depth: usize,
    edge: InEdge,
) -> Result<Open, NoMemory>
    requires { IsInside krates.now edge }
    ensures { IfOk result (IsOpened krates.now most depth edge) }
{
    let inner = inner_of(alloc, krates, edge)?;
    let parents = parents_of(alloc, krates, most, depth, edge.node)?;
    let _short = parents.len();
    Ok(Open {
        inner,
        parents,
        next: 0,
        grown: List::new(alloc),
    })
}

// Appends a repeat of the node that an edge comes from to other trees.
fn add_repeat(
    alloc: Global,
    krates: &Krates,
    edge: InEdge,
    grown: &mut List<GraphNode>,
) -> Result<(), NoMemory>
    requires { IsInside krates.now edge }
    ensures { OnOk result (grown.new
        ≡ grown.old ++ node_with (inner_of krates.now (incoming_at krates.now edge)) true [] ∷ []) }
{
    grown.push(GraphNode {
        inner: inner_of(alloc, krates, edge)?,
        repeat: true,
        parents: List::new(alloc),
    })
}

// Closes an open node, all of whose parents are grown. Its tree is one of those of the node before it, or it is
// the whole tree, which is the result.
fn close(growth: &mut Growth, top: Open) -> Result<Option<GraphNode>, NoMemory>
    requires { length top.parents ≤ top.next }
    ensures { IfOk result (λ whole. MatchOption whole
        ((g : Graph) (most : Option ℕ) → AreOpen g growth.old.met.keys (growth.old.nodes.items ++ top ∷ [])
        → Advances g most growth.old.met.keys (growth.old.nodes.items ++ top ∷ [])
        growth.new.met.keys growth.new.nodes.items)
        (λ tree. (g : Graph) (most : Option ℕ)
        → GrowToTree g most growth.old.met.keys (growth.old.nodes.items ++ top ∷ []) tree)) }
{
    let tree = GraphNode {
        inner: top.inner,
        repeat: false,
        parents: top.grown,
    };
    let Some(mut below) = growth.nodes.pop() else {
        return Ok(Some(tree));
    };
    let kept = push_tree(&mut below.grown, tree);
    growth.nodes.push_reserved(below);
    kept?;
    Ok(None)
}

// Drops open nodes with the trees that they have grown.
fn drop_open(nodes: Vec<Open>) {
    for node in nodes {
        drop_trees(node.grown);
    }
}
