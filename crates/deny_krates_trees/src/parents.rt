//! The nodes above a node of a tree.
ghost use Rattle.std.specs.Prelude.{◌≡◌, ◌<◌, IfOk, All, None, length, map};
ghost use Rattle.deny_krates.specs.Nodes.{incoming_at, node_at, nodes_of};
ghost use Rattle.deny_krates_trees.specs.Parents.{dependents_in, is_below, parents_in};
ghost use Rattle.deny_krates_trees.specs.private.Growing.{IsInside};

use deny_base_lists::{List, NoMemory};
use deny_krates::{InEdge, Krates, NodeId};
use std::alloc::Global;

/// The nodes above a node of this depth: where features are shown, the sources of the edges that end at it, and
/// else the direct dependents of its crate.
pub fn parents_of(
    alloc: Global,
    krates: &Krates,
    most: Option<usize>,
    depth: usize,
    node: NodeId,
) -> Result<List<InEdge>, NoMemory>
    requires { node.0 < length (nodes_of krates.now) }
    ensures parents { IfOk result (λ edges. map (incoming_at krates.now) edges
        ≡ parents_in krates.now most depth (node_at krates.now node.0)) }
    ensures inside { IfOk result (All (IsInside krates.now)) }
{
    if is_below(most, depth) {
        krates.incoming(alloc, node)
    } else {
        dependents_of(alloc, krates, krates.node_place(node))
    }
}

fn is_below(most: Option<usize>, depth: usize) -> bool
    ensures { result ≡ is_below most depth }
{
    match most {
        Some(most) => depth < most,
        None => true,
    }
}

// The direct dependents of a crate, as edges that end at its node.
fn dependents_of(alloc: Global, krates: &Krates, place: u32) -> Result<List<InEdge>, NoMemory>
    requires { place < length krates.now.crates }
    ensures parents { IfOk result (λ edges. map (incoming_at krates.now) edges
        ≡ dependents_in krates.now (record { place = place; feature = None })) }
    ensures inside { IfOk result (All (IsInside krates.now)) }
{
    let _candidates = krates.krates();
    let mut edges = List::new(alloc);
    for dependent in krates.direct_dependents(place) {
        edges.push(InEdge {
            node: NodeId(dependent.place),
            kind: Some(dependent.kind),
        })?;
    }
    Ok(edges)
}
