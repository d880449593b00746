ghost use Rattle.std.specs.Prelude.{◌≡◌, ◌<◌, ℕ, List, IfOk, OnOk, All, Contains};
ghost use Rattle.std.specs.Prelude.{[], fold, replicate, length, map, slice_index_or};
ghost use Rattle.std.specs.Cmp.{IsTotalOrder};
ghost use Rattle.std.specs.FinMap.{IsAntisymmetric};
ghost use Rattle.deny_base_lists.specs.Ascending.{Lists};
ghost use Rattle.deny_krates_graph.specs.private.Direct.{incoming_of, incoming_cmp, with_dependent, with_incoming};
ghost use Rattle.deny_krates_graph.specs.private.Direct.{is_last, reversed, AreDependencies, AreDependents, AreRanks};
ghost use Rattle.deny_krates_graph.specs.declared.direct.IncomingEdge.{IncomingEdge};

use crate::krate::{DirectDependent, Krate};
use deny_base::{DepKind, Edge, edge_order};
use deny_base_lists::{List, NoMemory, put_in_order};
use std::alloc::Global;

/// For each crate the crates with an edge to it, in order of their ids, each with the least kind.
pub fn dependents_of(
    alloc: Global,
    krates: &[Krate],
    ranks: &[u32],
    edges: &[Edge],
) -> Result<List<List<DirectDependent>>, NoMemory>
    requires ranks { AreRanks krates.now ranks.now }
    requires parents { All (λ e. e.parent < length krates.now) edges.now }
    requires children { All (λ e. e.child < length krates.now) edges.now }
    ensures { IfOk result (AreDependents krates.now edges.now) }
{
    let incoming = incoming_edges(alloc, ranks, edges)?;
    direct_of(alloc, incoming.as_slice(), krates.len())
}

/// For each crate the crates that an edge from it leads to, in order of their ids, each with the least kind.
pub fn dependencies_of(
    alloc: Global,
    krates: &[Krate],
    ranks: &[u32],
    edges: &[Edge],
) -> Result<List<List<DirectDependent>>, NoMemory>
    requires ranks { AreRanks krates.now ranks.now }
    requires parents { All (λ e. e.parent < length krates.now) edges.now }
    requires children { All (λ e. e.child < length krates.now) edges.now }
    ensures { IfOk result (AreDependencies krates.now edges.now) }
{
    let others = reversed_edges(alloc, edges)?;
    dependents_of(alloc, krates, ranks, others.as_slice())
}

// The edges, each with its ends exchanged.
fn reversed_edges(alloc: Global, edges: &[Edge]) -> Result<List<Edge>, NoMemory>
    ensures { IfOk result (λ others. others ≡ map reversed edges.now) }
{
    let mut others = List::new(alloc);
    for edge in edges {
        others.push(Edge {
            parent: edge.child,
            child: edge.parent,
            kind: edge.kind,
        })?;
    }
    Ok(others)
}

// An edge that is ordered by its child, with the rank of its parent.
#[derive(PartialEq, Eq, PartialOrd, Ord, Drop)]
struct IncomingEdge {
    child: u32,
    rank: u32,
    kind: DepKind,
    parent: u32,
}

// The edges in order of their child, the rank of their parent, and their kind.
fn incoming_edges(
    alloc: Global,
    ranks: &[u32],
    edges: &[Edge],
) -> Result<List<IncomingEdge>, NoMemory>
    requires { All (λ e. e.parent < length ranks.now) edges.now }
    ensures { IfOk result (λ incoming.
        Lists incoming_cmp (Contains (map (incoming_of ranks.now) edges.now)) incoming) }
{
    let mut incoming = gather_incoming(alloc, ranks, edges)?;
    incoming_order();
    put_in_order(&mut incoming)?;
    Ok(incoming)
}

fn gather_incoming(
    alloc: Global,
    ranks: &[u32],
    edges: &[Edge],
) -> Result<List<IncomingEdge>, NoMemory>
    requires { All (λ e. e.parent < length ranks.now) edges.now }
    ensures { IfOk result (λ incoming. incoming ≡ map (incoming_of ranks.now) edges.now) }
{
    let mut incoming = List::new(alloc);
    for edge in edges {
        incoming.push(IncomingEdge {
            child: edge.child,
            rank: ranks[edge.parent as usize],
            kind: edge.kind,
            parent: edge.parent,
        })?;
    }
    Ok(incoming)
}

// The order of incoming edges is by child, rank, kind and parent, it is total, and only equal edges tie.
fn incoming_order()
    ensures fields { (a b : IncomingEdge) → ⟦<IncomingEdge as Ord>⟧.cmp a b ≡ incoming_cmp a b }
    ensures total { IsTotalOrder incoming_cmp }
    ensures equal { IsAntisymmetric incoming_cmp }
{
    edge_order();
}

// For each crate its direct dependents, given the incoming edges in their order.
fn direct_of(
    alloc: Global,
    incoming: &[IncomingEdge],
    crates: usize,
) -> Result<List<List<DirectDependent>>, NoMemory>
    requires { All (λ a. a.child < crates) incoming.now }
    ensures long { IfOk result (λ direct. length direct ≡ crates) }
    ensures rows { IfOk result (λ direct. (child : ℕ) → child < crates
        → slice_index_or direct child [] ≡ fold (with_incoming child) [] incoming.now) }
{
    let mut direct = empty_rows(alloc, crates)?;
    for edge in incoming {
        let row = &mut direct[edge.child as usize];
        add(
            row,
            DirectDependent {
                place: edge.parent,
                kind: edge.kind,
            },
        )?;
    }
    Ok(List::from_vec(direct))
}

fn empty_rows(alloc: Global, crates: usize) -> Result<Vec<List<DirectDependent>>, NoMemory>
    ensures { IfOk result (λ rows. rows.items ≡ replicate crates []) }
{
    let mut rows = Vec::new(alloc);
    'rows: while rows.as_slice().len() < crates {
        rows.push(List::new(alloc))?;
    }
    Ok(rows)
}

// Appends a dependent, unless it is the last already.
fn add(row: &mut List<DirectDependent>, direct: DirectDependent) -> Result<(), NoMemory>
    ensures { OnOk result (row.new ≡ with_dependent row.old direct) }
{
    if ends_with(row.as_slice(), direct.place) {
        return Ok(());
    }
    row.push(direct)
}

fn ends_with(row: &[DirectDependent], place: u32) -> bool
    ensures { result ≡ is_last row.now place }
{
    match row.last() {
        Some(last) => last.place == place,
        None => false,
    }
}
