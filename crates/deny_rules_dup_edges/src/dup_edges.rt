//! The edges of duplicates: those that lead to their crates.
ghost use Rattle.std.specs.Prelude.{◌≡◌, ◌<◌, [], true, All, Contains, IfOk, OnOk, filter, length};
ghost use Rattle.std.specs.List.{AllZip};
ghost use Rattle.std.specs.Ordering.{nat_cmp};
ghost use Rattle.deny_base_lists.specs.Ascending.{Adds, Lists};
ghost use Rattle.deny_base.specs.Edge.{edge_cmp};
ghost use Rattle.deny_cfg.specs.PolicyView.{policy_view};
ghost use Rattle.deny_base_lists.specs.Walk.{AreUnset};
ghost use Rattle.deny_rules_dup_edges.specs.DupEdges.{AreEdgesOf, IsAboveOne, IsDupSetOf, IsSimplest};
ghost use Rattle.deny_rules_dup_edges.specs.DupEdges.{ShowsEach, Simplest, is_of_duplicate};
ghost use Rattle.deny_rules_dup_edges.specs.private.DupEdges.{edge_count};
ghost use Rattle.deny_rules_dup_edges.specs.private.EdgeLists.{IsBetween, IsGivenEdge, IsReachedNumber, IsTo, IsToOne};

use crate::above::{reach_above, unset_distances};
use deny_base::{Code, DepKind, DiagnosticCode, Edge, Key, edge_order};
use deny_base_lists::{List, NoMemory, Text, has_distance, put_in_order, take_back};
use deny_cfg::bans::cfg::ValidConfig;
use deny_krates::Krates;
use deny_rules_match::krate_name;
use std::alloc::Global;

/// An edge of the graph: a crate, one that it needs, and of which kind the need is.
pub type DupEdge = Edge;

/// The edges that lead to one crate of a duplicate, at any distance.
#[derive(Drop)]
pub struct DupSet {
    /// The crate's place.
    pub place: u32,
    /// The numbers of the edges: their indices in the duplicate's list.
    pub edges: List<u32>,
}

/// The edges of a duplicate, with a set for each of its crates.
#[derive(Drop)]
pub struct DupEdges {
    /// The name of its crates.
    pub name: Text,
    /// The edges that lead to one of its crates, at any distance, ascending by parent, child and kind.
    pub edges: List<DupEdge>,
    /// A set for each of its crates, in the order of their versions.
    pub sets: List<DupSet>,
    /// The number of the first set with the fewest edges, where the policy highlights it.
    pub simplest: Option<u32>,
    /// The number of the set of the lowest version, which is 0, where the policy highlights it.
    pub lowest: Option<u32>,
}

/// The edges of each duplicate among some keys, in their order.
pub fn dup_edges_of(
    alloc: Global,
    cfg: &ValidConfig,
    krates: &Krates,
    keys: &[Key],
) -> Result<List<DupEdges>, NoMemory>
    ensures { IfOk result (ShowsEach (policy_view cfg.now) krates.now (filter is_of_duplicate keys.now)) }
{
    let mut shown = List::new(alloc);
    let mut distances = unset_distances(alloc, krates)?;
    for key in keys {
        if is_of_duplicate(key) {
            shown.push(edges_of_duplicate(alloc, cfg, krates, key, &mut distances)?)?;
        }
    }
    Ok(shown)
}

#[tactic(auto, unfolding(crate::specs::DupEdges::is_of_duplicate))]
fn is_of_duplicate(key: &Key) -> bool
    ensures { result ≡ is_of_duplicate key.now }
{
    matches!(key.code, DiagnosticCode::Bans(Code::Duplicate))
}

// The edges of a duplicate. The distances are handed on from one duplicate to the next, since making them
// takes a step for each crate of the graph.
fn edges_of_duplicate(
    alloc: Global,
    cfg: &ValidConfig,
    krates: &Krates,
    key: &Key,
    distances: &mut List<Option<u32>>,
) -> Result<DupEdges, NoMemory>
    requires { AreUnset (length krates.now.crates) distances.old }
    ensures shown { IfOk result (AreEdgesOf (policy_view cfg.now) krates.now key.now) }
    ensures unset { OnOk result (AreUnset (length krates.now.crates) distances.new) }
{
    let places = key.places.as_slice();
    let edges = ancestor_edges(alloc, krates, places, distances)?;
    let sets = sets_of(alloc, krates, edges.as_slice(), places, distances)?;
    let simplest = if cfg.highlight.simplest() {
        simplest_of(sets.as_slice())?
    } else {
        None
    };
    let lowest = if cfg.highlight.lowest_version() {
        Some(0)
    } else {
        None
    };
    Ok(DupEdges {
        name: krate_name(alloc, krates, key.place)?,
        edges,
        sets,
        simplest,
        lowest,
    })
}

// The edges that lead to one of the crates, at any distance.
fn ancestor_edges(
    alloc: Global,
    krates: &Krates,
    places: &[u32],
    distances: &mut List<Option<u32>>,
) -> Result<List<Edge>, NoMemory>
    requires { AreUnset (length krates.now.crates) distances.old }
    ensures above { IfOk result (Lists edge_cmp (IsAboveOne krates.now places.now)) }
    ensures unset { OnOk result (AreUnset (length krates.now.crates) distances.new) }
{
    let _orderly = krates.krates();
    let reached = reach_above(alloc, krates, places, distances)?;
    let mut edges = direct_edges(alloc, krates, reached.as_slice())?;
    take_back(distances, reached.as_slice());
    edge_order();
    put_in_order(&mut edges)?;
    Ok(edges)
}

// The edges that lead to some crates, from their direct dependents.
fn direct_edges(alloc: Global, krates: &Krates, children: &[u32]) -> Result<List<Edge>, NoMemory>
    requires { All (λ child. child < length krates.now.crates) children.now }
    ensures { IfOk result (Adds (IsToOne krates.now children.now) []) }
{
    let mut edges = List::new(alloc);
    for child in children {
        add_edges_to(krates, *child, &mut edges)?;
    }
    Ok(edges)
}

// Appends the edges that lead to a crate.
fn add_edges_to(krates: &Krates, child: u32, edges: &mut List<Edge>) -> Result<(), NoMemory>
    requires { child < length krates.now.crates }
    ensures { OnOk result (Adds (IsTo krates.now child) edges.old edges.new) }
{
    let _orderly = krates.krates();
    for dependent in krates.direct_dependents(child) {
        add_edges_between(krates, dependent.place, child, edges)?;
    }
    Ok(())
}

// Appends the edges that lead from one crate to another.
fn add_edges_between(
    krates: &Krates,
    parent: u32,
    child: u32,
    edges: &mut List<Edge>,
) -> Result<(), NoMemory>
    requires parent { parent < length krates.now.crates }
    requires child { child < length krates.now.crates }
    ensures { OnOk result (Adds (IsBetween krates.now parent child) edges.old edges.new) }
{
    add_edge(krates, parent, child, DepKind::Normal, edges)?;
    add_edge(krates, parent, child, DepKind::Dev, edges)?;
    add_edge(krates, parent, child, DepKind::Build, edges)?;
    Ok(())
}

// Appends an edge, if the graph has it.
fn add_edge(
    krates: &Krates,
    parent: u32,
    child: u32,
    kind: DepKind,
    edges: &mut List<Edge>,
) -> Result<(), NoMemory>
    requires parent { parent < length krates.now.crates }
    requires child { child < length krates.now.crates }
    ensures { OnOk result (Adds (IsGivenEdge krates.now (record {
      parent = parent;
      child = child;
      kind = kind;
    })) edges.old edges.new) }
{
    if krates.has_edge(parent, child, kind) {
        edges.push(Edge {
            parent,
            child,
            kind,
        })?;
    }
    Ok(())
}

// A set for each crate of a duplicate.
fn sets_of(
    alloc: Global,
    krates: &Krates,
    edges: &[Edge],
    places: &[u32],
    distances: &mut List<Option<u32>>,
) -> Result<List<DupSet>, NoMemory>
    requires hold { All (λ e. Contains krates.now.edges e) edges.now }
    requires unset { AreUnset (length krates.now.crates) distances.old }
    ensures sets { IfOk result (AllZip (IsDupSetOf krates.now edges.now) places.now) }
    ensures unset { OnOk result (AreUnset (length krates.now.crates) distances.new) }
{
    let mut sets = List::new(alloc);
    for place in places {
        sets.push(set_of(alloc, krates, edges, *place, distances)?)?;
    }
    Ok(sets)
}

// The set of a crate: the numbers of the edges that lead to it at any distance.
fn set_of(
    alloc: Global,
    krates: &Krates,
    edges: &[Edge],
    place: u32,
    distances: &mut List<Option<u32>>,
) -> Result<DupSet, NoMemory>
    requires hold { All (λ e. Contains krates.now.edges e) edges.now }
    requires unset { AreUnset (length krates.now.crates) distances.old }
    ensures set { IfOk result (IsDupSetOf krates.now edges.now place) }
    ensures unset { OnOk result (AreUnset (length krates.now.crates) distances.new) }
{
    let _orderly = krates.krates();
    let reached = reach_above(alloc, krates, &[place], distances)?;
    let numbers = numbers_of(alloc, distances.as_slice(), edges)?;
    take_back(distances, reached.as_slice());
    Ok(DupSet {
        place,
        edges: numbers,
    })
}

// The numbers of the edges to crates that have a distance.
fn numbers_of(
    alloc: Global,
    distances: &[Option<u32>],
    edges: &[Edge],
) -> Result<List<u32>, NoMemory>
    ensures { IfOk result (Lists nat_cmp (IsReachedNumber distances.now edges.now)) }
{
    let mut numbers = List::new(alloc);
    for (number, edge) in edges.iter().enumerate() {
        if has_distance(distances, edge.child) {
            numbers.push(in_32_bits(number)?)?;
        }
    }
    Ok(numbers)
}

// A number of edges that does not fit in 32 bits is more than memory holds.
fn in_32_bits(number: usize) -> Result<u32, NoMemory>
    ensures { IfOk result (λ narrow. narrow ≡ number) }
{
    u32::try_from(number).map_err(|_| NoMemory)
}

// The number of the first set with the fewest edges.
fn simplest_of(sets: &[DupSet]) -> Result<Option<u32>, NoMemory>
    ensures { IfOk result (Simplest true sets.now) }
{
    if sets.is_empty() {
        return Ok(None);
    }
    Ok(Some(in_32_bits(simplest_index(sets))?))
}

fn simplest_index(sets: &[DupSet]) -> usize
    requires { 0 < length sets.now }
    ensures { IsSimplest sets.now result }
{
    let mut simplest = 0;
    for number in 1..sets.len() {
        if edge_count(sets, number) < edge_count(sets, simplest) {
            simplest = number;
        }
    }
    simplest
}

fn edge_count(sets: &[DupSet], number: usize) -> usize
    requires { number < length sets.now }
    ensures { result ≡ edge_count sets.now number }
{
    sets[number].edges.len()
}
