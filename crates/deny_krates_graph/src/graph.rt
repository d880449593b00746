ghost use Rattle.std.specs.Prelude.{◌≡◌, ◌≢◌, ◌<◌, ◌≤◌, ◌^◌, ℕ, List, IfOk, OnOk, All, AllPairs, Contains};
ghost use Rattle.std.specs.Prelude.{◌++◌, length, map};
ghost use Rattle.std.specs.Cmp.{IsTotalOrder};
ghost use Rattle.std.specs.FinMap.{IsAntisymmetric};
ghost use Rattle.std.specs.Ordering.{nat_cmp};
ghost use Rattle.deny_base_lists.specs.Ascending.{Lists};
ghost use Rattle.deny_base.specs.Edge.{edge_cmp};
ghost use Rattle.deny_spec.specs.TargetEdge.{edge_of, target_edge_cmp};
ghost use Rattle.deny_krates_graph.specs.private.Graph.{kept_cmp, IsKeptNode, IsInverse, place_at, edge_to, edges_from};
ghost use Rattle.deny_krates_graph.specs.Packages.{rank_of};
ghost use Rattle.deny_krates_graph.specs.private.Reach.{links_at};
ghost use Rattle.deny_krates_graph.specs.declared.graph.KeptPackage.{KeptPackage};

use deny_base::{Edge, edge_order};
use deny_base_lists::{List, NoMemory, Text, put_in_order};
use deny_krates_metadata::MetadataPackage;
use deny_krates_sources::{Link, ResolvedNode};
use deny_spec::{TargetEdge, target_edge_order};
use std::alloc::Global;

/// The key by which crates are ordered: name, version text, source text (none first) and id.
#[derive(PartialEq, Eq, PartialOrd, Ord, Drop)]
pub struct Rank {
    pub name: Text,
    pub version: Text,
    pub source: Option<Text>,
    pub id: Text,
}

/// A package that is a crate of the graph: its rank, its number and the number of its node. Kept packages
/// are ordered as the crates are.
#[derive(PartialEq, Eq, PartialOrd, Ord, Drop)]
pub struct KeptPackage {
    pub rank: Rank,
    pub owner: u32,
    pub node: u32,
}

/// The packages of the marked nodes, in order.
pub fn kept_of(
    alloc: Global,
    packages: &[MetadataPackage],
    rows: &[ResolvedNode],
    marks: &[bool],
) -> Result<List<KeptPackage>, NoMemory>
    requires long { length marks.now ≡ length rows.now }
    requires few { length rows.now < 2 ^ 28 }
    requires owned { All (λ row. row.owner < length packages.now) rows.now }
    ensures lists { IfOk result (λ kept. Lists kept_cmp (IsKeptNode packages.now rows.now marks.now) kept) }
    ensures few { IfOk result (λ kept. length kept ≤ length rows.now) }
{
    let mut kept = gather(alloc, packages, rows, marks)?;
    kept_order();
    put_in_order(&mut kept)?;
    Ok(kept)
}

fn rank_in(listed: &MetadataPackage) -> Result<Rank, NoMemory>
    ensures { IfOk result (λ rank. rank ≡ rank_of listed.now) }
{
    Ok(Rank {
        name: listed.name.clone()?,
        version: listed.version.clone()?,
        source: listed.source.clone()?,
        id: listed.id.clone()?,
    })
}

fn gather(
    alloc: Global,
    packages: &[MetadataPackage],
    rows: &[ResolvedNode],
    marks: &[bool],
) -> Result<List<KeptPackage>, NoMemory>
    requires long { length marks.now ≡ length rows.now }
    requires few { length rows.now < 2 ^ 28 }
    requires owned { All (λ row. row.owner < length packages.now) rows.now }
    ensures sound { IfOk result (λ kept. All (IsKeptNode packages.now rows.now marks.now) kept) }
    ensures whole { IfOk result (λ kept. (k : KeptPackage) → IsKeptNode packages.now rows.now marks.now k
        → Contains kept k) }
    ensures few { IfOk result (λ kept. length kept ≤ length rows.now) }
{
    let mut kept = List::new(alloc);
    for (node, row) in rows.iter().enumerate() {
        if marks[node] {
            kept.push(KeptPackage {
                rank: rank_in(&packages[row.owner as usize])?,
                owner: row.owner,
                node: node as u32,
            })?;
        }
    }
    Ok(kept)
}

// The order of kept packages is by rank, number and node, it is total, and only equal ones tie.
fn kept_order()
    ensures fields { (a b : KeptPackage) → ⟦<KeptPackage as Ord>⟧.cmp a b ≡ kept_cmp a b }
    ensures total { IsTotalOrder kept_cmp }
    ensures equal { IsAntisymmetric kept_cmp }
{}

/// The inverse of a list of numbers: for each number below `size` its index in the list; 0 for numbers that
/// are not in it.
pub fn inverse_of(alloc: Global, numbers: &[u32], size: usize) -> Result<List<u32>, NoMemory>
    requires few { length numbers.now < 2 ^ 28 }
    requires inside { All (λ n. n < size) numbers.now }
    requires apart { AllPairs (λ m n. m ≢ n) numbers.now }
    ensures { IfOk result (IsInverse numbers.now size) }
{
    let mut places = vec![in alloc; 0; size]?;
    for (place, number) in numbers.iter().enumerate() {
        places[*number as usize] = place as u32;
    }
    Ok(List::from_vec(places))
}

/// For each number of a node the index of the kept package with that node; 0 for other nodes.
pub fn places_by_node(
    alloc: Global,
    kept: &[KeptPackage],
    size: usize,
) -> Result<List<u32>, NoMemory>
    requires few { length kept.now < 2 ^ 28 }
    requires inside { All (λ n. n < size) (map (λ k. k.node) kept.now) }
    requires apart { AllPairs (λ m n. m ≢ n) (map (λ k. k.node) kept.now) }
    ensures { IfOk result (IsInverse (map (λ k. k.node) kept.now) size) }
{
    let nodes = nodes_of(alloc, kept)?;
    inverse_of(alloc, nodes.as_slice(), size)
}

fn nodes_of(alloc: Global, kept: &[KeptPackage]) -> Result<List<u32>, NoMemory>
    ensures { IfOk result (λ nodes. nodes ≡ map (λ k. k.node) kept.now) }
{
    let mut nodes = List::new(alloc);
    for each in kept {
        nodes.push(each.node)?;
    }
    Ok(nodes)
}

/// The places of the members, ascending, each once.
pub fn members_of(alloc: Global, starts: &[u32], places: &[u32]) -> Result<List<u32>, NoMemory>
    requires { All (λ start. start < length places.now) starts.now }
    ensures { IfOk result (λ members. Lists nat_cmp (Contains (map (place_at places.now) starts.now)) members) }
{
    let mut members = places_of(alloc, starts, places)?;
    put_in_order(&mut members)?;
    Ok(members)
}

fn places_of(alloc: Global, starts: &[u32], places: &[u32]) -> Result<List<u32>, NoMemory>
    requires { All (λ start. start < length places.now) starts.now }
    ensures { IfOk result (λ members. members ≡ map (place_at places.now) starts.now) }
{
    let mut members = List::new(alloc);
    for start in starts {
        members.push(places[*start as usize])?;
    }
    Ok(members)
}

/// The target edges between kept packages, ascending, each once.
pub fn target_edges_of(
    alloc: Global,
    kept: &[KeptPackage],
    rows: &[ResolvedNode],
    places: &[u32],
) -> Result<List<TargetEdge>, NoMemory>
    requires few { length kept.now < 2 ^ 28 }
    requires nodes { All (λ k. k.node < length rows.now) kept.now }
    requires links { (node : ℕ) → All (λ l. l.node < length places.now) (links_at rows.now node) }
    ensures { IfOk result (λ edges.
        Lists target_edge_cmp (Contains (edges_from rows.now places.now 0 kept.now)) edges) }
{
    let mut edges = all_edges(alloc, kept, rows, places)?;
    target_edge_order();
    put_in_order(&mut edges)?;
    Ok(edges)
}

/// The edges of target edges without their targets, ascending, each once.
pub fn edges_of(alloc: Global, targeted: &[TargetEdge]) -> Result<List<Edge>, NoMemory>
    ensures { IfOk result (λ edges. Lists edge_cmp (Contains (map edge_of targeted.now)) edges) }
{
    let mut edges = without_targets(alloc, targeted)?;
    edge_order();
    put_in_order(&mut edges)?;
    Ok(edges)
}

fn without_targets(alloc: Global, targeted: &[TargetEdge]) -> Result<List<Edge>, NoMemory>
    ensures { IfOk result (λ edges. edges ≡ map edge_of targeted.now) }
{
    let mut edges = List::new(alloc);
    for each in targeted {
        edges.push(Edge {
            parent: each.parent,
            child: each.child,
            kind: each.kind,
        })?;
    }
    Ok(edges)
}

fn all_edges(
    alloc: Global,
    kept: &[KeptPackage],
    rows: &[ResolvedNode],
    places: &[u32],
) -> Result<List<TargetEdge>, NoMemory>
    requires few { length kept.now < 2 ^ 28 }
    requires nodes { All (λ k. k.node < length rows.now) kept.now }
    requires links { (node : ℕ) → All (λ l. l.node < length places.now) (links_at rows.now node) }
    ensures { IfOk result (λ edges. edges ≡ edges_from rows.now places.now 0 kept.now) }
{
    let mut edges = List::new(alloc);
    for (place, each) in kept.iter().enumerate() {
        push_edges(
            &mut edges,
            place as u32,
            rows[each.node as usize].links.as_slice(),
            places,
        )?;
    }
    Ok(edges)
}

fn push_edges(
    edges: &mut List<TargetEdge>,
    parent: u32,
    links: &[Link],
    places: &[u32],
) -> Result<(), NoMemory>
    requires { All (λ l. l.node < length places.now) links.now }
    ensures { OnOk result (edges.new ≡ edges.old ++ map (edge_to places.now parent) links.now) }
{
    for link in links {
        edges.push(TargetEdge {
            parent,
            child: places[link.node as usize],
            kind: link.needed_as.kind,
            target: link.needed_as.target.clone()?,
        })?;
    }
    Ok(())
}
