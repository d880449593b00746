//! Reads the graph of metadata.
ghost use Rattle.std.specs.Prelude.{All, Bool, List, Ok, ◌≡◌, ◌<◌, ◌^◌, length, IfOk, IfErr};
ghost use Rattle.std.specs.Cmp.Lexicographic.{slice_cmp};
ghost use Rattle.std.specs.List.Sorted.{IsSortedByKey};
ghost use Rattle.std.specs.Ordering.{nat_cmp};
ghost use Rattle.deny_base_lists.specs.Reader.{Fails, IsFault};
ghost use Rattle.deny_krates_graph.specs.Crates.{graph_of};
ghost use Rattle.deny_krates_graph.specs.IdEntries.{AreIds};
ghost use Rattle.deny_krates_graph.specs.Orderly.{IsOrderly};
ghost use Rattle.deny_krates_graph.specs.Read.{IsGraph, IsGraphOf, IsSound, graph_read};
ghost use Rattle.deny_krates_graph.specs.private.Direct.{AreApart, AreDependencies, AreDependents};
ghost use Rattle.deny_krates_graph.specs.private.Numbered.{IsNumbered, IsResolved};
ghost use Rattle.deny_krates_graph.specs.private.Relations.{AreRelations, whole_graph};
ghost use Rattle.deny_krates_metadata.specs.declared.document.Document.{Document};
ghost use Rattle.deny_krates_sources.specs.Checked.{Resolved, checked, resolved};
ghost use Rattle.deny_krates_sources.specs.PackageTexts.{AreTextsOf};

use crate::bounds::check_bounds;
use crate::crates::krates_of;
use crate::direct::{dependencies_of, dependents_of};
use crate::graph::{KeptPackage, edges_of, kept_of, members_of, places_by_node, target_edges_of};
use crate::ids::{IdEntry, ids_of, ranks_of};
use crate::krate::{DirectDependent, Krate};
use crate::reach::reach;
use deny_base::Edge;
use deny_base_lists::{List, NoMemory, Text};
use deny_krates_metadata::{Document, MetadataFault};
use deny_krates_sources::{PackageTexts, Resolution, ResolvedNode, resolve};
use deny_spec::TargetEdge;
use std::alloc::Global;

/// The crates of metadata in order, the places of the members of the workspace among them, and the
/// dependencies between them.
#[derive(Drop)]
pub struct CrateGraph {
    /// The folder of the workspace.
    pub root: Text,
    pub krates: List<Krate>,
    pub members: List<u32>,
    pub edges: List<Edge>,
    /// The edges with the targets for which they are needed.
    pub target_edges: List<TargetEdge>,
    /// For each crate the crates with an edge to it, by id.
    pub dependents: List<List<DirectDependent>>,
    /// For each crate the crates that an edge from it leads to, by id.
    pub dependencies: List<List<DirectDependent>>,
    /// The ids of the crates with their places, ascending.
    pub ids: List<IdEntry>,
}

/// Reads the graph of metadata, or gives its first fault. The lock text of its crates and the number of
/// their nodes are within bounds; beyond them memory counts as run out.
pub fn graph_at(alloc: Global, bytes: &[u8]) -> Result<CrateGraph, MetadataFault>
    requires { length bytes.now < 2 ^ 28 }
    ensures ok { IfOk result (λ g. IsGraphOf bytes.now (graph_read g)) }
    ensures sound { IfOk result IsSound }
    ensures err { IfErr result (Fails MetadataFault.Memory (IsFault (checked bytes.now))) }
{
    let document = document_at(alloc, bytes)?;
    graph_of_document(alloc, document)
}

// A bound that no number of packages or nodes reaches in a text of fewer bytes.
const MANY: usize = 1 << 28;

// Reads the document of metadata.
fn document_at(alloc: Global, bytes: &[u8]) -> Result<Document, MetadataFault>
    ensures ok { IfOk result (λ d. checked bytes.now ≡ resolved d) }
    ensures err { IfErr result (Fails MetadataFault.Memory (IsFault (checked bytes.now))) }
{
    deny_krates_metadata::document_at(alloc, bytes)
}

// The graph of a document, or its first fault.
fn graph_of_document(alloc: Global, document: Document) -> Result<CrateGraph, MetadataFault>
    ensures ok { IfOk result (λ g. (r : Resolved) × (resolved document ≡ Ok r) × IsGraph document (graph_read g)) }
    ensures sound { IfOk result IsSound }
    ensures err { IfErr result (Fails MetadataFault.Memory (IsFault (resolved document))) }
{
    if document.packages.len() >= MANY || document.nodes.len() >= MANY {
        return Err(MetadataFault::Memory);
    }
    let resolution = resolve(alloc, &document)?;
    Ok(put_together(alloc, document, resolution)?)
}

// The graph of a document, given what it resolves to.
fn put_together(
    alloc: Global,
    document: Document,
    mut resolution: Resolution,
) -> Result<CrateGraph, NoMemory>
    requires few { length document.nodes < 2 ^ 28 }
    requires resolved { IsResolved document resolution.starts resolution.rows }
    requires texts { AreTextsOf document.packages resolution.texts }
    ensures graph { IfOk result (λ g. IsGraph document (graph_read g)) }
    ensures sound { IfOk result IsSound }
{
    let starts = resolution.starts.as_slice();
    let rows = resolution.rows.as_slice();
    let kept = reached_packages(alloc, &document, starts, rows)?;
    join(
        alloc,
        document,
        starts,
        rows,
        &mut resolution.texts,
        kept.as_slice(),
    )
}

// The packages of the nodes that the members reach, in order.
fn reached_packages(
    alloc: Global,
    document: &Document,
    starts: &[u32],
    rows: &[ResolvedNode],
) -> Result<List<KeptPackage>, NoMemory>
    requires few { length document.now.nodes < 2 ^ 28 }
    requires resolved { IsResolved document.now starts.now rows.now }
    ensures numbered { IfOk result (λ kept. (marks : List Bool)
        × IsNumbered document.now starts.now rows.now marks kept) }
    ensures few { IfOk result (λ kept. length kept < 2 ^ 28) }
{
    let marks = reach(alloc, rows, starts)?;
    kept_of(alloc, document.packages.as_slice(), rows, marks.as_slice())
}

// The graph whose crates are the kept packages.
fn join(
    alloc: Global,
    mut document: Document,
    starts: &[u32],
    rows: &[ResolvedNode],
    texts: &mut PackageTexts,
    kept: &[KeptPackage],
) -> Result<CrateGraph, NoMemory>
    requires few { length kept.now < 2 ^ 28 }
    requires numbered { (marks : List Bool) × IsNumbered document starts.now rows.now marks kept.now }
    requires texts { AreTextsOf document.packages texts.old }
    ensures graph { IfOk result (λ g. IsGraph document (graph_read g)) }
    ensures sound { IfOk result IsSound }
{
    let relations = relations_of(alloc, starts, rows, kept)?;
    let krates = krates_of(
        alloc,
        &mut document.packages,
        texts,
        document.nodes.as_slice(),
        kept,
    )?;
    with_neighbours(alloc, document.workspace_root, krates, relations)
}

// The members among the crates, and the edges between crates, by their places.
#[derive(Drop)]
struct Relations {
    members: List<u32>,
    edges: List<Edge>,
    target_edges: List<TargetEdge>,
}

// The members and the edges of the crates that the kept packages are.
fn relations_of(
    alloc: Global,
    starts: &[u32],
    rows: &[ResolvedNode],
    kept: &[KeptPackage],
) -> Result<Relations, NoMemory>
    requires few { length kept.now < 2 ^ 28 }
    requires numbered { (document : Document) × (marks : List Bool)
        × IsNumbered document starts.now rows.now marks kept.now }
    ensures { IfOk result (AreRelations starts.now rows.now kept.now) }
{
    let places = places_by_node(alloc, kept, rows.len())?;
    let members = members_of(alloc, starts, places.as_slice())?;
    let target_edges = target_edges_of(alloc, kept, rows, places.as_slice())?;
    let edges = edges_of(alloc, target_edges.as_slice())?;
    Ok(Relations {
        members,
        edges,
        target_edges,
    })
}

// The graph of crates and their relations, with the neighbours and ids of the crates.
fn with_neighbours(
    alloc: Global,
    root: Text,
    krates: List<Krate>,
    relations: Relations,
) -> Result<CrateGraph, NoMemory>
    requires few { length krates < 2 ^ 28 }
    requires names { IsSortedByKey (λ k. k.name) (slice_cmp nat_cmp) krates }
    requires orderly { IsOrderly (graph_of relations.target_edges root krates relations.members relations.edges) }
    ensures graph { IfOk result (λ g. graph_read g
        ≡ graph_of relations.target_edges root krates relations.members relations.edges) }
    ensures sound { IfOk result IsSound }
{
    check_bounds(alloc, krates.as_slice())?;
    let neighbours = neighbours_of(alloc, krates.as_slice(), relations.edges.as_slice())?;
    Ok(whole_graph(root, krates, relations, neighbours))
}

// A graph from its parts.
fn whole_graph(
    root: Text,
    krates: List<Krate>,
    relations: Relations,
    neighbours: Adjacency,
) -> CrateGraph
    ensures { result ≡ whole_graph root krates relations neighbours }
{
    CrateGraph {
        root,
        krates,
        members: relations.members,
        edges: relations.edges,
        target_edges: relations.target_edges,
        dependents: neighbours.dependents,
        dependencies: neighbours.dependencies,
        ids: neighbours.ids,
    }
}

// For each crate its direct dependents and dependencies, and the ids of the crates with their places.
#[derive(Drop)]
struct Adjacency {
    dependents: List<List<DirectDependent>>,
    dependencies: List<List<DirectDependent>>,
    ids: List<IdEntry>,
}

// The neighbours of crates, given the edges between them.
fn neighbours_of(alloc: Global, krates: &[Krate], edges: &[Edge]) -> Result<Adjacency, NoMemory>
    requires few { length krates.now < 2 ^ 28 }
    requires apart { AreApart krates.now }
    requires parents { All (λ e. e.parent < length krates.now) edges.now }
    requires children { All (λ e. e.child < length krates.now) edges.now }
    ensures dependents { IfOk result (λ n. AreDependents krates.now edges.now n.dependents) }
    ensures dependencies { IfOk result (λ n. AreDependencies krates.now edges.now n.dependencies) }
    ensures ids { IfOk result (λ n. AreIds krates.now n.ids) }
{
    let ids = ids_of(alloc, krates)?;
    let ranks = ranks_of(alloc, krates, ids.as_slice())?;
    let dependents = dependents_of(alloc, krates, ranks.as_slice(), edges)?;
    let dependencies = dependencies_of(alloc, krates, ranks.as_slice(), edges)?;
    Ok(Adjacency {
        dependents,
        dependencies,
        ids,
    })
}
