ghost use Rattle.std.specs.Prelude.{List, ℕ, Ok, Some, None, ◌↔◌, IsTrue, Contains, MatchOption, option_copied};
ghost use Rattle.std.specs.Prelude.{option_map, ◌≡◌, ◌≤◌, ◌<◌, ◌^◌, ◌-◌, length, take, drop, filter, IfOk, IfErr};
ghost use Rattle.std.specs.Cmp.Lexicographic.{slice_cmp};
ghost use Rattle.std.specs.List.Sorted.{IsStrictlySortedBy};
ghost use Rattle.std.specs.Option.{option_and_then};
ghost use Rattle.std.specs.Ordering.{nat_cmp};
ghost use Rattle.deny_spec.specs.Groups.{has_name};
ghost use Rattle.deny_krates_graph.specs.Bounds.{lock_length, node_count};
ghost use Rattle.deny_krates_graph.specs.Crates.{crate_view, crates_from, graph_of};
ghost use Rattle.deny_krates_graph.specs.Orderly.{IsOrderly};
ghost use Rattle.deny_krates.specs.private.NodeNumbers.{first_features_of};
ghost use Rattle.deny_krates.specs.private.Resolved.{AreBetween};
ghost use Rattle.deny_krates_sources.specs.Checked.{checked};
ghost use Rattle.deny_krates_graph.specs.Read.{IsGraphOf, IsSound, graph_read};
ghost use Rattle.deny_base_lists.specs.Reader.{Fails, IsFault};
ghost use Rattle.deny_krates_graph.specs.Dependents.{AreDirectDependencies, AreDirectDependents};
ghost use Rattle.deny_krates_graph.specs.Filtered.{AreMarks};
ghost use Rattle.deny_krates_graph.specs.Ids.{crate_of};
ghost use Rattle.deny_base.specs.Edge.{edge_cmp};
ghost use Rattle.deny_spec.specs.Graph.{Graph};
ghost use Rattle.deny_spec.specs.Resolution.{declaration_at, resolution};

use crate::names::run_of;
use crate::numbers::first_features;
use crate::resolution::{declared, resolution};
use crate::resolved::{ResolvedAt, resolved_between, resolved_of};
use deny_base::{DepKind, Edge, Kid, edge_order};
use deny_base_lists::{List, NoMemory, Text};
use deny_krates_graph::{
    CrateGraph, DirectDependent, IdEntry, Krate, graph_at, place_of, reached_without,
};
use deny_krates_metadata::MetadataFault;
use deny_spec::TargetEdge;
use std::alloc::Global;
use std::marker::Model;
use std::ops::Range;

/// A dependency graph: its crates in order of name, version text, source text (none first) and id,
/// the members of the workspace among them, and the dependencies between them. A crate's place is
/// its number in that order.
#[derive(Drop)]
pub struct Krates {
    root: Text,
    krates: List<Krate>,
    members: List<u32>,
    edges: List<Edge>,
    target_edges: List<TargetEdge>,
    dependents: List<List<DirectDependent>>,
    dependencies: List<List<DirectDependent>>,
    ids: List<IdEntry>,
    starts: List<u32>,
    resolved: List<ResolvedAt>,
}

impl Model for Krates {
    ghost use Rattle.std.specs.Coded.{codes, coded_ℕ, coded_list};
    ghost use Rattle.std.specs.Cmp.Lexicographic.{slice_cmp};
    ghost use Rattle.std.specs.FinMap as finite;
    ghost use Rattle.std.specs.Ordering.{nat_cmp};
    ghost use Rattle.deny_spec.specs.Graph.{Graph};

    ghost Value = { Graph };

    ghost coded = { Prim.hlevel
        (codes, finite.code {R = slice_cmp nat_cmp} (coded_list coded_ℕ) (coded_list (coded_list coded_ℕ))) };

    ghost use Rattle.deny_krates_graph.specs.Crates.{graph_of};
    ghost use Rattle.deny_krates.specs.private.Kept.{IsKept};

    ghost view = { λ k. graph_of k.target_edges k.root k.krates k.members k.edges };

    ghost invariant = { λ k. IsKept k.target_edges k.root k.krates k.members k.edges k.dependents k.dependencies k.ids
        k.starts k.resolved };
}

impl Krates {
    /// Reads the graph of metadata, which is JSON in UTF-8. Its crates are those that a member reaches by
    /// dependencies of any kind.
    ///
    /// The fault is the first in the order of `MetadataFault`. Of several of one variant it is the one that
    /// is read first, wherever it is in the text. Members are read in the root, then package by package,
    /// then node by node, each in the order of the definitions. Duplicate ids are looked for among the
    /// packages, then among the nodes; dangling ids among the members, then node by node; faults of the
    /// other variants package by package.
    pub fn build(alloc: Global, bytes: &[u8]) -> Result<Krates, MetadataFault>
        requires { length bytes.now < 2 ^ 28 }
        ensures ok { IfOk result (IsGraphOf bytes.now) }
        ensures err { IfErr result (Fails MetadataFault.Memory (IsFault (checked bytes.now))) }
    {
        let graph = graph_at(alloc, bytes)?;
        Ok(finish(alloc, graph)?)
    }

    /// The crates in order. The length of their lock text is within a bound, and so is the number of their
    /// nodes, which are the crates and their enabled features.
    pub fn krates(&self) -> &[Krate]
        ensures crates { crates_from 0 result.now ≡ self.now.crates }
        ensures few { length result.now < 2 ^ 28 }
        ensures orderly { IsOrderly self.now }
        ensures lock { lock_length self.now.crates < 2 ^ 29 }
        ensures nodes { node_count self.now.crates < 2 ^ 32 }
    {
        self.krates.as_slice()
    }

    /// The places of the crates of a name, which are consecutive.
    pub fn places_by_name(&self, name: &str) -> Range<u32>
        ensures upward { result.start ≤ result.end }
        ensures within { result.end ≤ length self.now.crates }
        ensures named { take (result.end - result.start) (drop result.start self.now.crates)
            ≡ filter (has_name name.now) self.now.crates }
    {
        run_of(self.krates.as_slice(), name)
    }

    /// The crates of a name, in order.
    pub fn krates_by_name(&self, name: &str) -> &[Krate]
        ensures named { (start : ℕ) × (crates_from start result.now ≡ filter (has_name name.now) self.now.crates) }
    {
        let krates = self.krates.as_slice();
        let places = run_of(krates, name);
        &krates[places.start as usize..places.end as usize]
    }

    /// The places of the workspace's members, ascending.
    pub fn workspace_members(&self) -> &[u32]
        ensures members { result.now ≡ self.now.members }
        ensures ascending { IsStrictlySortedBy nat_cmp result.now }
    {
        self.members.as_slice()
    }

    /// The folder of the workspace.
    pub fn workspace_root(&self) -> &str
        ensures { result.now ≡ self.now.root }
    {
        self.root.as_str()
    }

    /// The crates with a dependency on the crate at `place`, by id, each with its least kind.
    pub fn direct_dependents(&self, place: u32) -> &[DirectDependent]
        requires { place < length self.now.crates }
        ensures { AreDirectDependents self.now place result.now }
    {
        self.dependents.as_slice()[place as usize].as_slice()
    }

    /// The crates on which the crate at `place` has a dependency, by id, each with its least kind.
    pub fn direct_dependencies(&self, place: u32) -> &[DirectDependent]
        requires { place < length self.now.crates }
        ensures { AreDirectDependencies self.now place result.now }
    {
        self.dependencies.as_slice()[place as usize].as_slice()
    }

    /// Whether the crate at `parent` has a dependency of this kind on the crate at `child`.
    pub fn has_edge(&self, parent: u32, child: u32, kind: DepKind) -> bool
        requires parent { parent < length self.now.crates }
        requires child { child < length self.now.crates }
        ensures { IsTrue result ↔ Contains self.now.edges (record { parent = parent; child = child; kind = kind }) }
    {
        has(
            self.edges.as_slice(),
            &Edge {
                parent,
                child,
                kind,
            },
        )
    }

    /// The place of the crate that the declaration at `index` of the crate at `place` resolves to: of
    /// the crates of its name that cargo resolved for its kind and target, the first by place whose
    /// version its requirement matches, or else the first. None where there is no such crate, as for
    /// an optional dependency that no feature enables, or for a target that was left out; and where
    /// there is no such declaration.
    pub fn resolved_dependency(&self, place: u32, index: usize) -> Option<u32>
        ensures { result ≡ option_and_then (resolution self.now place) (declaration_at self.now place index) }
    {
        let krates = self.krates.as_slice();
        let declaration = declared(krates, place, index)?;
        resolution(krates, self.target_edges.as_slice(), place, declaration)
    }

    /// The declarations of the crate at `parent` that resolve to the crate at `child`.
    pub(crate) fn resolved_between(&self, child: u32, parent: u32) -> &[ResolvedAt]
        requires { parent < length self.now.crates }
        ensures { AreBetween self.now child parent result.now }
    {
        resolved_between(self.resolved.as_slice(), child, parent)
    }

    /// For each crate the number of the node of its first enabled feature.
    pub(crate) fn first_features(&self) -> &[u32]
        ensures { result.now ≡ first_features_of self.now }
    {
        self.starts.as_slice()
    }

    /// The place of the crate of an id.
    pub fn nid_for_kid(&self, kid: &Kid) -> Option<u32>
        ensures { result ≡ option_map (λ c. c.place) (crate_of self.now kid.now.0) }
    {
        place_of(self.ids.as_slice(), kid.0.as_str())
    }

    /// The crate of an id.
    pub fn node_for_kid(&self, kid: &Kid) -> Option<&Krate>
        ensures { MatchOption result (crate_of self.now kid.now.0 ≡ None)
            (λ k. (place : ℕ) × (crate_of self.now kid.now.0 ≡ Some (crate_view place k.now))) }
    {
        let place = place_of(self.ids.as_slice(), kid.0.as_str())?;
        self.krates.as_slice().get(place as usize)
    }

    /// The enabled features of the crate of an id, ascending.
    pub fn get_enabled_features(&self, kid: &Kid) -> Option<&[Text]>
        ensures { option_copied result ≡ option_map (λ c. c.enabled) (crate_of self.now kid.now.0) }
    {
        let krate = self.node_for_kid(kid)?;
        Some(krate.enabled.as_slice())
    }

    /// For each crate, by its place, whether a member reaches it by dependencies of other kinds than `kind`.
    /// A member reaches itself.
    pub fn krates_filtered(&self, alloc: Global, kind: DepKind) -> Result<Vec<bool>, NoMemory>
        ensures { IfOk result (λ marks. AreMarks kind self.now marks.items) }
    {
        let marks = reached_without(
            alloc,
            self.members.as_slice(),
            self.edges.as_slice(),
            self.krates.len(),
            kind,
        )?;
        Ok(marks.vec)
    }
}

// The graph with the numbers of its first features and its resolved declarations.
fn finish(alloc: Global, graph: CrateGraph) -> Result<Krates, NoMemory>
    requires { IsSound graph }
    ensures { IfOk result (λ g. g ≡ graph_read graph) }
{
    let starts = first_features(alloc, graph.krates.as_slice())?;
    let resolved = resolved_of(
        alloc,
        graph.krates.as_slice(),
        graph.target_edges.as_slice(),
    )?;
    Ok(Krates {
        root: graph.root,
        krates: graph.krates,
        members: graph.members,
        edges: graph.edges,
        target_edges: graph.target_edges,
        dependents: graph.dependents,
        dependencies: graph.dependencies,
        ids: graph.ids,
        starts,
        resolved,
    })
}

// Whether an ascending list contains an edge.
fn has(edges: &[Edge], edge: &Edge) -> bool
    requires { IsStrictlySortedBy edge_cmp edges.now }
    ensures { IsTrue result ↔ Contains edges.now edge.now }
{
    edge_order();
    edges.binary_search(edge).is_ok()
}
