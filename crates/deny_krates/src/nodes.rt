//! The nodes of the graph, which are its crates and their enabled features, and the edges that end at one.
ghost use Rattle.std.specs.Prelude.{◌≡◌, ◌≢◌, ◌<◌, ◌↔◌, Contains, Some, None, IfOk};
ghost use Rattle.std.specs.Prelude.{IfSome, IfNone, All, AllPairs, length, map, slice_get};
ghost use Rattle.std.specs.Option.{option_copied};
ghost use Rattle.deny_krates.specs.Nodes.{incoming_at, incoming_in, node_at, node_named, nodes_of, sources_at};
ghost use Rattle.deny_krates.specs.private.Sources.{IsThere, node_here, parent_of, source_of};
ghost use Rattle.deny_krates.specs.declared.incoming.Parent.{Parent};
ghost use Rattle.deny_spec.specs.Graph.{Crate};

use crate::incoming::{Parent, parent_order, parents_of_crate, parents_of_feature};
use crate::krates::Krates;
use crate::leads::index_of;
use crate::numbers::owner_of;
use deny_base::{DepKind, Kid};
use deny_base_lists::{List, NoMemory, put_in_order};
use std::alloc::Global;

/// The number of a node of a graph: of a crate, or of an enabled feature of one. A crate's is its place.
#[derive(Clone, Copy)]
pub struct NodeId(pub u32);

/// An edge that ends at a node: the node that it comes from, and the kind of the dependency; none where it
/// comes from a feature of the same crate.
#[derive(Clone, Copy)]
pub struct InEdge {
    pub node: NodeId,
    pub kind: Option<DepKind>,
}

impl Krates {
    /// The node of the crate of an id, or of a feature of it. None where no crate has the id, and where
    /// the feature is not enabled.
    pub fn get_node(&self, kid: &Kid, feature: Option<&str>) -> Option<NodeId>
        ensures found { IfSome result (λ node. slice_get (nodes_of self.now) node.0
            ≡ node_named self.now kid.now.0 (option_copied feature.entry)) }
        ensures within { IfSome result (λ node. node.0 < length (nodes_of self.now)) }
        ensures none { IfNone result (node_named self.now kid.now.0 (option_copied feature.entry) ≡ None) }
        ensures own { AllPairs (λ a b. a ≢ b) (nodes_of self.now) }
    {
        let _orderly = self.krates();
        let place = self.nid_for_kid(kid)?;
        node_of(self, place, feature)
    }

    /// The place of the crate of a node.
    pub fn node_place(&self, node: NodeId) -> u32
        requires { node.0 < length (nodes_of self.now) }
        ensures place { result ≡ (node_at self.now node.0).place }
        ensures within { result < length self.now.crates }
    {
        if (node.0 as usize) < self.krates().len() {
            return node.0;
        }
        owner_of(self.first_features(), node.0)
    }

    /// The feature of a node; none of the node of a crate.
    pub fn node_feature(&self, node: NodeId) -> Option<&str>
        requires { node.0 < length (nodes_of self.now) }
        ensures { option_copied result ≡ (node_at self.now node.0).feature }
    {
        let krates = self.krates();
        if (node.0 as usize) < krates.len() {
            return None;
        }
        let starts = self.first_features();
        let place = owner_of(starts, node.0) as usize;
        let index = node.0 - starts[place];
        let enabled = krates[place].enabled.as_slice();
        Some(enabled[index as usize].as_str())
    }

    /// The edges that end at a node, in the order of their sources: crates first, by id, and then features by
    /// name, crate id and kind; an edge without a kind is before those with one.
    pub fn incoming(&self, alloc: Global, node: NodeId) -> Result<List<InEdge>, NoMemory>
        requires { node.0 < length (nodes_of self.now) }
        ensures sources { IfOk result (λ edges. map (incoming_at self.now) edges
            ≡ incoming_in self.now (node_at self.now node.0)) }
        ensures within { IfOk result (All (λ edge. edge.node.0 < length (nodes_of self.now))) }
    {
        let _placed = self.krates();
        let place = self.node_place(node);
        let feature = self.node_feature(node);
        let mut parents = parents_of(alloc, self, place, feature)?;
        parent_order();
        put_in_order(&mut parents)?;
        let edges = in_edges(alloc, self, parents.as_slice())?;
        Ok(edges)
    }
}

/// The node of the crate at a place, or of an enabled feature of it.
pub fn node_of(krates: &Krates, place: u32, feature: Option<&str>) -> Option<NodeId>
    requires { place < length krates.now.crates }
    ensures found { IfSome result (λ node. slice_get (nodes_of krates.now) node.0
        ≡ node_here krates.now place (option_copied feature.entry)) }
    ensures within { IfSome result (λ node. node.0 < length (nodes_of krates.now)) }
    ensures none { IfNone result (node_here krates.now place (option_copied feature.entry) ≡ None) }
{
    match feature {
        Some(feature) => feature_node(krates, place, feature),
        None => Some(NodeId(place)),
    }
}

fn feature_node(krates: &Krates, place: u32, feature: &str) -> Option<NodeId>
    requires { place < length krates.now.crates }
    ensures found { IfSome result (λ node. slice_get (nodes_of krates.now) node.0
        ≡ node_here krates.now place (Some feature.now)) }
    ensures within { IfSome result (λ node. node.0 < length (nodes_of krates.now)) }
    ensures none { IfNone result (node_here krates.now place (Some feature.now) ≡ None) }
{
    let enabled = krates.krates()[place as usize].enabled.as_slice();
    let index = index_of(enabled, feature)?;
    let start = krates.first_features()[place as usize];
    Some(NodeId(start + index as u32))
}

// The sources of the edges that end at the node of a crate or of a feature of it.
fn parents_of(
    alloc: Global,
    krates: &Krates,
    place: u32,
    feature: Option<&str>,
) -> Result<List<Parent>, NoMemory>
    requires { place < length krates.now.crates }
    ensures { IfOk result (λ parents. (c : Crate) → slice_get krates.now.crates place ≡ Some c → (p : Parent)
        → Contains parents p
        ↔ Contains (map (parent_of krates.now) (sources_at krates.now (option_copied feature.entry) c)) p) }
{
    match feature {
        Some(feature) => parents_of_feature(alloc, krates, place, feature),
        None => parents_of_crate(alloc, krates, place),
    }
}

// The edges from parents, in their order.
fn in_edges(alloc: Global, krates: &Krates, parents: &[Parent]) -> Result<List<InEdge>, NoMemory>
    requires { All (IsThere krates.now) parents.now }
    ensures sources { IfOk result (λ edges. map (incoming_at krates.now) edges ≡ map source_of parents.now) }
    ensures within { IfOk result (All (λ edge. edge.node.0 < length (nodes_of krates.now))) }
{
    let mut edges = List::new(alloc);
    for parent in parents {
        edges.push(in_edge(krates, parent))?;
    }
    Ok(edges)
}

fn in_edge(krates: &Krates, parent: &Parent) -> InEdge
    requires { IsThere krates.now parent.now }
    ensures source { incoming_at krates.now result ≡ source_of parent.now }
    ensures within { result.node.0 < length (nodes_of krates.now) }
{
    match node_of(krates, parent.place, feature_of(parent)) {
        Some(node) => InEdge {
            node,
            kind: parent.kind,
        },
        None => unreachable!(),
    }
}

fn feature_of(parent: &Parent) -> Option<&str>
    ensures { option_copied result ≡ parent.now.feature }
{
    match &parent.feature {
        Some(feature) => Some(feature.as_str()),
        None => None,
    }
}
