//! Trees as JSON values. A value is built from an explicit stack of the nodes that are open, so that no recursion is
//! as deep as a tree.
ghost use Rattle.std.specs.Prelude.{◌≡◌, ◌+◌, ◌<◌, ◌≤◌, IfOk, None, codes, map, sum_by};
ghost use Rattle.serde_json.specs.Data.{member, no_members, object, string};
ghost use Rattle.serde_json.specs.View.{members_view, view};
ghost use Rattle.deny_gate_json.specs.Graphs.{feature_value, graph_value};
ghost use Rattle.deny_gate_json.specs.Graphs.{krate_value, parents_member, repeat_member};
ghost use Rattle.deny_gate_json.specs.private.Weight.{weight};
ghost use Rattle.deny_gate_json.specs.private.Making.{making_value, making_weight, outcome_value};
ghost use Rattle.deny_gate_json.specs.private.Making.{outcome_weight, value_with, whole_value};

use deny_base::DepKind;
use deny_base_lists::NoMemory;
use deny_krates_trees::grapher::{GraphNode, NodeInner};
use serde_json::{Map, Value, json, put};
use std::alloc::{AllocError, Global};

/// A node whose value is being built: the values of its first parents, and the parents that are still to come.
#[derive(Drop)]
struct Making<'g> {
    graph: &'g GraphNode,
    done: Vec<Value>,
    rest: &'g [GraphNode],
}

/// The outcome of a step: the node to go on with, or the value of the whole tree.
#[derive(Drop)]
enum StepOutcome<'g> {
    Next(Making<'g>),
    Made(Value),
}

/// A crate with a normal dependency, or none, as JSON.
fn normal_krate(alloc: Global, name: &str, version: &str) -> Result<Value, AllocError>
    ensures { IfOk result (λ value. view value ≡ krate_value name.now version.now None) }
{
    json!(in alloc; {"name": name, "version": version})
}

/// A crate with the name of the kind of its dependency as JSON.
fn krate_of_kind(alloc: Global, kind: &str, name: &str, version: &str) -> Result<Value, AllocError>
    ensures { IfOk result (λ value. view value ≡ object (member (codes "kind") (string kind.now)
        (member (codes "name") (string name.now) (member (codes "version") (string version.now) no_members)))) }
{
    json!(in alloc; {"kind": kind, "name": name, "version": version})
}

/// A crate as JSON.
pub(crate) fn krate_value(
    alloc: Global,
    name: &str,
    version: &str,
    kind: Option<DepKind>,
) -> Result<Value, AllocError>
    ensures { IfOk result (λ value. view value ≡ krate_value name.now version.now kind) }
{
    match kind {
        None | Some(DepKind::Normal) => normal_krate(alloc, name, version),
        Some(DepKind::Dev) => krate_of_kind(alloc, "dev", name, version),
        Some(DepKind::Build) => krate_of_kind(alloc, "build", name, version),
    }
}

/// A feature as JSON.
pub(crate) fn feature_value(
    alloc: Global,
    crate_name: &str,
    name: &str,
) -> Result<Value, AllocError>
    ensures { IfOk result (λ value. view value ≡ feature_value crate_name.now name.now) }
{
    json!(in alloc; {"crate_name": crate_name, "name": name})
}

/// The member `repeat`, where a node is one.
fn members_from_repeat(alloc: Global, repeat: bool) -> Result<Map<String, Value>, AllocError>
    ensures { IfOk result (λ members. members_view members.entries ≡ repeat_member repeat) }
{
    let mut members = Map::new(alloc);
    if repeat {
        put(&mut members, alloc, "repeat", Value::from(true))?;
    }
    Ok(members)
}

/// The members from the parents on.
fn members_from_parents(
    alloc: Global,
    parents: Vec<Value>,
    repeat: bool,
) -> Result<Map<String, Value>, AllocError>
    ensures { IfOk result (λ members. members_view members.entries
        ≡ parents_member (map view parents.items) (repeat_member repeat)) }
{
    let mut members = members_from_repeat(alloc, repeat)?;
    if parents.is_empty() {
        return Ok(members);
    }
    put(&mut members, alloc, "parents", Value::from(parents))?;
    Ok(members)
}

/// The value of a node with these parents.
fn node_value(alloc: Global, graph: &GraphNode, parents: Vec<Value>) -> Result<Value, AllocError>
    ensures { IfOk result (λ value. view value ≡ value_with graph.now (map view parents.items)) }
{
    let mut members = members_from_parents(alloc, parents, graph.repeat)?;
    match &graph.inner {
        NodeInner::Krate {
            name,
            version,
            kind,
        } => {
            let krate = krate_value(alloc, name.as_str(), version.as_str(), *kind)?;
            put(&mut members, alloc, "Krate", krate)?;
        }
        NodeInner::Feature { crate_name, name } => {
            let feature = feature_value(alloc, crate_name.as_str(), name.as_str())?;
            put(&mut members, alloc, "Feature", feature)?;
        }
    }
    Ok(Value::from(members))
}

/// An open node none of whose parents has its value yet.
fn begin<'g>(alloc: Global, graph: &'g GraphNode) -> Making<'g>
    ensures value { making_value result ≡ graph_value graph.now }
    ensures less { making_weight result + 1 ≡ weight graph.now }
{
    Making {
        graph,
        done: Vec::new(alloc),
        rest: graph.parents.as_slice(),
    }
}

/// One step: the next parent of the node on top is opened, or the value of the node is built and handed on.
fn step<'g>(
    alloc: Global,
    top: Making<'g>,
    below: &mut Vec<Making<'g>>,
) -> Result<StepOutcome<'g>, NoMemory>
    ensures whole { IfOk result (λ outcome. outcome_value below.new.items outcome
        ≡ whole_value below.old.items (making_value top.entry)) }
    ensures less { IfOk result (λ outcome. outcome_weight below.new.items outcome
        < sum_by making_weight below.old.items + making_weight top.entry) }
{
    match top.rest.split_first() {
        Some((parent, rest)) => {
            below.push(Making {
                graph: top.graph,
                done: top.done,
                rest,
            })?;
            Ok(StepOutcome::Next(begin(alloc, parent)))
        }
        None => {
            let value = node_value(alloc, top.graph, top.done)?;
            hand_on(value, below)
        }
    }
}

/// Adds the value of a node to the open node below it; without one it is the value of the whole tree.
fn hand_on<'g>(value: Value, below: &mut Vec<Making<'g>>) -> Result<StepOutcome<'g>, NoMemory>
    ensures whole { IfOk result (λ outcome.
        outcome_value below.new.items outcome ≡ whole_value below.old.items (view value)) }
    ensures less { IfOk result (λ outcome.
        outcome_weight below.new.items outcome ≤ sum_by making_weight below.old.items) }
{
    match below.pop() {
        Some(waiting) => {
            let mut next = waiting;
            next.done.push(value)?;
            Ok(StepOutcome::Next(next))
        }
        None => Ok(StepOutcome::Made(value)),
    }
}

/// A tree as JSON.
fn graph_value(alloc: Global, graph: &GraphNode) -> Result<Value, NoMemory>
    ensures { IfOk result (λ value. view value ≡ graph_value graph.now) }
{
    let mut below = Vec::new(alloc);
    let mut now = StepOutcome::Next(begin(alloc, graph));
    while let StepOutcome::Next(top) = now {
        now = step(alloc, top, &mut below)?;
    }
    match now {
        StepOutcome::Made(value) => Ok(value),
        StepOutcome::Next(_) => unreachable!(),
    }
}

/// Trees as JSON, in their order.
pub(crate) fn graph_values(alloc: Global, graphs: &[GraphNode]) -> Result<Vec<Value>, NoMemory>
    ensures { IfOk result (λ values. map view values.items ≡ map graph_value graphs.now) }
{
    let mut values = Vec::new(alloc);
    for graph in graphs {
        values.push(graph_value(alloc, graph)?)?;
    }
    Ok(values)
}
