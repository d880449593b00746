//! The text of trees. It is written from an explicit stack, and no value of a whole tree is made, so that no
//! recursion is as deep as a tree.
ghost use Rattle.std.specs.Prelude.{◌≡◌, ◌+◌, ◌<◌, ◌++◌, OnOk, codes, sum_by, false};
ghost use Rattle.serde_json.specs.View.{view};
ghost use Rattle.serde_json.specs.Written.{compact_text, has_float};
ghost use Rattle.deny_gate_json.specs.Graphs.{feature_value, graph_value, krate_value};
ghost use Rattle.deny_gate_json.specs.private.Weight.{weight};
ghost use Rattle.deny_gate_json.specs.private.Writing.{all_text, end_text, graphs_text};
ghost use Rattle.deny_gate_json.specs.private.Writing.{head_text, waiting_text, waiting_weight};

use crate::graphs::{feature_value, krate_value};
use deny_base::DepKind;
use deny_base_lists::{NoMemory, Text};
use deny_krates_trees::grapher::{GraphNode, NodeInner};
use serde_json::Value;
use std::alloc::Global;

/// Trees of a list that are still to be written, whether another is before them, and the text behind the list.
#[derive(Clone, Copy)]
struct Waiting<'g> {
    graphs: &'g [GraphNode],
    later: bool,
    after: &'static str,
}

/// Appends the text of a value.
pub(crate) fn write_value(alloc: Global, value: &Value, out: &mut Text) -> Result<(), NoMemory>
    requires { has_float (view value.now) ≡ false }
    ensures { OnOk result (out.new ≡ out.old ++ compact_text (view value.now)) }
{
    let text = value.to_string(alloc)?;
    out.push_str(text.as_str())
}

/// Appends the text of a node that is a crate, up to the crate.
fn write_krate(
    alloc: Global,
    name: &str,
    version: &str,
    kind: Option<DepKind>,
    out: &mut Text,
) -> Result<(), NoMemory>
    ensures { OnOk result (out.new
        ≡ out.old ++ (codes "{\"Krate\":" ++ compact_text (krate_value name.now version.now kind))) }
{
    out.push_str("{\"Krate\":")?;
    let krate = krate_value(alloc, name, version, kind)?;
    write_value(alloc, &krate, out)
}

/// Appends the text of a node that is a feature, up to the feature.
fn write_feature(
    alloc: Global,
    crate_name: &str,
    name: &str,
    out: &mut Text,
) -> Result<(), NoMemory>
    ensures { OnOk result (out.new
        ≡ out.old ++ (codes "{\"Feature\":" ++ compact_text (feature_value crate_name.now name.now))) }
{
    out.push_str("{\"Feature\":")?;
    let feature = feature_value(alloc, crate_name, name)?;
    write_value(alloc, &feature, out)?;
    Ok(())
}

/// Appends the text of a node, up to the crate or the feature that it is.
fn write_head(alloc: Global, inner: &NodeInner, out: &mut Text) -> Result<(), NoMemory>
    ensures { OnOk result (out.new ≡ out.old ++ head_text inner.now) }
{
    match inner {
        NodeInner::Krate {
            name,
            version,
            kind,
        } => write_krate(alloc, name.as_str(), version.as_str(), *kind, out),
        NodeInner::Feature { crate_name, name } => {
            write_feature(alloc, crate_name.as_str(), name.as_str(), out)
        }
    }
}

/// The text of a node behind its parents.
fn end_text(repeat: bool) -> &'static str
    ensures { result.now ≡ end_text repeat }
{
    if repeat { ",\"repeat\":true}" } else { "}" }
}

/// Appends a node up to its parents, and pushes these and the text behind them onto the stack.
fn write_node<'g>(
    alloc: Global,
    graph: &'g GraphNode,
    below: &mut Vec<Waiting<'g>>,
    out: &mut Text,
) -> Result<(), NoMemory>
    ensures text { OnOk result (out.new ++ all_text below.new.items
        ≡ out.old ++ (compact_text (graph_value graph.now) ++ all_text below.old.items)) }
    ensures less { OnOk result (sum_by waiting_weight below.new.items
        < sum_by waiting_weight below.old.items + weight graph.now) }
{
    write_head(alloc, &graph.inner, out)?;
    let after = end_text(graph.repeat);
    let graphs = graph.parents.as_slice();
    if graphs.is_empty() {
        out.push_str(after)?;
        return Ok(());
    }
    out.push_str(",\"parents\":[")?;
    below.push(Waiting {
        graphs,
        later: false,
        after,
    })?;
    Ok(())
}

/// Appends the next tree of those on top of the stack, or the end of their list.
fn write_next<'g>(
    alloc: Global,
    top: Waiting<'g>,
    below: &mut Vec<Waiting<'g>>,
    out: &mut Text,
) -> Result<(), NoMemory>
    ensures text { OnOk result (out.new ++ all_text below.new.items
        ≡ out.old ++ (waiting_text top.entry ++ all_text below.old.items)) }
    ensures less { OnOk result (sum_by waiting_weight below.new.items
        < sum_by waiting_weight below.old.items + waiting_weight top.entry) }
{
    match top.graphs.split_first() {
        Some((graph, graphs)) => {
            if top.later {
                out.push_str(",")?;
            }
            below.push(Waiting {
                graphs,
                later: true,
                after: top.after,
            })?;
            write_node(alloc, graph, below, out)?;
        }
        None => {
            out.push_str("]")?;
            out.push_str(top.after)?;
        }
    }
    Ok(())
}

/// Appends the text of a list of trees. Where memory runs out, a part of it may have been appended.
pub(crate) fn write_graphs(
    alloc: Global,
    graphs: &[GraphNode],
    out: &mut Text,
) -> Result<(), NoMemory>
    ensures { OnOk result (out.new ≡ out.old ++ graphs_text graphs.now) }
{
    out.push_str("[")?;
    let mut below = Vec::new(alloc);
    below.push(Waiting {
        graphs,
        later: false,
        after: "",
    })?;
    while let Some(top) = below.pop() {
        write_next(alloc, top, &mut below, out)?;
    }
    Ok(())
}
