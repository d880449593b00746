//! Findings as JSON: a diagnostic, with the trees that it shows of the graph.
ghost use Rattle.std.specs.Prelude.{◌≡◌, IfOk, option_map};
ghost use Rattle.serde_json.specs.View.{members_view, view};
ghost use Rattle.deny_gate_json.specs.Findings.{finding_fields, finding_value, graphs_member, reported_value};
ghost use Rattle.deny_gate_json.specs.Diagnostics.{fields_after_code};

use crate::diagnostics::{cs_diag_to_json, fields_from_labels};
use crate::graphs::graph_values;
use deny_base::{Diag, Diagnostic, Files};
use deny_base_lists::NoMemory;
use deny_krates_trees::grapher::GraphNode;
use deny_krates_trees::{InclusionGrapher, drop_trees, graphs_of};
use serde_json::{Map, Value, json, put};
use std::alloc::Global;

/// The fields from the trees on.
fn fields_from_graphs(
    alloc: Global,
    files: &Files,
    diagnostic: &Diagnostic,
    graphs: &[GraphNode],
) -> Result<Map<String, Value>, NoMemory>
    ensures { IfOk result (λ fields. members_view fields.entries
        ≡ graphs_member graphs.now (fields_after_code files.now diagnostic.now)) }
{
    let graphs = Value::from(graph_values(alloc, graphs)?);
    let mut fields = fields_from_labels(alloc, files, diagnostic)?;
    put(&mut fields, alloc, "graphs", graphs)?;
    Ok(fields)
}

/// The fields of a diagnostic that is reported with these trees.
fn finding_fields(
    alloc: Global,
    files: &Files,
    diagnostic: &Diagnostic,
    graphs: &[GraphNode],
) -> Result<Map<String, Value>, NoMemory>
    ensures { IfOk result (λ fields. members_view fields.entries
        ≡ finding_fields files.now diagnostic.now graphs.now) }
{
    let mut fields = fields_from_graphs(alloc, files, diagnostic, graphs)?;
    if let Some(code) = diagnostic.code {
        let code = Value::try_from_str(alloc, code.name())?;
        put(&mut fields, alloc, "code", code)?;
        return Ok(fields);
    }
    Ok(fields)
}

/// A diagnostic that is reported with these trees, as JSON; its labels are in these files.
#[tactic(auto, unfolding(crate::specs::Findings::finding_value))]
fn finding_value(
    alloc: Global,
    files: &Files,
    diagnostic: &Diagnostic,
    graphs: &[GraphNode],
) -> Result<Value, NoMemory>
    ensures { IfOk result (λ value. view value ≡ finding_value files.now diagnostic.now graphs.now) }
{
    let fields = Value::from(finding_fields(alloc, files, diagnostic, graphs)?);
    Ok(json!(in alloc; {"fields": fields, "type": "diagnostic"})?)
}

/// A finding as JSON; its labels are in these files. With a grapher its `graphs` are one tree for each of
/// its nodes that the graph has, and `[]` where there is none; without a grapher there is no such member.
/// The value is as deep as its highest tree, and so are the calls that drop it or print it. `NoMemory`
/// where an allocation fails.
pub fn diag_to_json(
    alloc: Global,
    diag: Diag,
    files: &Files,
    grapher: Option<&InclusionGrapher<'_>>,
) -> Result<Value, NoMemory>
    ensures { IfOk result (λ value. view value
        ≡ reported_value files.now diag (option_map (λ g. g.now.krates.now) grapher.entry)) }
{
    match grapher {
        None => cs_diag_to_json(alloc, diag.diag, files),
        Some(grapher) => {
            let graphs = graphs_of(alloc, grapher, None, &diag)?;
            let value = finding_value(alloc, files, &diag.diag, graphs.as_slice());
            drop_trees(graphs);
            value
        }
    }
}
