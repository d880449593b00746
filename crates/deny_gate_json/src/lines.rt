//! The lines of findings. Trees are written into them node by node, and the other members from their values.
ghost use Rattle.std.specs.Prelude.{◌≡◌, ◌++◌, ◌∷◌, ℕ, List, IfOk, OnOk, false, option_copied, true};
ghost use Rattle.serde_json.specs.View.{view};
ghost use Rattle.serde_json.specs.Written.{has_float, members_text};
ghost use Rattle.deny_gate_json.specs.Diagnostics.{fields_after_code};
ghost use Rattle.deny_gate_json.specs.Lines.{diag_line, line, line_with_graphs};
ghost use Rattle.deny_gate_json.specs.Reading.{AreCounted};
ghost use Rattle.deny_gate_json.specs.private.Writing.{code_text};

use crate::diagnostics::fields_from_labels;
use crate::graph_text::{write_graphs, write_value};
use deny_base::{Diag, Diagnostic, DiagnosticCode, Files, Kid};
use deny_base_lists::{NoMemory, Text};
use deny_krates_trees::grapher::GraphNode;
use deny_krates_trees::{InclusionGrapher, drop_trees, graphs_of};
use serde_json::Value;
use std::alloc::Global;

/// A value as a line.
pub fn line(alloc: Global, value: &Value) -> Result<Text, NoMemory>
    requires { has_float (view value.now) ≡ false }
    ensures { IfOk result (λ text. text ≡ line (view value.now)) }
{
    let mut text = Text::from_string(value.to_string(alloc)?);
    text.push_str("\n")?;
    Ok(text)
}

/// Appends the member `code` with a comma behind it, where there is a code.
fn write_code(alloc: Global, code: Option<DiagnosticCode>, out: &mut Text) -> Result<(), NoMemory>
    ensures { OnOk result (out.new ≡ out.old ++ code_text code) }
{
    if let Some(code) = code {
        out.push_str("\"code\":")?;
        let name = Value::try_from_str(alloc, code.name())?;
        write_value(alloc, &name, out)?;
        out.push_str(",")?;
    }
    Ok(())
}

/// A text without the brace that it begins with.
fn without_brace(text: &str) -> &str
    ensures { (rest : List ℕ) → text.now ≡ 123 ∷ rest → result.now ≡ rest }
{
    match text.strip_prefix('{') {
        Some(rest) => rest,
        None => text,
    }
}

/// Appends a comma, the members from the labels on, and the brace that ends them.
fn write_rest(
    alloc: Global,
    files: &Files,
    diagnostic: &Diagnostic,
    out: &mut Text,
) -> Result<(), NoMemory>
    ensures text { OnOk result
        (out.new ≡ out.old ++ members_text true (fields_after_code files.now diagnostic.now)) }
    ensures counted { OnOk result (AreCounted files.now diagnostic.now.labels) }
{
    let fields = Value::from(fields_from_labels(alloc, files, diagnostic)?);
    let mut text = Text::new(alloc);
    write_value(alloc, &fields, &mut text)?;
    out.push_str(",")?;
    out.push_str(without_brace(text.as_str()))?;
    Ok(())
}

/// The line of a diagnostic that is reported with these trees; its labels are in these files.
pub(crate) fn line_with_graphs(
    alloc: Global,
    files: &Files,
    diagnostic: &Diagnostic,
    graphs: &[GraphNode],
) -> Result<Text, NoMemory>
    ensures text { IfOk result (λ text. text ≡ line_with_graphs files.now diagnostic.now graphs.now) }
    ensures counted { OnOk result (AreCounted files.now diagnostic.now.labels) }
{
    let mut text = Text::from_str(alloc, "{\"fields\":{")?;
    write_code(alloc, diagnostic.code, &mut text)?;
    text.push_str("\"graphs\":")?;
    write_graphs(alloc, graphs, &mut text)?;
    write_rest(alloc, files, diagnostic, &mut text)?;
    text.push_str(",\"type\":\"diagnostic\"}\n")?;
    Ok(text)
}

/// The line of a finding about this crate, or about no single one, with the trees that it shows of the graph, `[]`
/// where it shows none. The trees are built for the line and then dropped. The lines and columns in it are numbers of
/// 64 bits. `NoMemory` where an allocation fails.
#[tactic(auto, unfolding(crate::specs::Lines::diag_line))]
pub fn diag_line(
    alloc: Global,
    files: &Files,
    grapher: &InclusionGrapher<'_>,
    kid: Option<&Kid>,
    diag: &Diag,
) -> Result<Text, NoMemory>
    ensures text { IfOk result (λ text. text
        ≡ diag_line files.now grapher.now.krates.now (option_copied kid.entry) diag.now) }
    ensures counted { OnOk result (AreCounted files.now diag.now.diag.labels) }
{
    let graphs = graphs_of(alloc, grapher, kid, diag)?;
    let text = line_with_graphs(alloc, files, &diag.diag, graphs.as_slice());
    drop_trees(graphs);
    text
}
