//! Diagnostics as JSON, built from the last member to the first: a member that may be left out is put in front of
//! those behind it.
ghost use Rattle.std.specs.Prelude.{◌≡◌, IfOk, OnOk, map};
ghost use Rattle.serde_json.specs.Data.{string};
ghost use Rattle.serde_json.specs.View.{members_view, view};
ghost use Rattle.deny_gate_json.specs.Diagnostics.{diagnostic_value, fields_after_code};
ghost use Rattle.deny_gate_json.specs.Diagnostics.{fields_after_labels, fields_of, notes_of, severity_word};
ghost use Rattle.deny_gate_json.specs.Reading.{AreCounted};

use crate::labels::label_values;
use deny_base::{Diagnostic, Files, Severity};
use deny_base_lists::{NoMemory, Text};
use serde_json::{Map, Value, json, put};
use std::alloc::{AllocError, Global};

/// A diagnostic, by its name in `codespan`.
pub type CsDiag = Diagnostic;

/// The word of a severity.
fn severity_word(severity: Severity) -> &'static str
    ensures { result.now ≡ severity_word severity }
{
    match severity {
        Severity::Bug => "bug",
        Severity::Error => "error",
        Severity::Warning => "warning",
        Severity::Note => "note",
        Severity::Help => "help",
    }
}

/// Notes as JSON, in their order.
fn note_values(alloc: Global, notes: &[Text]) -> Result<Vec<Value>, AllocError>
    ensures { IfOk result (λ values. map view values.items ≡ map string notes.now) }
{
    let mut values = Vec::new(alloc);
    for note in notes {
        values.push(Value::try_from_str(alloc, note.as_str())?)?;
    }
    Ok(values)
}

/// The fields from the notes on.
fn fields_from_notes(
    alloc: Global,
    diagnostic: &Diagnostic,
) -> Result<Map<String, Value>, AllocError>
    ensures { IfOk result (λ fields. members_view fields.entries ≡ notes_of diagnostic.now) }
{
    let mut fields = Map::new(alloc);
    let severity = Value::try_from_str(alloc, severity_word(diagnostic.severity))?;
    put(&mut fields, alloc, "severity", severity)?;
    if diagnostic.notes.as_slice().is_empty() {
        return Ok(fields);
    }
    let notes = note_values(alloc, diagnostic.notes.as_slice())?;
    put(&mut fields, alloc, "notes", Value::from(notes))?;
    Ok(fields)
}

/// The fields from the message on.
fn fields_from_message(
    alloc: Global,
    diagnostic: &Diagnostic,
) -> Result<Map<String, Value>, AllocError>
    ensures { IfOk result (λ fields. members_view fields.entries ≡ fields_after_labels diagnostic.now) }
{
    let mut fields = fields_from_notes(alloc, diagnostic)?;
    let message = Value::try_from_str(alloc, diagnostic.message.as_str())?;
    put(&mut fields, alloc, "message", message)?;
    Ok(fields)
}

/// The fields from the labels on.
pub(crate) fn fields_from_labels(
    alloc: Global,
    files: &Files,
    diagnostic: &Diagnostic,
) -> Result<Map<String, Value>, AllocError>
    ensures fields { IfOk result (λ fields. members_view fields.entries ≡ fields_after_code files.now diagnostic.now) }
    ensures counted { OnOk result (AreCounted files.now diagnostic.now.labels) }
{
    let mut fields = fields_from_message(alloc, diagnostic)?;
    if diagnostic.labels.as_slice().is_empty() {
        return Ok(fields);
    }
    let labels = label_values(alloc, files, diagnostic.labels.as_slice())?;
    put(&mut fields, alloc, "labels", Value::from(labels))?;
    Ok(fields)
}

/// The fields of a diagnostic.
fn fields_of(
    alloc: Global,
    files: &Files,
    diagnostic: &Diagnostic,
) -> Result<Map<String, Value>, AllocError>
    ensures { IfOk result (λ fields. members_view fields.entries ≡ fields_of files.now diagnostic.now) }
{
    let mut fields = fields_from_labels(alloc, files, diagnostic)?;
    if let Some(code) = diagnostic.code {
        let code = Value::try_from_str(alloc, code.name())?;
        put(&mut fields, alloc, "code", code)?;
        return Ok(fields);
    }
    Ok(fields)
}

/// A diagnostic as JSON; its labels are in these files.
#[tactic(auto, unfolding(crate::specs::Diagnostics::diagnostic_value))]
pub fn diagnostic_value(
    alloc: Global,
    files: &Files,
    diagnostic: &Diagnostic,
) -> Result<Value, AllocError>
    ensures { IfOk result (λ value. view value ≡ diagnostic_value files.now diagnostic.now) }
{
    let fields = Value::from(fields_of(alloc, files, diagnostic)?);
    json!(in alloc; {"fields": fields, "type": "diagnostic"})
}

/// A diagnostic as JSON, without trees; its labels are in these files. A label that is in none of them gets line
/// and column 0, and the empty text. `NoMemory` where an allocation fails.
pub fn cs_diag_to_json(alloc: Global, diag: CsDiag, files: &Files) -> Result<Value, NoMemory>
    ensures { IfOk result (λ value. view value ≡ diagnostic_value files.now diag) }
{
    Ok(diagnostic_value(alloc, files, &diag)?)
}
