//! Labels as JSON: their line and column, their message, and the text that they mark.
ghost use Rattle.std.specs.Prelude.{◌≡◌, ◌<◌, ◌^◌, IsTrue, IfOk, OnOk, codes, map};
ghost use Rattle.std.specs.Str.{IsCharBoundary};
ghost use Rattle.serde_json.specs.Data.{member, no_members, number, object, string, unsigned};
ghost use Rattle.serde_json.specs.View.{view};
ghost use Rattle.deny_base.specs.Files.{is_boundary};
ghost use Rattle.deny_gate_json.specs.Labels.{column_of, label_value, shown_line, marked};
ghost use Rattle.deny_gate_json.specs.Labels.{span_in, trimmed, without_end, without_start};
ghost use Rattle.deny_gate_json.specs.Reading.{AreCounted, IsCounted};

use deny_base::{Files, Label, Location, Span};
use serde_json::{Value, json};
use std::alloc::{AllocError, Global};

/// The line of a location, from 1; 0 where there is none.
fn shown_line(at: Option<Location>) -> u64
    ensures line { result ≡ shown_line at }
    ensures fits { shown_line at < 2 ^ 64 }
{
    match at {
        Some(at) => u64::from(at.line) + 1,
        None => 0,
    }
}

/// The column of a location, from 1; 0 where there is none.
fn column_of(at: Option<Location>) -> u64
    ensures column { result ≡ column_of at }
    ensures fits { column_of at < 2 ^ 64 }
{
    match at {
        Some(at) => u64::from(at.column) + 1,
        None => 0,
    }
}

/// Whether a character of the text begins at an offset, or the text ends there.
fn is_boundary(text: &str, offset: usize) -> bool
    ensures test { result ≡ is_boundary text.now offset }
    ensures boundary { IsTrue result → IsCharBoundary text.now offset }
{
    text.is_char_boundary(offset)
}

/// The text of a span; the empty text where its ends are no character boundaries.
#[tactic(auto, unfolding(crate::specs::Labels::span_in))]
fn span_in(text: &str, span: Span) -> &str
    ensures { result.now ≡ span_in text.now span }
{
    let start = span.start as usize;
    let end = span.end as usize;
    if start <= end && is_boundary(text, start) && is_boundary(text, end) {
        &text[start..end]
    } else {
        ""
    }
}

fn without_start(text: &str) -> &str
    ensures { result.now ≡ without_start text.now }
{
    let mut rest = text;
    while let Some(shorter) = rest.strip_prefix('"') {
        rest = shorter;
    }
    rest
}

fn without_end(text: &str) -> &str
    ensures { result.now ≡ without_end text.now }
{
    let mut rest = text;
    while let Some(shorter) = rest.strip_suffix('"') {
        rest = shorter;
    }
    rest
}

/// A text without the quotes at its ends.
#[tactic(auto, unfolding(crate::specs::Labels::trimmed))]
fn trimmed(text: &str) -> &str
    ensures { result.now ≡ trimmed text.now }
{
    without_end(without_start(text))
}

/// The text that a label marks, without the quotes at its ends.
#[tactic(auto, unfolding(crate::specs::Labels::marked))]
fn marked<'f>(files: &'f Files, label: &Label) -> &'f str
    ensures { result.now ≡ marked files.now label.now }
{
    match files.source(label.file_id) {
        Some(source) => trimmed(span_in(source, label.span)),
        None => "",
    }
}

/// A label with this line and column as JSON.
fn label_at(
    alloc: Global,
    column: u64,
    line: u64,
    message: &str,
    span: &str,
) -> Result<Value, AllocError>
    ensures { IfOk result (λ value. view value ≡ object
        (member (codes "column") (number (unsigned column)) (member (codes "line") (number (unsigned line))
        (member (codes "message") (string message.now) (member (codes "span") (string span.now) no_members))))) }
{
    json!(in alloc; {"column": column, "line": line, "message": message, "span": span})
}

/// A label as JSON.
#[tactic(auto, unfolding(crate::specs::Labels::label_value), using(crate::proofs::PlainLemmas::label_counted))]
fn label_value(alloc: Global, files: &Files, label: &Label) -> Result<Value, AllocError>
    ensures value { IfOk result (λ value. view value ≡ label_value files.now label.now) }
    ensures counted { OnOk result (IsCounted files.now label.now) }
{
    let at = files.location(label.file_id, label.span.start);
    let message = label.message.as_str();
    let span = marked(files, label);
    label_at(alloc, column_of(at), shown_line(at), message, span)
}

/// Labels as JSON, in their order.
pub fn label_values(
    alloc: Global,
    files: &Files,
    labels: &[Label],
) -> Result<Vec<Value>, AllocError>
    ensures values { IfOk result (λ values. map view values.items ≡ map (label_value files.now) labels.now) }
    ensures counted { OnOk result (AreCounted files.now labels.now) }
{
    let mut values = Vec::new(alloc);
    for label in labels {
        values.push(label_value(alloc, files, label)?)?;
    }
    Ok(values)
}
