//! The tree of a text in JSON. It is written from a list of the parts that are left, so that the depth of the
//! text takes no stack.

use deny_base::Span;
use deny_toml::{Content, Key, Scalar, Table, Value};
use std::alloc::{AllocError, Global};

/// A part of the tree that is left to be written.
#[derive(Drop)]
enum Pending<'v, 't> {
    Text(&'static str),
    /// The end of an array with this span, after its elements.
    ArrayEnd(Span),
    Value(&'v Value<'t>),
    Entry(&'v (Key<'t>, Value<'t>)),
}

/// Writes a value: its span, and its content under the name of its kind.
pub(crate) fn push_tree(
    alloc: Global,
    value: &Value<'_>,
    written: &mut String,
) -> Result<(), AllocError> {
    let mut left = Vec::new(alloc);
    left.push(Pending::Value(value))?;
    push_pieces(alloc, &mut left, written)
}

fn push_pieces<'v, 't>(
    alloc: Global,
    left: &mut Vec<Pending<'v, 't>>,
    written: &mut String,
) -> Result<(), AllocError> {
    for _piece in 0..u64::MAX {
        match left.pop() {
            Some(piece) => push_piece(alloc, piece, left, written)?,
            None => break,
        }
    }
    Ok(())
}

/// Writes a part up to the first value in it, and leaves the rest.
fn push_piece<'v, 't>(
    alloc: Global,
    piece: Pending<'v, 't>,
    left: &mut Vec<Pending<'v, 't>>,
    written: &mut String,
) -> Result<(), AllocError> {
    match piece {
        Pending::Text(text) => written.push_str(text),
        Pending::ArrayEnd(span) => push_array_end(&span, written),
        Pending::Value(value) => push_value(alloc, value, left, written),
        Pending::Entry(entry) => push_entry(alloc, entry, left, written),
    }
}

fn push_value<'v, 't>(
    alloc: Global,
    value: &'v Value<'t>,
    left: &mut Vec<Pending<'v, 't>>,
    written: &mut String,
) -> Result<(), AllocError> {
    match &value.content {
        Content::Scalar(scalar) => push_scalar(alloc, scalar, &value.span, written),
        Content::Array(elements) => push_array(elements.as_slice(), &value.span, left, written),
        Content::Table(table) => push_table(table, &value.span, left, written),
    }
}

fn push_array<'v, 't>(
    elements: &'v [Value<'t>],
    span: &Span,
    left: &mut Vec<Pending<'v, 't>>,
    written: &mut String,
) -> Result<(), AllocError> {
    written.push_str("{\"array\":[")?;
    left.push(Pending::ArrayEnd(*span))?;
    leave_elements(elements, left)
}

fn push_array_end(span: &Span, written: &mut String) -> Result<(), AllocError> {
    written.push_str("]")?;
    push_last_span(span, written)
}

fn push_table<'v, 't>(
    table: &'v Table<'t>,
    span: &Span,
    left: &mut Vec<Pending<'v, 't>>,
    written: &mut String,
) -> Result<(), AllocError> {
    push_first_span(span, written)?;
    written.push_str("\"table\":[")?;
    left.push(Pending::Text("]}"))?;
    leave_entries(table, left)
}

/// Leaves the elements, the first on top, with commas between them.
fn leave_elements<'v, 't>(
    elements: &'v [Value<'t>],
    left: &mut Vec<Pending<'v, 't>>,
) -> Result<(), AllocError> {
    for (index, element) in elements.iter().enumerate().rev() {
        leave(Pending::Value(element), index, left)?;
    }
    Ok(())
}

/// Leaves the keys with their values, the first on top, with commas between them.
fn leave_entries<'v, 't>(
    table: &'v Table<'t>,
    left: &mut Vec<Pending<'v, 't>>,
) -> Result<(), AllocError> {
    for (index, entry) in table.entries().iter().enumerate().rev() {
        leave(Pending::Entry(entry), index, left)?;
    }
    Ok(())
}

/// Leaves the part with this index in its list, with a comma before it where it is not the first.
fn leave<'v, 't>(
    piece: Pending<'v, 't>,
    index: usize,
    left: &mut Vec<Pending<'v, 't>>,
) -> Result<(), AllocError> {
    left.push(piece)?;
    if index > 0 {
        left.push(Pending::Text(","))?;
    }
    Ok(())
}

/// Writes an entry up to its value.
fn push_entry<'v, 't>(
    alloc: Global,
    entry: &'v (Key<'t>, Value<'t>),
    left: &mut Vec<Pending<'v, 't>>,
    written: &mut String,
) -> Result<(), AllocError> {
    push_key(alloc, &entry.0, written)?;
    left.push(Pending::Text("}"))?;
    left.push(Pending::Value(&entry.1))?;
    Ok(())
}

fn push_key(alloc: Global, key: &Key<'_>, written: &mut String) -> Result<(), AllocError> {
    push_string(alloc, "{\"key\":", key.name.as_str(), written)?;
    written.push_str(",\"span\":")?;
    push_span(&key.span, written)?;
    written.push_str(",\"value\":")
}

/// Writes a scalar under the name of its kind and its span, in the order of their names.
fn push_scalar(
    alloc: Global,
    scalar: &Scalar<'_>,
    span: &Span,
    written: &mut String,
) -> Result<(), AllocError> {
    match scalar {
        Scalar::Text(text) => push_text(alloc, text.as_str(), span, written),
        Scalar::Multiline(text) => {
            push_member(alloc, "{\"multiline\":", text.as_str(), span, written)
        }
        Scalar::Integer(number) => push_integer(*number, span, written),
        Scalar::Float(text) => push_member(alloc, "{\"float\":", text.as_str(), span, written),
        Scalar::Boolean(is_true) => push_boolean(*is_true, span, written),
        Scalar::Date(text) => push_member(alloc, "{\"date\":", text.as_str(), span, written),
    }
}

fn push_text(
    alloc: Global,
    text: &str,
    span: &Span,
    written: &mut String,
) -> Result<(), AllocError> {
    push_first_span(span, written)?;
    push_string(alloc, "\"text\":", text, written)?;
    written.push_str("}")
}

fn push_member(
    alloc: Global,
    before: &str,
    text: &str,
    span: &Span,
    written: &mut String,
) -> Result<(), AllocError> {
    push_string(alloc, before, text, written)?;
    push_last_span(span, written)
}

fn push_integer(number: i64, span: &Span, written: &mut String) -> Result<(), AllocError> {
    written.push_str("{\"integer\":")?;
    written.write(number)?;
    push_last_span(span, written)
}

fn push_boolean(is_true: bool, span: &Span, written: &mut String) -> Result<(), AllocError> {
    written.push_str("{\"boolean\":")?;
    written.push_str(if is_true { "true" } else { "false" })?;
    push_last_span(span, written)
}

/// Writes a text as a JSON string, after the text before it.
fn push_string(
    alloc: Global,
    before: &str,
    text: &str,
    written: &mut String,
) -> Result<(), AllocError> {
    written.push_str(before)?;
    let string = String::from_str(alloc, text)?;
    written.write(serde_json::Value::String(string))
}

/// Writes a span as the first member of an object.
fn push_first_span(span: &Span, written: &mut String) -> Result<(), AllocError> {
    written.push_str("{\"span\":")?;
    push_span(span, written)?;
    written.push_str(",")
}

/// Writes a span as the last member of an object.
fn push_last_span(span: &Span, written: &mut String) -> Result<(), AllocError> {
    written.push_str(",\"span\":")?;
    push_span(span, written)?;
    written.push_str("}")
}

fn push_span(span: &Span, written: &mut String) -> Result<(), AllocError> {
    written.push_str("[")?;
    written.write(span.start)?;
    written.push_str(",")?;
    written.write(span.end)?;
    written.push_str("]")
}
