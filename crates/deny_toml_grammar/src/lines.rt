//! Headers, lines and the whole text.
ghost use Rattle.std.specs.Prelude.{◌≡◌, ◌^◌, ◌<◌, ◌≤◌, length};
ghost use Rattle.deny_toml_grammar.specs.private.Reading.{GivesAs, Reads, Shortens};
ghost use Rattle.deny_toml_grammar.specs.private.Lines as spec;

use crate::expression::{Header, TomlExpression};
use crate::keys::{DEPTH_LIMIT, key};
use crate::lexical::{first, skip, skip_blank, skip_spaces};
use crate::parts::Key;
use crate::read_error::ReadError;
use crate::values::assignment;
use deny_base_lists::List;
use std::alloc::Global;

/// The headers and assignments of a text, in its order.
#[tactic(auto, unfolding(crate::specs::private::Lines::expressions))]
pub(crate) fn expressions<'t>(
    alloc: Global,
    text: &'t str,
) -> Result<List<TomlExpression<'t>>, ReadError>
    requires small { length text.now < 2 ^ 28 }
    ensures { GivesAs (λ es. es) result (spec.expressions text.now) }
{
    let total = text.len();
    let mut found = List::new(alloc);
    let mut rest = text;
    'lines: loop {
        let start = skip_blank(rest, true);
        if start.is_empty() {
            return Ok(found);
        }
        let (expression, after) = line(alloc, total, start)?;
        found.push(expression)?;
        rest = after;
    }
}

/// An expression with nothing after it on its line but blanks and a comment.
#[tactic(auto, unfolding(crate::specs::private::Lines::line))]
fn line<'t>(
    alloc: Global,
    total: usize,
    text: &'t str,
) -> Result<(TomlExpression<'t>, &'t str), ReadError>
    requires within { length text.now ≤ total }
    requires small { total < 2 ^ 28 }
    ensures value { Reads result (spec.line total text.now) }
    ensures shorter { Shortens text.now result }
{
    let (expression, rest) = expression_at(alloc, total, text)?;
    let after = skip_spaces(rest);
    if ends_line(after) {
        Ok((expression, rest))
    } else {
        Err(ReadError::Grammar(after.len()))
    }
}

fn ends_line(text: &str) -> bool
    ensures { result ≡ spec.ends_line text.now }
{
    let byte = first(text);
    text.is_empty() || byte == b'#' || byte == b'\n' || byte == b'\r'
}

#[tactic(auto, unfolding(crate::specs::private::Lines::expression_at))]
fn expression_at<'t>(
    alloc: Global,
    total: usize,
    text: &'t str,
) -> Result<(TomlExpression<'t>, &'t str), ReadError>
    requires within { length text.now ≤ total }
    requires small { total < 2 ^ 28 }
    ensures value { Reads result (spec.expression_at total text.now) }
    ensures shorter { Shortens text.now result }
{
    if first(text) == b'[' {
        let (header, rest) = header(alloc, total, skip(text, 1))?;
        Ok((TomlExpression::Header(header), rest))
    } else {
        let (assignment, rest) = assignment(alloc, total, text, DEPTH_LIMIT)?;
        Ok((TomlExpression::Assignment(assignment), rest))
    }
}

/// A header after its first bracket.
#[tactic(auto, unfolding(crate::specs::private::Lines::header))]
fn header<'t>(
    alloc: Global,
    total: usize,
    text: &'t str,
) -> Result<(Header<'t>, &'t str), ReadError>
    requires within { length text.now ≤ total }
    requires small { total < 2 ^ 28 }
    ensures value { Reads result (spec.header total text.now) }
    ensures shorter { Shortens text.now result }
{
    if first(text) == b'[' {
        return array_header(alloc, total, skip(text, 1));
    }
    let (path, rest) = header_path(alloc, total, text)?;
    let header = Header {
        path,
        is_array: false,
    };
    Ok((header, rest))
}

#[tactic(auto, unfolding(crate::specs::private::Lines::array_header))]
fn array_header<'t>(
    alloc: Global,
    total: usize,
    text: &'t str,
) -> Result<(Header<'t>, &'t str), ReadError>
    requires within { length text.now ≤ total }
    requires small { total < 2 ^ 28 }
    ensures value { Reads result (spec.array_header total text.now) }
    ensures shorter { Shortens text.now result }
{
    let (path, rest) = header_path(alloc, total, text)?;
    if first(rest) != b']' {
        return Err(ReadError::Grammar(rest.len()));
    }
    let header = Header {
        path,
        is_array: true,
    };
    Ok((header, skip(rest, 1)))
}

/// The key of a header after its opening brackets, and the first closing one.
#[tactic(auto, unfolding(crate::specs::private::Lines::header_path))]
fn header_path<'t>(
    alloc: Global,
    total: usize,
    text: &'t str,
) -> Result<(List<Key<'t>>, &'t str), ReadError>
    requires within { length text.now ≤ total }
    requires small { total < 2 ^ 28 }
    ensures value { Reads result (spec.header_path total text.now) }
    ensures shorter { Shortens text.now result }
{
    let (path, rest) = key(alloc, total, skip_spaces(text))?;
    if first(rest) != b']' {
        return Err(ReadError::Grammar(rest.len()));
    }
    Ok((path, skip(rest, 1)))
}
