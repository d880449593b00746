//! Values: scalars, arrays and inline tables, in a text of `total` bytes.
ghost use Rattle.std.specs.Prelude.{◌≡◌, ℕ, ◌^◌, ◌<◌, ◌≤◌, [], length, IfOk};
ghost use Rattle.deny_toml_grammar.specs.private.Reading.{Reads, Shortens};
ghost use Rattle.deny_toml_grammar.specs.private.Values as spec;

use crate::expression::{Assignment, Written, WrittenContent};
use crate::keys::key;
use crate::lexical::{between, first, skip, skip_blank, skip_spaces};
use crate::read_error::ReadError;
use crate::strings::{quoted, starts_string};
use crate::unquoted::unquoted;
use deny_base_lists::List;
use std::alloc::Global;

/// A value with arrays and inline tables at most `depth` deep.
#[cycle(reading)]
pub(crate) fn value<'t>(
    alloc: Global,
    total: usize,
    text: &'t str,
    depth: usize,
) -> Result<(Written<'t>, &'t str), ReadError>
    requires within { length text.now ≤ total }
    requires small { total < 2 ^ 28 }
    ensures value { Reads result (spec.value depth total text.now) }
    ensures shorter { Shortens text.now result }
{
    let byte = first(text);
    if byte != b'[' && byte != b'{' {
        return scalar(alloc, total, text);
    }
    if depth == 0 {
        return Err(ReadError::Grammar(text.len()));
    }
    if byte == b'[' {
        let (elements, rest) = array(alloc, total, skip(text, 1), depth - 1)?;
        Ok((
            whole(total, text, rest, WrittenContent::Array(elements)),
            rest,
        ))
    } else {
        let (members, rest) = inline_table(alloc, total, skip(text, 1), depth - 1)?;
        Ok((
            whole(total, text, rest, WrittenContent::InlineTable(members)),
            rest,
        ))
    }
}

/// The written value that reaches from `text` to `rest`.
fn whole<'t>(total: usize, text: &str, rest: &str, content: WrittenContent<'t>) -> Written<'t>
    requires within { length text.now ≤ total }
    requires shorter { length rest.now ≤ length text.now }
    requires small { total < 2 ^ 28 }
    ensures { result ≡ spec.written_from total text.now rest.now content.entry }
{
    Written {
        span: between(total, text, rest),
        content,
    }
}

#[tactic(auto, unfolding(crate::specs::private::Values::scalar))]
fn scalar<'t>(
    alloc: Global,
    total: usize,
    text: &'t str,
) -> Result<(Written<'t>, &'t str), ReadError>
    requires within { length text.now ≤ total }
    requires small { total < 2 ^ 28 }
    ensures value { Reads result (spec.scalar total text.now) }
    ensures shorter { Shortens text.now result }
{
    if starts_string(text) {
        let (string, rest) = quoted(alloc, total, text)?;
        let content = WrittenContent::Scalar(string.value);
        Ok((
            Written {
                span: string.span,
                content,
            },
            rest,
        ))
    } else {
        let (token, rest) = unquoted(text)?;
        Ok((
            whole(total, text, rest, WrittenContent::Scalar(token)),
            rest,
        ))
    }
}

/// The elements of an array, from after its opening bracket to its closing one.
#[cycle(reading)]
fn array<'t>(
    alloc: Global,
    total: usize,
    text: &'t str,
    depth: usize,
) -> Result<(List<Written<'t>>, &'t str), ReadError>
    requires within { length text.now ≤ total }
    requires small { total < 2 ^ 28 }
    ensures value { (n : ℕ) → length text.now < n
        → Reads result (spec.elements (spec.value depth total) n [] text.now) }
    ensures shorter { Shortens text.now result }
{
    let mut found = List::new(alloc);
    let mut rest = text;
    'elements: loop {
        let start = skip_blank(rest, true);
        if first(start) == b']' {
            return Ok((found, skip(start, 1)));
        }
        let (element, after) = value(alloc, total, start, depth)?;
        found.push(element)?;
        rest = after_element(after)?;
    }
}

/// The text after a comma, or from the closing bracket on.
#[tactic(auto, unfolding(crate::specs::private::Values::after_element))]
fn after_element(text: &str) -> Result<&str, ReadError>
    ensures value { spec.GivesRest result (spec.after_element text.now) }
    ensures within { IfOk result (λ rest. length rest.now ≤ length text.now) }
{
    let rest = skip_blank(text, true);
    if first(rest) == b',' {
        Ok(skip(rest, 1))
    } else if first(rest) == b']' {
        Ok(rest)
    } else {
        Err(ReadError::Grammar(rest.len()))
    }
}

/// The keys and values of an inline table, from after its opening brace to its closing one.
#[cycle(reading)]
fn inline_table<'t>(
    alloc: Global,
    total: usize,
    text: &'t str,
    depth: usize,
) -> Result<(List<Assignment<'t>>, &'t str), ReadError>
    requires within { length text.now ≤ total }
    requires small { total < 2 ^ 28 }
    ensures value { Reads result (spec.inline_table (spec.value depth total) total text.now) }
    ensures shorter { Shortens text.now result }
{
    let start = skip_spaces(text);
    if first(start) == b'}' {
        return Ok((List::new(alloc), skip(start, 1)));
    }
    members(alloc, total, start, depth)
}

#[cycle(reading)]
fn members<'t>(
    alloc: Global,
    total: usize,
    text: &'t str,
    depth: usize,
) -> Result<(List<Assignment<'t>>, &'t str), ReadError>
    requires within { length text.now ≤ total }
    requires small { total < 2 ^ 28 }
    ensures value { (n : ℕ) → length text.now < n
        → Reads result (spec.members (spec.value depth total) n total [] text.now) }
    ensures shorter { Shortens text.now result }
{
    let mut found = List::new(alloc);
    let mut rest = text;
    'members: loop {
        let (member, after) = assignment(alloc, total, rest, depth)?;
        found.push(member)?;
        let after = skip_spaces(after);
        if first(after) == b'}' {
            return Ok((found, skip(after, 1)));
        }
        if first(after) != b',' {
            return Err(ReadError::Grammar(after.len()));
        }
        rest = skip_spaces(skip(after, 1));
    }
}

/// A key and its value.
#[cycle(reading)]
pub(crate) fn assignment<'t>(
    alloc: Global,
    total: usize,
    text: &'t str,
    depth: usize,
) -> Result<(Assignment<'t>, &'t str), ReadError>
    requires within { length text.now ≤ total }
    requires small { total < 2 ^ 28 }
    ensures value { Reads result (spec.assignment (spec.value depth total) total text.now) }
    ensures shorter { Shortens text.now result }
{
    let (path, after) = key(alloc, total, text)?;
    if first(after) != b'=' {
        return Err(ReadError::Grammar(after.len()));
    }
    let (value, rest) = value(alloc, total, skip_spaces(skip(after, 1)), depth)?;
    Ok((Assignment { path, value }, rest))
}
