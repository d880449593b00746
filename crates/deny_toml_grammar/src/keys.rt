//! Keys: bare, quoted and dotted.
ghost use Rattle.std.specs.Prelude.{◌≡◌, ◌^◌, ◌<◌, ◌≤◌, true, length};
ghost use Rattle.deny_toml_grammar.specs.private.Keys as spec;
ghost use Rattle.deny_toml_grammar.specs.private.Reading.{Reads, Shortens, read_map};
ghost use Rattle.deny_toml_grammar.specs.Lexical as bytes;
ghost use Rattle.deny_toml_grammar.specs.Strings as strings;
ghost use Rattle.deny_toml_grammar.specs.private.Strings as own;

use crate::cow_str::CowStr;
use crate::lexical::{ByteClass, between, first, is_bare, skip, skip_spaces, split_run};
use crate::parts::Key;
use crate::read_error::ReadError;
use crate::strings::{one_line, starts_string};
use deny_base_lists::List;
use std::alloc::Global;

/// The largest number of parts of a key, and of arrays and inline tables nested in one another.
pub(crate) const DEPTH_LIMIT: usize = 64;

/// A key of a text of `total` bytes, and the spaces after it.
pub(crate) fn key<'t>(
    alloc: Global,
    total: usize,
    text: &'t str,
) -> Result<(List<Key<'t>>, &'t str), ReadError>
    requires within { length text.now ≤ total }
    requires small { total < 2 ^ 28 }
    ensures value { Reads result (spec.key total text.now) }
    ensures shorter { Shortens text.now result }
{
    let mut path = List::new(alloc);
    let mut rest = text;
    'parts: for _part in 0..DEPTH_LIMIT {
        let (part, after) = simple_key(alloc, total, rest)?;
        path.push(part)?;
        let after = skip_spaces(after);
        if first(after) != b'.' {
            return Ok((path, after));
        }
        rest = skip_spaces(skip(after, 1));
    }
    Err(ReadError::Grammar(rest.len()))
}

#[tactic(auto, unfolding(crate::specs::private::Keys::simple_key))]
fn simple_key<'t>(
    alloc: Global,
    total: usize,
    text: &'t str,
) -> Result<(Key<'t>, &'t str), ReadError>
    requires within { length text.now ≤ total }
    requires small { total < 2 ^ 28 }
    ensures value { Reads result (spec.simple_key total text.now) }
    ensures shorter { Shortens text.now result }
{
    if starts_string(text) {
        quoted_key(alloc, total, text)
    } else if is_bare(first(text)) {
        Ok(bare_key(total, text))
    } else {
        Err(ReadError::Grammar(text.len()))
    }
}

fn quoted_key<'t>(
    alloc: Global,
    total: usize,
    text: &'t str,
) -> Result<(Key<'t>, &'t str), ReadError>
    requires here { own.starts_string text.now ≡ true }
    requires within { length text.now ≤ total }
    requires small { total < 2 ^ 28 }
    ensures value { Reads result (read_map spec.quoted_key (strings.one_line total text.now)) }
    ensures shorter { Shortens text.now result }
{
    let (name, rest) = one_line(alloc, total, text)?;
    let key = Key {
        name: name.value,
        span: name.span,
    };
    Ok((key, rest))
}

fn bare_key<'t>(total: usize, text: &'t str) -> (Key<'t>, &'t str)
    requires bare { bytes.is_bare (bytes.first text.now) ≡ true }
    requires within { length text.now ≤ total }
    requires small { total < 2 ^ 28 }
    ensures value { (result.0, result.1.now) ≡ spec.bare_key total text.now }
    ensures shorter { length result.1.now < length text.now }
{
    let (name, rest) = split_run(text, ByteClass::Bare);
    let key = Key {
        name: CowStr::borrowed(name),
        span: between(total, text, rest),
    };
    (key, rest)
}
