//! The calls on values and tables.
ghost use Rattle.std.specs.Prelude.{◌≡◌, ◌≤◌, ◌+◌, ◌-◌, ◌*◌, ◌<◌, ◌==◌, ◌∷◌, [], true, length, IfSome};
ghost use Rattle.std.specs.Prelude.{IfNone, IfOk, IfErr, Some, None, is_some, nat_eq, position};
ghost use Rattle.std.specs.Cmp.Lexicographic.{pointwise};
ghost use Rattle.std.specs.Option.{option_copied, option_map};
ghost use Rattle.deny_toml_tree.specs.Value.{entries_in};
ghost use Rattle.deny_toml_tree.specs.Faults.{Reports, faults_of_kind};
ghost use Rattle.deny_toml_tree.specs.Calls.{table_in, array_in, text_in, bool_in, integer_in, date_in};
ghost use Rattle.deny_toml_tree.specs.Calls.{below_name, has_name};
ghost use Rattle.deny_toml_tree.specs.private.Calls.{IsPast};
ghost use Rattle.deny_toml_tree.specs.Calls.{below, layer_in, value_below, value_at_path, parts_of, is_decimal_digit};
ghost use Rattle.deny_toml_tree.specs.Calls as spec;

use crate::error::DeserError;
use crate::value::{Content, Table, Value};
use deny_base::Span;
use deny_base_lists::Text;
use deny_toml_grammar::{CowStr, Key, Scalar};
use std::alloc::Global;
use std::mem;

impl<'t> Value<'t> {
    /// The table that this value is, if it is one.
    pub fn as_table(&self) -> Option<&Table<'t>>
        ensures { option_copied result ≡ table_in self.now }
    {
        match &self.content {
            Content::Table(table) => Some(table),
            _ => None,
        }
    }

    /// The elements, if this value is an array.
    pub fn as_array(&self) -> Option<&[Value<'t>]>
        ensures { option_map (λ items. items.now) result ≡ array_in self.now }
    {
        match &self.content {
            Content::Array(items) => Some(items.as_slice()),
            _ => None,
        }
    }

    /// The text, if this value is a string.
    pub fn as_str(&self) -> Option<&str>
        ensures { option_map (λ text. text.now) result ≡ text_in self.now }
    {
        match &self.content {
            Content::Scalar(Scalar::Text(text) | Scalar::Multiline(text)) => Some(text.as_str()),
            _ => None,
        }
    }

    /// Whether this value is a one-line string without escapes, so that its text is the bytes of
    /// its span.
    pub fn is_verbatim(&self) -> bool
        ensures { result ≡ spec.is_verbatim self.now }
    {
        match &self.content {
            Content::Scalar(Scalar::Text(text)) => is_so_long(self.span, text.as_str().len()),
            _ => false,
        }
    }

    /// The boolean, if this value is one.
    pub fn as_bool(&self) -> Option<bool>
        ensures { result ≡ bool_in self.now }
    {
        match &self.content {
            Content::Scalar(Scalar::Boolean(is_true)) => Some(*is_true),
            _ => None,
        }
    }

    /// The integer, if this value is one. A float is none.
    pub fn as_integer(&self) -> Option<i64>
        ensures { result ≡ integer_in self.now }
    {
        match &self.content {
            Content::Scalar(Scalar::Integer(number)) => Some(*number),
            _ => None,
        }
    }

    /// The text of the date, the time or both that this value is, as it is written, if it is one. A
    /// string is none.
    pub fn as_date(&self) -> Option<&str>
        ensures { option_map (λ text. text.now) result ≡ date_in self.now }
    {
        match &self.content {
            Content::Scalar(Scalar::Date(text)) => Some(text.as_str()),
            _ => None,
        }
    }

    /// Whether this value is a table with that key.
    pub fn has_key(&self, name: &str) -> bool
        ensures { result ≡ is_some (below_name name.now self.now) }
    {
        match self.as_table() {
            Some(table) => table.get_key_value(name).is_some(),
            None => false,
        }
    }

    /// The value at a path below this one, each part of which follows a `/`: in a table the name of
    /// a key, in an array a decimal index from 0. The empty path is this value itself.
    pub fn pointer(&self, path: &str) -> Option<&Value<'t>>
        ensures { option_copied result ≡ value_at_path path.now self.now }
    {
        match path.as_bytes() {
            [] => Some(self),
            [b'/', parts @ ..] => self.below_parts(parts),
            _ => None,
        }
    }

    fn below_parts(&self, path: &[u8]) -> Option<&Value<'t>>
        ensures { option_copied result ≡ value_below (parts_of path.now) self.now }
    {
        match first_part(path) {
            None => self.below(path),
            Some((part, rest)) => self.below(part)?.below_parts(rest),
        }
    }

    /// Takes the string out of this value. A value of another kind is unchanged, and is the only
    /// fault.
    pub fn take_string(&mut self, alloc: Global) -> Result<Text, DeserError>
        ensures ok { IfOk result (λ text. text_in self.old ≡ Some text) }
        ensures faults { IfErr result (Reports (faults_of_kind self.old (text_in self.old))) }
        ensures stays { text_in self.old ≡ None → self.new ≡ self.old }
    {
        match &mut self.content {
            Content::Scalar(Scalar::Text(text) | Scalar::Multiline(text)) => {
                let text = mem::replace(text, CowStr::borrowed(""));
                Ok(text.into_text(alloc)?)
            }
            _ => Err(DeserError::wrong_kind(alloc, self.span)),
        }
    }

    /// The value at one part of a path.
    fn below(&self, part: &[u8]) -> Option<&Value<'t>>
        ensures { option_copied result ≡ below part.now (layer_in self.now) }
    {
        match &self.content {
            Content::Scalar(_) => None,
            Content::Array(elements) => element_at(elements.as_slice(), part),
            Content::Table(table) => Some(&entry_at(table.entries(), part)?.1),
        }
    }
}

impl<'t> Table<'t> {
    /// The keys with their values, in byte order of the keys' names.
    pub fn entries(&self) -> &[(Key<'t>, Value<'t>)]
        ensures { result.now ≡ entries_in self.now }
    {
        self.entries.as_slice()
    }

    /// The key of that name, with its value.
    pub fn get_key_value(&self, name: &str) -> Option<(&Key<'t>, &Value<'t>)>
        ensures { option_map (λ entry. (entry.0.now, entry.1.now)) result
            ≡ spec.entry_at name.now (entries_in self.now) }
    {
        let entry = entry_at(self.entries.as_slice(), name.as_bytes())?;
        Some((&entry.0, &entry.1))
    }
}

fn is_named(key: &Key<'_>, name: &[u8]) -> bool
    ensures { result ≡ pointwise nat_eq key.now.name name.now }
{
    key.name.as_str().as_bytes() == name
}

/// Whether a span has this length.
fn is_so_long(span: Span, len: usize) -> bool
    ensures { result ≡ (span.start + len == span.end) }
{
    u128::from(span.start) + len as u128 == u128::from(span.end)
}

/// The index of the first entry of that name.
pub fn index_named(entries: &[(Key<'_>, Value<'_>)], name: &[u8]) -> Option<usize>
    ensures { result ≡ position (has_name name.now) entries.now }
{
    entries.iter().position(|entry| is_named(&entry.0, name))
}

fn entry_at<'v, 't>(
    entries: &'v [(Key<'t>, Value<'t>)],
    name: &[u8],
) -> Option<&'v (Key<'t>, Value<'t>)>
    ensures { option_copied result ≡ spec.entry_at name.now entries.now }
{
    let index = index_named(entries, name)?;
    Some(&entries[index])
}

/// The part before the first `/`, and the path after it.
fn first_part(path: &[u8]) -> Option<(&[u8], &[u8])>
    ensures none { IfNone result (parts_of path.now ≡ path.now ∷ []) }
    ensures parts { IfSome result (λ split. parts_of path.now ≡ split.0.now ∷ parts_of split.1.now) }
    ensures shorter { IfSome result (λ split. length split.1.now < length path.now) }
{
    let end = slash_in(path)?;
    Some((&path[..end], &path[end + 1..]))
}

fn slash_in(path: &[u8]) -> Option<usize>
    ensures { result ≡ position (λ b. b == 47) path.now }
{
    path.iter().position(|byte| *byte == b'/')
}

fn element_at<'v, 't>(elements: &'v [Value<'t>], part: &[u8]) -> Option<&'v Value<'t>>
    ensures { option_copied result ≡ spec.element_at part.now elements.now }
{
    let index = part_index(part, elements.len())?;
    elements.get(index)
}

/// The index that the part writes, if it is below `count`.
fn part_index(part: &[u8], count: usize) -> Option<usize>
    ensures found { IfSome result (λ index. spec.part_index part.now ≡ Some index) }
    ensures past { IfNone result (IsPast count (spec.part_index part.now)) }
{
    match part {
        [] | [b'0', _, ..] => None,
        _ => digits_index(part, count),
    }
}

fn digits_index(digits: &[u8], count: usize) -> Option<usize>
    ensures found { IfSome result (λ index. spec.digits_index 0 digits.now ≡ Some index) }
    ensures past { IfNone result (IsPast count (spec.digits_index 0 digits.now)) }
{
    let mut index: usize = 0;
    'digits: for byte in digits {
        index = next_index(index, *byte, count)?;
    }
    Some(index)
}

/// The index after one more digit, if it is below `count`.
fn next_index(index: usize, byte: u8, count: usize) -> Option<usize>
    ensures digit { IfSome result (λ next. is_decimal_digit byte ≡ true) }
    ensures next { IfSome result (λ next. next ≡ index * 10 + (byte - 48)) }
    ensures past { IfNone result (is_decimal_digit byte ≡ true → count ≤ index * 10 + (byte - 48)) }
{
    if !byte.is_ascii_digit() {
        return None;
    }
    let next = index as u128 * 10 + u128::from(byte - b'0');
    if next < count as u128 {
        Some(next as usize)
    } else {
        None
    }
}
