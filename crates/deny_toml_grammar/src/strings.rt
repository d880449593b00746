//! Strings of all four kinds.
ghost use Rattle.std.specs.Prelude.{◌≡◌, ℕ, ◌+◌, ◌^◌, ◌<◌, ◌≤◌, true, false, if◌then◌else◌, length};
ghost use Rattle.std.specs.Prelude.{slice_index, option_map, IfOk, IfSome, Some, None};
ghost use Rattle.deny_toml_grammar.specs.Strings as spec;
ghost use Rattle.deny_toml_grammar.specs.private.Strings as own;
ghost use Rattle.deny_toml_grammar.specs.private.Reading.{Reads, Shortens, ReadsPiece, read_map};

use crate::cow_str::CowStr;
use crate::lexical::{
    ByteClass, byte_at, first, offset, run_len, skip, skip_blank, skip_spaces, split_run,
    starts_newline,
};
use crate::parts::Scalar;
use crate::read_error::ReadError;
use deny_base::{Span, Spanned};
use std::alloc::Global;

/// Whether the text begins with a quote or an apostrophe.
#[inline]
pub(crate) fn starts_string(text: &str) -> bool
    ensures { result ≡ own.starts_string text.now }
{
    first(text) == b'"' || first(text) == b'\''
}

/// A string of any kind, from its delimiter on, with the span between its delimiters in a text of
/// `total` bytes.
#[tactic(auto, unfolding(crate::specs::Strings::quoted))]
pub(crate) fn quoted<'t>(
    alloc: Global,
    total: usize,
    text: &'t str,
) -> Result<(Spanned<Scalar<'t>>, &'t str), ReadError>
    requires here { own.starts_string text.now ≡ true }
    requires within { length text.now ≤ total }
    requires small { total < 2 ^ 28 }
    ensures value { Reads result (spec.quoted total text.now) }
    ensures shorter { Shortens text.now result }
{
    let delimiter = first(text);
    if byte_at(text.as_bytes(), 1) == delimiter && byte_at(text.as_bytes(), 2) == delimiter {
        let (Spanned { value, span }, rest) = multi_line(alloc, total, text)?;
        let value = Scalar::Multiline(value);
        Ok((Spanned { value, span }, rest))
    } else {
        let (Spanned { value, span }, rest) = one_line(alloc, total, text)?;
        let value = Scalar::Text(value);
        Ok((Spanned { value, span }, rest))
    }
}

/// A string on one line.
#[tactic(auto, unfolding(crate::specs::Strings::one_line))]
pub(crate) fn one_line<'t>(
    alloc: Global,
    total: usize,
    text: &'t str,
) -> Result<(Spanned<CowStr<'t>>, &'t str), ReadError>
    requires here { own.starts_string text.now ≡ true }
    requires within { length text.now ≤ total }
    requires small { total < 2 ^ 28 }
    ensures value { Reads result (spec.one_line total text.now) }
    ensures shorter { Shortens text.now result }
{
    let from = skip(text, 1);
    let (value, rest) = content(alloc, from, first(text), false)?;
    let span = Span {
        start: offset(total, from),
        end: offset(total, rest) - 1,
    };
    Ok((Spanned { value, span }, rest))
}

#[tactic(auto, unfolding(crate::specs::Strings::multi_line))]
fn multi_line<'t>(
    alloc: Global,
    total: usize,
    text: &'t str,
) -> Result<(Spanned<CowStr<'t>>, &'t str), ReadError>
    requires here { own.starts_string text.now ≡ true }
    requires second { slice_index text.now 1 ≡ slice_index text.now 0 }
    requires third { slice_index text.now 2 ≡ slice_index text.now 0 }
    requires within { length text.now ≤ total }
    requires small { total < 2 ^ 28 }
    ensures value { Reads result (spec.multi_line total text.now) }
    ensures shorter { Shortens text.now result }
{
    let from = skip(text, 3);
    let (value, rest) = content(alloc, trim_newline(from), first(text), true)?;
    let span = Span {
        start: offset(total, from),
        end: offset(total, rest) - 3,
    };
    Ok((Spanned { value, span }, rest))
}

fn trim_newline(text: &str) -> &str
    ensures rest { result.now ≡ spec.trim_newline text.now }
    ensures within { length result.now ≤ length text.now }
{
    if first(text) == b'\n' {
        skip(text, 1)
    } else if starts_newline(text) {
        skip(text, 2)
    } else {
        text
    }
}

/// The content of a string, which is borrowed where each byte writes itself.
fn content<'t>(
    alloc: Global,
    text: &'t str,
    delimiter: u8,
    multi: bool,
) -> Result<(CowStr<'t>, &'t str), ReadError>
    requires some { 0 < delimiter }
    requires ascii { delimiter < 128 }
    ensures value { (n : ℕ) → length text.now < n → Reads result (spec.content delimiter multi n text.now) }
    ensures shorter { spec.Closes multi text.now result }
{
    let (plain, after) = split_run(text, ByteClass::Plain(delimiter, multi));
    if let Some(rest) = closing(after, delimiter, multi) {
        return Ok((CowStr::borrowed(plain), rest));
    }
    let (bytes, rest) = owned_content(alloc, text, delimiter, multi)?;
    Ok((CowStr::owned(bytes), rest))
}

/// The text after the closing delimiters, where it begins with them.
#[tactic(auto, unfolding(crate::specs::Strings::special))]
fn closing(text: &str, delimiter: u8, multi: bool) -> Option<&str>
    requires some { 0 < delimiter }
    requires ascii { delimiter < 128 }
    ensures ends { IfSome result (λ rest. spec.special delimiter multi text.now ≡ Some (None, rest.now)) }
    ensures shorter { IfSome result (λ rest. length rest.now + (if multi then 3 else 1) ≤ length text.now) }
{
    if first(text) != delimiter {
        return None;
    }
    if !multi {
        return Some(skip(text, 1));
    }
    if run_len(text.as_bytes(), ByteClass::Byte(delimiter)) == 3 {
        Some(skip(text, 3))
    } else {
        None
    }
}

fn owned_content(
    alloc: Global,
    text: &str,
    delimiter: u8,
    multi: bool,
) -> Result<(String, &str), ReadError>
    requires some { 0 < delimiter }
    requires ascii { delimiter < 128 }
    ensures value { (n : ℕ) → length text.now < n → own.ReadsBytes result (spec.content delimiter multi n text.now) }
    ensures shorter { spec.Closes multi text.now result }
{
    let mut bytes = String::new(alloc);
    let mut rest = text;
    'pieces: loop {
        let (plain, after) = split_run(rest, ByteClass::Plain(delimiter, multi));
        bytes.push_str(plain)?;
        let (goes_on, next) = special(&mut bytes, after, delimiter, multi)?;
        if !goes_on {
            return Ok((bytes, next));
        }
        rest = next;
    }
}

/// Appends the bytes that a byte which is not plain writes. The flag is false at the end of the
/// string.
fn special<'t>(
    bytes: &mut String,
    text: &'t str,
    delimiter: u8,
    multi: bool,
) -> Result<(bool, &'t str), ReadError>
    requires some { 0 < delimiter }
    requires ascii { delimiter < 128 }
    ensures value { ReadsPiece bytes.old bytes.new result (spec.special delimiter multi text.now) }
    ensures shorter { Shortens text.now result }
    ensures closes { IfOk result (λ p. p.0 ≡ false → length p.1.now + (if multi then 3 else 1) ≤ length text.now) }
{
    let byte = first(text);
    if byte == delimiter {
        if multi {
            at_delimiters(bytes, text, delimiter)
        } else {
            Ok((false, skip(text, 1)))
        }
    } else if byte == b'\\' {
        escape(bytes, skip(text, 1), multi)
    } else if multi && starts_newline(text) {
        bytes.push(char::from(byte))?;
        Ok((true, skip(text, 1)))
    } else {
        Err(ReadError::Grammar(text.len()))
    }
}

fn at_delimiters<'t>(
    bytes: &mut String,
    text: &'t str,
    delimiter: u8,
) -> Result<(bool, &'t str), ReadError>
    requires some { 0 < delimiter }
    requires ascii { delimiter < 128 }
    requires here { slice_index text.now 0 ≡ delimiter }
    ensures value { ReadsPiece bytes.old bytes.new result (spec.at_delimiters delimiter text.now) }
    ensures shorter { Shortens text.now result }
    ensures closes { IfOk result (λ p. p.0 ≡ false → length p.1.now + 3 ≤ length text.now) }
{
    let count = run_len(text.as_bytes(), ByteClass::Byte(delimiter));
    if count == 3 {
        Ok((false, skip(text, 3)))
    } else if count < 6 {
        bytes.push(char::from(delimiter))?;
        Ok((true, skip(text, 1)))
    } else {
        Err(ReadError::Grammar(text.len()))
    }
}

fn escape<'t>(bytes: &mut String, text: &'t str, multi: bool) -> Result<(bool, &'t str), ReadError>
    ensures value { ReadsPiece bytes.old bytes.new result (read_map Some (spec.escape multi text.now)) }
    ensures within { IfOk result (λ p. length p.1.now ≤ length text.now) }
    ensures goes_on { IfOk result (λ p. p.0 ≡ true) }
{
    if multi && starts_newline(skip_spaces(text)) {
        return Ok((true, skip_blank(text, false)));
    }
    let Some((character, rest)) = escape_char(text) else {
        return Err(ReadError::Grammar(text.len()));
    };
    bytes.push(character)?;
    Ok((true, rest))
}

#[tactic(auto, unfolding(crate::specs::Strings::escape_char))]
fn escape_char(text: &str) -> Option<(char, &str)>
    ensures value { option_map (λ p. (p.0, p.1.now)) result ≡ spec.escape_char text.now }
    ensures within { IfSome result (λ p. length p.1.now ≤ length text.now) }
{
    let character = match first(text) {
        b'u' => return hex_escape(skip(text, 1), 4),
        b'U' => return hex_escape(skip(text, 1), 8),
        b'b' => '\u{8}',
        b't' => '\t',
        b'n' => '\n',
        b'f' => '\u{c}',
        b'r' => '\r',
        b'"' => '"',
        b'\\' => '\\',
        _ => return None,
    };
    Some((character, skip(text, 1)))
}

fn hex_escape(text: &str, len: usize) -> Option<(char, &str)>
    requires some { 0 < len }
    requires fits { len ≤ 8 }
    ensures value { option_map (λ p. (p.0, p.1.now)) result ≡ spec.hex_escape len text.now }
    ensures within { IfSome result (λ p. length p.1.now ≤ length text.now) }
{
    let bytes = text.as_bytes();
    if bytes.len() < len {
        return None;
    }
    let value = hex_value(&bytes[..len])?;
    if value > 0x10_FFFF {
        return None;
    }
    let character = char::from_u32(value as u32)?;
    Some((character, skip(text, len)))
}

/// The number that the hex digits write, if all are hex digits and it fits an `i64`.
fn hex_value(digits: &[u8]) -> Option<u64>
    ensures value { result ≡ own.hex_value digits.now }
    ensures fits { IfSome result (λ n. n < 2 ^ 63) }
{
    let mut value = 0u64;
    'digits: for byte in digits {
        let digit = char::from(*byte).to_digit(16)?;
        let next = u128::from(value) * 16 + u128::from(digit);
        if next > i64::MAX as u128 {
            return None;
        }
        value = next as u64;
    }
    Some(value)
}
