//! Steps over the text that take no memory.
ghost use Rattle.std.specs.Prelude.{◌≡◌, ◌+◌, ◌-◌, ◌<◌, ◌≤◌, ◌^◌, false, length, drop, slice_index};
ghost use Rattle.std.specs.List.{prefix_len};
ghost use Rattle.deny_toml_grammar.specs.Lexical as spec;
ghost use Rattle.deny_toml_grammar.specs.private.Lexical as own;

use deny_base::Span;

/// The byte at `index`, or 0 past the end.
#[inline]
pub(crate) fn byte_at(bytes: &[u8], index: usize) -> u8
    ensures { result ≡ slice_index bytes.now index }
{
    bytes.get(index).copied().unwrap_or(0)
}

/// The first byte, or 0.
#[inline]
pub(crate) fn first(text: &str) -> u8
    ensures { result ≡ slice_index text.now 0 }
{
    byte_at(text.as_bytes(), 0)
}

/// The text after the first `count` bytes, of which the last is ASCII.
#[inline]
pub(crate) fn skip(text: &str, count: usize) -> &str
    requires some { 0 < count }
    requires there { 0 < slice_index text.now (count - 1) }
    requires ascii { slice_index text.now (count - 1) < 128 }
    ensures rest { result.now ≡ drop count text.now }
    ensures shorter { length result.now < length text.now }
{
    &text[count..]
}

/// The offset at which `rest` begins in a text of `total` bytes that ends with it.
#[inline]
pub(crate) fn offset(total: usize, rest: &str) -> u32
    requires within { length rest.now ≤ total }
    requires small { total < 2 ^ 28 }
    ensures { result ≡ total - length rest.now }
{
    (total - rest.len()) as u32
}

/// The span from the offset at which `from` begins to the one at which `rest` begins.
#[inline]
pub(crate) fn between(total: usize, from: &str, rest: &str) -> Span
    requires within { length from.now ≤ total }
    requires shorter { length rest.now ≤ length from.now }
    requires small { total < 2 ^ 28 }
    ensures { result ≡ spec.between total from.now rest.now }
{
    Span {
        start: offset(total, from),
        end: offset(total, rest),
    }
}

/// Whether the text begins with a line feed, alone or after a carriage return.
#[inline]
pub(crate) fn starts_newline(text: &str) -> bool
    ensures { result ≡ spec.starts_newline text.now }
{
    first(text) == b'\n' || (first(text) == b'\r' && byte_at(text.as_bytes(), 1) == b'\n')
}

/// The text after spaces and tabs.
#[inline]
#[tactic(auto, unfolding(crate::specs::Lexical::skip_spaces))]
pub(crate) fn skip_spaces(text: &str) -> &str
    ensures rest { result.now ≡ spec.skip_spaces text.now }
    ensures within { length result.now ≤ length text.now }
{
    split_run(text, ByteClass::Space).1
}

/// The text after spaces, tabs and line ends, and after comments where they are allowed.
pub(crate) fn skip_blank(text: &str, comments: bool) -> &str
    ensures rest { result.now ≡ spec.skip_from comments false text.now }
    ensures within { length result.now ≤ length text.now }
{
    let bytes = text.as_bytes();
    let mut inside = false;
    'bytes: for at in 0..bytes.len() {
        match skip_turn(comments, inside, bytes[at], byte_at(bytes, at + 1)) {
            Some(state) => inside = state,
            None => return &text[at..],
        }
    }
    &text[bytes.len()..]
}

#[inline]
fn skip_turn(comments: bool, inside: bool, byte: u8, next: u8) -> Option<bool>
    ensures { result ≡ spec.skip_turn comments inside byte next }
{
    if byte == b'\n' || (byte == b'\r' && next == b'\n') {
        Some(false)
    } else if inside && is_comment_byte(byte) || !inside && is_space(byte) {
        Some(inside)
    } else if comments && !inside && byte == b'#' {
        Some(true)
    } else {
        None
    }
}

#[inline]
fn is_space(byte: u8) -> bool
    ensures { result ≡ spec.is_space byte }
{
    byte == b' ' || byte == b'\t'
}

/// A byte that a comment can hold.
#[inline]
fn is_comment_byte(byte: u8) -> bool
    ensures { result ≡ spec.is_comment_byte byte }
{
    byte == b'\t' || (byte >= 0x20 && byte != 0x7F)
}

/// A byte of a bare key.
#[inline]
pub(crate) fn is_bare(byte: u8) -> bool
    ensures { result ≡ spec.is_bare byte }
{
    byte.is_ascii_alphanumeric() || byte == b'-' || byte == b'_'
}

/// A class of bytes, to find a run of them.
#[derive(Clone, Copy)]
pub(crate) enum ByteClass {
    Space,
    Bare,
    /// The bytes of booleans, numbers and dates.
    Token,
    Digit,
    /// The digits of a number and the underscores between them.
    Grouped,
    Byte(u8),
    /// The bytes that write themselves in a string with this delimiter, on one line or several.
    Plain(u8, bool),
}

#[inline(always)]
fn is_in(class: ByteClass, byte: u8) -> bool
    ensures { result ≡ own.class_test class byte }
{
    match class {
        ByteClass::Space => is_space(byte),
        ByteClass::Bare => is_bare(byte),
        ByteClass::Token => is_bare(byte) || byte == b'+' || byte == b'.' || byte == b':',
        ByteClass::Digit => byte.is_ascii_digit(),
        ByteClass::Grouped => byte.is_ascii_digit() || byte == b'_',
        ByteClass::Byte(wanted) => byte == wanted,
        ByteClass::Plain(delimiter, multi) => {
            byte != delimiter
                && !(byte == b'\\' && delimiter == b'"')
                && (is_comment_byte(byte) || (multi && byte == b'\n'))
        }
    }
}

/// The number of bytes of the class at the start.
#[inline(always)]
pub(crate) fn run_len(bytes: &[u8], class: ByteClass) -> usize
    ensures len { result ≡ prefix_len (own.class_test class) bytes.now }
    ensures within { result ≤ length bytes.now }
{
    bytes.iter().take_while(|byte| is_in(class, **byte)).count()
}

/// The run of the class at the start, and the text after it.
#[inline(always)]
pub(crate) fn split_run(text: &str, class: ByteClass) -> (&str, &str)
    requires { own.EndsAtBoundary class }
    ensures parts { (result.0.now, result.1.now) ≡ spec.split_while (own.class_test class) text.now }
    ensures lens { length result.0.now + length result.1.now ≡ length text.now }
{
    text.split_at(run_len(text.as_bytes(), class))
}
