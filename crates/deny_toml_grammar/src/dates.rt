//! The four forms of dates and times.
ghost use Rattle.std.specs.Prelude.{◌≡◌, ◌<◌, ◌+◌, drop, option_map};
ghost use Rattle.deny_toml_grammar.specs.private.Dates as spec;

use crate::lexical::{ByteClass, byte_at, run_len};

/// Whether the token is a date, a time, or both.
pub(crate) fn is_date(token: &[u8]) -> bool
    ensures { result ≡ spec.is_date token.now }
{
    is_date_time(token) || is_time(token, false)
}

#[tactic(auto, unfolding(crate::specs::private::Dates::is_date_time))]
fn is_date_time(token: &[u8]) -> bool
    ensures { result ≡ spec.is_date_time token.now }
{
    starts_date(token) && (token.len() == 10 || is_divided_time(token))
}

fn is_divided_time(token: &[u8]) -> bool
    ensures { result ≡ spec.is_divided_time token.now }
{
    is_divider(byte_at(token, 10)) && is_time(&token[11..], true)
}

fn is_divider(byte: u8) -> bool
    ensures { result ≡ spec.is_divider byte }
{
    byte == b'T' || byte == b't' || byte == b' '
}

/// Whether the token begins with a date.
#[tactic(auto, unfolding(crate::specs::private::Dates::starts_date))]
fn starts_date(token: &[u8]) -> bool
    ensures { result ≡ spec.starts_date token.now }
{
    has_number(token, 0, 0, 99)
        && has_number(token, 2, 0, 99)
        && byte_at(token, 4) == b'-'
        && has_number(token, 5, 1, 12)
        && byte_at(token, 7) == b'-'
        && has_number(token, 8, 1, 31)
}

/// Whether the token is a time. With a date before it, an offset may follow.
fn is_time(token: &[u8], offset: bool) -> bool
    ensures { result ≡ spec.is_time offset token.now }
{
    starts_time(token) && ends_time(after(token, 8), offset)
}

#[tactic(auto, unfolding(crate::specs::private::Dates::starts_time))]
fn starts_time(token: &[u8]) -> bool
    ensures { result ≡ spec.starts_time token.now }
{
    has_number(token, 0, 0, 23)
        && byte_at(token, 2) == b':'
        && has_number(token, 3, 0, 59)
        && byte_at(token, 5) == b':'
        && has_number(token, 6, 0, 60)
}

/// The bytes after the first `count` ones, or none.
fn after(token: &[u8], count: usize) -> &[u8]
    ensures { result.now ≡ drop count token.now }
{
    if count <= token.len() {
        &token[count..]
    } else {
        &[]
    }
}

fn ends_time(token: &[u8], offset: bool) -> bool
    ensures { result ≡ spec.ends_time offset (spec.after_fraction token.now) }
{
    match after_fraction(token) {
        None => false,
        Some(rest) => rest.is_empty() || (offset && is_offset(rest)),
    }
}

fn after_fraction(token: &[u8]) -> Option<&[u8]>
    ensures { option_map (λ rest. rest.now) result ≡ spec.after_fraction token.now }
{
    if byte_at(token, 0) != b'.' {
        return Some(token);
    }
    let digits = &token[1..];
    let len = run_len(digits, ByteClass::Digit);
    if len == 0 { None } else { Some(&digits[len..]) }
}

fn is_offset(token: &[u8]) -> bool
    ensures { result ≡ spec.is_offset token.now }
{
    if token.len() == 1 {
        return byte_at(token, 0) == b'Z' || byte_at(token, 0) == b'z';
    }
    token.len() == 6
        && (byte_at(token, 0) == b'+' || byte_at(token, 0) == b'-')
        && has_number(token, 1, 0, 23)
        && byte_at(token, 3) == b':'
        && has_number(token, 4, 0, 59)
}

/// Whether two digits at the index `at` write a number from `low` to `high`.
fn has_number(token: &[u8], at: usize, low: u8, high: u8) -> bool
    requires { at < 256 }
    ensures { result ≡ spec.has_number token.now at low high }
{
    let tens = byte_at(token, at);
    let ones = byte_at(token, at + 1);
    if !tens.is_ascii_digit() || !ones.is_ascii_digit() {
        return false;
    }
    let number = (tens - b'0') * 10 + (ones - b'0');
    low <= number && number <= high
}
