//! Integers and floats.
ghost use Rattle.std.specs.Prelude.{◌≡◌, ◌≤◌, ◌<◌, true};
ghost use Rattle.std.specs.Char.{is_digit};
ghost use Rattle.deny_toml_grammar.specs.Numbers as spec;

use crate::lexical::{ByteClass, byte_at, run_len};

/// The integer that the token writes in one of the four bases, if it fits an `i64`.
#[tactic(auto, unfolding(crate::specs::Numbers::integer))]
pub(crate) fn integer(token: &[u8]) -> Option<i64>
    ensures { result ≡ spec.integer token.now }
{
    let radix = radix_of(token);
    if radix != 10 {
        return prefixed_integer(&token[2..], radix);
    }
    decimal_integer(without_sign(token), byte_at(token, 0) == b'-')
}

fn radix_of(token: &[u8]) -> u32
    ensures { result ≡ spec.radix_of token.now }
{
    if byte_at(token, 0) != b'0' {
        return 10;
    }
    match byte_at(token, 1) {
        b'x' => 16,
        b'o' => 8,
        b'b' => 2,
        _ => 10,
    }
}

fn without_sign(token: &[u8]) -> &[u8]
    ensures { result.now ≡ spec.without_sign token.now }
{
    if byte_at(token, 0) == b'+' || byte_at(token, 0) == b'-' {
        &token[1..]
    } else {
        token
    }
}

#[tactic(auto, unfolding(crate::specs::Numbers::prefixed_integer))]
fn prefixed_integer(digits: &[u8], radix: u32) -> Option<i64>
    requires low { 2 ≤ radix }
    requires high { radix ≤ 16 }
    ensures { result ≡ spec.prefixed_integer radix digits.now }
{
    if !are_digits(digits, radix) {
        return None;
    }
    signed(digits_value(digits, radix)?, false)
}

#[tactic(auto, unfolding(crate::specs::Numbers::decimal_integer))]
fn decimal_integer(digits: &[u8], negative: bool) -> Option<i64>
    ensures { result ≡ spec.decimal_integer negative digits.now }
{
    if !is_decimal(digits) {
        return None;
    }
    signed(digits_value(digits, 10)?, negative)
}

fn signed(value: u64, negative: bool) -> Option<i64>
    ensures { result ≡ spec.signed negative value }
{
    const LIMIT: u64 = 0x8000_0000_0000_0000;
    if negative && value == LIMIT {
        Some(i64::MIN)
    } else if value >= LIMIT {
        None
    } else if negative {
        Some(-(value as i64))
    } else {
        Some(value as i64)
    }
}

fn is_decimal(digits: &[u8]) -> bool
    ensures { result ≡ spec.is_decimal digits.now }
{
    are_digits(digits, 10) && (digits.len() == 1 || byte_at(digits, 0) != b'0')
}

/// Whether these are digits of the base with single underscores between them.
fn are_digits(digits: &[u8], radix: u32) -> bool
    requires low { 2 ≤ radix }
    requires high { radix ≤ 16 }
    ensures { result ≡ spec.are_digits (λ c. is_digit c radix) digits.now }
{
    let mut after_digit = false;
    'digits: for byte in digits {
        let is_digit = char::from(*byte).is_digit(radix);
        if !is_digit && !(after_digit && *byte == b'_') {
            return false;
        }
        after_digit = is_digit;
    }
    after_digit
}

/// The number that the digits write, if it is at most 2^63. Underscores are skipped.
fn digits_value(digits: &[u8], radix: u32) -> Option<u64>
    requires low { 2 ≤ radix }
    requires high { radix ≤ 16 }
    ensures { result ≡ spec.bounded_value radix digits.now }
{
    let mut value = 0u64;
    'digits: for byte in digits {
        value = next_value(value, *byte, radix)?;
    }
    Some(value)
}

#[tactic(auto, unfolding(crate::specs::Numbers::next_value))]
fn next_value(value: u64, byte: u8, radix: u32) -> Option<u64>
    requires low { 2 ≤ radix }
    requires high { radix ≤ 16 }
    ensures { result ≡ spec.next_value radix value byte }
{
    if byte == b'_' {
        return Some(value);
    }
    let digit = char::from(byte).to_digit(radix)?;
    let next = u128::from(value) * u128::from(radix) + u128::from(digit);
    if next > 0x8000_0000_0000_0000 {
        None
    } else {
        Some(next as u64)
    }
}

/// Whether the token is a float.
pub(crate) fn is_float(token: &[u8]) -> bool
    ensures { result ≡ spec.is_float token.now }
{
    is_unsigned_float(without_sign(token))
}

#[tactic(auto, unfolding(crate::specs::Numbers::is_unsigned_float))]
fn is_unsigned_float(token: &[u8]) -> bool
    ensures { result ≡ spec.is_unsigned_float token.now }
{
    if token == b"inf".as_slice() || token == b"nan".as_slice() {
        return true;
    }
    let (digits, rest) = token.split_at(run_len(token, ByteClass::Grouped));
    is_decimal(digits) && (is_fraction(rest) || is_exponent(rest))
}

fn is_fraction(token: &[u8]) -> bool
    ensures { result ≡ spec.is_fraction token.now }
{
    byte_at(token, 0) == b'.' && are_decimals(&token[1..])
}

fn are_decimals(token: &[u8]) -> bool
    ensures { result ≡ spec.are_decimals token.now }
{
    let (digits, rest) = token.split_at(run_len(token, ByteClass::Grouped));
    are_digits(digits, 10) && is_exponent_or_end(rest)
}

fn is_exponent_or_end(token: &[u8]) -> bool
    ensures { result ≡ spec.is_exponent_or_end token.now }
{
    token.is_empty() || is_exponent(token)
}

fn is_exponent(token: &[u8]) -> bool
    ensures { result ≡ spec.is_exponent token.now }
{
    let letter = byte_at(token, 0);
    if letter != b'e' && letter != b'E' {
        return false;
    }
    are_digits(without_sign(&token[1..]), 10)
}
