//! Unquoted values: booleans, numbers and dates.
ghost use Rattle.std.specs.Prelude.{◌≡◌};
ghost use Rattle.std.specs.Str.{IsCharBoundary};
ghost use Rattle.deny_toml_grammar.specs.private.Unquoted as spec;
ghost use Rattle.deny_toml_grammar.specs.private.Reading.{Reads, Shortens};

use crate::cow_str::CowStr;
use crate::dates::is_date;
use crate::lexical::{ByteClass, byte_at, run_len};
use crate::numbers::{integer, is_float};
use crate::parts::Scalar;
use crate::read_error::ReadError;

/// A boolean, a number or a date.
#[tactic(auto, unfolding(crate::specs::private::Unquoted::unquoted))]
pub(crate) fn unquoted<'t>(text: &'t str) -> Result<(Scalar<'t>, &'t str), ReadError>
    ensures value { Reads result (spec.unquoted text.now) }
    ensures shorter { Shortens text.now result }
{
    let (token, rest) = text.split_at(token_len(text));
    if token.is_empty() {
        return Err(ReadError::Grammar(text.len()));
    }
    match token_value(token) {
        Some(value) => Ok((value, rest)),
        None => Err(ReadError::Grammar(text.len())),
    }
}

fn token_len(text: &str) -> usize
    ensures len { result ≡ spec.token_len text.now }
    ensures boundary { IsCharBoundary text.now result }
{
    let bytes = text.as_bytes();
    let len = run_len(bytes, ByteClass::Token);
    if len > 0 && byte_at(bytes, len) == b' ' && byte_at(bytes, len + 1).is_ascii_digit() {
        len + 1 + run_len(&bytes[len + 1..], ByteClass::Token)
    } else {
        len
    }
}

#[tactic(auto, unfolding(crate::specs::private::Unquoted::token_value))]
fn token_value<'t>(token: &'t str) -> Option<Scalar<'t>>
    ensures { result ≡ spec.token_value token.now }
{
    if token == "true" {
        Some(Scalar::Boolean(true))
    } else if token == "false" {
        Some(Scalar::Boolean(false))
    } else if is_date(token.as_bytes()) {
        Some(Scalar::Date(CowStr::borrowed(token)))
    } else if is_float(token.as_bytes()) {
        Some(Scalar::Float(CowStr::borrowed(token)))
    } else {
        Some(Scalar::Integer(integer(token.as_bytes())?))
    }
}
