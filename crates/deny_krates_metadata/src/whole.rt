ghost use Rattle.std.specs.Prelude.{◌≡◌, ◌==◌, ◌<◌, IsTrue, false, length, slice_index, true};
ghost use Rattle.json.specs.Value.{value_view, items_view, members_view};
ghost use Rattle.fast_float.specs.Text.{minus};
ghost use Rattle.serde_json.specs.Read.{number_from};
ghost use Rattle.deny_krates_metadata.specs.private.Borrowed.{are_items_whole, are_members_whole};
ghost use Rattle.deny_krates_metadata.specs.private.Borrowed.{is_number_whole, is_whole, is_whole_number};

use fast_float::Numeral;
use json::Value;

/// Whether all numbers in a value are whole and within 64 bits.
#[cycle(whole)]
pub fn is_whole(value: &Value<'_>) -> bool
    ensures { result ≡ is_whole (value_view value.now) }
{
    match value {
        Value::Null => true,
        Value::Bool(_) => true,
        Value::Number(text) => is_whole_number(text),
        Value::String(_) => true,
        Value::Array(items) => are_items_whole(items),
        Value::Object(members) => are_members_whole(members),
    }
}

#[cycle(whole)]
fn are_items_whole(items: &Vec<Value<'_>>) -> bool
    ensures { result ≡ are_items_whole (items_view items.now.items) }
{
    for value in items {
        if !is_whole(value) {
            return false;
        }
    }
    true
}

#[cycle(whole)]
fn are_members_whole<'t>(members: &Vec<(&'t str, Value<'t>)>) -> bool
    ensures { result ≡ are_members_whole (members_view members.now.items) }
{
    for member in members {
        if !is_whole(&member.1) {
            return false;
        }
    }
    true
}

/// Whether a number is whole and within 64 bits.
pub fn is_whole_number(text: &str) -> bool
    ensures { result ≡ is_whole_number text.now }
{
    let bytes = text.as_bytes();
    if has_minus(bytes) {
        is_negative_whole(&Numeral::scan(&bytes[1..]))
    } else {
        is_unsigned_whole(&Numeral::scan(bytes))
    }
}

fn has_minus(bytes: &[u8]) -> bool
    ensures value { result ≡ (slice_index bytes.now 0 == minus) }
    ensures long { IsTrue result → 0 < length bytes.now }
{
    !bytes.is_empty() && bytes[0] == b'-'
}

fn is_unsigned_whole(numeral: &Numeral<'_>) -> bool
    ensures { result ≡ is_number_whole (number_from false numeral.now) }
{
    numeral.to_u64().is_some()
}

fn is_negative_whole(numeral: &Numeral<'_>) -> bool
    ensures { result ≡ is_number_whole (number_from true numeral.now) }
{
    match numeral.to_i64(true) {
        Some(number) => number < 0,
        None => false,
    }
}
