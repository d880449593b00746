ghost use Rattle.std.specs.Prelude.{◌≡◌};
ghost use Rattle.serde_json.specs.View.{view, items_view, members_view};
ghost use Rattle.serde_json.specs.Written.{has_float, items_have_float, members_have_float};

use serde_json::{Map, Value};

/// Whether a number in the value is not whole, or not within 64 bits.
#[cycle(floats)]
pub fn is_fractional(value: &Value) -> bool
    ensures { result ≡ has_float (view value.now) }
{
    match value {
        Value::Null => false,
        Value::Bool(_) => false,
        Value::Number(number) => number.is_f64(),
        Value::String(_) => false,
        Value::Array(items) => is_any_fractional(items),
        Value::Object(members) => is_member_fractional(members),
    }
}

#[cycle(floats)]
fn is_any_fractional(items: &Vec<Value>) -> bool
    ensures { result ≡ items_have_float (items_view items.now.items) }
{
    for value in items {
        if is_fractional(value) {
            return true;
        }
    }
    false
}

#[cycle(floats)]
fn is_member_fractional(members: &Map<String, Value>) -> bool
    ensures { result ≡ members_have_float (members_view members.now.entries) }
{
    for (_name, value) in members.iter() {
        if is_fractional(value) {
            return true;
        }
    }
    false
}
