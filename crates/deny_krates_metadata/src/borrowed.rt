ghost use Rattle.std.specs.Prelude.{◌≡◌, is_some, option_map};
ghost use Rattle.serde_json.specs.Find.{as_array, as_bool, as_null, as_object, as_str, get};
ghost use Rattle.deny_krates_metadata.specs.private.Borrowed.{items_view, members_view, view};

use json::Value;

/// A member of an object.
pub fn member_of<'v, 't>(object: &'v Value<'t>, name: &str) -> Option<&'v Value<'t>>
    ensures { option_map (λ v. view v.now) result ≡ get name.now (view object.now) }
{
    object.get(name)
}

/// The text that a value is.
pub fn text_in<'t>(value: &Value<'t>) -> Option<&'t str>
    ensures { option_map (λ t. t.now) result ≡ as_str (view value.now) }
{
    value.as_str()
}

/// The flag that a value is.
pub fn flag_of(value: &Value<'_>) -> Option<bool>
    ensures { result ≡ as_bool (view value.now) }
{
    value.as_bool()
}

/// Whether a value is null.
pub fn is_null(value: &Value<'_>) -> bool
    ensures { result ≡ is_some (as_null (view value.now)) }
{
    value.is_null()
}

/// The elements of the array that a value is.
pub fn items_in<'v, 't>(value: &'v Value<'t>) -> Option<&'v [Value<'t>]>
    ensures { option_map (λ items. items_view items.now) result ≡ as_array (view value.now) }
{
    match value {
        Value::Array(items) => Some(items.as_slice()),
        _ => None,
    }
}

/// The members of the object that a value is.
pub fn members_in<'v, 't>(value: &'v Value<'t>) -> Option<&'v [(&'t str, Value<'t>)]>
    ensures { option_map (λ members. members_view members.now) result ≡ as_object (view value.now) }
{
    match value {
        Value::Object(members) => Some(members.as_slice()),
        _ => None,
    }
}
