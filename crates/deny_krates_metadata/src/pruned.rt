ghost use Rattle.std.specs.Prelude.{◌≡◌, ◌<◌, ◌++◌, [], ◌∷◌, Some, IfSome, if◌then◌else◌, length, true};
ghost use Rattle.json.specs.Json.{Json, Items, Members, items, members, value};
ghost use Rattle.json.specs.Value.{value_view, items_view, members_view};
ghost use Rattle.deny_krates_metadata.specs.private.Borrowed.{is_whole, are_items_whole, are_members_whole};
ghost use Rattle.deny_krates_metadata.specs.private.Selection.{pruned, pruned_items, pruned_members};

use crate::selection::Selection;
use crate::whole::is_whole_number;
use json::{Reader, Token, Value};
use std::alloc::Global;

// Appends an item, unless it is left out.
#[inline(always)]
fn push_unless<T: Drop>(found: &mut Vec<T>, item: T, is_left: bool) -> Option<()>
    ensures { IfSome result (λ _. found.new.items
        ≡ (if is_left then found.old.items else found.old.items ++ item ∷ [])) }
{
    if is_left {
        return Some(());
    }
    found.push(item).ok()
}

/// The next value of a reader, reduced to what is selected of it. None where no value follows, where it
/// nests deeper than `depth`, where a number in it is not whole or not within 64 bits, and where memory
/// runs out.
#[cycle(pruned)]
pub fn read<'t>(
    alloc: Global,
    reader: &mut Reader<'t>,
    selection: Selection,
    depth: usize,
) -> Option<Value<'t>>
    ensures value { IfSome result (λ v. (j : Json) × (value depth reader.old ≡ Some (j, reader.new))
        × (is_whole j ≡ true) × (value_view v ≡ pruned selection j)) }
    ensures shorter { IfSome result (λ _. length reader.new < length reader.old) }
{
    let token = reader.next()?;
    match token {
        Token::String(text) => Some(Value::String(text)),
        Token::Number(text) => {
            if is_whole_number(text) {
                Some(Value::Number(text))
            } else {
                None
            }
        }
        Token::Bool(flag) => Some(Value::Bool(flag)),
        Token::Null => Some(Value::Null),
        Token::EndObject | Token::EndArray | Token::Key(_) | Token::Bad => None,
        Token::BeginArray => {
            if depth == 0 {
                return None;
            }
            Some(Value::Array(read_items(alloc, reader, selection, depth - 1)?))
        }
        Token::BeginObject => {
            if depth == 0 {
                return None;
            }
            Some(Value::Object(read_members(alloc, reader, selection, depth - 1)?))
        }
    }
}

#[cycle(pruned)]
fn read_items<'t>(
    alloc: Global,
    reader: &mut Reader<'t>,
    selection: Selection,
    depth: usize,
) -> Option<Vec<Value<'t>>>
    ensures value { IfSome result (λ v. (js : Items)
        × (items (value depth) (length reader.old) reader.old ≡ Some (js, reader.new)) × (are_items_whole js ≡ true)
        × (items_view v.items ≡ pruned_items selection js)) }
    ensures shorter { IfSome result (λ _. length reader.new < length reader.old) }
{
    let mut found = Vec::new(alloc);
    while !reader.take_end_array() {
        let item = read(alloc, reader, selection, depth)?;
        push_unless(&mut found, item, selection.is_nothing())?;
    }
    Some(found)
}

#[cycle(pruned)]
fn read_members<'t>(
    alloc: Global,
    reader: &mut Reader<'t>,
    selection: Selection,
    depth: usize,
) -> Option<Vec<(&'t str, Value<'t>)>>
    ensures value { IfSome result (λ v. (ms : Members)
        × (members (value depth) (length reader.old) reader.old ≡ Some (ms, reader.new)) × (are_members_whole ms ≡ true)
        × (members_view v.items ≡ pruned_members selection ms)) }
    ensures shorter { IfSome result (λ _. length reader.new < length reader.old) }
{
    let mut found = Vec::new(alloc);
    while let Some(key) = reader.next_key().ok()? {
        let part = selection.of_member(key);
        let member = read(alloc, reader, part, depth)?;
        push_unless(&mut found, (key, member), part.is_nothing())?;
    }
    Some(found)
}
