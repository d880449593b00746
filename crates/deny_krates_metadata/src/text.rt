ghost use Rattle.std.specs.Prelude.{◌≡◌, None, Ok, Some, true, IfSome};
ghost use Rattle.std.specs.Str.{is_utf8};
ghost use Rattle.json.specs.Json.{Json};
ghost use Rattle.json.specs.Value.{value_view};
ghost use Rattle.deny_base_lists.specs.Reader.{Gives, IsFault};
ghost use Rattle.deny_krates_metadata.specs.Document.{value_at};
ghost use Rattle.deny_krates_metadata.specs.private.Borrowed.{is_whole, parsed, view};
ghost use Rattle.deny_krates_metadata.specs.private.Selection.{pruned};
ghost use Rattle.deny_krates_metadata.specs.declared.selection.Selection.TheVariants.{Metadata};

use crate::fault::MetadataFault;
use crate::owned::owned_value;
use crate::pruned::read;
use crate::selection::Selection;
use crate::whole::is_whole;
use json::{Error, Reader, Scratch, Value};
use std::alloc::Global;

// How deep arrays and objects may nest.
const MAX_DEPTH: usize = 127;

/// The value of bytes that are this text, whose numbers are whole and within 64 bits. It borrows the
/// text.
pub fn value_in<'t>(
    alloc: Global,
    bytes: &[u8],
    text: &'t str,
    scratch: &'t mut Scratch,
) -> Result<Value<'t>, MetadataFault>
    requires text { is_utf8 bytes.now ≡ true }
    requires same { text.now ≡ bytes.now }
    ensures { Gives MetadataFault.Memory (λ v. value_at bytes.now ≡ Ok (view v)) (IsFault (value_at bytes.now)) result }
{
    match parse(alloc, text, scratch) {
        Ok(value) => {
            check_numbers(alloc, bytes, &value)?;
            Ok(value)
        }
        Err(fault) => Err(fault),
    }
}

/// The value of a text, reduced to the members that are read of metadata. None where the text is no JSON,
/// where a number in it is not whole or not within 64 bits, and where memory runs out. It borrows the text.
pub fn pruned_in<'t>(alloc: Global, text: &'t str, scratch: &'t mut Scratch) -> Option<Value<'t>>
    ensures { IfSome result (λ v. (j : Json) × (parsed text.now ≡ Some j) × (is_whole j ≡ true)
        × (value_view v ≡ pruned Metadata j)) }
{
    let mut reader = Reader::new(text, scratch).ok()?;
    let value = read(alloc, &mut reader, Selection::Metadata, MAX_DEPTH)?;
    if reader.next().is_some() {
        None
    } else {
        Some(value)
    }
}

// The value of a text.
fn parse<'t>(
    alloc: Global,
    text: &'t str,
    scratch: &'t mut Scratch,
) -> Result<Value<'t>, MetadataFault>
    ensures { Gives MetadataFault.Memory (λ v. parsed text.now ≡ Some (value_view v))
        (λ e. (e ≡ MetadataFault.Json) × (parsed text.now ≡ None)) result }
{
    let mut reader = Reader::new(text, scratch)?;
    match Value::read(alloc, &mut reader, MAX_DEPTH) {
        Ok(value) => {
            if reader.next().is_some() {
                Err(MetadataFault::Json)
            } else {
                Ok(value)
            }
        }
        Err(Error::Invalid) => Err(MetadataFault::Json),
        Err(_) => Err(MetadataFault::Memory),
    }
}

// Checks that the numbers in the value of these bytes are whole and within 64 bits. Where one is not, a
// later member of the same name may replace it, so the bytes are read again.
fn check_numbers(alloc: Global, bytes: &[u8], value: &Value<'_>) -> Result<(), MetadataFault>
    requires text { is_utf8 bytes.now ≡ true }
    requires parsed { parsed bytes.now ≡ Some (value_view value.now) }
    ensures { Gives MetadataFault.Memory (λ _. value_at bytes.now ≡ Ok (view value.now))
        (IsFault (value_at bytes.now)) result }
{
    if is_whole(value) {
        return Ok(());
    }
    match owned_value(alloc, bytes) {
        Ok(_) => Ok(()),
        Err(fault) => Err(fault),
    }
}
