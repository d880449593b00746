ghost use Rattle.std.specs.Prelude.{◌≡◌, List, ℕ, Result, Ok, Err, IfOk, OnOk, option_and_then, option_map};
ghost use Rattle.std.specs.Fmt.{decimal};
ghost use Rattle.deny_base_lists.specs.Reader.{Answers};
ghost use Rattle.serde_json.specs.Data.{Data};
ghost use Rattle.serde_json.specs.Find.{as_array, get};
ghost use Rattle.deny_krates_metadata.specs.private.Borrowed.{view, items_view};
ghost use Rattle.deny_krates_metadata.specs.Elements.{part_of, path_to, given, object_at, text_at, text_member};
ghost use Rattle.deny_krates_metadata.specs.Elements.{optional_text, optional_text_of, optional_texts, texts_at};
ghost use Rattle.deny_krates_metadata.specs.Elements.{flag_member};
ghost use Rattle.deny_krates_metadata.specs.Elements.{object_itself, elements_from, each_member, each_optional};
ghost use Rattle.deny_krates_metadata.specs.Elements.{required};
ghost use Rattle.deny_krates_metadata.specs.Member.{name_of};
ghost use Rattle.deny_krates_metadata.specs.declared.fault.MetadataFault.{MetadataFault};

use crate::borrowed::{flag_of, is_null, items_in, member_of, members_in, text_in};
use crate::fault::MetadataFault;
use crate::member::MetadataMember;
use deny_base_lists::{List, NoMemory, Text};
use json::Value;
use std::alloc::Global;

/// A type that is read from a JSON value, given the path of the value.
pub trait Element: Sized + Drop {
    ghost read_at: { List ℕ → Data → Result Self MetadataFault };

    /// The value at `path` as this type, or the first fault in it.
    fn from_value(alloc: Global, path: &str, value: &Value<'_>) -> Result<Self, MetadataFault>
        ensures { Answers MetadataFault.Memory (read_at path.now (view value.now)) result };
}

// The fault of the value at `path`, which is of another kind than is required.
fn refuse<T>(alloc: Global, path: &str) -> Result<T, MetadataFault>
    ensures { Answers MetadataFault.Memory (Err (MetadataFault.Shape path.now)) result }
{
    Err(MetadataFault::Shape(Text::from_str(alloc, path)?))
}

// The fault of a part of the value at `path` that is of another kind than is required.
fn refuse_part<T>(alloc: Global, path: &str, name: &str) -> Result<T, MetadataFault>
    ensures { Answers MetadataFault.Memory (Err (MetadataFault.Shape (part_of path.now name.now))) result }
{
    Err(MetadataFault::Shape(path_of(alloc, path, name)?))
}

/// The fault of a member that is missing or of another kind than is required.
pub fn refuse_member<T>(
    alloc: Global,
    path: &str,
    member: MetadataMember,
) -> Result<T, MetadataFault>
    ensures { Answers MetadataFault.Memory (Err (MetadataFault.Shape (path_to path.now member))) result }
{
    refuse_part(alloc, path, member.name())
}

/// The path of a part of the value at `path`.
pub fn path_of(alloc: Global, path: &str, name: &str) -> Result<Text, NoMemory>
    ensures { IfOk result (λ t. t ≡ part_of path.now name.now) }
{
    let mut part = Text::new(alloc);
    write_path(&mut part, path, name)?;
    Ok(part)
}

// Overwrites a text with the path of a part of the value at `path`, and reuses its memory.
#[tactic(auto, unfolding(crate::specs::Elements::part_of))]
fn write_path(part: &mut Text, path: &str, name: &str) -> Result<(), NoMemory>
    ensures { OnOk result (part.new ≡ part_of path.now name.now) }
{
    part.string.clear();
    if !path.is_empty() {
        part.push_str(path)?;
        part.push_str(".")?;
    }
    part.push_str(name)
}

// Overwrites a text with the path of the element at `index` of the array at `path`.
fn write_element_path(
    alloc: Global,
    part: &mut Text,
    path: &str,
    index: usize,
) -> Result<(), NoMemory>
    ensures { OnOk result (part.new ≡ part_of path.now (decimal index)) }
{
    let name = format!(in alloc; "{index}")?;
    write_path(part, path, name.as_str())
}

// The fault of an element that is of another kind than is required, in an array that is a part of the value
// at `path`.
fn refuse_element<T>(
    alloc: Global,
    path: &str,
    name: &str,
    index: usize,
) -> Result<T, MetadataFault>
    ensures { Answers MetadataFault.Memory
        (Err (MetadataFault.Shape (part_of (part_of path.now name.now) (decimal index)))) result }
{
    let array = path_of(alloc, path, name)?;
    let mut at = Text::new(alloc);
    write_element_path(alloc, &mut at, array.as_str(), index)?;
    Err(MetadataFault::Shape(at))
}

/// The value of a member, unless it is missing or null.
#[tactic(auto, unfolding(crate::specs::Elements::given))]
pub fn given_member<'v, 't>(object: &'v Value<'t>, member: MetadataMember) -> Option<&'v Value<'t>>
    ensures { option_map (λ v. view v.now) result ≡ given (get (name_of member) (view object.now)) }
{
    match member_of(object, member.name()) {
        Some(value) => { if is_null(value) { None } else { Some(value) } }
        None => None,
    }
}

/// Checks that the value at `path` is an object.
#[tactic(auto, unfolding(crate::specs::Elements::object_at))]
pub fn object(alloc: Global, path: &str, value: &Value<'_>) -> Result<(), MetadataFault>
    ensures { Answers MetadataFault.Memory (object_at path.now (view value.now)) result }
{
    if members_in(value).is_some() {
        Ok(())
    } else {
        refuse(alloc, path)
    }
}

/// The text of a member that must be there.
#[tactic(auto, unfolding(crate::specs::Elements::text_member, crate::specs::Elements::required))]
pub fn required_text(
    alloc: Global,
    path: &str,
    object: &Value<'_>,
    member: MetadataMember,
) -> Result<Text, MetadataFault>
    ensures { Answers MetadataFault.Memory (text_member path.now member (view object.now)) result }
{
    match member_of(object, member.name()).and_then(text_in) {
        Some(text) => Ok(Text::from_str(alloc, text)?),
        None => refuse_member(alloc, path, member),
    }
}

/// The text of a member that may be missing or null.
#[tactic(auto, unfolding(crate::specs::Elements::optional_text, crate::specs::Elements::optional_text_of, crate::specs::Elements::text_at, crate::specs::Elements::required))]
pub fn optional_text_in(
    alloc: Global,
    path: &str,
    object: &Value<'_>,
    member: MetadataMember,
) -> Result<Option<Text>, MetadataFault>
    ensures { Answers MetadataFault.Memory (optional_text path.now member (view object.now)) result }
{
    match given_member(object, member) {
        Some(value) => match text_in(value) {
            Some(text) => Ok(Some(Text::from_str(alloc, text)?)),
            None => refuse_member(alloc, path, member),
        },
        None => Ok(None),
    }
}

/// The flag of a member; `default` where it is missing or null.
#[tactic(auto, unfolding(crate::specs::Elements::flag_member, crate::specs::Elements::flag_given, crate::specs::Elements::required))]
pub fn flag_or_default(
    alloc: Global,
    path: &str,
    object: &Value<'_>,
    member: MetadataMember,
    default: bool,
) -> Result<bool, MetadataFault>
    ensures { Answers MetadataFault.Memory (flag_member path.now member default (view object.now)) result }
{
    match given_member(object, member) {
        Some(value) => match flag_of(value) {
            Some(flag) => Ok(flag),
            None => refuse_member(alloc, path, member),
        },
        None => Ok(default),
    }
}

/// The elements of a member that is an array; none where it is missing or no array.
pub fn array_in<'v, 't: 'v>(
    object: &'v Value<'t>,
    member: MetadataMember,
) -> Option<&'v [Value<'t>]>
    ensures { option_map (λ items. items_view items.now) result
        ≡ option_and_then as_array (get (name_of member) (view object.now)) }
{
    member_of(object, member.name()).and_then(items_in)
}

/// The value of a member that is an object; none where it is missing or no object.
pub fn required_object<'v, 't: 'v>(
    object: &'v Value<'t>,
    member: MetadataMember,
) -> Option<&'v Value<'t>>
    ensures { option_map (λ v. view v.now) result
        ≡ option_and_then object_itself (get (name_of member) (view object.now)) }
{
    member_of(object, member.name()).and_then(itself)
}

// The value, if it is an object.
#[tactic(auto, unfolding(crate::specs::Elements::object_itself))]
fn itself<'v, 't>(value: &'v Value<'t>) -> Option<&'v Value<'t>>
    ensures { option_map (λ v. view v.now) result ≡ object_itself (view value.now) }
{
    if members_in(value).is_some() {
        Some(value)
    } else {
        None
    }
}

/// The elements of the array at `path`, or the first fault in them.
pub fn elements<T: Element>(
    alloc: Global,
    path: &str,
    items: &[Value<'_>],
) -> Result<List<T>, MetadataFault>
    ensures { Answers MetadataFault.Memory (elements_from T.read_at path.now 0 (items_view items.now)) result }
{
    let mut list = List::new(alloc);
    let mut at = Text::new(alloc);
    for (index, value) in items.iter().enumerate() {
        write_element_path(alloc, &mut at, path, index)?;
        list.push(T::from_value(alloc, at.as_str(), value)?)?;
    }
    Ok(list)
}

/// The elements of a member that must be an array, or the first fault in them.
#[tactic(auto, unfolding(crate::specs::Elements::each_member, crate::specs::Elements::array_member, crate::specs::Elements::required))]
pub fn each_of<T: Element>(
    alloc: Global,
    path: &str,
    object: &Value<'_>,
    member: MetadataMember,
) -> Result<List<T>, MetadataFault>
    ensures { Answers MetadataFault.Memory (each_member T.read_at path.now member (view object.now)) result }
{
    match array_in(object, member) {
        None => refuse_member(alloc, path, member),
        Some(items) => {
            let at = path_of(alloc, path, member.name())?;
            elements(alloc, at.as_str(), items)
        }
    }
}

/// The elements of a member that must be an array unless it is missing or null, or the first fault in
/// them.
#[tactic(auto, unfolding(crate::specs::Elements::each_optional, crate::specs::Elements::optional_items, crate::specs::Elements::required, crate::specs::Elements::elements_from))]
pub fn each_given<T: Element>(
    alloc: Global,
    path: &str,
    object: &Value<'_>,
    member: MetadataMember,
) -> Result<List<T>, MetadataFault>
    ensures { Answers MetadataFault.Memory (each_optional T.read_at path.now member (view object.now)) result }
{
    match given_member(object, member) {
        None => Ok(List::new(alloc)),
        Some(value) => match items_in(value) {
            None => refuse_member(alloc, path, member),
            Some(items) => {
                let at = path_of(alloc, path, member.name())?;
                elements(alloc, at.as_str(), items)
            }
        },
    }
}

// An element of an array that is a part of the value at `path`, as a text.
#[tactic(auto, unfolding(crate::specs::Elements::text_at, crate::specs::Elements::required))]
fn element_text(
    alloc: Global,
    path: &str,
    name: &str,
    index: usize,
    value: &Value<'_>,
) -> Result<Text, MetadataFault>
    ensures { Answers MetadataFault.Memory
        (text_at (part_of (part_of path.now name.now) (decimal index)) (view value.now)) result }
{
    match text_in(value) {
        Some(text) => Ok(Text::from_str(alloc, text)?),
        None => refuse_element(alloc, path, name, index),
    }
}

// The texts of an array that is a part of the value at `path`, or the first fault in them. The
// path of an element is made for a fault alone.
fn each_text(
    alloc: Global,
    path: &str,
    name: &str,
    items: &[Value<'_>],
) -> Result<List<Text>, MetadataFault>
    ensures { Answers MetadataFault.Memory
        (elements_from text_at (part_of path.now name.now) 0 (items_view items.now)) result }
{
    let mut list = List::new(alloc);
    for (index, value) in items.iter().enumerate() {
        list.push(element_text(alloc, path, name, index, value)?)?;
    }
    Ok(list)
}

/// The texts of a member that must be an array, or the first fault in them.
#[tactic(auto, unfolding(crate::specs::Elements::each_member, crate::specs::Elements::array_member, crate::specs::Elements::required))]
pub fn required_texts(
    alloc: Global,
    path: &str,
    object: &Value<'_>,
    member: MetadataMember,
) -> Result<List<Text>, MetadataFault>
    ensures { Answers MetadataFault.Memory (each_member text_at path.now member (view object.now)) result }
{
    match array_in(object, member) {
        None => refuse_member(alloc, path, member),
        Some(items) => each_text(alloc, path, member.name(), items),
    }
}

/// The texts of a member that must be an array unless it is missing or null, or the first fault in them.
#[tactic(auto, unfolding(crate::specs::Elements::each_optional, crate::specs::Elements::optional_items, crate::specs::Elements::required, crate::specs::Elements::elements_from))]
pub fn each_text_given(
    alloc: Global,
    path: &str,
    object: &Value<'_>,
    member: MetadataMember,
) -> Result<List<Text>, MetadataFault>
    ensures { Answers MetadataFault.Memory (each_optional text_at path.now member (view object.now)) result }
{
    match given_member(object, member) {
        None => Ok(List::new(alloc)),
        Some(value) => match items_in(value) {
            None => refuse_member(alloc, path, member),
            Some(items) => each_text(alloc, path, member.name(), items),
        },
    }
}

/// The texts of an array that is a part of the value at `path`, or the first fault in it.
#[tactic(auto, unfolding(crate::specs::Elements::texts_at, crate::specs::Elements::required))]
pub fn texts(
    alloc: Global,
    path: &str,
    name: &str,
    value: &Value<'_>,
) -> Result<List<Text>, MetadataFault>
    ensures { Answers MetadataFault.Memory (texts_at (part_of path.now name.now) (view value.now)) result }
{
    match items_in(value) {
        Some(items) => each_text(alloc, path, name, items),
        None => refuse_part(alloc, path, name),
    }
}

/// The texts of a member that must be an array, or the first fault in it; none where it is missing or
/// null.
#[tactic(auto, unfolding(crate::specs::Elements::optional_texts, crate::specs::Elements::texts_given))]
pub fn optional_texts_in(
    alloc: Global,
    path: &str,
    object: &Value<'_>,
    member: MetadataMember,
) -> Result<Option<List<Text>>, MetadataFault>
    ensures { Answers MetadataFault.Memory (optional_texts path.now member (view object.now)) result }
{
    match given_member(object, member) {
        Some(value) => Ok(Some(texts(alloc, path, member.name(), value)?)),
        None => Ok(None),
    }
}
