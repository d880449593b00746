//! The types that can be read from a value of a TOML text.
ghost use Rattle.std.specs.Prelude.{◌≡◌, ◌++◌, [], IfOk, IfErr, OnOk, List, None, Some, option_and_then};
ghost use Rattle.deny_toml_tree.specs.declared.error.ConfigFault.{ConfigFault};
ghost use Rattle.deny_toml_tree.specs.declared.value.Value.{Value};
ghost use Rattle.deny_toml_tree.specs.Value.{span_in};
ghost use Rattle.deny_toml_tree.specs.Calls.{array_in, text_in, bool_in, integer_in};
ghost use Rattle.deny_toml_tree.specs.Faults.{Reports, under, in_order};
ghost use Rattle.std.specs.Fmt.{decimal};
ghost use Rattle.deny_toml.specs.Deserialize.{faults_of_kind, faults_of_small, faults_of_array};
ghost use Rattle.deny_toml.specs.Deserialize.{small_number, ReadsArray, ReadsEach, faults_from};
ghost use Rattle.deny_toml.specs.private.Deserialize.{Adds};

use deny_base::Spanned;
use deny_base_lists::{List, NoMemory, Text};
use deny_toml_tree::{
    ConfigFault, Content, DeserError, Value, keep_faults, put_faults_in_order, put_under,
};
use std::alloc::Global;
use std::mem;

/// A type that is read from a value.
///
/// `faults_of` gives all faults of a value that is read as this type, in ascending order of span,
/// kind and key, and none where it can be read. `reads` relates a value without faults to what is
/// read from it, which may be moved out of the value.
pub trait Deserialize: Sized {
    ghost reads: { Value → Self → Type 0 };

    ghost faults_of: { Value → List ConfigFault };

    /// Reads the value. Returns `Faults` exactly where it has some, with all of them.
    fn deserialize(alloc: Global, value: &mut Value<'_>) -> Result<Self, DeserError>
        ensures ok { IfOk result (λ x. (faults_of value.old ≡ []) × reads value.old x) }
        ensures faults { IfErr result (Reports (faults_of value.old)) };
}

impl Deserialize for Text {
    ghost reads = { λ v text. text_in v ≡ Some text };

    ghost faults_of = { λ v. faults_of_kind v (text_in v) };

    fn deserialize(alloc: Global, value: &mut Value<'_>) -> Result<Text, DeserError> {
        value.take_string(alloc)
    }
}

impl Deserialize for bool {
    ghost reads = { λ v is_true. bool_in v ≡ Some is_true };

    ghost faults_of = { λ v. faults_of_kind v (bool_in v) };

    fn deserialize(alloc: Global, value: &mut Value<'_>) -> Result<bool, DeserError> {
        match value.as_bool() {
            Some(is_true) => Ok(is_true),
            None => Err(DeserError::wrong_kind(alloc, value.span)),
        }
    }
}

impl Deserialize for i64 {
    ghost reads = { λ v number. integer_in v ≡ Some number };

    ghost faults_of = { λ v. faults_of_kind v (integer_in v) };

    fn deserialize(alloc: Global, value: &mut Value<'_>) -> Result<i64, DeserError> {
        match value.as_integer() {
            Some(number) => Ok(number),
            None => Err(DeserError::wrong_kind(alloc, value.span)),
        }
    }
}

/// An integer that is negative, or not below 2^32, is `Unreadable`.
impl Deserialize for u32 {
    ghost reads = { λ v number. option_and_then small_number (integer_in v) ≡ Some number };

    ghost faults_of = { λ v. faults_of_small v (integer_in v) };

    fn deserialize(alloc: Global, value: &mut Value<'_>) -> Result<u32, DeserError> {
        match value.as_integer() {
            None => Err(DeserError::wrong_kind(alloc, value.span)),
            Some(number) => match small_number(number) {
                Some(small) => Ok(small),
                None => Err(DeserError::unreadable(alloc, value.span)),
            },
        }
    }
}

fn small_number(number: i64) -> Option<u32>
    ensures { result ≡ small_number number }
{
    if 0 <= number && number < 0x1_0000_0000 {
        Some(number as u32)
    } else {
        None
    }
}

/// The value with its span.
impl<T: Deserialize> Deserialize for Spanned<T> {
    ghost reads = { λ v spanned. (spanned.span ≡ span_in v) × T.reads v spanned.value };

    ghost faults_of = { T.faults_of };

    fn deserialize(alloc: Global, value: &mut Value<'_>) -> Result<Spanned<T>, DeserError> {
        let span = value.span;
        Ok(Spanned {
            value: T::deserialize(alloc, value)?,
            span,
        })
    }
}

/// The elements of an array, in order. The key of their faults begins with their index, from 0.
impl<T: Deserialize + Drop> Deserialize for List<T> {
    ghost reads = { λ v items. ReadsArray T.reads (array_in v) items };

    ghost faults_of = { λ v. faults_of_array T.faults_of v (array_in v) };

    fn deserialize(alloc: Global, value: &mut Value<'_>) -> Result<List<T>, DeserError> {
        let span = value.span;
        match &mut value.content {
            Content::Array(elements) => {
                let elements = mem::replace(elements, List::new(alloc));
                read_elements(alloc, elements)
            }
            _ => Err(DeserError::wrong_kind(alloc, span)),
        }
    }
}

#[tactic(auto, using(deny_toml_tree::proofs::FaultLaws::in_order_ascends))]
fn read_elements<T: Deserialize + Drop>(
    alloc: Global,
    elements: List<Value<'_>>,
) -> Result<List<T>, DeserError>
    ensures ok { IfOk result (λ items. (in_order (faults_from T.faults_of 0 elements.entry) ≡ [])
        × ReadsEach T.reads elements.entry items) }
    ensures faults { IfErr result (Reports (in_order (faults_from T.faults_of 0 elements.entry))) }
{
    let (items, mut faults) = read_each(alloc, elements)?;
    put_faults_in_order(&mut faults)?;
    if faults.len() == 0 {
        Ok(items)
    } else {
        Err(DeserError::Faults(faults))
    }
}

/// Reads the elements, and collects the faults of those that cannot be read.
fn read_each<T: Deserialize + Drop>(
    alloc: Global,
    elements: List<Value<'_>>,
) -> Result<(List<T>, List<ConfigFault>), NoMemory>
    ensures faults { IfOk result (λ read. read.1 ≡ faults_from T.faults_of 0 elements.entry) }
    ensures items { IfOk result (λ read. read.1 ≡ [] → ReadsEach T.reads elements.entry read.0) }
{
    let mut items = List::new(alloc);
    let mut faults = List::new(alloc);
    let mut index: usize = 0;
    'elements: for element in elements.vec {
        read_element(alloc, index, element, &mut items, &mut faults)?;
        index += 1;
    }
    Ok((items, faults))
}

/// Reads one element into `items`, or adds its faults to the others.
fn read_element<T: Deserialize + Drop>(
    alloc: Global,
    index: usize,
    element: Value<'_>,
    items: &mut List<T>,
    faults: &mut List<ConfigFault>,
) -> Result<(), NoMemory>
    ensures items { OnOk result (T.faults_of element.entry ≡ [] → Adds T.reads element.entry items.old items.new) }
    ensures faults { OnOk result (faults.new ≡ faults.old ++ under (decimal index) (T.faults_of element.entry)) }
{
    match read_whole(alloc, element) {
        Ok(item) => items.push(item),
        Err(DeserError::Faults(more)) => keep_under_index(alloc, index, more, faults),
        Err(DeserError::Memory) => Err(NoMemory),
    }
}

/// Reads an element, and drops what is not moved out of it.
fn read_whole<T: Deserialize>(alloc: Global, element: Value<'_>) -> Result<T, DeserError>
    ensures ok { IfOk result (λ item. (T.faults_of element.entry ≡ []) × T.reads element.entry item) }
    ensures faults { IfErr result (Reports (T.faults_of element.entry)) }
{
    let mut element = element;
    T::deserialize(alloc, &mut element)
}

/// Adds the faults of the element at an index to the others.
fn keep_under_index(
    alloc: Global,
    index: usize,
    more: List<ConfigFault>,
    faults: &mut List<ConfigFault>,
) -> Result<(), NoMemory>
    ensures { OnOk result (faults.new ≡ faults.old ++ under (decimal index) more) }
{
    let name = name_of_index(alloc, index)?;
    keep_faults(faults, put_under(alloc, name.as_str(), more)?)
}

fn name_of_index(alloc: Global, index: usize) -> Result<Text, NoMemory>
    ensures { IfOk result (λ name. name ≡ decimal index) }
{
    Ok(Text::from_string(format!(in alloc; "{index}")?))
}
