//! The features that others reach by the table of their crate, in one step or more.
ghost use Rattle.std.specs.Prelude.{◌≡◌, ◌++◌, ◌<◌, ◌^◌, IfOk, OnOk, filter, length};
ghost use Rattle.std.specs.List.{flat_map, range_with_len};
ghost use Rattle.deny_base_lists.specs.Walk.{AreMarks};
ghost use Rattle.deny_spec_report.specs.Features.{is_plain};
ghost use Rattle.deny_rules_features.specs.private.Reached.{AreReachedByTable, AreReachedAt, IsSetOf, led_to_by};
ghost use Rattle.deny_rules_features.specs.private.Steps.{AreNames, AreNumbers, leads_by, plain_of, roots_by};

use crate::steps::{FeatureSteps, is_plain, names_of, numbers_of, roots_of, rows_of};
use deny_base::Spanned;
use deny_base_lists::{List, NoMemory, Text, TextMap, reach};
use deny_krates::{Krates, krate_at};
use deny_rules_match::mark_at;
use std::alloc::Global;

/// More features than any metadata text has.
const MANY: usize = 1 << 28;

/// The features that the listed ones reach by the table of the crate at a place.
pub fn reached_at(
    alloc: Global,
    krates: &Krates,
    place: u32,
    listed: &[Spanned<Text>],
) -> Result<TextMap<bool>, NoMemory>
    ensures { IfOk result (AreReachedAt krates.now place listed.now) }
{
    match krate_at(krates, place) {
        Some(krate) => reached(alloc, &krate.features, listed),
        None => Ok(TextMap::new(alloc)),
    }
}

/// The features that the listed ones reach by a table.
fn reached(
    alloc: Global,
    features: &TextMap<List<Text>>,
    listed: &[Spanned<Text>],
) -> Result<TextMap<bool>, NoMemory>
    ensures { IfOk result (AreReachedByTable features.now listed.now) }
{
    let names = names_of(alloc, features)?;
    if names.len() >= MANY {
        return Err(NoMemory);
    }
    reached_by_names(alloc, features, names.as_slice(), listed)
}

/// The features that the listed ones reach by a table, whose names are given.
fn reached_by_names(
    alloc: Global,
    features: &TextMap<List<Text>>,
    names: &[Text],
    listed: &[Spanned<Text>],
) -> Result<TextMap<bool>, NoMemory>
    requires few { length names.now < 2 ^ 28 }
    requires named { AreNames features.now names.now }
    ensures { IfOk result (AreReachedByTable features.now listed.now) }
{
    let numbers = numbers_of(alloc, names)?;
    let marks = marks_by(alloc, features, names, &numbers, listed)?;
    let texts = led_to(alloc, features, names, marks.as_slice())?;
    set_of(alloc, texts.as_slice())
}

/// Marks for the numbers of the features that the listed ones reach in any number of steps, also none.
fn marks_by(
    alloc: Global,
    features: &TextMap<List<Text>>,
    names: &[Text],
    numbers: &TextMap<u32>,
    listed: &[Spanned<Text>],
) -> Result<List<bool>, NoMemory>
    requires few { length names.now < 2 ^ 28 }
    requires named { AreNames features.now names.now }
    requires numbered { AreNumbers names.now numbers.now }
    ensures { IfOk result (AreMarks (leads_by features.now numbers.now names.now) (length names.now)
        (roots_by numbers.now listed.now)) }
{
    let rows = rows_of(alloc, features, names, numbers)?;
    let roots = roots_of(alloc, listed, numbers)?;
    let steps = FeatureSteps { rows };
    reach(alloc, &steps, roots.as_slice())
}

/// The features that the marked ones lead to in one step.
fn led_to(
    alloc: Global,
    features: &TextMap<List<Text>>,
    names: &[Text],
    marks: &[bool],
) -> Result<List<Text>, NoMemory>
    requires { length names.now < 2 ^ 28 }
    ensures { IfOk result (λ texts. texts ≡ flat_map (led_to_by features.now names.now marks.now)
        (range_with_len 0 (length names.now))) }
{
    let mut texts = List::new(alloc);
    for number in 0..names.len() {
        if mark_at(marks, number as u32) {
            add_plain(features, &names[number], &mut texts)?;
        }
    }
    Ok(texts)
}

/// Adds the plain entries of a feature.
fn add_plain(
    features: &TextMap<List<Text>>,
    name: &Text,
    texts: &mut List<Text>,
) -> Result<(), NoMemory>
    ensures { OnOk result (texts.new ≡ texts.old ++ plain_of features.now name.now) }
{
    if let Some(entries) = features.get(name.as_str()) {
        add_plain_entries(entries.as_slice(), texts)?;
    }
    Ok(())
}

fn add_plain_entries(entries: &[Text], texts: &mut List<Text>) -> Result<(), NoMemory>
    ensures { OnOk result (texts.new ≡ texts.old ++ filter is_plain entries.now) }
{
    for entry in entries {
        if is_plain(entry) {
            texts.push(entry.clone()?)?;
        }
    }
    Ok(())
}

/// The set of some texts.
fn set_of(alloc: Global, texts: &[Text]) -> Result<TextMap<bool>, NoMemory>
    ensures { IfOk result (IsSetOf texts.now) }
{
    let mut set = TextMap::new(alloc);
    for text in texts {
        set.insert(text.clone()?, true)?;
    }
    Ok(set)
}
