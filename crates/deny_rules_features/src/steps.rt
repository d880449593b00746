//! The features of a crate by their numbers, and the steps along plain entries of its table.
ghost use Rattle.std.specs.Prelude.{◌≡◌, ◌<◌, ◌^◌, IfOk, filter_map, length, map};
ghost use Rattle.std.specs.FinMap as finite;
ghost use Rattle.deny_spec_report.specs.Features.{is_plain};
ghost use Rattle.deny_rules_features.specs.private.Steps.{AreNames, AreNumbers, plain_number, row_of};

use deny_base::Spanned;
use deny_base_lists::{List, Neighbours, NoMemory, Text, TextMap};
use std::alloc::Global;

/// The features of a table by their numbers, each with the numbers of the features that it leads to.
#[derive(Drop)]
pub struct FeatureSteps {
    pub rows: List<List<u32>>,
}

impl Neighbours for FeatureSteps {
    ghost use Rattle.std.specs.Prelude.{Contains, [], length, slice_index_or};

    type Neighbour = u32;

    ghost count = { λ s. length s.rows };

    ghost leads = { λ s number. Contains (slice_index_or s.rows number []) };

    ghost degree = { λ s number. length (slice_index_or s.rows number []) };

    ghost place_of = { λ number. number };

    fn count(&self) -> usize {
        self.rows.len()
    }

    fn neighbours(&self, place: u32) -> &[u32] {
        self.rows.as_slice()[place as usize].as_slice()
    }

    fn place_of(neighbour: &u32) -> u32
        ensures { result ≡ neighbour.now }
    {
        *neighbour
    }
}

/// The names of the features of a table.
pub fn names_of(alloc: Global, features: &TextMap<List<Text>>) -> Result<List<Text>, NoMemory>
    ensures { IfOk result (AreNames features.now) }
{
    let mut names = List::new(alloc);
    for name in features.tree.keys() {
        names.push(Text::from_str(alloc, name.as_str())?)?;
    }
    Ok(names)
}

/// The number of each name.
pub fn numbers_of(alloc: Global, names: &[Text]) -> Result<TextMap<u32>, NoMemory>
    requires { length names.now < 2 ^ 28 }
    ensures { IfOk result (AreNumbers names.now) }
{
    let mut numbers = TextMap::new(alloc);
    for number in 0..names.len() {
        numbers.insert(names[number].clone()?, number as u32)?;
    }
    Ok(numbers)
}

/// The row of each feature: the numbers of the features that it leads to.
pub fn rows_of(
    alloc: Global,
    features: &TextMap<List<Text>>,
    names: &[Text],
    numbers: &TextMap<u32>,
) -> Result<List<List<u32>>, NoMemory>
    ensures { IfOk result (λ rows. rows ≡ map (row_of features.now numbers.now) names.now) }
{
    let mut rows = List::new(alloc);
    for name in names {
        rows.push(row_of(alloc, features, name, numbers)?)?;
    }
    Ok(rows)
}

#[tactic(auto, unfolding(crate::specs::private::Steps::row_of))]
fn row_of(
    alloc: Global,
    features: &TextMap<List<Text>>,
    name: &Text,
    numbers: &TextMap<u32>,
) -> Result<List<u32>, NoMemory>
    ensures { IfOk result (λ row. row ≡ row_of features.now numbers.now name.now) }
{
    match features.get(name.as_str()) {
        Some(entries) => plain_numbers(alloc, entries.as_slice(), numbers),
        None => Ok(List::new(alloc)),
    }
}

fn plain_numbers(
    alloc: Global,
    entries: &[Text],
    numbers: &TextMap<u32>,
) -> Result<List<u32>, NoMemory>
    ensures { IfOk result (λ row. row ≡ filter_map (plain_number numbers.now) entries.now) }
{
    let mut row = List::new(alloc);
    for entry in entries {
        if let Some(number) = plain_number(numbers, entry) {
            row.push(number)?;
        }
    }
    Ok(row)
}

/// The number of a plain entry that is a feature of the table.
#[tactic(auto, unfolding(crate::specs::private::Steps::plain_number))]
fn plain_number(numbers: &TextMap<u32>, entry: &Text) -> Option<u32>
    ensures { result ≡ plain_number numbers.now entry.now }
{
    if is_plain(entry) {
        numbers.get(entry.as_str()).copied()
    } else {
        None
    }
}

/// Whether an entry of a feature is a feature of the crate itself: neither a dependency nor a feature of one.
#[tactic(auto, unfolding(deny_spec_report::specs::Features::is_plain))]
pub fn is_plain(entry: &Text) -> bool
    ensures { result ≡ is_plain entry.now }
{
    let bytes = entry.as_str().as_bytes();
    !bytes.starts_with(b"dep:") && !bytes.contains(&b'/')
}

/// The numbers of those of the listed features that the table has.
pub fn roots_of(
    alloc: Global,
    listed: &[Spanned<Text>],
    numbers: &TextMap<u32>,
) -> Result<List<u32>, NoMemory>
    ensures { IfOk result (λ roots. roots ≡ filter_map (λ w. finite.get numbers.now w.value) listed.now) }
{
    let mut roots = List::new(alloc);
    for name in listed {
        if let Some(number) = numbers.get(name.value.as_str()) {
            roots.push(*number)?;
        }
    }
    Ok(roots)
}
