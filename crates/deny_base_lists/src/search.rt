//! Binary search with a count of its comparisons.
ghost use Rattle.std.specs.Prelude.{ℕ, ◌≡◌, ◌<◌, ◌≤◌, ◌+◌, ◌^◌, length, IfOk, IfErr};
ghost use Rattle.deny_base_lists.specs.Search.{Ascend, IsNamedAt, IsGap};
ghost use Rattle.deny_base_lists.specs.private.Halving.{IsBetween, IsHalved};

use crate::steps::Steps;
use std::cmp::Ordering;
use std::marker::Brand;
use std::sync::ledger::{Blank, Ledger};

/// A name to search for among records that each have one. An impl repeats the clause of `compare`
/// for its own type of records. Contracts see a name as the numbers of its bytes or characters.
pub trait Wanted {
    ghost use Rattle.std.specs.Prelude.{◌≡◌, ℕ, List};
    ghost use Rattle.std.specs.Ordering.{nat_cmp};
    ghost use Rattle.std.specs.Cmp.Lexicographic.{slice_cmp};

    type Record;

    /// The name of a record.
    ghost name_of: { Self.Record → List ℕ };

    /// The name to search for.
    ghost name: { Self → List ℕ };

    /// Compares the name of a record with the wanted one.
    fn compare(&self, item: &Self::Record) -> Ordering
        ensures { result ≡ slice_cmp nat_cmp (name_of item.now) (name self.now) };
}

/// The result of a comparison in a search.
#[derive(Drop)]
enum Halving {
    /// The wanted name is at this index.
    Found(usize),
    /// It can only be from the first index on, before the second.
    Between(usize, usize),
}

/// The index of the record with the wanted name, or the one at which to insert such a record.
/// A step is one comparison of names.
pub fn binary_search<W: Wanted, L: Ledger>(
    records: &[W::Record],
    wanted: &W,
    steps: &mut Steps<L>,
) -> Result<usize, usize>
    requires { Ascend W.name_of records.now }
    ensures found { IfOk result (IsNamedAt W.name_of records.now (W.name wanted.now)) }
    ensures absent { IfErr result (IsGap W.name_of records.now (W.name wanted.now)) }
    ensures steps { (d : ℕ) → length records.now < 2 ^ d → steps.new ≤ steps.old + d }
{
    let mut low = 0;
    let mut high = records.len();
    while low < high {
        match halve::<W, L>(records, wanted, low, high, steps) {
            Halving::Found(index) => return Ok(index),
            Halving::Between(next_low, next_high) => {
                low = next_low;
                high = next_high;
            }
        }
    }
    Err(low)
}

/// `binary_search` without a count of the steps.
pub fn binary_search_uncounted<W: Wanted>(records: &[W::Record], wanted: &W) -> Result<usize, usize>
    requires { Ascend W.name_of records.now }
    ensures found { IfOk result (IsNamedAt W.name_of records.now (W.name wanted.now)) }
    ensures absent { IfErr result (IsGap W.name_of records.now (W.name wanted.now)) }
{
    uncounted::<W, Brand>(records, wanted, Blank::new(1))
}

fn uncounted<W: Wanted, L: Ledger>(
    records: &[W::Record],
    wanted: &W,
    blank: Blank,
) -> Result<usize, usize>
    requires name { blank.name ≡ L.name }
    requires parts { blank.parts ≡ L.parts }
    requires whole { 0 < L.parts }
    requires ascend { Ascend W.name_of records.now }
    ensures found { IfOk result (IsNamedAt W.name_of records.now (W.name wanted.now)) }
    ensures absent { IfErr result (IsGap W.name_of records.now (W.name wanted.now)) }
{
    let mut steps = Steps::<L>::new(blank);
    binary_search::<W, L>(records, wanted, &mut steps)
}

// Compares the wanted name with the one in the middle of the range.
fn halve<W: Wanted, L: Ledger>(
    records: &[W::Record],
    wanted: &W,
    low: usize,
    high: usize,
    steps: &mut Steps<L>,
) -> Halving
    requires ascend { Ascend W.name_of records.now }
    requires between { IsBetween W.name_of records.now (W.name wanted.now) low high }
    requires some { low < high }
    ensures ok { IsHalved W.name_of records.now (W.name wanted.now) low high result }
    ensures steps { steps.new ≡ steps.old + 1 }
{
    let middle = low + (high - low) / 2;
    steps.tick();
    match wanted.compare(&records[middle]) {
        Ordering::Less => Halving::Between(middle + 1, high),
        Ordering::Greater => Halving::Between(low, middle),
        Ordering::Equal => Halving::Found(middle),
    }
}
