//! Names of one hash, in their order, each once and with its numbers.
ghost use Rattle.std.specs.Prelude.{ℕ, List, ◌≡◌, ◌<◌, ◌≤◌, ◌+◌, ◌^◌, ◌∷◌, []};
ghost use Rattle.std.specs.Prelude.{length, insert, OnOk, OnErr, IfOk, IfErr};
ghost use Rattle.deny_base_lists.specs.Prefix.{IsPrefix};
ghost use Rattle.deny_cfg_index.specs.Bucket.{Ascend, IsNamedAt};
ghost use Rattle.deny_cfg_index.specs.private.Bucket.{IsGap, IsNumbered, IsExtended};
ghost use Rattle.deny_cfg_index.specs.private.Index.{GivesNumbers, GivesFirst, BoundsSteps};

use deny_base_lists::{List, NoMemory, Steps, Wanted, binary_search, binary_search_uncounted};
use std::alloc::Global;
use std::cmp::Ordering;
use std::sync::ledger::Ledger;

/// A name, and the numbers that it was added as.
#[derive(Drop)]
pub struct Named {
    pub name: List<u8>,
    pub numbers: List<usize>,
}

/// The name to search for in a bucket.
#[derive(Drop)]
struct WantedName<'n> {
    name: &'n [u8],
}

impl<'n> Wanted for WantedName<'n> {
    ghost use Rattle.std.specs.Prelude.{◌≡◌};
    ghost use Rattle.std.specs.Ordering.{nat_cmp};
    ghost use Rattle.std.specs.Cmp.Lexicographic.{slice_cmp};
    ghost use Rattle.deny_cfg_index.specs.Bucket.{name_of};

    type Record = Named;

    ghost name_of = { name_of };

    ghost name = { λ wanted. wanted.name.now };

    fn compare(&self, item: &Named) -> Ordering
        ensures { result ≡ slice_cmp nat_cmp item.now.name self.now.name.now }
    {
        item.name.as_slice().cmp(self.name)
    }
}

/// The index of the name, or the one at which to insert it.
fn find_name<L: Ledger>(bucket: &[Named], name: &[u8], steps: &mut Steps<L>) -> Result<usize, usize>
    requires { Ascend bucket.now }
    ensures found { IfOk result (IsNamedAt bucket.now name.now) }
    ensures absent { IfErr result (IsGap bucket.now name.now) }
    ensures steps { (d : ℕ) → length bucket.now < 2 ^ d → steps.new ≤ steps.old + d }
{
    binary_search(bucket, &WantedName { name }, steps)
}

/// Adds a number to the name at this index.
fn push_number(bucket: &mut List<Named>, index: usize, number: usize) -> Result<(), NoMemory>
    requires { index < length bucket.old }
    ensures ok { OnOk result (IsNumbered bucket.old index number bucket.new) }
    ensures err { OnErr result (bucket.new ≡ bucket.old) }
{
    bucket.vec[index].numbers.push(number)
}

/// Puts a new name at this index, with one number.
fn insert_name(
    alloc: Global,
    bucket: &mut List<Named>,
    index: usize,
    name: &[u8],
    number: usize,
) -> Result<(), NoMemory>
    requires { index ≤ length bucket.old }
    ensures ok { OnOk result (bucket.new
        ≡ insert bucket.old index (record { name = name.now; numbers = number ∷ [] })) }
    ensures err { OnErr result (bucket.new ≡ bucket.old) }
{
    let name = List::from_vec(Vec::from_slice(alloc, name)?);
    let mut numbers = List::new(alloc);
    numbers.push(number)?;
    bucket.vec.insert(index, Named { name, numbers })?;
    Ok(())
}

/// Adds a number to a name, which is inserted if it is not there.
pub fn add_name(
    alloc: Global,
    bucket: &mut List<Named>,
    name: &[u8],
    number: usize,
) -> Result<(), NoMemory>
    requires { Ascend bucket.old }
    ensures ok { OnOk result (IsExtended bucket.old name.now number bucket.new) }
    ensures err { OnErr result (bucket.new ≡ bucket.old) }
{
    match binary_search_uncounted(bucket.as_slice(), &WantedName { name }) {
        Ok(index) => push_number(bucket, index, number),
        Err(index) => insert_name(alloc, bucket, index, name, number),
    }
}

/// Puts the numbers of a name into the list, which is empty.
pub fn give_numbers<L: Ledger>(
    bucket: &[Named],
    name: &[u8],
    numbers: &mut Vec<usize>,
    steps: &mut Steps<L>,
) -> Result<(), NoMemory>
    requires ascend { Ascend bucket.now }
    requires empty { numbers.old.items ≡ [] }
    ensures ok { OnOk result (GivesNumbers bucket.now name.now numbers.new.items) }
    ensures err { OnErr result (GivesFirst bucket.now name.now numbers.new.items) }
    ensures steps { BoundsSteps bucket.now name.now steps.old steps.new }
{
    match find_name(bucket, name, steps) {
        Ok(index) => give_all(bucket[index].numbers.as_slice(), numbers, steps),
        Err(_index) => Ok(()),
    }
}

/// Puts these numbers into the list, which is empty, with a step for each.
fn give_all<L: Ledger>(
    given: &[usize],
    numbers: &mut Vec<usize>,
    steps: &mut Steps<L>,
) -> Result<(), NoMemory>
    requires { numbers.old.items ≡ [] }
    ensures ok { OnOk result (numbers.new.items ≡ given.now) }
    ensures err { OnErr result (IsPrefix given.now numbers.new.items) }
    ensures steps { steps.new ≤ steps.old + length given.now }
{
    for number in given {
        numbers.push(*number)?;
        steps.tick();
    }
    Ok(())
}
