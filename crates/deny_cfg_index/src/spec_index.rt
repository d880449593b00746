ghost use Rattle.std.specs.Prelude.{ℕ, List, ◌≡◌, ◌↔◌, ◌<◌, ◌∷◌, ◌++◌, [], OnOk, OnErr, Contains, Some, slice_get};
ghost use Rattle.std.specs.List.Sorted.{IsStrictlyIncreasing};
ghost use Rattle.deny_cfg_index.specs.Bucket.{Ascend};
ghost use Rattle.deny_cfg_index.specs.Index.{bucket_at};
ghost use Rattle.deny_cfg_index.specs.private.Index.{Extends, Stays};
ghost use Rattle.deny_cfg_index.specs.Names.{AreNumbers, AreFirstNumbers, KeepsBound};

use crate::bucket::{Named, add_name, give_numbers};
use crate::hash::hash_of;
use deny_base_lists::{List, NoMemory, Steps, Text};
use std::alloc::Global;
use std::collections::BTreeMap;
use std::marker::{Brand, Model};
use std::sync::ledger::{Blank, Ledger};

/// Names, each with a number: its place in the order of addition. Contracts see the list of the names.
#[derive(Drop)]
pub struct SpecIndex {
    names: List<Text>,
    buckets: BTreeMap<u32, List<Named>>,
}

impl Model for SpecIndex {
    ghost use Rattle.std.specs.Prelude.{List, ℕ};
    ghost use Rattle.std.specs.Coded.{coded_ℕ, coded_list};
    ghost use Rattle.deny_cfg_index.specs.Index.{IsIndexed, bucket_at};

    ghost Value = { List (List ℕ) };

    ghost coded = { coded_list (coded_list coded_ℕ) };

    ghost view = { λ s. s.names };

    ghost invariant = { λ s. IsIndexed s.names (bucket_at s.buckets) };
}

impl SpecIndex {
    /// An index without names.
    pub fn new(alloc: Global) -> SpecIndex
        ensures { result ≡ [] }
    {
        SpecIndex {
            names: List::new(alloc),
            buckets: BTreeMap::new(alloc),
        }
    }

    /// Adds a name; its number is how many names were there. When out of memory, nothing changes.
    pub fn add(&mut self, name: &str) -> Result<(), NoMemory>
        ensures ok { OnOk result (self.new ≡ self.old ++ name.now ∷ []) }
        ensures err { OnErr result (self.new ≡ self.old) }
    {
        let alloc = allocator_of(&self.names);
        let number = self.names.len();
        let text = Text::from_str(alloc, name)?;
        self.names.vec.reserve(1)?;
        index_name(alloc, &mut self.buckets, name.as_bytes(), number)?;
        self.names.vec.push(text)?;
        Ok(())
    }

    /// Clears the list, and puts into it the numbers of exactly the names that are equal to this one,
    /// ascending. When out of memory, the list holds a prefix of them. A step is one comparison of
    /// names, or one number put into the list.
    pub fn find<L: Ledger>(
        &self,
        name: &str,
        numbers: &mut Vec<usize>,
        steps: &mut Steps<L>,
    ) -> Result<(), NoMemory>
        ensures ascending { OnOk result (IsStrictlyIncreasing numbers.new.items) }
        ensures exact { OnOk result ((i : ℕ) → Contains numbers.new.items i ↔ (slice_get self.now i ≡ Some name.now)) }
        ensures short { OnErr result (AreFirstNumbers self.now name.now numbers.new.items) }
        ensures steps { KeepsBound self.now name.now steps.old steps.new }
    {
        find_numbers(self, name.as_bytes(), numbers, steps)
    }

    /// `find` without a count of the steps.
    pub fn numbers_of(&self, name: &str, numbers: &mut Vec<usize>) -> Result<(), NoMemory>
        ensures ascending { OnOk result (IsStrictlyIncreasing numbers.new.items) }
        ensures exact { OnOk result ((i : ℕ) → Contains numbers.new.items i ↔ (slice_get self.now i ≡ Some name.now)) }
        ensures short { OnErr result (AreFirstNumbers self.now name.now numbers.new.items) }
    {
        find_uncounted::<Brand>(self, name.as_bytes(), numbers, Blank::new(1))
    }
}

/// The allocator of the names.
fn allocator_of(names: &List<Text>) -> Global {
    *names.vec.allocator()
}

/// Clears the list, and puts the numbers of the names that are equal to this one into it.
fn find_numbers<L: Ledger>(
    index: &SpecIndex,
    name: &[u8],
    numbers: &mut Vec<usize>,
    steps: &mut Steps<L>,
) -> Result<(), NoMemory>
    ensures ok { OnOk result (AreNumbers index.now name.now numbers.new.items) }
    ensures err { OnErr result (AreFirstNumbers index.now name.now numbers.new.items) }
    ensures steps { KeepsBound index.now name.now steps.old steps.new }
{
    numbers.clear();
    give_numbers(
        bucket_at(&index.buckets, hash_of(name)),
        name,
        numbers,
        steps,
    )
}

/// `find_numbers` without a count of the steps.
fn find_uncounted<L: Ledger>(
    index: &SpecIndex,
    name: &[u8],
    numbers: &mut Vec<usize>,
    blank: Blank,
) -> Result<(), NoMemory>
    requires name { blank.name ≡ L.name }
    requires parts { blank.parts ≡ L.parts }
    requires whole { 0 < L.parts }
    ensures ok { OnOk result (AreNumbers index.now name.now numbers.new.items) }
    ensures err { OnErr result (AreFirstNumbers index.now name.now numbers.new.items) }
{
    let mut steps: Steps<L> = Steps::new(blank);
    find_numbers(index, name, numbers, &mut steps)
}

/// The names that have a hash.
fn bucket_at(buckets: &BTreeMap<u32, List<Named>>, hash: u32) -> &[Named]
    ensures { result.now ≡ bucket_at buckets.now hash }
{
    match buckets.get(&hash) {
        Some(bucket) => bucket.as_slice(),
        None => &[],
    }
}

/// Adds a number to a name in the bucket of the name's hash.
fn index_name(
    alloc: Global,
    buckets: &mut BTreeMap<u32, List<Named>>,
    name: &[u8],
    number: usize,
) -> Result<(), NoMemory>
    requires { (hash : ℕ) → Ascend (bucket_at buckets.old hash) }
    ensures ok { OnOk result (Extends (bucket_at buckets.old) name.now number (bucket_at buckets.new)) }
    ensures err { OnErr result (Stays (bucket_at buckets.old) (bucket_at buckets.new)) }
{
    let hash = hash_of(name);
    if let Some(bucket) = buckets.get_mut(&hash) {
        return add_name(alloc, bucket, name, number);
    }
    let mut bucket = List::new(alloc);
    add_name(alloc, &mut bucket, name, number)?;
    buckets.insert(hash, bucket)?;
    Ok(())
}
