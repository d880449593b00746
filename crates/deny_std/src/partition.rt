//! Replaced crates: those that are reported, and the first that hits each ignore.
ghost use Rattle.std.specs.Prelude.{◌≡◌, ◌++◌, IfOk, OnOk, List, ℕ, [], flat_map};
ghost use Rattle.deny_base.specs.declared.span.Span.{Span};
ghost use Rattle.deny_base_lists.specs.First.{FindsFirst};
ghost use Rattle.deny_std.specs.private.FirstWitnesses.{place_in, is_same_span};
ghost use Rattle.deny_std.specs.private.Partition.{ignored_at, ignored_of, span_at, reported_at, reported_of};

use crate::first_witnesses::FirstWitnesses;
use crate::ignored::Ignored;
use deny_base::Span;
use deny_base_lists::{List, NoMemory};
use deny_krates::{Krates, krate_at};
use std::alloc::Global;

/// The crates that are reported, and the first crate that hits each ignore.
#[derive(Drop)]
pub struct Partition {
    pub reported: List<u32>,
    pub witnesses: FirstWitnesses,
}

impl Partition {
    fn new(alloc: Global) -> Partition
        ensures reported { result.reported ≡ [] }
        ensures witnesses { FindsFirst is_same_span [] (place_in result.witnesses) }
    {
        Partition {
            reported: List::new(alloc),
            witnesses: FirstWitnesses::new(alloc),
        }
    }

    /// Adds a crate, by the span of the ignore that matches it, if one does.
    fn put(&mut self, span: Option<Span>, place: u32) -> Result<(), NoMemory>
        ensures reported { OnOk result (self.new.reported ≡ self.old.reported ++ reported_of span place) }
        ensures witnesses { OnOk result ((entries : List (Span × ℕ)) → FindsFirst is_same_span entries
            (place_in self.old.witnesses)
            → FindsFirst is_same_span (entries ++ ignored_of span place) (place_in self.new.witnesses)) }
    {
        match span {
            Some(span) => self.witnesses.add(span, place),
            None => self.reported.push(place),
        }
    }
}

/// Sorts crates, by their places, into reported and ignored ones.
pub fn partition_places(
    alloc: Global,
    krates: &Krates,
    ignored: &Ignored<'_>,
    places: &[u32],
) -> Result<Partition, NoMemory>
    ensures reported { IfOk result (λ partition. partition.reported ≡ flat_map
        (reported_at ignored.now.entries.now krates.now) places.now) }
    ensures witnesses { IfOk result (λ partition. FindsFirst is_same_span
        (flat_map (ignored_at ignored.now.entries.now krates.now) places.now)
        (place_in partition.witnesses)) }
{
    let mut partition = Partition::new(alloc);
    for place in places {
        let span = span_at(alloc, krates, ignored, *place)?;
        partition.put(span, *place)?;
    }
    Ok(partition)
}

/// The span of the first ignore that matches the crate at a place.
fn span_at(
    alloc: Global,
    krates: &Krates,
    ignored: &Ignored<'_>,
    place: u32,
) -> Result<Option<Span>, NoMemory>
    ensures { IfOk result (λ span. span ≡ span_at ignored.now.entries.now krates.now place) }
{
    match krate_at(krates, place) {
        Some(krate) => ignored.first_span(alloc, krate),
        None => Ok(None),
    }
}
