ghost use Rattle.std.specs.Prelude.{◌≡◌, ◌<◌, ◌^◌, List, IfOk, IfSome, IfNone, Contains, length, map, ◌≢◌};
ghost use Rattle.std.specs.Cmp.{IsTotalOrder};
ghost use Rattle.std.specs.FinMap.{IsAntisymmetric};
ghost use Rattle.std.specs.List.Sorted.{IsStrictlySortedBy};
ghost use Rattle.deny_krates_graph.specs.private.Direct.{AreApart, AreRanks};
ghost use Rattle.deny_krates_graph.specs.IdEntries.{AreIds, entries_from, id_entry_cmp};
ghost use Rattle.deny_krates_graph.specs.declared.ids.IdEntry.{IdEntry};

use crate::graph::inverse_of;
use crate::krate::Krate;
use deny_base_lists::{List, NoMemory, Text, put_in_order};
use std::alloc::Global;

/// The id of a crate, with the crate's place.
#[derive(PartialEq, Eq, PartialOrd, Ord, Drop)]
pub struct IdEntry {
    pub id: Text,
    pub place: u32,
}

/// The entries of crates, ascending by id.
pub fn ids_of(alloc: Global, krates: &[Krate]) -> Result<List<IdEntry>, NoMemory>
    requires { length krates.now < 2 ^ 28 }
    ensures { IfOk result (AreIds krates.now) }
{
    let mut entries = entries(alloc, krates)?;
    entry_order();
    put_in_order(&mut entries)?;
    Ok(entries)
}

fn entries(alloc: Global, krates: &[Krate]) -> Result<List<IdEntry>, NoMemory>
    requires { length krates.now < 2 ^ 28 }
    ensures { IfOk result (λ entries. entries ≡ entries_from 0 krates.now) }
{
    let mut entries = List::new(alloc);
    for (place, krate) in krates.iter().enumerate() {
        entries.push(IdEntry {
            id: krate.id.0.clone()?,
            place: place as u32,
        })?;
    }
    Ok(entries)
}

// The order of entries is by id and place, it is total, and only equal ones tie.
fn entry_order()
    ensures fields { (a b : IdEntry) → ⟦<IdEntry as Ord>⟧.cmp a b ≡ id_entry_cmp a b }
    ensures total { IsTotalOrder id_entry_cmp }
    ensures equal { IsAntisymmetric id_entry_cmp }
{}

/// The rank of each crate among all by their ids.
pub fn ranks_of(alloc: Global, krates: &[Krate], entries: &[IdEntry]) -> Result<List<u32>, NoMemory>
    requires few { length krates.now < 2 ^ 28 }
    requires apart { AreApart krates.now }
    requires ids { AreIds krates.now entries.now }
    ensures { IfOk result (AreRanks krates.now) }
{
    let places = places_by_id(alloc, entries)?;
    inverse_of(alloc, places.as_slice(), krates.len())
}

fn places_by_id(alloc: Global, entries: &[IdEntry]) -> Result<List<u32>, NoMemory>
    ensures { IfOk result (λ places. places ≡ map (λ e. e.place) entries.now) }
{
    let mut places = List::new(alloc);
    for entry in entries {
        places.push(entry.place)?;
    }
    Ok(places)
}

/// The place of the crate of an id, given the entries in ascending order.
pub fn place_of(entries: &[IdEntry], id: &str) -> Option<u32>
    requires { IsStrictlySortedBy id_entry_cmp entries.now }
    ensures found { IfSome result (λ place. Contains entries.now (record { id = id.now; place = place })) }
    ensures none { IfNone result ((e : IdEntry) → Contains entries.now e → e.id ≢ id.now) }
{
    match entries.binary_search_by(|entry| entry.id.as_str().cmp(id)) {
        Ok(at) => Some(entries[at].place),
        Err(_) => None,
    }
}
