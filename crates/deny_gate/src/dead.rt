//! Dead entries: those that a finding names as unused and that have no hit.
ghost use Rattle.std.specs.Prelude.{◌≡◌, IfOk, filter_map, map};
ghost use Rattle.std.specs.List.Sorted.{IsStrictlySortedBy};
ghost use Rattle.deny_base.specs.Entry.{entry_cmp};
ghost use Rattle.deny_spec_removal.specs.Dead.{AreDead, unused_entry};
ghost use Rattle.deny_gate.specs.private.Dead.{dead_entry, is_among};
ghost use Rattle.deny_gate.specs.Hits.{entry_of, hit_cmp};
ghost use Rattle.deny_gate.specs.Report.{keys_in};

use crate::report::Finding;
use deny_base::{EntryId, Hit, Key, entry_order};
use deny_base_lists::{List, NoMemory, put_in_order};
use std::alloc::Global;

/// The entry that a key names as unused.
#[tactic(auto, unfolding(deny_spec_removal::specs::Dead::unused_entry))]
fn unused_entry(key: &Key) -> Option<EntryId>
    ensures { result ≡ unused_entry key.now }
{
    let kind = key.code.unused_kind()?;
    Some(EntryId {
        kind,
        range: key.entry,
    })
}

/// The entries of hits, in their order.
fn hit_entries(alloc: Global, hits: &[Hit]) -> Result<List<EntryId>, NoMemory>
    ensures { IfOk result (λ entries. entries ≡ map entry_of hits.now) }
{
    let mut entries = List::new(alloc);
    for hit in hits {
        entries.push(hit.entry)?;
    }
    Ok(entries)
}

/// Whether an entry is in a list that ascends.
fn is_among(entries: &[EntryId], entry: &EntryId) -> bool
    requires { IsStrictlySortedBy entry_cmp entries.now }
    ensures { result ≡ is_among entries.now entry.now }
{
    entry_order();
    entries.binary_search(entry).is_ok()
}

/// The entry that a key names as unused, unless it is hit.
#[tactic(auto, unfolding(crate::specs::private::Dead::dead_entry))]
fn dead_entry(key: &Key, hit: &[EntryId]) -> Option<EntryId>
    requires { IsStrictlySortedBy entry_cmp hit.now }
    ensures { result ≡ dead_entry hit.now key.now }
{
    let entry = unused_entry(key)?;
    if is_among(hit, &entry) {
        None
    } else {
        Some(entry)
    }
}

/// The dead entries that findings name, in the order of the findings.
fn dead_entries(
    alloc: Global,
    findings: &[Finding],
    hit: &[EntryId],
) -> Result<List<EntryId>, NoMemory>
    requires { IsStrictlySortedBy entry_cmp hit.now }
    ensures { IfOk result (λ entries. entries ≡ filter_map (λ f. dead_entry hit.now f.diag.key) findings.now) }
{
    let mut entries = List::new(alloc);
    for finding in findings {
        if let Some(entry) = dead_entry(&finding.diag.key, hit) {
            entries.push(entry)?;
        }
    }
    Ok(entries)
}

/// The entries that findings name as unused and that have no hit, by span and kind.
pub fn dead_of(alloc: Global, findings: &[Finding], hits: &[Hit]) -> Result<List<EntryId>, NoMemory>
    requires { IsStrictlySortedBy hit_cmp hits.now }
    ensures { IfOk result (AreDead (keys_in findings.now) hits.now) }
{
    entry_order();
    let hit = hit_entries(alloc, hits)?;
    let mut dead = dead_entries(alloc, findings, hit.as_slice())?;
    put_in_order(&mut dead)?;
    Ok(dead)
}
