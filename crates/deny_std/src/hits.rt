//! The ignores that were hit, and those that were not hit.
ghost use Rattle.std.specs.Prelude.{◌≡◌, ◌++◌, Contains, IfOk, OnOk, filter_map, map, option_map};
ghost use Rattle.std.specs.FinMap.{IsAntisymmetric};
ghost use Rattle.deny_base_lists.specs.Ascending.{AreFirst, Lists};
ghost use Rattle.deny_base.specs.KeyOrder.{span_cmp};
ghost use Rattle.deny_cfg.specs.PolicyView.{entry_view};
ghost use Rattle.deny_std.specs.private.Hits.{hit_at, unmatched_in, unmatched_span};
ghost use Rattle.deny_std.specs.private.Diags.{unmatched_of};

use crate::diags::Unmatched;
use crate::first_witnesses::FirstWitnesses;
use deny_base::{EntryId, EntryKind, Hit, Span, Witness};
use deny_base_lists::{List, NoMemory, put_records_in_order};
use deny_cfg::bans::cfg::CrateSkip;
use deny_cfg::{Waiver, spec_text};
use deny_krates::{Krates, krate_at};
use std::alloc::Global;

/// The hit of each ignore that was hit, by its first crate.
pub fn first_hits(
    alloc: Global,
    krates: &Krates,
    entries: &[CrateSkip],
    witnesses: &FirstWitnesses,
) -> Result<List<Hit>, NoMemory>
    ensures { IfOk result (λ hits. hits ≡ filter_map (hit_at krates.now witnesses.now) entries.now) }
{
    let mut hits = List::new(alloc);
    for entry in entries {
        if let Some(hit) = hit_at(krates, witnesses, entry)? {
            hits.push(hit)?;
        }
    }
    Ok(hits)
}

fn hit_at(
    krates: &Krates,
    witnesses: &FirstWitnesses,
    entry: &CrateSkip,
) -> Result<Option<Hit>, NoMemory>
    ensures { IfOk result (λ hit. hit ≡ hit_at krates.now witnesses.now entry.now) }
{
    let span = entry.spec.name.span;
    let Some(place) = witnesses.find(span) else {
        return Ok(None);
    };
    let Some(krate) = krate_at(krates, place) else {
        return Ok(None);
    };
    Ok(Some(Hit {
        entry: EntryId {
            kind: EntryKind::ReplacementIgnore,
            range: span,
        },
        witness: Witness::Krate(krate.id.clone()?),
    }))
}

/// The ignores that were not hit, by their spans; of those of one span the first.
pub fn unmatched_of(
    alloc: Global,
    entries: &[CrateSkip],
    witnesses: &FirstWitnesses,
) -> Result<List<Unmatched>, NoMemory>
    ensures listed { IfOk result (λ unmatched. Lists span_cmp
        (Contains (map unmatched_span (unmatched_in witnesses.now entries.now)))
        (map unmatched_span unmatched)) }
    ensures first { IfOk result (AreFirst span_cmp unmatched_span
        (unmatched_in witnesses.now entries.now)) }
{
    spans_differ();
    let mut unmatched = List::new(alloc);
    add_unmatched(alloc, entries, witnesses, &mut unmatched)?;
    put_records_in_order(&mut unmatched)?;
    Ok(unmatched)
}

fn add_unmatched(
    alloc: Global,
    entries: &[CrateSkip],
    witnesses: &FirstWitnesses,
    unmatched: &mut List<Unmatched>,
) -> Result<(), NoMemory>
    ensures { OnOk result (unmatched.new ≡ unmatched.old ++ unmatched_in witnesses.now entries.now) }
{
    for entry in entries {
        if witnesses.find(entry.spec.name.span).is_none() {
            unmatched.push(unmatched_entry(alloc, entry)?)?;
        }
    }
    Ok(())
}

/// What is kept of an ignore that was not hit.
fn unmatched_entry(alloc: Global, entry: &CrateSkip) -> Result<Unmatched, NoMemory>
    ensures { IfOk result (λ unmatched. unmatched ≡ unmatched_of (entry_view entry.now)) }
{
    Ok(Unmatched {
        span: entry.spec.name.span,
        spec: spec_text(alloc, &entry.spec)?,
        reason: reason_span(entry),
    })
}

fn reason_span(entry: &CrateSkip) -> Option<Span>
    ensures { result ≡ option_map (λ reason. reason.span) (entry_view entry.now).reason }
{
    match &entry.inner {
        Some(
            Waiver {
                reason: Some(reason),
                ..
            },
        ) => Some(reason.0.span),
        _ => None,
    }
}

/// Only equal spans compare as equal.
fn spans_differ()
    ensures { IsAntisymmetric ⟦<Span as Ord>⟧.cmp }
{}
