//! The policy's ignores, found by the crate names in their specs.
ghost use Rattle.std.specs.Prelude.{◌≡◌, ℕ, IfOk, find, map, option_and_then, option_map};
ghost use Rattle.deny_cfg.specs.PolicyView.{entry_view};
ghost use Rattle.deny_spec_report.specs.FirstMatch.{first_of};
ghost use Rattle.deny_spec_report.specs.StdReplacements.{ignore_span, ignores};
ghost use Rattle.deny_krates.specs.Crates.{crate_view};
ghost use Rattle.deny_std.specs.private.Ignored.{entry_name, entry_span, matches_at};

use deny_base::Span;
use deny_base_lists::NoMemory;
use deny_cfg::bans::cfg::CrateSkip;
use deny_cfg::{SpecIndex, match_krate};
use deny_krates::Krate;
use std::alloc::Global;

/// The ignores, with an index of the crate names in their specs.
#[derive(Drop)]
pub struct Ignored<'c> {
    pub entries: &'c [CrateSkip],
    names: SpecIndex,
    ghost named: { names ≡ map entry_name entries.now },
}

impl<'c> Ignored<'c> {
    /// Indexes the ignores by the names in their specs.
    pub fn new(alloc: Global, entries: &'c [CrateSkip]) -> Result<Ignored<'c>, NoMemory>
        ensures { IfOk result (λ ignored. ignored.entries.now ≡ entries.entry.now) }
    {
        let names = names_of(alloc, entries)?;
        Ok(Ignored { entries, names })
    }

    /// The span of the first ignore that matches a crate.
    pub fn first_span(&self, alloc: Global, krate: &Krate) -> Result<Option<Span>, NoMemory>
        ensures { IfOk result (λ span. (place : ℕ) → span ≡ option_map ignore_span
            (first_of ignores (map entry_view self.now.entries.now) (crate_view place krate.now))) }
    {
        let mut numbers = Vec::new(alloc);
        self.names.numbers_of(krate.name.as_str(), &mut numbers)?;
        Ok(first_span(self.entries, numbers.as_slice(), krate))
    }
}

fn names_of(alloc: Global, entries: &[CrateSkip]) -> Result<SpecIndex, NoMemory>
    ensures { IfOk result (λ names. names ≡ map entry_name entries.now) }
{
    let mut names = SpecIndex::new(alloc);
    for entry in entries {
        names.add(entry.spec.name.value.as_str())?;
    }
    Ok(names)
}

/// The span of the first ignore at one of these indices that matches a crate.
fn first_span(entries: &[CrateSkip], numbers: &[usize], krate: &Krate) -> Option<Span>
    ensures { result ≡ option_and_then (entry_span entries.now)
        (find (matches_at entries.now krate.now) numbers.now) }
{
    for number in numbers {
        if matches_at(entries, krate, *number) {
            return span_at(entries, *number);
        }
    }
    None
}

fn matches_at(entries: &[CrateSkip], krate: &Krate, number: usize) -> bool
    ensures { result ≡ matches_at entries.now krate.now number }
{
    match entries.get(number) {
        Some(entry) => match_krate(krate, &entry.spec),
        None => false,
    }
}

fn span_at(entries: &[CrateSkip], number: usize) -> Option<Span>
    ensures { result ≡ entry_span entries.now number }
{
    match entries.get(number) {
        Some(entry) => Some(entry.spec.name.span),
        None => None,
    }
}
