//! The crates that an entry matches.
ghost use Rattle.std.specs.Prelude.{◌≡◌, IfOk};
ghost use Rattle.deny_cfg.specs.SpecView.{spec_view};
ghost use Rattle.deny_rules_match.specs.Matches.{spec_match};

use crate::matching::matched;
use deny_base::Span;
use deny_base_lists::{List, NoMemory, Text};
use deny_cfg::PackageSpec;
use deny_krates::Krates;
use std::alloc::Global;

/// An entry, by its name and its span, with crates that it matches.
#[derive(Drop)]
pub struct EntryMatch {
    pub name: Text,
    pub span: Span,
    /// The crates, by their places, ascending.
    pub places: List<u32>,
}

/// A spec with all crates that it matches.
pub fn spec_match(
    alloc: Global,
    krates: &Krates,
    spec: &PackageSpec,
) -> Result<EntryMatch, NoMemory>
    ensures { IfOk result (λ found. found ≡ spec_match krates.now (spec_view spec.now)) }
{
    let places = matched(alloc, krates, spec)?;
    Ok(EntryMatch {
        name: spec.name.value.clone()?,
        span: spec.name.span,
        places,
    })
}
