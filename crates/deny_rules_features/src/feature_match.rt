//! What the entries on features match, worked out once for a check.
ghost use Rattle.std.specs.Prelude.{◌≡◌, IfOk};
ghost use Rattle.deny_cfg.specs.PolicyView.{policy_view};
ghost use Rattle.deny_rules_features.specs.private.FeatureMatches.{AreFeatureMatches, IsFeatureMatch};

use deny_base::Span;
use deny_base_lists::{List, NoMemory, TextMap};
use deny_cfg::bans::cfg::{ValidConfig, ValidKrateFeatures};
use deny_krates::Krates;
use deny_rules_match::{matched, spans_by_name};
use std::alloc::Global;

/// An entry on features, with the crates that it matches.
#[derive(Drop)]
pub struct FeatureMatch<'c> {
    pub written: &'c ValidKrateFeatures,
    /// The crates that the entry matches, by their places, ascending.
    pub places: List<u32>,
    /// The span of each allowed feature's name, where it is first listed.
    pub allowed: TextMap<Span>,
}

/// Each entry on features with the crates that it matches.
pub fn feature_matches<'c>(
    alloc: Global,
    cfg: &'c ValidConfig,
    krates: &Krates,
) -> Result<List<FeatureMatch<'c>>, NoMemory>
    ensures { IfOk result (AreFeatureMatches krates.now (policy_view cfg.now).features) }
{
    let entries = cfg.features.as_slice();
    let mut found = List::new(alloc);
    for entry in entries {
        found.push(feature_match(alloc, krates, entry)?)?;
    }
    Ok(found)
}

/// An entry on features with the crates that it matches.
fn feature_match<'c>(
    alloc: Global,
    krates: &Krates,
    written: &'c ValidKrateFeatures,
) -> Result<FeatureMatch<'c>, NoMemory>
    ensures of { IfOk result (λ found. found.written.now ≡ written.entry.now) }
    ensures is { IfOk result (IsFeatureMatch krates.now) }
{
    let places = matched(alloc, krates, &written.spec)?;
    let allowed = spans_by_name(alloc, written.features.allow.value.as_slice())?;
    Ok(FeatureMatch {
        written,
        places,
        allowed,
    })
}
