//! The features of a crate that an entry does not list, and whether they are exactly those listed.
ghost use Rattle.std.specs.Prelude.{◌≡◌, IfOk};
ghost use Rattle.std.specs.Cmp.Lexicographic.{slice_cmp};
ghost use Rattle.std.specs.List.{list_all};
ghost use Rattle.std.specs.List.Sorted.{IsStrictlySortedBy};
ghost use Rattle.std.specs.Ordering.{nat_cmp};
ghost use Rattle.deny_cfg.specs.PolicyView.{feature_view, policy_view};
ghost use Rattle.deny_spec_report.specs.Features.{denies};
ghost use Rattle.deny_rules_match.specs.Wrappers.{AreFirstSpans};
ghost use Rattle.deny_rules_features.specs.Listed.{has_default_apart_at, unlisted_at};
ghost use Rattle.deny_rules_features.specs.private.FeatureMatches.{IsFeatureMatch, entry_of};
ghost use Rattle.deny_rules_features.specs.private.Listed.{is_among, is_mismatched_at, is_unlisted_by};

use crate::crates::{default_level_at, enabled_at, has, is_default};
use crate::feature_match::FeatureMatch;
use deny_base::{LintLevel, Span, Spanned};
use deny_base_lists::{List, NoMemory, Text, TextMap};
use deny_cfg::bans::cfg::{ValidConfig, ValidKrateFeatures};
use deny_krates::Krates;
use std::alloc::Global;

/// The enabled features of the crate at a place that an entry does not list. `allowed` has the features that
/// the entry allows.
pub fn unlisted(
    alloc: Global,
    cfg: &ValidConfig,
    krates: &Krates,
    entry: &ValidKrateFeatures,
    allowed: &TextMap<Span>,
    place: u32,
) -> Result<List<Text>, NoMemory>
    requires { AreFirstSpans (feature_view entry.now).allow.value allowed.now }
    ensures { IfOk result (λ features. features
        ≡ unlisted_at (policy_view cfg.now) krates.now (feature_view entry.now) place) }
{
    let apart = has_default_apart(cfg, krates, place);
    let enabled = enabled_at(krates, place);
    let mut features = List::new(alloc);
    for feature in enabled {
        if is_unlisted(allowed, apart, feature) {
            features.push(feature.clone()?)?;
        }
    }
    Ok(features)
}

/// Whether `default` is left to its level alone: one is written, and does not deny.
#[tactic(auto, unfolding(crate::specs::Listed::has_default_apart_at))]
fn has_default_apart(cfg: &ValidConfig, krates: &Krates, place: u32) -> bool
    ensures { result ≡ has_default_apart_at (policy_view cfg.now) krates.now place }
{
    match default_level_at(cfg, krates, place) {
        Some(at) => !denies(at.value),
        None => false,
    }
}

fn denies(level: LintLevel) -> bool
    ensures { result ≡ denies level }
{
    match level {
        LintLevel::Allow | LintLevel::Warn => false,
        LintLevel::Deny => true,
    }
}

#[tactic(auto, unfolding(crate::specs::private::Listed::is_unlisted_by))]
fn is_unlisted(allowed: &TextMap<Span>, apart: bool, feature: &Text) -> bool
    ensures { result ≡ is_unlisted_by allowed.now apart feature.now }
{
    !allowed.contains_key(feature.as_str()) && !(is_default(feature) && apart)
}

/// Whether all listed features are enabled.
fn are_enabled(enabled: &[Text], listed: &[Spanned<Text>]) -> bool
    requires { IsStrictlySortedBy (slice_cmp nat_cmp) enabled.now }
    ensures { result ≡ list_all (is_among enabled.now) listed.now }
{
    for name in listed {
        if !has(enabled, &name.value) {
            return false;
        }
    }
    true
}

/// Whether the enabled features of the crate at a place are not exactly those that an entry allows.
#[tactic(auto, unfolding(crate::specs::private::Listed::is_mismatched_at))]
pub fn is_mismatched(
    alloc: Global,
    cfg: &ValidConfig,
    krates: &Krates,
    found: &FeatureMatch<'_>,
    place: u32,
) -> Result<bool, NoMemory>
    requires { IsFeatureMatch krates.now found.now }
    ensures { IfOk result (λ mismatched. mismatched
        ≡ is_mismatched_at (policy_view cfg.now) krates.now (entry_of found.now) place) }
{
    let others = unlisted(alloc, cfg, krates, found.written, &found.allowed, place)?;
    if others.len() != 0 {
        return Ok(true);
    }
    let listed = found.written.features.allow.value.as_slice();
    Ok(!are_enabled(enabled_at(krates, place), listed))
}
