//! The keys of the feature `default`, by its level.
ghost use Rattle.std.specs.Prelude.{◌≡◌, ◌++◌, All, IfOk, OnOk, length, map};
ghost use Rattle.std.specs.List.{flat_map, list_any, range_with_len};
ghost use Rattle.deny_cfg.specs.PolicyView.{feature_view, policy_view};
ghost use Rattle.deny_spec_report.specs.Features.{default_enabled_keys, default_feature, leaves_default, names_feature};
ghost use Rattle.deny_rules_match.specs.Marks.{AddsMarks};
ghost use Rattle.deny_spec.specs.Match.{matches};
ghost use Rattle.deny_spec.specs.Text.{same_text};
ghost use Rattle.deny_rules_features.specs.private.FeatureMatches.{AreFeatureMatches, IsFeatureMatch, entry_of};
ghost use Rattle.deny_rules_features.specs.private.Keys.{default_keys_at, is_default_enabled_at};
ghost use Rattle.deny_rules_features.specs.private.Keys.{is_left_at, leaves_open, is_on};

use crate::crates::{default_level_at, enabled_at, is_default};
use crate::feature_match::FeatureMatch;
use deny_base::{Code, Key, LintLevel, Spanned};
use deny_base_lists::{List, NoMemory, Text};
use deny_cfg::bans::cfg::{ValidConfig, ValidKrateFeatures};
use deny_krates::Krates;
use deny_rules_match::{are_placed, mark_at, mark_each, no_marks};
use deny_spec::crate_key;
use std::alloc::Global;

/// Adds the keys of the crates whose feature `default` is enabled, where its level is active.
pub fn add_default_keys(
    alloc: Global,
    cfg: &ValidConfig,
    krates: &Krates,
    found: &[FeatureMatch<'_>],
    keys: &mut List<Key>,
) -> Result<(), NoMemory>
    requires { AreFeatureMatches krates.now (policy_view cfg.now).features found.now }
    ensures { OnOk result (keys.new ≡ keys.old ++ default_enabled_keys (policy_view cfg.now) krates.now) }
{
    are_placed(krates);
    let matched = matched_marks(alloc, krates, found)?;
    let unsettled = left_open(alloc, krates, found)?;
    add_default_each(
        alloc,
        cfg,
        krates,
        matched.as_slice(),
        unsettled.as_slice(),
        keys,
    )
}

/// Marks for the crates that entries on features match.
fn matched_marks(
    alloc: Global,
    krates: &Krates,
    found: &[FeatureMatch<'_>],
) -> Result<List<bool>, NoMemory>
    requires { All (IsFeatureMatch krates.now) found.now }
    ensures { IfOk result (λ marks. marks ≡ map (λ c. list_any (λ e. matches e.spec c)
        (map entry_of found.now)) krates.now.crates) }
{
    let mut marks = no_marks(alloc, krates)?;
    for entry in found {
        mark_matched(krates, entry, &mut marks);
    }
    Ok(marks)
}

/// Marks for the crates that an entry matches which leaves `default` open.
fn left_open(
    alloc: Global,
    krates: &Krates,
    found: &[FeatureMatch<'_>],
) -> Result<List<bool>, NoMemory>
    requires { All (IsFeatureMatch krates.now) found.now }
    ensures { IfOk result (λ marks. marks ≡ map (λ c. list_any (leaves_default c)
        (map entry_of found.now)) krates.now.crates) }
{
    let mut marks = no_marks(alloc, krates)?;
    for entry in found {
        mark_open(krates, entry, &mut marks);
    }
    Ok(marks)
}

/// Marks the crates that an entry matches, where it leaves `default` open.
fn mark_open(krates: &Krates, found: &FeatureMatch<'_>, marks: &mut List<bool>)
    requires is { IsFeatureMatch krates.now found.now }
    requires long { length marks.old ≡ length krates.now.crates }
    ensures { AddsMarks krates.now.crates (λ c. leaves_default c (entry_of found.now)) marks.old marks.new }
{
    if !leaves_open(found.written) {
        return;
    }
    mark_matched(krates, found, marks);
}

/// Whether an entry is without `exact` and names `default` nowhere.
#[tactic(auto, unfolding(crate::specs::private::Keys::leaves_open))]
fn leaves_open(entry: &ValidKrateFeatures) -> bool
    ensures { result ≡ leaves_open (feature_view entry.now) }
{
    let features = &entry.features;
    !features.exact.value
        && !names_default(features.allow.value.as_slice())
        && !names_default(features.deny.as_slice())
}

#[tactic(auto, unfolding(deny_spec_report::specs::Features::names_feature))]
fn names_default(listed: &[Spanned<Text>]) -> bool
    ensures { result ≡ names_feature listed.now default_feature }
{
    listed.iter().any(|name| is_default(&name.value))
}

/// Marks the crates that an entry matches.
fn mark_matched(krates: &Krates, found: &FeatureMatch<'_>, marks: &mut List<bool>)
    requires is { IsFeatureMatch krates.now found.now }
    requires long { length marks.old ≡ length krates.now.crates }
    ensures { AddsMarks krates.now.crates (matches (entry_of found.now).spec) marks.old marks.new }
{
    are_placed(krates);
    mark_each(marks, found.places.as_slice());
}

/// Adds the keys of all crates, one by one.
fn add_default_each(
    alloc: Global,
    cfg: &ValidConfig,
    krates: &Krates,
    matched: &[bool],
    unsettled: &[bool],
    keys: &mut List<Key>,
) -> Result<(), NoMemory>
    ensures { OnOk result (keys.new ≡ keys.old ++ flat_map (default_keys_at (policy_view cfg.now) krates.now
        matched.now unsettled.now) (range_with_len 0 (length krates.now.crates))) }
{
    let end = krates.krates().len() as u32;
    for place in 0..end {
        add_default_at(alloc, cfg, krates, matched, unsettled, place, keys)?;
    }
    Ok(())
}

#[tactic(auto, unfolding(crate::specs::private::Keys::default_keys_at, crate::specs::private::Keys::default_keys_of))]
fn add_default_at(
    alloc: Global,
    cfg: &ValidConfig,
    krates: &Krates,
    matched: &[bool],
    unsettled: &[bool],
    place: u32,
    keys: &mut List<Key>,
) -> Result<(), NoMemory>
    ensures { OnOk result (keys.new
        ≡ keys.old ++ default_keys_at (policy_view cfg.now) krates.now matched.now unsettled.now place) }
{
    let Some(at) = default_level_at(cfg, krates, place) else {
        return Ok(());
    };
    if is_default_enabled(krates, place) && is_on(at.value, is_left(matched, unsettled, place)) {
        keys.push(crate_key(alloc, Code::DefaultFeatureEnabled, place, at.span))?;
    }
    Ok(())
}

/// Whether the feature `default` of the crate at a place is enabled.
fn is_default_enabled(krates: &Krates, place: u32) -> bool
    ensures { result ≡ is_default_enabled_at krates.now place }
{
    has_default(enabled_at(krates, place))
}

fn has_default(features: &[Text]) -> bool
    ensures { result ≡ list_any (λ feature. same_text feature default_feature) features.now }
{
    features.iter().any(|feature| is_default(feature))
}

/// Whether no entry matches the crate at a place, or one leaves `default` open.
#[tactic(auto, unfolding(crate::specs::private::Keys::is_left_at))]
fn is_left(matched: &[bool], unsettled: &[bool], place: u32) -> bool
    ensures { result ≡ is_left_at matched.now unsettled.now place }
{
    !mark_at(matched, place) || mark_at(unsettled, place)
}

fn is_on(level: LintLevel, left: bool) -> bool
    ensures { result ≡ is_on level left }
{
    match level {
        LintLevel::Allow => false,
        LintLevel::Warn => true,
        LintLevel::Deny => left,
    }
}
