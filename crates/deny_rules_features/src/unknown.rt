//! The keys of features that crates do not have.
ghost use Rattle.std.specs.Prelude.{◌≡◌, ◌++◌, IfOk, OnOk, filter};
ghost use Rattle.std.specs.List.{flat_map};
ghost use Rattle.deny_cfg.specs.PolicyView.{feature_view, policy_view};
ghost use Rattle.deny_spec_report.specs.Features.{unknown_feature_keys, unknown_feature_keys_of};
ghost use Rattle.deny_rules_features.specs.private.FeatureMatches.{AreFeatureMatches, IsFeatureMatch, entry_of};
ghost use Rattle.deny_rules_features.specs.private.Keys.{reports_unknown_at, unknown_keys_at};

use crate::crates::has_feature_at;
use crate::feature_match::FeatureMatch;
use crate::listed::is_mismatched;
use deny_base::{Code, Key, Spanned};
use deny_base_lists::{List, NoMemory, Text};
use deny_cfg::bans::cfg::{ValidConfig, ValidKrateFeatures};
use deny_krates::Krates;
use deny_rules_match::are_placed;
use deny_spec::crate_key;
use std::alloc::Global;

/// Adds the keys of the features that entries list and that crates do not have.
pub fn add_unknown_keys(
    alloc: Global,
    cfg: &ValidConfig,
    krates: &Krates,
    found: &[FeatureMatch<'_>],
    keys: &mut List<Key>,
) -> Result<(), NoMemory>
    requires { AreFeatureMatches krates.now (policy_view cfg.now).features found.now }
    ensures { OnOk result (keys.new ≡ keys.old ++ unknown_feature_keys (policy_view cfg.now) krates.now) }
{
    for entry in found {
        add_unknown_of_entry(alloc, cfg, krates, entry, keys)?;
    }
    Ok(())
}

fn add_unknown_of_entry(
    alloc: Global,
    cfg: &ValidConfig,
    krates: &Krates,
    found: &FeatureMatch<'_>,
    keys: &mut List<Key>,
) -> Result<(), NoMemory>
    requires { IsFeatureMatch krates.now found.now }
    ensures { OnOk result (keys.new
        ≡ keys.old ++ unknown_feature_keys_of (policy_view cfg.now) krates.now (entry_of found.now)) }
{
    are_placed(krates);
    let reported = places_reported(alloc, cfg, krates, found)?;
    add_unknown_crates(alloc, krates, found.written, reported.as_slice(), keys)
}

/// The places of the crates that an entry matches and whose unknown features are reported.
fn places_reported(
    alloc: Global,
    cfg: &ValidConfig,
    krates: &Krates,
    found: &FeatureMatch<'_>,
) -> Result<List<u32>, NoMemory>
    requires { IsFeatureMatch krates.now found.now }
    ensures { IfOk result (λ reported. reported ≡ filter (reports_unknown_at (policy_view cfg.now) krates.now
        (entry_of found.now)) found.now.places) }
{
    let places = found.places.as_slice();
    let mut reported = List::new(alloc);
    for place in places {
        if reports_unknown(alloc, cfg, krates, found, *place)? {
            reported.push(*place)?;
        }
    }
    Ok(reported)
}

/// Whether the unknown features of an entry are reported at a place: with `exact` only where the features of
/// the crate are exactly those allowed.
#[tactic(auto, unfolding(crate::specs::private::Keys::reports_unknown_at))]
fn reports_unknown(
    alloc: Global,
    cfg: &ValidConfig,
    krates: &Krates,
    found: &FeatureMatch<'_>,
    place: u32,
) -> Result<bool, NoMemory>
    requires { IsFeatureMatch krates.now found.now }
    ensures { IfOk result (λ reports. reports
        ≡ reports_unknown_at (policy_view cfg.now) krates.now (entry_of found.now) place) }
{
    if !found.written.features.exact.value {
        return Ok(true);
    }
    Ok(!is_mismatched(alloc, cfg, krates, found, place)?)
}

fn add_unknown_crates(
    alloc: Global,
    krates: &Krates,
    entry: &ValidKrateFeatures,
    places: &[u32],
    keys: &mut List<Key>,
) -> Result<(), NoMemory>
    ensures { OnOk result (keys.new ≡ keys.old ++ flat_map (unknown_keys_at krates.now
        ((feature_view entry.now).allow.value ++ (feature_view entry.now).deny)) places.now) }
{
    for place in places {
        add_unknown_at(alloc, krates, entry, *place, keys)?;
    }
    Ok(())
}

#[tactic(auto, unfolding(crate::specs::private::Keys::unknown_keys_at))]
fn add_unknown_at(
    alloc: Global,
    krates: &Krates,
    entry: &ValidKrateFeatures,
    place: u32,
    keys: &mut List<Key>,
) -> Result<(), NoMemory>
    ensures { OnOk result (keys.new ≡ keys.old ++ unknown_keys_at krates.now
        ((feature_view entry.now).allow.value ++ (feature_view entry.now).deny) place) }
{
    let allowed = entry.features.allow.value.as_slice();
    add_unknown_listed(alloc, krates, place, allowed, keys)?;
    add_unknown_listed(alloc, krates, place, entry.features.deny.as_slice(), keys)
}

#[tactic(auto, unfolding(crate::specs::private::Keys::unknown_keys_at))]
fn add_unknown_listed(
    alloc: Global,
    krates: &Krates,
    place: u32,
    listed: &[Spanned<Text>],
    keys: &mut List<Key>,
) -> Result<(), NoMemory>
    ensures { OnOk result (keys.new ≡ keys.old ++ unknown_keys_at krates.now listed.now place) }
{
    for name in listed {
        if !has_feature_at(krates, place, &name.value) {
            keys.push(crate_key(alloc, Code::UnknownFeature, place, name.span))?;
        }
    }
    Ok(())
}
