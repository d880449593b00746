//! The keys of enabled features that an entry does not allow.
ghost use Rattle.std.specs.Prelude.{◌≡◌, ◌++◌, IfOk, OnOk, filter, is_some, map, not};
ghost use Rattle.std.specs.FinMap as finite;
ghost use Rattle.deny_base_lists.specs.Ascending.{Adds};
ghost use Rattle.deny_cfg.specs.PolicyView.{policy_view};
ghost use Rattle.deny_spec_report.specs.Features.{IsFeatureNotAllowed, not_allowed_feature_key};
ghost use Rattle.deny_rules_features.specs.private.FeatureMatches.{AreFeatureMatches, IsFeatureMatch, entry_of};
ghost use Rattle.deny_rules_features.specs.private.Keys.{IsNotAllowedAt, IsNotAllowedBy, OfOne};

use crate::feature_match::FeatureMatch;
use crate::listed::unlisted;
use crate::reached::reached_at;
use deny_base::{Code, Key, Span};
use deny_base_lists::{List, NoMemory, Text, TextMap};
use deny_cfg::bans::cfg::ValidConfig;
use deny_krates::Krates;
use deny_rules_match::are_placed;
use deny_spec::crate_key;
use std::alloc::Global;

/// Adds the keys of the enabled features that an entry does not allow, and that none of those that it allows
/// reaches.
pub fn add_not_allowed_keys(
    alloc: Global,
    cfg: &ValidConfig,
    krates: &Krates,
    found: &[FeatureMatch<'_>],
    keys: &mut List<Key>,
) -> Result<(), NoMemory>
    requires { AreFeatureMatches krates.now (policy_view cfg.now).features found.now }
    ensures { OnOk result (Adds (IsFeatureNotAllowed (policy_view cfg.now) krates.now) keys.old keys.new) }
{
    for entry in found {
        add_not_allowed_of_entry(alloc, cfg, krates, entry, keys)?;
    }
    Ok(())
}

fn add_not_allowed_of_entry(
    alloc: Global,
    cfg: &ValidConfig,
    krates: &Krates,
    found: &FeatureMatch<'_>,
    keys: &mut List<Key>,
) -> Result<(), NoMemory>
    requires { IsFeatureMatch krates.now found.now }
    ensures { OnOk result (Adds (IsNotAllowedBy (policy_view cfg.now) krates.now (entry_of found.now)) keys.old
        keys.new) }
{
    are_placed(krates);
    let listed = found.written.features.allow.value.as_slice();
    if found.written.features.exact.value {
        return Ok(());
    }
    if listed.is_empty() {
        return Ok(());
    }
    add_not_allowed_crates(alloc, cfg, krates, found, keys)
}

fn add_not_allowed_crates(
    alloc: Global,
    cfg: &ValidConfig,
    krates: &Krates,
    found: &FeatureMatch<'_>,
    keys: &mut List<Key>,
) -> Result<(), NoMemory>
    requires { IsFeatureMatch krates.now found.now }
    ensures { OnOk result (Adds (OfOne (IsNotAllowedAt (policy_view cfg.now) krates.now (entry_of found.now))
        found.now.places) keys.old keys.new) }
{
    let places = found.places.as_slice();
    for place in places {
        add_not_allowed_at(alloc, cfg, krates, found, *place, keys)?;
    }
    Ok(())
}

fn add_not_allowed_at(
    alloc: Global,
    cfg: &ValidConfig,
    krates: &Krates,
    found: &FeatureMatch<'_>,
    place: u32,
    keys: &mut List<Key>,
) -> Result<(), NoMemory>
    requires { IsFeatureMatch krates.now found.now }
    ensures { OnOk result (Adds (IsNotAllowedAt (policy_view cfg.now) krates.now (entry_of found.now) place) keys.old
        keys.new) }
{
    let others = unlisted(alloc, cfg, krates, found.written, &found.allowed, place)?;
    if others.len() == 0 {
        return Ok(());
    }
    let listed = found.written.features.allow.value.as_slice();
    let reached = reached_at(alloc, krates, place, listed)?;
    let name = found.written.spec.name.span;
    add_unreached(alloc, others.as_slice(), &reached, place, name, keys)
}

/// Adds the keys of those of some features that are not reached.
fn add_unreached(
    alloc: Global,
    features: &[Text],
    reached: &TextMap<bool>,
    place: u32,
    entry: Span,
    keys: &mut List<Key>,
) -> Result<(), NoMemory>
    ensures { OnOk result (keys.new ≡ keys.old ++ map (not_allowed_feature_key place entry)
        (filter (λ feature. not (is_some (finite.get reached.now feature))) features.now)) }
{
    for feature in features {
        if !reached.contains_key(feature.as_str()) {
            keys.push(not_allowed_feature_key(alloc, place, entry, feature)?)?;
        }
    }
    Ok(())
}

#[tactic(auto, unfolding(deny_spec_report::specs::Features::not_allowed_feature_key))]
fn not_allowed_feature_key(
    alloc: Global,
    place: u32,
    entry: Span,
    feature: &Text,
) -> Result<Key, NoMemory>
    ensures { IfOk result (λ key. key ≡ not_allowed_feature_key place entry feature.now) }
{
    let text = feature.clone()?;
    let key = crate_key(alloc, Code::FeatureNotExplicitlyAllowed, place, entry);
    Ok(Key { text, ..key })
}
