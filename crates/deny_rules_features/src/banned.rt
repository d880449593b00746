//! The keys of denied features.
ghost use Rattle.std.specs.Prelude.{◌≡◌, ◌++◌, OnOk};
ghost use Rattle.std.specs.List.{flat_map};
ghost use Rattle.deny_cfg.specs.PolicyView.{policy_view};
ghost use Rattle.deny_spec_report.specs.Features.{feature_banned_keys, feature_banned_keys_of};
ghost use Rattle.deny_rules_features.specs.private.FeatureMatches.{AreFeatureMatches, IsFeatureMatch, entry_of};
ghost use Rattle.deny_rules_features.specs.private.Keys.{banned_keys_at};

use crate::crates::{enabled_at, has};
use crate::feature_match::FeatureMatch;
use deny_base::{Code, Key, Spanned};
use deny_base_lists::{List, NoMemory, Text};
use deny_cfg::bans::cfg::ValidConfig;
use deny_krates::Krates;
use deny_rules_match::are_placed;
use deny_spec::crate_key;
use std::alloc::Global;

/// Adds the keys of the denied features that are enabled.
pub fn add_banned_keys(
    alloc: Global,
    _cfg: &ValidConfig,
    krates: &Krates,
    found: &[FeatureMatch<'_>],
    keys: &mut List<Key>,
) -> Result<(), NoMemory>
    requires { AreFeatureMatches krates.now (policy_view _cfg.now).features found.now }
    ensures { OnOk result (keys.new ≡ keys.old ++ feature_banned_keys (policy_view _cfg.now) krates.now) }
{
    for entry in found {
        add_banned_of_entry(alloc, krates, entry, keys)?;
    }
    Ok(())
}

fn add_banned_of_entry(
    alloc: Global,
    krates: &Krates,
    found: &FeatureMatch<'_>,
    keys: &mut List<Key>,
) -> Result<(), NoMemory>
    requires { IsFeatureMatch krates.now found.now }
    ensures { OnOk result (keys.new ≡ keys.old ++ feature_banned_keys_of krates.now (entry_of found.now)) }
{
    are_placed(krates);
    if found.written.features.exact.value {
        return Ok(());
    }
    let denied = found.written.features.deny.as_slice();
    add_banned_crates(alloc, krates, denied, found.places.as_slice(), keys)
}

fn add_banned_crates(
    alloc: Global,
    krates: &Krates,
    denied: &[Spanned<Text>],
    places: &[u32],
    keys: &mut List<Key>,
) -> Result<(), NoMemory>
    ensures { OnOk result (keys.new ≡ keys.old ++ flat_map (banned_keys_at krates.now denied.now) places.now) }
{
    for place in places {
        add_banned_at(alloc, krates, denied, *place, keys)?;
    }
    Ok(())
}

#[tactic(auto, unfolding(crate::specs::private::Keys::banned_keys_at))]
fn add_banned_at(
    alloc: Global,
    krates: &Krates,
    denied: &[Spanned<Text>],
    place: u32,
    keys: &mut List<Key>,
) -> Result<(), NoMemory>
    ensures { OnOk result (keys.new ≡ keys.old ++ banned_keys_at krates.now denied.now place) }
{
    let enabled = enabled_at(krates, place);
    for name in denied {
        if has(enabled, &name.value) {
            keys.push(crate_key(alloc, Code::FeatureBanned, place, name.span))?;
        }
    }
    Ok(())
}
