//! The keys of entries with `exact`.
ghost use Rattle.std.specs.Prelude.{◌≡◌, ◌++◌, IfOk, OnOk, filter};
ghost use Rattle.deny_cfg.specs.PolicyView.{policy_view};
ghost use Rattle.deny_spec_report.specs.Features.{mismatched_keys, mismatched_keys_of};
ghost use Rattle.deny_rules_features.specs.private.FeatureMatches.{AreFeatureMatches, IsFeatureMatch, entry_of};
ghost use Rattle.deny_rules_features.specs.private.Listed.{is_mismatched_at};

use crate::feature_match::FeatureMatch;
use crate::listed::is_mismatched;
use deny_base::{Code, Key};
use deny_base_lists::{List, NoMemory};
use deny_cfg::bans::cfg::ValidConfig;
use deny_krates::Krates;
use deny_rules_match::{add_crate_keys, are_placed};
use std::alloc::Global;

/// Adds the keys of the crates whose features are not exactly those of an entry with `exact`.
pub fn add_mismatched_keys(
    alloc: Global,
    cfg: &ValidConfig,
    krates: &Krates,
    found: &[FeatureMatch<'_>],
    keys: &mut List<Key>,
) -> Result<(), NoMemory>
    requires { AreFeatureMatches krates.now (policy_view cfg.now).features found.now }
    ensures { OnOk result (keys.new ≡ keys.old ++ mismatched_keys (policy_view cfg.now) krates.now) }
{
    for entry in found {
        add_mismatched_of_entry(alloc, cfg, krates, entry, keys)?;
    }
    Ok(())
}

fn add_mismatched_of_entry(
    alloc: Global,
    cfg: &ValidConfig,
    krates: &Krates,
    found: &FeatureMatch<'_>,
    keys: &mut List<Key>,
) -> Result<(), NoMemory>
    requires { IsFeatureMatch krates.now found.now }
    ensures { OnOk result (keys.new
        ≡ keys.old ++ mismatched_keys_of (policy_view cfg.now) krates.now (entry_of found.now)) }
{
    are_placed(krates);
    if !found.written.features.exact.value {
        return Ok(());
    }
    let others = mismatched(alloc, cfg, krates, found)?;
    add_crate_keys(
        alloc,
        Code::ExactFeaturesMismatch,
        others.as_slice(),
        found.written.spec.name.span,
        keys,
    )
}

/// The places of the crates that an entry matches whose features are not exactly those that it allows.
fn mismatched(
    alloc: Global,
    cfg: &ValidConfig,
    krates: &Krates,
    found: &FeatureMatch<'_>,
) -> Result<List<u32>, NoMemory>
    requires { IsFeatureMatch krates.now found.now }
    ensures { IfOk result (λ others. others ≡ filter (is_mismatched_at (policy_view cfg.now) krates.now
        (entry_of found.now)) found.now.places) }
{
    let places = found.places.as_slice();
    let mut others = List::new(alloc);
    for place in places {
        if is_mismatched(alloc, cfg, krates, found, *place)? {
            others.push(*place)?;
        }
    }
    Ok(others)
}
