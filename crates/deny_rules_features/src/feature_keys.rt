//! The keys of all rules on features.
ghost use Rattle.std.specs.Prelude.{OnOk};
ghost use Rattle.deny_base_lists.specs.Ascending.{Adds};
ghost use Rattle.deny_cfg.specs.PolicyView.{policy_view};
ghost use Rattle.deny_rules_features.specs.FeatureKeys.{IsOfFeatures};

use crate::banned::add_banned_keys;
use crate::default_enabled::add_default_keys;
use crate::feature_match::feature_matches;
use crate::mismatched::add_mismatched_keys;
use crate::not_allowed::add_not_allowed_keys;
use crate::unknown::add_unknown_keys;
use deny_base::Key;
use deny_base_lists::{List, NoMemory};
use deny_cfg::bans::cfg::ValidConfig;
use deny_krates::Krates;
use std::alloc::Global;

/// Adds the keys of all rules on features: of crates that do not have exactly the features of an entry, of
/// features that are not allowed, denied or unknown, and of the feature `default`.
pub fn add_feature_keys(
    alloc: Global,
    cfg: &ValidConfig,
    krates: &Krates,
    keys: &mut List<Key>,
) -> Result<(), NoMemory>
    ensures { OnOk result (Adds (IsOfFeatures (policy_view cfg.now) krates.now) keys.old keys.new) }
{
    let matches = feature_matches(alloc, cfg, krates)?;
    let found = matches.as_slice();
    add_mismatched_keys(alloc, cfg, krates, found, keys)?;
    add_not_allowed_keys(alloc, cfg, krates, found, keys)?;
    add_banned_keys(alloc, cfg, krates, found, keys)?;
    add_unknown_keys(alloc, cfg, krates, found, keys)?;
    add_default_keys(alloc, cfg, krates, found, keys)
}
