//! The keys of bans, their wrappers, and the allow list.
ghost use Rattle.std.specs.Prelude.{Contains, OnOk};
ghost use Rattle.deny_base_lists.specs.Ascending.{Adds};
ghost use Rattle.deny_cfg.specs.PolicyView.{policy_view};
ghost use Rattle.deny_rules_crates.specs.Rules.{ban_rules, keys_of_rules};

use crate::allowed::add_allowed_keys;
use crate::banned::add_banned_keys;
use deny_base::Key;
use deny_base_lists::{List, NoMemory};
use deny_rules_match::Matches;
use std::alloc::Global;

/// Adds the keys of bans, their wrappers, and the allow list.
pub fn add_ban_keys(
    alloc: Global,
    found: &Matches<'_>,
    keys: &mut List<Key>,
) -> Result<(), NoMemory>
    ensures { OnOk result (Adds (Contains (keys_of_rules (ban_rules (policy_view found.now.cfg.now)
        found.now.krates.now))) keys.old keys.new) }
{
    add_banned_keys(alloc, found, keys)?;
    add_allowed_keys(
        alloc,
        found.cfg,
        found.krates,
        found.exempt.as_slice(),
        keys,
    )
}
