//! The keys of the allow list.
ghost use Rattle.std.specs.Prelude.{◌≡◌, ◌++◌, ◌<◌, ◌^◌, IfOk, OnOk, filter, length, map};
ghost use Rattle.std.specs.List.{flat_map, range_with_len};
ghost use Rattle.deny_base.specs.declared.code.Code.TheVariants.{NotAllowed};
ghost use Rattle.deny_cfg.specs.PolicyView.{allow_view, policy_view};
ghost use Rattle.deny_spec.specs.Bans.{allowed_keys_of, is_exempt, not_allowed_keys};
ghost use Rattle.deny_spec.specs.Keys.{crate_key, no_span};
ghost use Rattle.deny_rules_crates.specs.private.Allowed.{allows, is_unmarked};

use deny_base::{Code, Key};
use deny_base_lists::{List, NoMemory};
use deny_cfg::bans::cfg::{CrateAllow, ValidConfig};
use deny_krates::Krates;
use deny_rules_match::{add_crate_keys, are_placed, mark_each, matched, no_marks, unmarked};
use deny_spec::no_span;
use std::alloc::Global;

/// Adds the keys of the allow list, if there is one.
pub fn add_allowed_keys(
    alloc: Global,
    cfg: &ValidConfig,
    krates: &Krates,
    exempt: &[bool],
    keys: &mut List<Key>,
) -> Result<(), NoMemory>
    requires { exempt.now ≡ map (is_exempt (policy_view cfg.now) krates.now) krates.now.crates }
    ensures { OnOk result (keys.new
        ≡ keys.old ++ (flat_map (allowed_keys_of krates.now) (policy_view cfg.now).allow ++ not_allowed_keys
        (policy_view cfg.now) krates.now)) }
{
    are_placed(krates);
    let entries = cfg.allowed.as_slice();
    if entries.is_empty() {
        return Ok(());
    }
    let allowed = allow_each(alloc, krates, entries, keys)?;
    add_unmarked_keys(alloc, krates, allowed.as_slice(), exempt, keys)
}

/// Adds the keys of the crates that entries allow, entry by entry, and marks these crates.
fn allow_each(
    alloc: Global,
    krates: &Krates,
    entries: &[CrateAllow],
    keys: &mut List<Key>,
) -> Result<List<bool>, NoMemory>
    ensures reported { OnOk result (keys.new ≡ keys.old ++ flat_map (allowed_keys_of krates.now)
        (map allow_view entries.now)) }
    ensures marks { IfOk result (λ marks. marks ≡ map (allows (map allow_view entries.now)) krates.now.crates) }
{
    are_placed(krates);
    let mut marks = no_marks(alloc, krates)?;
    for entry in entries {
        let places = matched(alloc, krates, &entry.spec)?;
        add_crate_keys(
            alloc,
            Code::Allowed,
            places.as_slice(),
            entry.spec.name.span,
            keys,
        )?;
        mark_each(&mut marks, places.as_slice());
    }
    Ok(marks)
}

/// Adds the keys of the crates that are neither allowed nor exempt.
fn add_unmarked_keys(
    alloc: Global,
    krates: &Krates,
    allowed: &[bool],
    exempt: &[bool],
    keys: &mut List<Key>,
) -> Result<(), NoMemory>
    requires allowed { length allowed.now ≡ length krates.now.crates }
    requires exempt { length exempt.now ≡ length krates.now.crates }
    ensures { OnOk result (keys.new
        ≡ keys.old ++ map (λ c. crate_key NotAllowed c.place no_span)
        (filter (is_unmarked allowed.now exempt.now) krates.now.crates)) }
{
    are_placed(krates);
    let all = all_places(alloc, krates.krates().len())?;
    let others = unmarked(alloc, all.as_slice(), allowed)?;
    let left = unmarked(alloc, others.as_slice(), exempt)?;
    add_crate_keys(alloc, Code::NotAllowed, left.as_slice(), no_span(), keys)
}

fn all_places(alloc: Global, crates: usize) -> Result<List<u32>, NoMemory>
    requires { crates < 2 ^ 28 }
    ensures { IfOk result (λ places. places ≡ range_with_len 0 crates) }
{
    let mut places = List::new(alloc);
    for place in 0..crates as u32 {
        places.push(place)?;
    }
    Ok(places)
}
