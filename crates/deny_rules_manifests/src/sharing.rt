//! The keys of dependencies that a workspace shares.
ghost use Rattle.std.specs.Prelude.{◌≡◌, ◌++◌, OnOk, length, map};
ghost use Rattle.std.specs.List.{flat_map, list_any, range_with_len};
ghost use Rattle.deny_cfg.specs.PolicyView.{policy_view, sharing_view};
ghost use Rattle.deny_spec_report.specs.Sharing.{is_duplicated, is_unshared, unused_entry_key, unused_entry_keys};
ghost use Rattle.deny_spec_report.specs.Sharing.{workspace_duplicate_keys};
ghost use Rattle.deny_spec.specs.View.{View};
ghost use Rattle.deny_spans.specs.SpansView.{spans_view};
ghost use Rattle.deny_spans_workspace.specs.Workspace.{dep_view};
ghost use Rattle.deny_rules_manifests.specs.Uses.{AreUses, rows_in, use_view};
ghost use Rattle.deny_rules_manifests.specs.private.Sharing.{duplicated_keys_at, checks_duplicates};

use crate::active::is_active;
use crate::keys::workspace_key;
use crate::uses::{Use, Uses, is_unshared};
use deny_base::{Code, Key};
use deny_base_lists::{List, NoMemory};
use deny_cfg::bans::cfg::{ValidConfig, WorkspaceDepsConfig};
use deny_krates::Krates;
use deny_rules_match::are_placed;
use deny_spans::{KrateSpans, UnusedWorkspaceDep};
use deny_spec::no_span;
use std::alloc::Global;

/// Adds the keys of the crates that members declare several times, and not always by the entry that the
/// workspace shares, where the policy checks them and there are several members.
pub fn add_duplicate_keys(
    alloc: Global,
    cfg: &ValidConfig,
    krates: &Krates,
    uses: &Uses<'_, '_>,
    keys: &mut List<Key>,
) -> Result<(), NoMemory>
    ensures { OnOk result ((view : View) → AreUses (policy_view cfg.now) krates.now view uses.now
        → keys.new ≡ keys.old ++ workspace_duplicate_keys (policy_view cfg.now) krates.now view) }
{
    are_placed(krates);
    let Some(sharing) = &cfg.workspace_dependencies else {
        return Ok(());
    };
    if !checks_duplicates(sharing, krates) {
        return Ok(());
    }
    add_duplicated(alloc, krates, uses, keys)
}

/// Whether the policy checks crates that are declared several times, and there are several members.
fn checks_duplicates(sharing: &WorkspaceDepsConfig, krates: &Krates) -> bool
    ensures { result ≡ checks_duplicates (sharing_view sharing.now) krates.now }
{
    is_active(sharing.duplicates) && krates.workspace_members().len() >= 2
}

/// Adds the keys of all crates that are declared several times, one by one.
fn add_duplicated(
    alloc: Global,
    krates: &Krates,
    uses: &Uses<'_, '_>,
    keys: &mut List<Key>,
) -> Result<(), NoMemory>
    ensures { OnOk result (keys.new ≡ keys.old ++ flat_map (duplicated_keys_at (rows_in uses.now))
        (range_with_len 0 (length krates.now.crates))) }
{
    let end = krates.krates().len() as u32;
    for place in 0..end {
        add_duplicated_at(alloc, uses, place, keys)?;
    }
    Ok(())
}

#[tactic(auto, unfolding(crate::specs::private::Sharing::duplicated_keys_at))]
fn add_duplicated_at(
    alloc: Global,
    uses: &Uses<'_, '_>,
    place: u32,
    keys: &mut List<Key>,
) -> Result<(), NoMemory>
    ensures { OnOk result (keys.new ≡ keys.old ++ duplicated_keys_at (rows_in uses.now) place) }
{
    if !is_duplicated(uses.at(place)) {
        return Ok(());
    }
    keys.push(workspace_key(alloc, Code::WorkspaceDuplicate, place, no_span()))
}

/// Whether there are two declarations or more, and one does not say whether the workspace declares it.
#[tactic(auto, unfolding(deny_spec_report::specs::Sharing::is_duplicated))]
fn is_duplicated(uses: &[Use<'_, '_>]) -> bool
    ensures { result ≡ is_duplicated (map use_view uses.now) }
{
    uses.len() >= 2 && any_unshared(uses)
}

fn any_unshared(uses: &[Use<'_, '_>]) -> bool
    ensures { result ≡ list_any (λ one. is_unshared (use_view one)) uses.now }
{
    uses.iter().any(|one| is_unshared(one))
}

/// Adds the keys of the shared entries that no crate comes from, where the policy checks them.
pub fn add_unused_keys(
    alloc: Global,
    cfg: &ValidConfig,
    spans: &KrateSpans<'_>,
    keys: &mut List<Key>,
) -> Result<(), NoMemory>
    ensures { OnOk result (keys.new ≡ keys.old
        ++ unused_entry_keys (policy_view cfg.now) (spans_view spans.now)) }
{
    let Some(sharing) = &cfg.workspace_dependencies else {
        return Ok(());
    };
    if !is_active(sharing.unused) {
        return Ok(());
    }
    add_unused(alloc, spans.unused_workspace_deps.as_slice(), keys)
}

#[tactic(auto, unfolding(deny_spec_report::specs::Sharing::unused_entry_key))]
fn add_unused(
    alloc: Global,
    entries: &[UnusedWorkspaceDep],
    keys: &mut List<Key>,
) -> Result<(), NoMemory>
    ensures { OnOk result (keys.new ≡ keys.old ++ map unused_entry_key (map (dep_view None) entries.now)) }
{
    for entry in entries {
        keys.push(workspace_key(alloc, Code::UnusedWorkspaceDependency, 0, entry.key))?;
    }
    Ok(())
}
