//! The keys of requirements that any version meets.
ghost use Rattle.std.specs.Prelude.{◌≡◌, ◌++◌, ◌⊎◌, Contains, OnOk, filter, length, map};
ghost use Rattle.std.specs.List.{flat_map, list_any, range_with_len};
ghost use Rattle.deny_base_lists.specs.Ascending.{Adds};
ghost use Rattle.deny_cfg.specs.PolicyView.{policy_view};
ghost use Rattle.deny_spec_report.specs.Wildcards.{is_active_in, is_unresolved, unresolved_keys, wildcard_keys};
ghost use Rattle.deny_spec_report.specs.Wildcards.{wildcards_in};
ghost use Rattle.deny_rules_match.specs.Marks.{facts_of};
ghost use Rattle.deny_krates.specs.Crates.{crate_view};
ghost use Rattle.deny_spans_manifest.specs.Manifest.{dep_view, deps_in};
ghost use Rattle.deny_spans.specs.SpansView.{manifest_view, spans_view};
ghost use Rattle.deny_rules_manifests.specs.private.Wildcards.{found_keys_at, found_keys_of, unresolved_key_at};

use crate::active::is_active;
use crate::asked::asked_of;
use crate::wildcards::{is_active_in, is_shared};
use deny_base::{Code, Key};
use deny_base_lists::{List, NoMemory};
use deny_cfg::bans::cfg::ValidConfig;
use deny_krates::{Krate, Krates, krate_at};
use deny_rules_match::{Matches, are_placed, mark_at};
use deny_spans::{KrateSpans, Manifest, ManifestDep};
use deny_spec::{crate_key, no_span};
use std::alloc::Global;

/// Adds the keys of the crates whose manifests write a requirement that any version meets, and of those among
/// these declarations that the workspace is to declare and does not.
pub fn add_wildcard_keys(
    alloc: Global,
    found: &Matches<'_>,
    spans: &KrateSpans<'_>,
    keys: &mut List<Key>,
) -> Result<(), NoMemory>
    ensures { OnOk result (Adds (λ key.
        Contains (wildcard_keys (policy_view found.now.cfg.now) found.now.krates.now (facts_of found.now.marks)
        (spans_view spans.now)) key
        ⊎ Contains (unresolved_keys (policy_view found.now.cfg.now) found.now.krates.now (facts_of found.now.marks)
        (spans_view spans.now)) key) keys.old keys.new) }
{
    let krates = found.krates;
    are_placed(krates);
    if !is_active(found.cfg.wildcards) {
        return Ok(());
    }
    let asked = asked_of(alloc, found)?;
    add_each(alloc, found.cfg, krates, spans, asked.as_slice(), keys)
}

/// Adds the keys of all crates that are checked, one by one.
fn add_each(
    alloc: Global,
    cfg: &ValidConfig,
    krates: &Krates,
    spans: &KrateSpans<'_>,
    asked: &[bool],
    keys: &mut List<Key>,
) -> Result<(), NoMemory>
    ensures { OnOk result (keys.new ≡ keys.old ++ flat_map
        (found_keys_at (policy_view cfg.now) krates.now (spans_view spans.now) asked.now)
        (range_with_len 0 (length krates.now.crates))) }
{
    let end = krates.krates().len() as u32;
    for place in 0..end {
        add_at(alloc, cfg, krates, spans, asked, place, keys)?;
    }
    Ok(())
}

/// Adds the keys of the crate at a place, where it is checked and has a manifest.
#[tactic(auto, unfolding(crate::specs::private::Wildcards::found_keys_at))]
fn add_at(
    alloc: Global,
    cfg: &ValidConfig,
    krates: &Krates,
    spans: &KrateSpans<'_>,
    asked: &[bool],
    place: u32,
    keys: &mut List<Key>,
) -> Result<(), NoMemory>
    ensures { OnOk result (keys.new ≡ keys.old
        ++ found_keys_at (policy_view cfg.now) krates.now (spans_view spans.now) asked.now place) }
{
    if !mark_at(asked, place) {
        return Ok(());
    }
    let Some(krate) = krate_at(krates, place) else {
        return Ok(());
    };
    let Some(manifest) = spans.manifest_at(place) else {
        return Ok(());
    };
    add_active(alloc, cfg, krates, spans, place, krate, manifest, keys)
}

/// Adds the keys of the wildcards in the manifest of the crate at a place.
fn add_active(
    alloc: Global,
    cfg: &ValidConfig,
    krates: &Krates,
    spans: &KrateSpans<'_>,
    place: u32,
    krate: &Krate,
    manifest: &Manifest<'_>,
    keys: &mut List<Key>,
) -> Result<(), NoMemory>
    ensures { OnOk result (keys.new ≡ keys.old ++ found_keys_of (spans_view spans.now) place
        (wildcards_in (policy_view cfg.now) krates.now (crate_view place krate.now) (manifest_view manifest.now))) }
{
    if !has_wildcard(cfg, krates, place, krate, manifest) {
        return Ok(());
    }
    keys.push(crate_key(alloc, Code::Wildcard, place, no_span()))?;
    add_unresolved(alloc, cfg, krates, spans, place, krate, manifest, keys)
}

/// Whether the manifest of the crate at a place has a wildcard that the policy checks.
fn has_wildcard(
    cfg: &ValidConfig,
    krates: &Krates,
    place: u32,
    krate: &Krate,
    manifest: &Manifest<'_>,
) -> bool
    ensures { result ≡ list_any (is_active_in (policy_view cfg.now) krates.now (crate_view place krate.now))
        (map dep_view (deps_in manifest.now)) }
{
    for dep in manifest.deps(false) {
        if is_active_in(cfg, krates, place, krate, dep) {
            return true;
        }
    }
    false
}

/// Adds the keys of the wildcards that the workspace is to declare and does not.
fn add_unresolved(
    alloc: Global,
    cfg: &ValidConfig,
    krates: &Krates,
    spans: &KrateSpans<'_>,
    place: u32,
    krate: &Krate,
    manifest: &Manifest<'_>,
    keys: &mut List<Key>,
) -> Result<(), NoMemory>
    ensures { OnOk result (keys.new ≡ keys.old ++ map (unresolved_key_at place)
        (filter (is_unresolved (spans_view spans.now))
        (filter (is_active_in (policy_view cfg.now) krates.now (crate_view place krate.now))
        (map dep_view (deps_in manifest.now))))) }
{
    for dep in manifest.deps(false) {
        if is_active_in(cfg, krates, place, krate, dep) && is_unresolved(spans, dep) {
            keys.push(crate_key(
                alloc,
                Code::UnresolvedWorkspaceDependency,
                place,
                dep.key_span,
            ))?;
        }
    }
    Ok(())
}

/// Whether a declaration says that the workspace declares it, and no entry of the workspace is for its crate.
#[tactic(auto, unfolding(deny_spec_report::specs::Wildcards::is_unresolved))]
fn is_unresolved(spans: &KrateSpans<'_>, dep: &ManifestDep<'_>) -> bool
    ensures { result ≡ is_unresolved (spans_view spans.now) (dep_view dep.now) }
{
    is_shared(dep) && spans.shared_at(dep.place).is_none()
}
