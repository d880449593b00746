//! The keys of the build check.
ghost use Rattle.std.specs.Prelude.{◌≡◌, ◌++◌, Contains, OnOk};
ghost use Rattle.std.specs.List.{flat_map};
ghost use Rattle.deny_cfg_build.specs.BuildingView.{bypass_view};
ghost use Rattle.deny_spec.specs.Unseen.{unseen_package};
ghost use Rattle.deny_spec_report.specs.Packages.{build_keys, is_used, package_keys, unmatched_bypass_keys};
ghost use Rattle.deny_base_lists.specs.Ascending.{Adds};
ghost use Rattle.deny_build.specs.ScanningOf.{scanning_of};
ghost use Rattle.deny_build.specs.private.Globs.{IsSetOf, script_texts};
ghost use Rattle.deny_build.specs.private.ScannedKrates.{AreScannedKrates, krate_of, scanning_at};
ghost use Rattle.deny_build.specs.private.UsersOf.{AreUsers};

use crate::ctx::{BuildCtx, unseen_package};
use crate::file_keys::add_walked_keys;
use crate::glob_texts::script_set;
use crate::scanned_krate::ScannedKrate;
use crate::scanning::scan_each;
use crate::script_keys::{add_denied_script_keys, add_script_keys};
use crate::users::{Users, has_user, users_of};
use deny_base::{Code, Key};
use deny_base_lists::{List, NoMemory, TextMap};
use deny_cfg_build::ValidBypass;
use deny_spec::{Package, unused_key};
use std::alloc::Global;

/// Adds the keys of a crate; `scripts` is the set of the globs of script extensions.
#[tactic(auto, unfolding(deny_spec_report::specs::Packages::package_keys))]
fn add_package_keys(
    alloc: Global,
    at: &ScannedKrate<'_>,
    scripts: &TextMap<bool>,
    keys: &mut List<Key>,
) -> Result<(), NoMemory>
    requires { IsSetOf (script_texts (scanning_at at.now).building) scripts.now }
    ensures { OnOk result (keys.new ≡ keys.old ++ package_keys (scanning_at at.now) (krate_of at.now)) }
{
    add_script_keys(alloc, at, keys)?;
    add_denied_script_keys(alloc, at, keys)?;
    if at.walked {
        add_walked_keys(alloc, at, scripts, keys)?;
    }
    Ok(())
}

/// Adds the keys of the crates that are judged.
pub fn add_keys_of_each(
    alloc: Global,
    ctx: &BuildCtx<'_>,
    all: &[ScannedKrate<'_>],
    keys: &mut List<Key>,
) -> Result<(), NoMemory>
    requires { AreScannedKrates (scanning_of ctx.now) all.now }
    ensures { OnOk result (keys.new
        ≡ keys.old ++ flat_map (package_keys (scanning_of ctx.now)) (scanning_of ctx.now).graph.crates) }
{
    let scripts = script_set(alloc, ctx.config)?;
    for at in all {
        add_package_keys(alloc, at, &scripts, keys)?;
    }
    Ok(())
}

/// Whether a checked crate uses a bypass.
fn is_used(_ctx: &BuildCtx<'_>, users: &Users<'_, '_>, bypass: &ValidBypass) -> bool
    requires { AreUsers (scanning_of _ctx.now) users.now }
    ensures { result ≡ is_used (scanning_of _ctx.now) (bypass_view bypass.now) }
{
    has_user(users, bypass)
}

/// Adds the keys of the bypasses that no checked crate uses.
fn add_unmatched_bypass_keys(
    alloc: Global,
    ctx: &BuildCtx<'_>,
    users: &Users<'_, '_>,
    keys: &mut List<Key>,
) -> Result<(), NoMemory>
    requires { AreUsers (scanning_of ctx.now) users.now }
    ensures { OnOk result (keys.new ≡ keys.old ++ unmatched_bypass_keys (scanning_of ctx.now)) }
{
    let entries = ctx.config.bypass.as_slice();
    for bypass in entries {
        if !is_used(ctx, users, bypass) {
            keys.push(unused_key(alloc, Code::UnmatchedBypass, bypass.spec.name.span))?;
        }
    }
    Ok(())
}

/// Adds the keys of build scripts and of the files of packages that hold, each once.
pub fn add_build_keys(
    alloc: Global,
    ctx: &BuildCtx<'_>,
    keys: &mut List<Key>,
) -> Result<(), NoMemory>
    ensures { OnOk result (Adds (Contains (build_keys (scanning_of ctx.now))) keys.old keys.new) }
{
    let unseen = unseen_package(alloc);
    add_keys_of_all(alloc, ctx, &unseen, keys)
}

/// Adds all keys; `unseen` is the package of a crate that was not scanned.
fn add_keys_of_all<'a>(
    alloc: Global,
    ctx: &'a BuildCtx<'a>,
    unseen: &'a Package,
    keys: &mut List<Key>,
) -> Result<(), NoMemory>
    requires { unseen.now ≡ unseen_package }
    ensures { OnOk result (Adds (Contains (build_keys (scanning_of ctx.now))) keys.old keys.new) }
{
    let all = scan_each(alloc, ctx, unseen)?;
    add_keys_of_scanned(alloc, ctx, all.as_slice(), keys)
}

/// Adds all keys, by the scanned crates.
fn add_keys_of_scanned(
    alloc: Global,
    ctx: &BuildCtx<'_>,
    all: &[ScannedKrate<'_>],
    keys: &mut List<Key>,
) -> Result<(), NoMemory>
    requires { AreScannedKrates (scanning_of ctx.now) all.now }
    ensures { OnOk result (Adds (Contains (build_keys (scanning_of ctx.now))) keys.old keys.new) }
{
    add_keys_of_each(alloc, ctx, all, keys)?;
    let users = users_of(alloc, ctx, all)?;
    add_unmatched_bypass_keys(alloc, ctx, &users, keys)
}
