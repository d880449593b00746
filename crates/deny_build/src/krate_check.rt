//! The build check of one crate.
ghost use Rattle.std.specs.Prelude.{◌≡◌, ◌&&◌, ◌++◌, IfOk, None, OnOk, Some, is_some, position, slice_get};
ghost use Rattle.std.specs.Prelude.{if◌then◌else◌, option_and_then};
ghost use Rattle.std.specs.List.{flat_map};
ghost use Rattle.std.specs.Option.{option_copied};
ghost use Rattle.semver.specs.Identifiers.{parts_of};
ghost use Rattle.deny_base_disk.specs.Disk.{IsLater};
ghost use Rattle.deny_base_unread.specs.Added.{IsLonger, added};
ghost use Rattle.deny_base_unread.specs.Bound.{Folders};
ghost use Rattle.deny_base_unread.specs.Causes.{AreCaused};
ghost use Rattle.deny_build_bypass.specs.Marks.{reached_by};
ghost use Rattle.deny_cfg_build.specs.BuildingView.{building_view};
ghost use Rattle.deny_cfg_entries.specs.SpecView.{spec_view};
ghost use Rattle.deny_krates.specs.Crates.{crate_view};
ghost use Rattle.deny_spec.specs.Crates as crates;
ghost use Rattle.deny_spec.specs.Match.{spec_matches};
ghost use Rattle.deny_spec.specs.Unseen.{unseen_package};
ghost use Rattle.deny_spec_report.specs.BuildScripts.{is_checked, used};
ghost use Rattle.deny_spec_report.specs.Packages.{bypass_hits, package_keys};
ghost use Rattle.deny_build.specs.OneCrate.{IsBuildChecked, number_used, scanning_alone};
ghost use Rattle.deny_build.specs.ScanningOf.{scanning_of};

use crate::build_keys::add_keys_of_each;
use crate::ctx::{BuildCtx, unseen_package};
use crate::hits::hits_by;
use crate::scanning::scan_each;
use crate::users::users_of;
use deny_base::{Hit, Key};
use deny_base_disk::PackageFiles;
use deny_base_lists::{List, NoMemory};
use deny_base_unread::Unread;
use deny_build_bypass::{Checking, is_checked};
use deny_build_scan::see_package;
use deny_cfg::match_krate;
use deny_cfg_build::{ValidBuildConfig, ValidBypass};
use deny_krates::{Krate, Krates};
use deny_spec::Package;
use std::alloc::Global;

/// What the build check of crates gives besides its keys.
#[derive(Drop)]
pub struct BuildNotes {
    /// What could not be read of packages.
    pub unread: List<Unread>,
    /// For each crate, one for its bypass, and for each of the bypass's paths and globs by which files pass,
    /// by the first such file.
    pub hits: List<Hit>,
}

/// Checks the crate at a place of the graph: reads of its package what the policy asks for, adds the keys
/// that hold of it, and notes what could not be read and which entries are hit. The answer is the number of the
/// bypass that the crate uses; there is none exactly where the crate is not checked or no bypass matches it.
///
/// `reach` marks, by their places, the crates that lead to one that executes at build time; paths are
/// shown below `home`, cargo's home, where there is one.
pub fn check_build<D: PackageFiles>(
    alloc: Global,
    config: &ValidBuildConfig,
    home: Option<&str>,
    place: u32,
    krate: &Krate,
    krates: &Krates,
    reach: &[bool],
    disk: &mut D,
    keys: &mut List<Key>,
    notes: &mut BuildNotes,
) -> Result<Option<usize>, NoMemory>
    requires placed { slice_get krates.now.crates place ≡ Some (crate_view place krate.now) }
    ensures number { IfOk result (λ number. number
        ≡ number_used (building_view config.now) krates.now (reached_by reach.now) (crate_view place krate.now)) }
    ensures used { IfOk result (λ number. option_and_then (slice_get (building_view config.now).bypass) number
        ≡ (if is_checked (building_view config.now) krates.now (reached_by reach.now) (crate_view place krate.now)
        then used (building_view config.now) (crate_view place krate.now) else None)) }
    ensures some { IfOk result (λ number. is_some number
        ≡ (is_checked (building_view config.now) krates.now (reached_by reach.now) (crate_view place krate.now)
        && is_some (used (building_view config.now) (crate_view place krate.now)))) }
    ensures checked { OnOk result (IsBuildChecked (D.seen disk.old) (D.seen disk.new) (building_view config.now)
        krates.now (reached_by reach.now) (option_copied home.entry) (crate_view place krate.now) keys.old keys.new
        notes.old notes.new) }
    ensures longer { OnOk result (IsLonger notes.old.unread notes.new.unread) }
    ensures caused { OnOk result ((folder : Folders) → folder (Some krate.now.id)
        ≡ crates.folder (crate_view place krate.now)
        → AreCaused folder (D.seen disk.old) (D.seen disk.new) (added notes.old.unread notes.new.unread)) }
    ensures later { IsLater (D.seen disk.old) (D.seen disk.new) }
{
    let by = Checking {
        config,
        krates,
        marks: reach,
    };
    let contents = see_package(alloc, &by, home, place, krate, disk, &mut notes.unread)?;
    judge_krate(alloc, &by, place, krate, contents, keys, &mut notes.hits)?;
    Ok(number_used(&by, place, krate))
}

/// Adds the keys of the crate at a place, and the hits of bypasses by it alone.
fn judge_krate(
    alloc: Global,
    by: &Checking<'_>,
    place: u32,
    _krate: &Krate,
    contents: Package,
    keys: &mut List<Key>,
    hits: &mut List<Hit>,
) -> Result<(), NoMemory>
    requires { slice_get by.now.krates.now.crates place ≡ Some (crate_view place _krate.now) }
    ensures keys { OnOk result (keys.new ≡ keys.old ++ package_keys (scanning_alone
        (building_view by.now.config.now) by.now.krates.now (reached_by by.now.marks.now)
        (crate_view place _krate.now) contents) (crate_view place _krate.now)) }
    ensures hits { OnOk result (hits.new ≡ hits.old ++ bypass_hits (scanning_alone
        (building_view by.now.config.now) by.now.krates.now (reached_by by.now.marks.now)
        (crate_view place _krate.now) contents)) }
{
    let mut packages = List::new(alloc);
    packages.push(contents)?;
    let ctx = BuildCtx {
        config: by.config,
        krates: by.krates,
        marks: by.marks,
        alone: Some(place),
        packages: packages.as_slice(),
    };
    let unseen = unseen_package(alloc);
    judge_scanned(alloc, &ctx, &unseen, keys, hits)
}

/// Adds the keys of the crates that are judged, and the hits by them.
fn judge_scanned<'a>(
    alloc: Global,
    ctx: &'a BuildCtx<'a>,
    unseen: &'a Package,
    keys: &mut List<Key>,
    hits: &mut List<Hit>,
) -> Result<(), NoMemory>
    requires { unseen.now ≡ unseen_package }
    ensures keys { OnOk result (keys.new
        ≡ keys.old ++ flat_map (package_keys (scanning_of ctx.now)) (scanning_of ctx.now).graph.crates) }
    ensures hits { OnOk result (hits.new ≡ hits.old ++ bypass_hits (scanning_of ctx.now)) }
{
    let all = scan_each(alloc, ctx, unseen)?;
    add_keys_of_each(alloc, ctx, all.as_slice(), keys)?;
    let users = users_of(alloc, ctx, all.as_slice())?;
    let mut more = hits_by(alloc, ctx, &users)?;
    hits.vec.append(&mut more.vec)?;
    Ok(())
}

fn first_match(entries: &[ValidBypass], krate: &Krate) -> Option<usize>
    ensures { result ≡ position (λ entry. spec_matches (spec_view entry.spec) krate.now.name
        (parts_of krate.now.version)) entries.now }
{
    entries
        .iter()
        .position(|entry| match_krate(krate, &entry.spec))
}

/// The number of the bypass that the crate at a place uses, where the crate is checked.
fn number_used(by: &Checking<'_>, place: u32, krate: &Krate) -> Option<usize>
    ensures { result ≡ number_used (building_view by.now.config.now) by.now.krates.now (reached_by by.now.marks.now)
        (crate_view place krate.now) }
{
    if !is_checked(by, place, krate) {
        return None;
    }
    first_match(by.config.bypass.as_slice(), krate)
}
