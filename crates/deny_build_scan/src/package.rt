//! What is seen of one package.
ghost use Rattle.std.specs.Prelude.{◌≡◌, ℕ, ◌+◌, ◌≤◌, Contains, IfOk, OnOk, Some};
ghost use Rattle.std.specs.Option.{option_copied};
ghost use Rattle.deny_base_disk.specs.Disk.{IsLater};
ghost use Rattle.deny_base_unread.specs.Added.{IsLonger, added};
ghost use Rattle.deny_base_unread.specs.Bound.{Folders};
ghost use Rattle.deny_base_unread.specs.Causes.{AreCaused};
ghost use Rattle.deny_base.specs.Unread.{is_unread};
ghost use Rattle.deny_cfg_build.specs.BuildingView.{building_view};
ghost use Rattle.deny_build_bypass.specs.Marks.{reached_by};
ghost use Rattle.deny_krates.specs.Crates.{crate_view};
ghost use Rattle.deny_spec.specs.Crates as crates;
ghost use Rattle.deny_build_scan.specs.Failures.{calls_for, calls_for_files, calls_for_folders};
ghost use Rattle.deny_build_scan.specs.Seen.{IsPackageSeen, IsWalkSeen};
ghost use Rattle.deny_build_scan.specs.Wanted.{AreWantedOf};
ghost use Rattle.deny_build_scan.specs.Why.{IsBecause};
ghost use Rattle.deny_build_scan.specs.private.Walks.{AreOfWalk};

use crate::files::see_files;
use crate::folders::folders_unseen;
use crate::order::in_order;
use crate::script::see_script;
use deny_base_disk::PackageFiles;
use deny_base_lists::{List, NoMemory};
use deny_base_unread::Unread;
use deny_build_bypass::{Checking, is_walked, used};
use deny_build_walk::walk_package;
use deny_cfg_build::ValidBuildConfig;
use deny_krates::Krate;
use deny_spec::Package;
use std::alloc::Global;

/// What is seen of the package of the crate at a place: its script, if that is read, and its files,
/// if the crate is walked. Paths are shown below `home`, cargo's home, where there is one.
///
/// What cannot be read has its failure in the package, and one entry at the end of `unread`. Each
/// call that failed has such a failure.
pub fn see_package<D: PackageFiles>(
    alloc: Global,
    by: &Checking<'_>,
    home: Option<&str>,
    place: u32,
    krate: &Krate,
    disk: &mut D,
    unread: &mut List<Unread>,
) -> Result<Package, NoMemory>
    requires member { Contains by.now.krates.now.crates (crate_view place krate.now) }
    ensures seen { IfOk result (λ contents. (folder : Folders) → folder (Some krate.now.id)
        ≡ crates.folder (crate_view place krate.now) →
        IsPackageSeen (IsBecause folder (D.seen disk.old) (D.seen disk.new)) (D.seen disk.old).files
        (building_view by.now.config.now) (reached_by by.now.marks.now) (option_copied home.entry) by.now.krates.now
        (added unread.old unread.new) (crate_view place krate.now) contents) }
    ensures wanted { IfOk result (λ contents. AreWantedOf (D.seen disk.old).files (building_view by.now.config.now)
        (reached_by by.now.marks.now) by.now.krates.now (added unread.old unread.new) (crate_view place krate.now)
        contents) }
    ensures longer { OnOk result (IsLonger unread.old unread.new) }
    ensures caused { OnOk result ((folder : Folders) → folder (Some krate.now.id)
        ≡ crates.folder (crate_view place krate.now)
        → AreCaused folder (D.seen disk.old) (D.seen disk.new) (added unread.old unread.new)) }
    ensures faults { IfOk result (λ contents. (D.seen disk.new).faults
        ≤ (D.seen disk.old).faults + calls_for contents) }
    ensures later { IsLater (D.seen disk.old) (D.seen disk.new) }
{
    let script = see_script(alloc, by, home, place, krate, disk, unread)?;
    let mut package = Package {
        script,
        unlisted: List::new(alloc),
        files: List::new(alloc),
    };
    if !is_walked(by, place, krate, &package) {
        return Ok(package);
    }
    walk(alloc, by.config, home, krate, &mut package, disk, unread)?;
    Ok(package)
}

/// Puts the folders without a list and the files into the package of a walked crate.
fn walk<D: PackageFiles>(
    alloc: Global,
    config: &ValidBuildConfig,
    home: Option<&str>,
    krate: &Krate,
    contents: &mut Package,
    disk: &mut D,
    unread: &mut List<Unread>,
) -> Result<(), NoMemory>
    ensures script { OnOk result (contents.new.script ≡ contents.old.script) }
    ensures seen { OnOk result ((place : ℕ) (folder : Folders) → folder (Some krate.now.id)
        ≡ crates.folder (crate_view place krate.now) →
        IsWalkSeen (IsBecause folder (D.seen disk.old) (D.seen disk.new)) (D.seen disk.old).files
        (building_view config.now) (option_copied home.entry)
        (is_unread (added unread.old unread.new) (Some krate.now.id)) (crate_view place krate.now) contents.new) }
    ensures wanted { OnOk result ((place : ℕ) → AreOfWalk (D.seen disk.old).files
        (building_view config.now) (added unread.old unread.new) (crate_view place krate.now) contents.new) }
    ensures longer { OnOk result (IsLonger unread.old unread.new) }
    ensures caused { OnOk result ((place : ℕ) (folder : Folders) → folder (Some krate.now.id)
        ≡ crates.folder (crate_view place krate.now)
        → AreCaused folder (D.seen disk.old) (D.seen disk.new) (added unread.old unread.new)) }
    ensures faults { OnOk result ((D.seen disk.new).faults ≤ (D.seen disk.old).faults
        + (calls_for_folders contents.new.unlisted + calls_for_files contents.new.files)) }
    ensures later { IsLater (D.seen disk.old) (D.seen disk.new) }
{
    let walked = walk_package(
        alloc,
        disk,
        &krate.id,
        krate.folder(),
        krate.is_git_source(),
        unread,
    )?;
    contents.unlisted = folders_unseen(alloc, krate.folder(), home, walked.unlisted.as_slice())?;
    let paths = in_order(alloc, walked.files)?;
    let bypass = used(config, krate);
    contents.files = see_files(
        alloc,
        config,
        bypass,
        home,
        krate,
        disk,
        paths.as_slice(),
        unread,
    )?;
    Ok(())
}
