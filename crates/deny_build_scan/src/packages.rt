//! What is seen of the packages of a graph.
ghost use Rattle.std.specs.Prelude.{◌+◌, ◌<◌, ◌≤◌, IfOk, OnOk, sum_by};
ghost use Rattle.std.specs.Option.{option_copied};
ghost use Rattle.deny_base_disk.specs.Disk.{IsLater};
ghost use Rattle.deny_base_unread.specs.Added.{IsLonger, added};
ghost use Rattle.deny_base_unread.specs.Bound.{Folders};
ghost use Rattle.deny_base_unread.specs.Causes.{AreCaused};
ghost use Rattle.deny_cfg_build.specs.BuildingView.{building_view};
ghost use Rattle.deny_build_bypass.specs.Marks.{reached_by};
ghost use Rattle.deny_build_scan.specs.Failures.{calls_for};
ghost use Rattle.deny_build_scan.specs.Seen.{ArePackagesSeen, ArePackagesSeenBy};
ghost use Rattle.deny_build_scan.specs.Wanted.{AreWantedPackages};
ghost use Rattle.deny_build_scan.specs.Why.{AreFoldersOf, IsBecause};

use crate::package::see_package;
use deny_base_disk::PackageFiles;
use deny_base_lists::{List, NoMemory};
use deny_base_unread::Unread;
use deny_build_bypass::Checking;
use deny_cfg_build::ValidBuildConfig;
use deny_krates::Krates;
use deny_spec::Package;
use std::alloc::Global;

/// What is seen of the packages of a graph, by the places of their crates: the scripts and files
/// that the build check asks about, and what it asks of each. Nothing is read of other crates.
/// `marks` marks, by their places, the crates that lead to one that executes at build time; paths
/// are shown below `home`, cargo's home, where there is one.
///
/// What cannot be read has its failure in the package, and one entry at the end of `unread`. Each
/// call that failed has such a failure.
pub fn see_packages<D: PackageFiles>(
    alloc: Global,
    config: &ValidBuildConfig,
    home: Option<&str>,
    krates: &Krates,
    marks: &[bool],
    disk: &mut D,
    unread: &mut List<Unread>,
) -> Result<List<Package>, NoMemory>
    ensures seen { IfOk result (ArePackagesSeen (D.seen disk.old).files (building_view config.now)
        (reached_by marks.now) (option_copied home.entry) krates.now (added unread.old unread.new)) }
    ensures because { IfOk result (λ packages. (folder : Folders) → AreFoldersOf krates.now folder
        → ArePackagesSeenBy (IsBecause folder (D.seen disk.old) (D.seen disk.new)) (D.seen disk.old).files
        (building_view config.now) (reached_by marks.now) (option_copied home.entry) krates.now
        (added unread.old unread.new) packages) }
    ensures wanted { IfOk result (λ packages. AreWantedPackages (D.seen disk.old).files (building_view config.now)
        (reached_by marks.now) krates.now (added unread.old unread.new) packages (added unread.old unread.new)) }
    ensures longer { OnOk result (IsLonger unread.old unread.new) }
    ensures caused { OnOk result ((folder : Folders) → AreFoldersOf krates.now folder
        → AreCaused folder (D.seen disk.old) (D.seen disk.new) (added unread.old unread.new)) }
    ensures faults { IfOk result (λ packages. (D.seen disk.new).faults
        ≤ (D.seen disk.old).faults + sum_by calls_for packages) }
    ensures later { IsLater (D.seen disk.old) (D.seen disk.new) }
{
    let by = Checking {
        config,
        krates,
        marks,
    };
    let mut packages = List::new(alloc);
    for (place, krate) in krates.krates().iter().enumerate() {
        packages.push(see_package(alloc, &by, home, place as u32, krate, disk, unread)?)?;
    }
    Ok(packages)
}
