//! What is seen of packages, and their keys, where a policy has a build configuration.
ghost use Rattle.std.specs.Prelude.{◌≡◌, ◌++◌, ◌<◌, IfOk, None, OnOk, option_copied};
ghost use Rattle.deny_build.specs.ScanningOf.{scanning_of};
ghost use Rattle.deny_cfg_build.specs.BuildingView.{building_view};
ghost use Rattle.deny_cfg.specs.PolicyView.{building_of};
ghost use Rattle.deny_base_lists.specs.Ascending.{Adds};
ghost use Rattle.deny_base_disk.specs.Disk.{IsLater};
ghost use Rattle.deny_build_scan.specs.Why.{AreFoldersOf};
ghost use Rattle.deny_krates_reach.specs.Reached.{AreReached};
ghost use Rattle.deny_base_unread.specs.Bound.{Folders};
ghost use Rattle.deny_base_unread.specs.Causes.{AreCaused};
ghost use Rattle.deny_rules.specs.Packages.{AreBecause, AreScanned, AreSeenBy, HaveCauses};
ghost use Rattle.deny_rules.specs.private.OfPackages.{IsOfPackages, bypass_hits_by, scanning_by};

use deny_base::{Hit, Key};
use deny_base_disk::PackageFiles;
use deny_base_lists::{List, NoMemory, Steps};
use deny_base_unread::Unread;
use deny_build::{BuildCtx, add_build_keys, bypass_hits};
use deny_build_scan::see_packages;
use deny_cfg::bans::cfg::ValidConfig;
use deny_cfg_build::ValidBuildConfig;
use deny_krates::Krates;
use deny_krates_reach::build_reach;
use deny_spec::Package;
use std::alloc::Global;
use std::marker::Brand;
use std::sync::ledger::{Blank, Ledger};

/// The scan of the packages of a graph: which crates lead to something that is executed at build time, a mark
/// for each by its place; what was seen of packages; and what could not be read of them.
#[derive(Drop)]
pub struct PackageScan {
    pub reached: Vec<bool>,
    pub packages: List<Package>,
    pub unread: List<Unread>,
}

/// Scans the packages of a graph, where the policy has a build configuration.
pub fn scan_packages<D: PackageFiles>(
    alloc: Global,
    cfg: &ValidConfig,
    krates: &Krates,
    home: Option<&str>,
    disk: &mut D,
) -> Result<PackageScan, NoMemory>
    ensures reached { IfOk result (λ scan. AreReached krates.now scan.reached.items) }
    ensures seen { IfOk result (λ scan. AreSeenBy (D.seen disk.old).files (building_of cfg.now)
        (option_copied home.entry) krates.now scan.unread scan.packages) }
    ensures causes { IfOk result (λ scan. HaveCauses (D.seen disk.old) (D.seen disk.new) (building_of cfg.now)
        (option_copied home.entry) krates.now scan.unread scan.packages) }
    ensures caused { IfOk result (λ scan. (folder : Folders) → AreFoldersOf krates.now folder
        → AreCaused folder (D.seen disk.old) (D.seen disk.new) scan.unread) }
    ensures untouched { building_of cfg.now ≡ None → disk.new ≡ disk.old }
    ensures later { IsLater (D.seen disk.old) (D.seen disk.new) }
{
    let reached = reached_in(alloc, krates)?;
    match &cfg.build {
        Some(config) => scan_by_config(alloc, config, krates, home, reached, disk),
        None => Ok(PackageScan {
            reached,
            packages: List::new(alloc),
            unread: List::new(alloc),
        }),
    }
}

/// Scans the packages of a graph by a build configuration.
fn scan_by_config<D: PackageFiles>(
    alloc: Global,
    config: &ValidBuildConfig,
    krates: &Krates,
    home: Option<&str>,
    reached: Vec<bool>,
    disk: &mut D,
) -> Result<PackageScan, NoMemory>
    requires reached { AreReached krates.now reached.items }
    ensures reached { IfOk result (λ scan. AreReached krates.now scan.reached.items) }
    ensures seen { IfOk result (λ scan. AreScanned (D.seen disk.old).files (building_view config.now)
        (option_copied home.entry) krates.now scan.unread scan.packages) }
    ensures causes { IfOk result (λ scan. AreBecause (D.seen disk.old) (D.seen disk.new)
        (building_view config.now) (option_copied home.entry) krates.now scan.unread scan.packages) }
    ensures caused { IfOk result (λ scan. (folder : Folders) → AreFoldersOf krates.now folder
        → AreCaused folder (D.seen disk.old) (D.seen disk.new) scan.unread) }
    ensures later { IsLater (D.seen disk.old) (D.seen disk.new) }
{
    let mut unread = List::new(alloc);
    let packages = see_packages(
        alloc,
        config,
        home,
        krates,
        reached.as_slice(),
        disk,
        &mut unread,
    )?;
    Ok(PackageScan {
        reached,
        packages,
        unread,
    })
}

fn reached_in(alloc: Global, krates: &Krates) -> Result<Vec<bool>, NoMemory>
    ensures { IfOk result (λ marks. AreReached krates.now marks.items) }
{
    reached_uncounted::<Brand>(alloc, krates, Blank::new(1))
}

/// Marks for the crates that lead to something that is executed at build time, where no steps are counted.
fn reached_uncounted<L: Ledger>(
    alloc: Global,
    krates: &Krates,
    blank: Blank,
) -> Result<Vec<bool>, NoMemory>
    requires name { blank.name ≡ L.name }
    requires parts { blank.parts ≡ L.parts }
    requires whole { 0 < L.parts }
    ensures { IfOk result (λ marks. AreReached krates.now marks.items) }
{
    let mut steps = Steps::<L>::new(blank);
    build_reach(alloc, krates, &mut steps)
}

fn build_ctx<'a>(
    config: &'a ValidBuildConfig,
    krates: &'a Krates,
    scan: &'a PackageScan,
) -> BuildCtx<'a>
    ensures { scanning_of result ≡ scanning_by krates.now scan.now.reached.items scan.now.packages
        (building_view config.now) }
{
    BuildCtx {
        config,
        krates,
        marks: scan.reached.as_slice(),
        alone: None,
        packages: scan.packages.as_slice(),
    }
}

/// Adds the keys of build scripts and packages.
pub fn add_package_keys(
    alloc: Global,
    cfg: &ValidConfig,
    krates: &Krates,
    scan: &PackageScan,
    keys: &mut List<Key>,
) -> Result<(), NoMemory>
    ensures { OnOk result (Adds (IsOfPackages (building_of cfg.now) krates.now scan.now.reached.items
        scan.now.packages) keys.old keys.new) }
{
    match &cfg.build {
        Some(config) => add_build_keys(alloc, &build_ctx(config, krates, scan), keys),
        None => Ok(()),
    }
}

/// Appends the hits of bypasses.
pub fn add_bypass_hits(
    alloc: Global,
    cfg: &ValidConfig,
    krates: &Krates,
    scan: &PackageScan,
    hits: &mut List<Hit>,
) -> Result<(), NoMemory>
    ensures { OnOk result (hits.new ≡ hits.old ++ bypass_hits_by (building_of cfg.now) krates.now
        scan.now.reached.items scan.now.packages) }
{
    match &cfg.build {
        Some(config) => {
            let mut more = bypass_hits(alloc, &build_ctx(config, krates, scan))?;
            hits.vec.append(&mut more.vec)?;
            Ok(())
        }
        None => Ok(()),
    }
}
