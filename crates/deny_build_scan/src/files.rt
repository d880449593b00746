//! What is seen of the files of a package.
ghost use Rattle.std.specs.Prelude.{◌≡◌, ◌+◌, ◌++◌, ◌≤◌, [], ℕ, IfOk, OnOk, map, option_map};
ghost use Rattle.std.specs.List.{AllZip};
ghost use Rattle.std.specs.Option.{option_copied};
ghost use Rattle.deny_base_disk.specs.Disk.{IsLater};
ghost use Rattle.deny_base_unread.specs.Added.{added};
ghost use Rattle.deny_base_unread.specs.Bound.{Folders};
ghost use Rattle.deny_base_unread.specs.Causes.{AreCaused};
ghost use Rattle.deny_cfg_build.specs.BuildingView.{building_view, bypass_view};
ghost use Rattle.deny_spec_report.specs.BuildScripts.{used};
ghost use Rattle.deny_krates.specs.Crates.{crate_view};
ghost use Rattle.deny_build_scan.specs.Failures.{calls_for_files};
ghost use Rattle.deny_build_scan.specs.Seen.{IsFileSeen};
ghost use Rattle.deny_build_scan.specs.Why.{IsBecause};
ghost use Rattle.deny_build_scan.specs.private.Entries.{entries_of_all, gaps_of};

use crate::file::see_file;
use crate::order::FilePath;
use deny_base_disk::PackageFiles;
use deny_base_lists::{List, NoMemory};
use deny_base_unread::Unread;
use deny_build_bypass::Allowed;
use deny_cfg_build::{ValidBuildConfig, ValidBypass};
use deny_krates::Krate;
use deny_spec::PackageFile;
use std::alloc::Global;

/// What is seen of the files at these paths of a crate with this bypass, in their order.
pub(crate) fn see_files<D: PackageFiles>(
    alloc: Global,
    config: &ValidBuildConfig,
    bypass: Option<&ValidBypass>,
    home: Option<&str>,
    krate: &Krate,
    disk: &mut D,
    paths: &[FilePath],
    unread: &mut List<Unread>,
) -> Result<List<PackageFile>, NoMemory>
    requires used { (place : ℕ) → used (building_view config.now) (crate_view place krate.now)
        ≡ option_map bypass_view (option_copied bypass) }
    ensures seen { IfOk result (λ files. (place : ℕ) (folder : Folders) → AllZip (λ path file.
        IsFileSeen (IsBecause folder (D.seen disk.old) (D.seen disk.new)) (D.seen disk.old).files
        (building_view config.now) (option_copied home.entry) (gaps_of file) (crate_view place krate.now) path file)
        (map (λ p. p.path) paths.now) files) }
    ensures noted { IfOk result (λ files. (place : ℕ) → unread.new ≡ unread.old ++ entries_of_all
        (building_view config.now) (crate_view place krate.now) (map (λ p. p.path) paths.now) files) }
    ensures caused { IfOk result (λ _. (folder : Folders) →
        AreCaused folder (D.seen disk.old) (D.seen disk.new) (added unread.old unread.new)) }
    ensures faults { IfOk result (λ files. (D.seen disk.new).faults
        ≤ (D.seen disk.old).faults + calls_for_files files) }
    ensures later { IsLater (D.seen disk.old) (D.seen disk.new) }
{
    let allowed = Allowed::new(alloc, bypass)?;
    let mut indices = Vec::new(alloc);
    let mut files = List::with_capacity(alloc, paths.len())?;
    see_each(
        alloc,
        config,
        &allowed,
        home,
        krate,
        disk,
        paths,
        &mut indices,
        &mut files,
        unread,
    )?;
    Ok(files)
}

/// Appends what is seen of each file at these paths to `files`, which is empty. `allowed` is the
/// crate's bypass, `indices` a buffer whose contents do not matter.
fn see_each<D: PackageFiles>(
    alloc: Global,
    config: &ValidBuildConfig,
    allowed: &Allowed<'_>,
    home: Option<&str>,
    krate: &Krate,
    disk: &mut D,
    paths: &[FilePath],
    indices: &mut Vec<usize>,
    files: &mut List<PackageFile>,
    unread: &mut List<Unread>,
) -> Result<(), NoMemory>
    requires none { files.old ≡ [] }
    requires used { (place : ℕ) → used (building_view config.now) (crate_view place krate.now)
        ≡ option_map bypass_view (option_copied allowed.now.bypass) }
    ensures seen { OnOk result ((place : ℕ) (folder : Folders) → AllZip (λ path file.
        IsFileSeen (IsBecause folder (D.seen disk.old) (D.seen disk.new)) (D.seen disk.old).files
        (building_view config.now) (option_copied home.entry) (gaps_of file) (crate_view place krate.now) path file)
        (map (λ p. p.path) paths.now) files.new) }
    ensures noted { OnOk result ((place : ℕ) → unread.new ≡ unread.old ++ entries_of_all
        (building_view config.now) (crate_view place krate.now) (map (λ p. p.path) paths.now) files.new) }
    ensures caused { OnOk result ((folder : Folders) →
        AreCaused folder (D.seen disk.old) (D.seen disk.new) (added unread.old unread.new)) }
    ensures faults { OnOk result ((D.seen disk.new).faults ≤ (D.seen disk.old).faults
        + calls_for_files files.new) }
    ensures later { IsLater (D.seen disk.old) (D.seen disk.new) }
{
    let root = krate.folder();
    for path in paths {
        files.push(see_file(
            alloc,
            config,
            allowed,
            home,
            krate,
            root,
            disk,
            path.path.as_str(),
            indices,
            unread,
        )?)?;
    }
    Ok(())
}
