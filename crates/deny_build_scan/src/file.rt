//! What is seen of one file.
ghost use Rattle.std.specs.Prelude.{◌≡◌, ◌+◌, ◌++◌, ◌≤◌, ℕ, IfOk, Some, not, option_map};
ghost use Rattle.std.specs.Option.{option_copied};
ghost use Rattle.deny_base_disk.specs.Disk.{IsLater};
ghost use Rattle.deny_base_unread.specs.Added.{added};
ghost use Rattle.deny_base_unread.specs.Bound.{Folders};
ghost use Rattle.deny_base_unread.specs.Causes.{AreCaused};
ghost use Rattle.deny_cfg_build.specs.BuildingView.{building_view, bypass_view};
ghost use Rattle.deny_spec_report.specs.BuildScripts.{used};
ghost use Rattle.deny_krates.specs.Crates.{crate_view};
ghost use Rattle.deny_spec.specs.Crates as crates;
ghost use Rattle.deny_build_scan.specs.Failures.{calls_of};
ghost use Rattle.deny_build_scan.specs.Seen.{IsFileSeen, of_crate};
ghost use Rattle.deny_build_scan.specs.Why.{IsBecause};
ghost use Rattle.deny_build_scan.specs.private.Entries.{IsFoundFor, entries_for, entries_of, gaps_of};
ghost use Rattle.deny_build_scan.specs.private.Files.{file_of};

use crate::decide::{Asks, decide};
use crate::paths::below;
use crate::read::{read_header, read_sum};
use deny_base_disk::PackageFiles;
use deny_base_lists::{List, NoMemory, Text};
use deny_base_unread::{Purpose, Unread};
use deny_build_bypass::Allowed;
use deny_build_file::home_path;
use deny_cfg_build::ValidBuildConfig;
use deny_krates::Krate;
use deny_spec::{Found, PackageFile, Seen};
use std::alloc::Global;

/// What is seen of the file at a path of a crate whose folder is `root`: what decides it, and what
/// is read of it for that. `allowed` is the crate's bypass, `indices` a buffer whose contents do
/// not matter.
pub(crate) fn see_file<D: PackageFiles>(
    alloc: Global,
    config: &ValidBuildConfig,
    allowed: &Allowed<'_>,
    home: Option<&str>,
    krate: &Krate,
    root: &str,
    disk: &mut D,
    path: &str,
    indices: &mut Vec<usize>,
    unread: &mut List<Unread>,
) -> Result<PackageFile, NoMemory>
    requires used { (place : ℕ) → used (building_view config.now) (crate_view place krate.now)
        ≡ option_map bypass_view (option_copied allowed.now.bypass) }
    requires root { root.now ≡ crates.folder (crate_view 0 krate.now) }
    ensures seen { IfOk result (λ file. (place : ℕ) (folder : Folders) →
        IsFileSeen (IsBecause folder (D.seen disk.old) (D.seen disk.new)) (D.seen disk.old).files
        (building_view config.now) (option_copied home.entry) (gaps_of file) (crate_view place krate.now) path.now
        file) }
    ensures noted { IfOk result (λ file. (place : ℕ) → unread.new
        ≡ unread.old ++ entries_of (building_view config.now) (crate_view place krate.now) path.now file) }
    ensures caused { IfOk result (λ _. (folder : Folders) →
        AreCaused folder (D.seen disk.old) (D.seen disk.new) (added unread.old unread.new)) }
    ensures faults { IfOk result (λ file. (D.seen disk.new).faults
        ≤ (D.seen disk.old).faults + calls_of file.seen.found) }
    ensures later { IsLater (D.seen disk.old) (D.seen disk.new) }
{
    let rest = below(root, path);
    let decision = decide(alloc, config, allowed, rest, indices)?;
    let found = find(alloc, config, krate, disk, path, decision.asks, unread)?;
    file_of(alloc, root, home, path, decision.globs, found)
}

/// The file at a path, by the globs that decide it and what was found.
fn file_of(
    alloc: Global,
    root: &str,
    home: Option<&str>,
    path: &str,
    globs: List<Text>,
    found: Found,
) -> Result<PackageFile, NoMemory>
    ensures { IfOk result (λ file. file ≡ file_of root.now (option_copied home.entry) path.now globs found) }
{
    Ok(PackageFile {
        path: Text::from_str(alloc, below(root, path))?,
        globs,
        seen: Seen {
            shown: home_path(alloc, path, root, home)?,
            found,
        },
    })
}

/// What is found of the file at a path by what is asked of it.
fn find<D: PackageFiles>(
    alloc: Global,
    config: &ValidBuildConfig,
    krate: &Krate,
    disk: &mut D,
    path: &str,
    asks: Asks,
    unread: &mut List<Unread>,
) -> Result<Found, NoMemory>
    ensures found { IfOk result (λ found. (place : ℕ) (folder : Folders) →
        IsFoundFor (of_crate (IsBecause folder (D.seen disk.old) (D.seen disk.new)) (crate_view place krate.now))
        (D.seen disk.old).files (not (building_view config.now).with_archives) path.now asks found) }
    ensures noted { IfOk result (λ found.
        unread.new ≡ unread.old ++ entries_for asks (Some krate.now.id) path.now found) }
    ensures caused { IfOk result (λ _. (folder : Folders) →
        AreCaused folder (D.seen disk.old) (D.seen disk.new) (added unread.old unread.new)) }
    ensures faults { IfOk result (λ found. (D.seen disk.new).faults
        ≤ (D.seen disk.old).faults + calls_of found) }
    ensures later { IsLater (D.seen disk.old) (D.seen disk.new) }
{
    match asks {
        Asks::Nothing => Ok(Found::Unasked),
        Asks::Sum => read_sum(alloc, disk, &krate.id, Purpose::Sum, path, unread),
        Asks::Header => {
            let no_archives = !config.include_archives;
            read_header(alloc, disk, &krate.id, no_archives, path, unread)
        }
    }
}
