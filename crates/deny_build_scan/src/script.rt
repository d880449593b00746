//! What is seen of a build script.
ghost use Rattle.std.specs.Prelude.{◌≡◌, ◌+◌, ◌++◌, ◌≤◌, ℕ, IfOk, Some, option_map};
ghost use Rattle.std.specs.Option.{option_copied};
ghost use Rattle.deny_base_disk.specs.Disk.{IsLater};
ghost use Rattle.deny_base_unread.specs.Added.{added};
ghost use Rattle.deny_base_unread.specs.Bound.{Folders};
ghost use Rattle.deny_base_unread.specs.Causes.{AreCaused};
ghost use Rattle.deny_base.specs.Unread.{asked};
ghost use Rattle.deny_base.specs.declared.purpose.Purpose.TheVariants as purpose;
ghost use Rattle.deny_cfg_build.specs.BuildingView.{building_view};
ghost use Rattle.deny_build_bypass.specs.Marks.{reached_by};
ghost use Rattle.deny_krates.specs.Crates.{crate_view, target_view};
ghost use Rattle.deny_build_scan.specs.Failures.{calls_for_script, calls_of};
ghost use Rattle.deny_build_scan.specs.Seen.{AreBoth, IsScriptSeen, script_asked};
ghost use Rattle.deny_build_scan.specs.Why.{IsBecause};
ghost use Rattle.deny_build_scan.specs.private.Entries.{noted};
ghost use Rattle.deny_build_scan.specs.private.Scripts.{entries_of_script, gaps_of_script};

use crate::read::read_sum;
use deny_base_disk::PackageFiles;
use deny_base_lists::{List, NoMemory};
use deny_base_unread::{Purpose, Unread};
use deny_build_bypass::{Checking, asks_script, script_of};
use deny_build_file::home_path;
use deny_krates::{Krate, Target};
use deny_spec::Seen;
use std::alloc::Global;

/// What is seen of the build script of the crate at a place, if it is read.
pub(crate) fn see_script<D: PackageFiles>(
    alloc: Global,
    by: &Checking<'_>,
    home: Option<&str>,
    place: u32,
    krate: &Krate,
    disk: &mut D,
    unread: &mut List<Unread>,
) -> Result<Option<Seen>, NoMemory>
    ensures seen { IfOk result (λ script. (folder : Folders) →
        AreBoth (IsScriptSeen (IsBecause folder (D.seen disk.old) (D.seen disk.new)) (D.seen disk.old).files
        (option_copied home.entry) (gaps_of_script script) (crate_view place krate.now))
        (script_asked (building_view by.now.config.now) by.now.krates.now (reached_by by.now.marks.now)
        (crate_view place krate.now)) script) }
    ensures noted { IfOk result (λ script. unread.new ≡ unread.old ++ entries_of_script (Some krate.now.id)
        (script_asked (building_view by.now.config.now) by.now.krates.now (reached_by by.now.marks.now)
        (crate_view place krate.now)) script) }
    ensures caused { IfOk result (λ _. (folder : Folders) →
        AreCaused folder (D.seen disk.old) (D.seen disk.new) (added unread.old unread.new)) }
    ensures faults { IfOk result (λ script. (D.seen disk.new).faults
        ≤ (D.seen disk.old).faults + calls_for_script script) }
    ensures later { IsLater (D.seen disk.old) (D.seen disk.new) }
{
    match script_asked(by, place, krate) {
        Some(target) => {
            let seen = read_script(alloc, home, krate, target, disk, unread)?;
            Ok(Some(seen))
        }
        None => Ok(None),
    }
}

fn script_asked<'k>(by: &Checking<'_>, place: u32, krate: &'k Krate) -> Option<&'k Target>
    ensures { option_map (λ target. target_view target.now) result
        ≡ script_asked (building_view by.now.config.now) by.now.krates.now (reached_by by.now.marks.now)
        (crate_view place krate.now) }
{
    if asks_script(by, place, krate) {
        script_of(krate)
    } else {
        None
    }
}

fn read_script<D: PackageFiles>(
    alloc: Global,
    home: Option<&str>,
    krate: &Krate,
    target: &Target,
    disk: &mut D,
    unread: &mut List<Unread>,
) -> Result<Seen, NoMemory>
    ensures seen { IfOk result (λ seen. (place : ℕ) (folder : Folders) →
        IsScriptSeen (IsBecause folder (D.seen disk.old) (D.seen disk.new)) (D.seen disk.old).files
        (option_copied home.entry) (gaps_of_script (Some seen)) (crate_view place krate.now)
        (target_view target.now) seen) }
    ensures noted { IfOk result (λ seen. unread.new
        ≡ unread.old ++ noted (asked (Some krate.now.id) purpose.Script target.now.src_path) seen.found) }
    ensures caused { IfOk result (λ _. (folder : Folders) →
        AreCaused folder (D.seen disk.old) (D.seen disk.new) (added unread.old unread.new)) }
    ensures faults { IfOk result (λ seen. (D.seen disk.new).faults
        ≤ (D.seen disk.old).faults + calls_of seen.found) }
    ensures later { IsLater (D.seen disk.old) (D.seen disk.new) }
{
    let path = target.src_path.as_str();
    let found = read_sum(alloc, disk, &krate.id, Purpose::Script, path, unread)?;
    Ok(Seen {
        shown: home_path(alloc, path, krate.folder(), home)?,
        found,
    })
}
