ghost use Rattle.std.specs.Prelude.{◌≡◌, ◌++◌, ◌+◌, ◌≤◌, length, is_ok, IfErr, IfOk, IfSome, MatchResult, OnOk};
ghost use Rattle.std.specs.Prelude.{OnErr, Some};
ghost use Rattle.deny_base_disk.specs.Children.{AreListed, children};
ghost use Rattle.deny_base_disk.specs.Count.{counted};
ghost use Rattle.deny_base_disk.specs.Disk.{IsLater};
ghost use Rattle.deny_base.specs.Unread.{asked, if_unread};
ghost use Rattle.deny_base.specs.declared.purpose.Purpose.TheVariants as purpose;
ghost use Rattle.deny_build_walk.specs.Folder.{IsUnlisted, ListedOnce, failed_calls};

use deny_base::Kid;
use deny_base_disk::{DiskError, Entry, PackageFiles};
use deny_base_lists::{List, NoMemory, Text};
use deny_base_unread::{Purpose, Unread};
use std::alloc::Global;

/// Why a folder has no list.
#[derive(Clone, Copy)]
pub enum NoList {
    /// The disk failed the call.
    Failed,
    /// With the folder's entries the package has more entries than it may have.
    Crowded,
}

/// The entries of the folder at `path`, in byte order of their names. It is listed once. Where the
/// disk fails the call, or there are more entries than `room`, the answer is why there is no list,
/// and one entry for the list of this folder is appended to `unread`; where there is a list, no call
/// failed. Where memory runs out, `unread` is unchanged.
pub fn list_folder<D: PackageFiles>(
    alloc: Global,
    disk: &mut D,
    krate: &Kid,
    path: &str,
    room: usize,
    unread: &mut List<Unread>,
) -> Result<Result<List<Entry>, NoList>, NoMemory>
    ensures names { IfOk result (λ listed. IfOk listed AreListed) }
    ensures fits { IfOk result (λ listed. IfOk listed (λ entries. length entries ≤ room)) }
    ensures entries { IfOk result (λ listed. IfOk listed (λ entries.
        IfSome (D.seen disk.old).files (λ files. entries ≡ children files path.now))) }
    ensures listed { IfOk result (λ listed. IfOk listed (λ entries.
        (D.seen disk.new).listed ≡ counted (D.seen disk.old).listed (length entries))) }
    ensures once { ListedOnce (D.seen disk.old) (D.seen disk.new) path.now }
    ensures faults { IfOk result (λ listed. MatchResult listed
        (λ _. (D.seen disk.new).faults ≡ (D.seen disk.old).faults)
        (λ why. (D.seen disk.new).faults ≤ (D.seen disk.old).faults + failed_calls why)) }
    ensures unread { IfOk result (λ listed. unread.new ≡
        unread.old ++ if_unread (asked (Some krate.now) purpose.List path.now) (is_ok listed)) }
    ensures unlisted { IfOk result (λ listed. IfErr listed (λ why.
        IsUnlisted why (D.seen disk.old) (D.seen disk.new) path.now room)) }
    ensures later { IsLater (D.seen disk.old) (D.seen disk.new) }
    ensures no_memory { OnErr result (unread.new ≡ unread.old) }
{
    let listed = list_within(alloc, disk, path, room)?;
    note_unlisted(alloc, krate, path, listed.is_ok(), unread)?;
    Ok(listed)
}

/// The entries of the folder, if the disk lists it and there is room for them.
fn list_within<D: PackageFiles>(
    alloc: Global,
    disk: &mut D,
    path: &str,
    room: usize,
) -> Result<Result<List<Entry>, NoList>, NoMemory>
    ensures names { IfOk result (λ listed. IfOk listed AreListed) }
    ensures fits { IfOk result (λ listed. IfOk listed (λ entries. length entries ≤ room)) }
    ensures entries { IfOk result (λ listed. IfOk listed (λ entries.
        IfSome (D.seen disk.old).files (λ files. entries ≡ children files path.now))) }
    ensures listed { IfOk result (λ listed. IfOk listed (λ entries.
        (D.seen disk.new).listed ≡ counted (D.seen disk.old).listed (length entries))) }
    ensures once { ListedOnce (D.seen disk.old) (D.seen disk.new) path.now }
    ensures faults { IfOk result (λ listed. MatchResult listed
        (λ _. (D.seen disk.new).faults ≡ (D.seen disk.old).faults)
        (λ why. (D.seen disk.new).faults ≤ (D.seen disk.old).faults + failed_calls why)) }
    ensures unlisted { IfOk result (λ listed. IfErr listed (λ why.
        IsUnlisted why (D.seen disk.old) (D.seen disk.new) path.now room)) }
    ensures later { IsLater (D.seen disk.old) (D.seen disk.new) }
{
    let entries = match disk.list(alloc, path) {
        Ok(entries) => entries,
        Err(DiskError::Failed) => return Ok(Err(NoList::Failed)),
        Err(DiskError::Memory) => return Err(NoMemory),
    };
    if entries.len() <= room {
        Ok(Ok(entries))
    } else {
        Ok(Err(NoList::Crowded))
    }
}

/// Appends the entry for a folder that was not listed.
fn note_unlisted(
    alloc: Global,
    krate: &Kid,
    path: &str,
    is_listed: bool,
    unread: &mut List<Unread>,
) -> Result<(), NoMemory>
    ensures ok { OnOk result (unread.new ≡
        unread.old ++ if_unread (asked (Some krate.now) purpose.List path.now) is_listed) }
    ensures err { OnErr result (unread.new ≡ unread.old) }
{
    if is_listed {
        return Ok(());
    }
    unread.push(Unread {
        krate: Some(krate.clone()?),
        path: Text::from_str(alloc, path)?,
        purpose: Purpose::List,
    })
}
