//! What is read of one file: its checksum, or what its first bytes say.
ghost use Rattle.std.specs.Prelude.{◌≡◌, ◌+◌, ◌++◌, ◌≤◌, IfOk, Some};
ghost use Rattle.deny_base_disk.specs.Disk.{IsLater};
ghost use Rattle.deny_base_unread.specs.Added.{added};
ghost use Rattle.deny_base_unread.specs.Bound.{Folders};
ghost use Rattle.deny_base_unread.specs.Causes.{AreCaused};
ghost use Rattle.deny_base.specs.Unread.{asked};
ghost use Rattle.deny_base.specs.declared.purpose.Purpose.TheVariants as purpose;
ghost use Rattle.deny_build_scan.specs.Failures.{calls_of};
ghost use Rattle.deny_build_scan.specs.Seen.{IsKindSeen, IsSumSeen};
ghost use Rattle.deny_build_scan.specs.Why.{IsBecause};
ghost use Rattle.deny_build_scan.specs.private.Entries.{IsSummed, is_failed, noted};

use crate::entry::failed;
use deny_base::Kid;
use deny_base_disk::PackageFiles;
use deny_base_lists::{List, NoMemory};
use deny_base_unread::{Purpose, Unread};
use deny_build_file::{CheckEnd, check_is_executable, sha256_of_file};
use deny_spec::{Failure, Found};
use std::alloc::Global;

/// The checksum of the file at `path`, which is read for this purpose, or a failure with its entry.
pub(crate) fn read_sum<D: PackageFiles>(
    alloc: Global,
    disk: &mut D,
    krate: &Kid,
    purpose: Purpose,
    path: &str,
    unread: &mut List<Unread>,
) -> Result<Found, NoMemory>
    requires { IsSummed purpose }
    ensures seen { IfOk result (λ found. (folder : Folders) → IsSumSeen
        (IsBecause folder (D.seen disk.old) (D.seen disk.new) (asked (Some krate.now) purpose path.now))
        (D.seen disk.old).files path.now (is_failed found) found) }
    ensures noted { IfOk result (λ found.
        unread.new ≡ unread.old ++ noted (asked (Some krate.now) purpose path.now) found) }
    ensures caused { IfOk result (λ _. (folder : Folders) →
        AreCaused folder (D.seen disk.old) (D.seen disk.new) (added unread.old unread.new)) }
    ensures faults { IfOk result (λ found. (D.seen disk.new).faults
        ≤ (D.seen disk.old).faults + calls_of found) }
    ensures later { IsLater (D.seen disk.old) (D.seen disk.new) }
{
    match sha256_of_file(alloc, disk, path) {
        Ok(sum) => Ok(Found::Sum(sum)),
        Err(CheckEnd::Fault) => failed(alloc, krate, purpose, path, Failure::Unreadable, unread),
        Err(CheckEnd::Long) => failed(alloc, krate, purpose, path, Failure::Long, unread),
        Err(CheckEnd::Memory) => Err(NoMemory),
    }
}

/// What the first bytes of the file at `path` say, with or without archives as executables, or a
/// failure with its entry.
pub(crate) fn read_header<D: PackageFiles>(
    alloc: Global,
    disk: &mut D,
    krate: &Kid,
    no_archives: bool,
    path: &str,
    unread: &mut List<Unread>,
) -> Result<Found, NoMemory>
    ensures seen { IfOk result (λ found. (folder : Folders) → IsKindSeen
        (IsBecause folder (D.seen disk.old) (D.seen disk.new) (asked (Some krate.now) purpose.Header path.now))
        (D.seen disk.old).files no_archives path.now (is_failed found) found) }
    ensures noted { IfOk result (λ found.
        unread.new ≡ unread.old ++ noted (asked (Some krate.now) purpose.Header path.now) found) }
    ensures caused { IfOk result (λ _. (folder : Folders) →
        AreCaused folder (D.seen disk.old) (D.seen disk.new) (added unread.old unread.new)) }
    ensures faults { IfOk result (λ found. (D.seen disk.new).faults
        ≤ (D.seen disk.old).faults + calls_of found) }
    ensures later { IsLater (D.seen disk.old) (D.seen disk.new) }
{
    match check_is_executable(alloc, disk, path, no_archives) {
        Ok(kind) => Ok(Found::Kind(kind)),
        Err(CheckEnd::Fault) => failed(
            alloc,
            krate,
            Purpose::Header,
            path,
            Failure::Unreadable,
            unread,
        ),
        // No file is too long for its first bytes.
        Err(CheckEnd::Long) => Err(NoMemory),
        Err(CheckEnd::Memory) => Err(NoMemory),
    }
}
