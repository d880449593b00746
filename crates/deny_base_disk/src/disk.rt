ghost use Rattle.std.specs.Prelude.{◌≡◌, ◌+◌, ◌≤◌, length, IfOk, IfSome, IsErrOf, MatchResult};
ghost use Rattle.deny_base_disk.specs.Children.{AreListed, children};
ghost use Rattle.deny_base_disk.specs.Count.{counted};
ghost use Rattle.deny_base_disk.specs.Disk.{Disk, IsLater, FailedAt, IsPieceOf, bytes_at};

use deny_base_lists::{Keyed, List, NoMemory, Text};
use std::alloc::{AllocError, AllocFailed, Global};
use thiserror::Error;

/// What stands at a path of a disk.
#[derive(Drop)]
pub enum Place {
    Folder,
    File(List<u8>),
}

/// What a folder holds under a name.
#[derive(Drop)]
pub struct Entry {
    /// The name, without the folder's path.
    pub name: Text,
    /// Whether it is a folder. Anything else counts as a file, a link too.
    pub folder: bool,
}

impl Keyed for Entry {
    type Key = Text;

    ghost key = { λ entry. entry.name };

    fn key(&self) -> &Text {
        &self.name
    }
}

/// The kinds of call that a disk can fail. Contracts count the failures of each kind at each path.
#[derive(Clone, Copy)]
pub enum Call {
    List,
    Read,
}

/// Why a disk did not answer.
#[derive(Debug, Clone, Copy, Error)]
pub enum DiskError {
    /// The disk failed the call, and counted that.
    #[error("the disk failed")]
    Failed,
    /// Memory ran out.
    #[error("memory ran out")]
    Memory,
}

impl From<NoMemory> for DiskError {
    ghost use Rattle.std.specs.Prelude.{◌≡◌};
    ghost use Rattle.deny_base_disk.specs.declared.disk.DiskError.TheVariants.{Memory};

    ghost from_gives = { λ _ e. e ≡ Memory };

    fn from(_error: NoMemory) -> DiskError {
        DiskError::Memory
    }
}

impl From<AllocError> for DiskError {
    ghost use Rattle.std.specs.Prelude.{◌≡◌};
    ghost use Rattle.deny_base_disk.specs.declared.disk.DiskError.TheVariants.{Memory};

    ghost from_gives = { λ _ e. e ≡ Memory };

    fn from(_error: AllocError) -> DiskError {
        DiskError::Memory
    }
}

impl<T> From<AllocFailed<T>> for DiskError
where
    T: Drop,
{
    ghost use Rattle.std.specs.Prelude.{◌≡◌};
    ghost use Rattle.deny_base_disk.specs.declared.disk.DiskError.TheVariants.{Memory};

    ghost from_gives = { λ _ e. e ≡ Memory };

    fn from(_error: AllocFailed<T>) -> DiskError {
        DiskError::Memory
    }
}

/// The files that are read. `seen` is what contracts know of them: what stands at each path, where
/// the disk tells that, and counts of failed calls, of bytes given and of entries listed, which
/// never fall.
///
/// A failed call raises the count of its own kind and path, and no clause says that a call raises
/// another count. Code over any disk therefore shows such a rise only by a failed call on that path.
/// A call that succeeds leaves the count of all failed calls, and any other raises it by at most
/// one. Code over any disk therefore shows that a call failed and was not forgotten.
pub trait PackageFiles {
    ghost seen: { Self → Disk };

    /// The entries of the folder at `dir`, by their names in byte order. Where a disk answers for a
    /// path that is no folder's, there are none.
    ///
    /// `Failed` comes where the disk failed the call, `Memory` where memory ran out.
    fn list(&mut self, alloc: Global, dir: &str) -> Result<List<Entry>, DiskError>
        ensures names { IfOk result AreListed }
        ensures entries { IfOk result (λ entries. IfSome (seen self.old).files
            (λ files. entries ≡ children files dir.now)) }
        ensures later { IsLater (seen self.old) (seen self.new) }
        ensures listed { MatchResult result
            (λ entries. (seen self.new).listed ≡ counted (seen self.old).listed (length entries))
            (λ _. (seen self.new).listed ≡ (seen self.old).listed) }
        ensures given { (seen self.new).given ≡ (seen self.old).given }
        ensures failed { IsErrOf result DiskError.Failed →
            FailedAt (seen self.old) (seen self.new) Call.List dir.now }
        ensures faults { MatchResult result
            (λ _. (seen self.new).faults ≡ (seen self.old).faults)
            (λ _. (seen self.new).faults ≤ (seen self.old).faults + 1) };

    /// Reads bytes of the file at `path`, from `offset` on, into the start of `buf`, and returns how
    /// many: 0 only for an empty buffer or at the end of the text. Where a disk answers for a path
    /// that is no file's, the text is empty.
    ///
    /// It takes no memory, and so answers no error but `Failed`.
    fn read_at(&mut self, path: &str, offset: u64, buf: &mut [u8]) -> Result<usize, DiskError>
        ensures bound { IfOk result (λ n. n ≤ length buf.new) }
        ensures bytes { IfOk result (λ n. IfSome (seen self.old).files
            (λ files. IsPieceOf (bytes_at files path.now) offset n buf.new)) }
        ensures later { IsLater (seen self.old) (seen self.new) }
        ensures given { MatchResult result
            (λ n. (seen self.new).given ≡ counted (seen self.old).given n)
            (λ _. (seen self.new).given ≡ (seen self.old).given) }
        ensures listed { (seen self.new).listed ≡ (seen self.old).listed }
        ensures failed { IsErrOf result DiskError.Failed →
            FailedAt (seen self.old) (seen self.new) Call.Read path.now }
        ensures faults { MatchResult result
            (λ _. (seen self.new).faults ≡ (seen self.old).faults)
            (λ _. (seen self.new).faults ≤ (seen self.old).faults + 1) }
        ensures no_memory { IsErrOf result DiskError.Memory → ⊥ };
}
