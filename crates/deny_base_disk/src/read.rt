ghost use Rattle.std.specs.Prelude.{◌≡◌, ◌+◌, ◌<◌, ◌≤◌, ◌^◌, length, IfOk};
ghost use Rattle.std.specs.Prelude.{IfSome, IsErrOf, MatchResult, true, false, IsOk, Ok};
ghost use Rattle.deny_base_disk.specs.Count.{RoseBy};
ghost use Rattle.deny_base_disk.specs.Disk.{Disk, IsLater, FailedAt, bytes_at};
ghost use Rattle.deny_base_disk.specs.Read.{GaveOnce, IsReading, IsWhole, failed_calls};

use crate::disk::{Call, DiskError, PackageFiles};
use deny_base_lists::NoMemory;
use std::alloc::{AllocError, Global};
use thiserror::Error;

/// A text that is read has fewer bytes than this.
const LIMIT: usize = 0x1000_0000;

/// The number of bytes that one call asks for.
const PIECE: usize = 0x1_0000;

/// Why a text was not read to its end.
#[derive(Debug, Clone, Copy, Error)]
pub enum ReadEnd {
    /// The disk failed.
    #[error("the disk failed")]
    Fault,
    /// The text has 2^28 bytes or more.
    #[error("the text has 2^28 bytes or more")]
    Long,
    /// Memory ran out.
    #[error("memory ran out")]
    Memory,
}

impl From<DiskError> for ReadEnd {
    ghost use Rattle.std.specs.Prelude.{◌≡◌};
    ghost use Rattle.deny_base_disk.specs.Read.{read_end_of};

    ghost from_gives = { λ error end. end ≡ read_end_of error };

    fn from(error: DiskError) -> ReadEnd {
        match error {
            DiskError::Failed => ReadEnd::Fault,
            DiskError::Memory => ReadEnd::Memory,
        }
    }
}

impl From<AllocError> for ReadEnd {
    ghost use Rattle.std.specs.Prelude.{◌≡◌};
    ghost use Rattle.deny_base_disk.specs.declared.read.ReadEnd.TheVariants.{Memory};

    ghost from_gives = { λ _ e. e ≡ Memory };

    fn from(_error: AllocError) -> ReadEnd {
        ReadEnd::Memory
    }
}

/// A buffer that pieces are read into.
fn buffer_of(alloc: Global, len: usize) -> Result<Vec<u8>, AllocError>
    requires { 0 < len }
    ensures { IfOk result (λ buffer. 0 < length buffer.items) }
{
    vec![in alloc; 0u8; len]
}

/// Appends the next piece of the text to `bytes`, and returns whether there was one.
fn read_piece<D: PackageFiles>(
    disk: &mut D,
    path: &str,
    piece: &mut [u8],
    bytes: &mut Vec<u8>,
) -> Result<bool, ReadEnd>
    requires room { 0 < length piece.old }
    ensures reading { (start : Disk) → IsReading start (D.seen disk.old) path.now bytes.old.items
        → IsOk result → IsReading start (D.seen disk.new) path.now bytes.new.items }
    ensures more { result ≡ Ok true → length bytes.old.items < length bytes.new.items }
    ensures last { result ≡ Ok false → bytes.new.items ≡ bytes.old.items }
    ensures ended { (start : Disk) → IsReading start (D.seen disk.old) path.now bytes.old.items
        → result ≡ Ok false → IsWhole start path.now bytes.new.items }
    ensures once { (start : Disk) → IsReading start (D.seen disk.old) path.now bytes.old.items
        → GaveOnce start (D.seen disk.new) path.now }
    ensures later { IsLater (D.seen disk.old) (D.seen disk.new) }
    ensures fault { IsErrOf result ReadEnd.Fault →
        FailedAt (D.seen disk.old) (D.seen disk.new) Call.Read path.now }
    ensures faults { MatchResult result
        (λ _. (D.seen disk.new).faults ≡ (D.seen disk.old).faults)
        (λ end. (D.seen disk.new).faults ≤ (D.seen disk.old).faults + failed_calls end) }
    ensures never_long { IsErrOf result ReadEnd.Long → ⊥ }
{
    let n = disk.read_at(path, bytes.as_slice().len() as u64, piece)?;
    bytes.extend_from_slice(&piece[..n])?;
    Ok(n > 0)
}

/// Reads the text at `path` to its end.
///
/// `Fault` comes only where a read of this path failed, `Long` only where the text has 2^28 bytes
/// or more; a text of that size is never returned. No call failed but the one that ended the
/// reading as a `Fault`. Whatever the result, the disk gave at most as many bytes as the text has.
/// The time grows with the text alone.
pub fn read_whole<D: PackageFiles>(
    alloc: Global,
    disk: &mut D,
    path: &str,
) -> Result<Vec<u8>, ReadEnd>
    ensures short { IfOk result (λ bytes. length bytes.items < 2 ^ 28) }
    ensures bytes { IfOk result (λ bytes. IfSome (D.seen disk.old).files
        (λ files. bytes.items ≡ bytes_at files path.now)) }
    ensures given { IfOk result (λ bytes.
        RoseBy (length bytes.items) (D.seen disk.old).given (D.seen disk.new).given) }
    ensures once { GaveOnce (D.seen disk.old) (D.seen disk.new) path.now }
    ensures later { IsLater (D.seen disk.old) (D.seen disk.new) }
    ensures fault { IsErrOf result ReadEnd.Fault →
        FailedAt (D.seen disk.old) (D.seen disk.new) Call.Read path.now }
    ensures faults { MatchResult result
        (λ _. (D.seen disk.new).faults ≡ (D.seen disk.old).faults)
        (λ end. (D.seen disk.new).faults ≤ (D.seen disk.old).faults + failed_calls end) }
    ensures long_by_count { IsErrOf result ReadEnd.Long →
        RoseBy (2 ^ 28) (D.seen disk.old).given (D.seen disk.new).given }
    ensures long_by_text { IsErrOf result ReadEnd.Long → IfSome (D.seen disk.old).files
        (λ files. 2 ^ 28 ≤ length (bytes_at files path.now)) }
{
    let mut buffer = buffer_of(alloc, PIECE)?;
    let piece = buffer.as_mut_slice();
    let mut bytes = Vec::new(alloc);
    while read_piece(disk, path, piece, &mut bytes)? {
        if bytes.as_slice().len() >= LIMIT {
            return Err(ReadEnd::Long);
        }
    }
    Ok(bytes)
}
