ghost use Rattle.std.specs.Prelude.{◌≡◌, ◌↔◌, ◌+◌, ◌≤◌, ◌<◌, ◌^◌, true, false};
ghost use Rattle.std.specs.Prelude.{length, IfOk, IfSome, IsErrOf, IsOk, IsTrue, MatchResult, Ok};
ghost use Rattle.sha2.specs.Sha256.{sha256};
ghost use Rattle.deny_base_disk.specs.Count.{RoseBy};
ghost use Rattle.deny_base_disk.specs.Disk.{Disk, IsLater, FailedAt, bytes_at};
ghost use Rattle.deny_base_disk.specs.Read.{GaveOnce};
ghost use Rattle.deny_base_disk.specs.declared.disk.Call.TheVariants.{Read};
ghost use Rattle.deny_build_file.specs.CheckEnd.{failed_calls};
ghost use Rattle.deny_build_file.specs.private.Hashing.{IsHashing, HasHashed};

use crate::check_end::CheckEnd;
use deny_base_disk::PackageFiles;
use deny_cfg_tables::bans::cfg::Checksum;
use sha2::{Digest, Sha256};
use std::alloc::{AllocError, Global};

/// A file has fewer bytes than this.
const LIMIT: u64 = 0x100_0000_0000;

/// How many bytes are read at a time.
const PIECE: usize = 0x1_0000;

/// The SHA-256 of the bytes of the file at `path`, which are read once, piece by piece. `Fault` is
/// answered only where a read of this path failed, `Long` only where the file has 2^40 bytes or
/// more; such a file never has a checksum. No read failed but the one that is answered as `Fault`.
/// The time grows with the file alone.
pub fn sha256_of_file<D: PackageFiles>(
    alloc: Global,
    disk: &mut D,
    path: &str,
) -> Result<[u8; 32], CheckEnd>
    ensures sum { IfOk result (λ sum. IfSome (D.seen disk.old).files
        (λ files. sum ≡ sha256 (bytes_at files path.now))) }
    ensures short { IfOk result (λ _. IfSome (D.seen disk.old).files
        (λ files. length (bytes_at files path.now) < 2 ^ 40)) }
    ensures once { GaveOnce (D.seen disk.old) (D.seen disk.new) path.now }
    ensures later { IsLater (D.seen disk.old) (D.seen disk.new) }
    ensures fault { IsErrOf result CheckEnd.Fault → FailedAt (D.seen disk.old) (D.seen disk.new) Read path.now }
    ensures faults { MatchResult result
        (λ _. (D.seen disk.new).faults ≡ (D.seen disk.old).faults)
        (λ end. (D.seen disk.new).faults ≤ (D.seen disk.old).faults + failed_calls end) }
    ensures long_by_count { IsErrOf result CheckEnd.Long →
        RoseBy (2 ^ 40) (D.seen disk.old).given (D.seen disk.new).given }
    ensures long_by_text { IsErrOf result CheckEnd.Long → IfSome (D.seen disk.old).files
        (λ files. 2 ^ 40 ≤ length (bytes_at files path.now)) }
{
    let mut buffer = buffer_of(alloc, PIECE)?;
    let piece = buffer.as_mut_slice();
    let mut hasher = Sha256::new();
    let mut count = 0;
    while read_part(disk, path, piece, &mut hasher, &mut count)? {
        if count >= LIMIT {
            return Err(CheckEnd::Long);
        }
    }
    Ok(hasher.finalize())
}

/// The checksum of the file at `path`: the SHA-256 of its bytes. Errors are those of
/// `sha256_of_file`.
pub fn checksum_file<D: PackageFiles>(
    alloc: Global,
    disk: &mut D,
    path: &str,
) -> Result<Checksum, CheckEnd>
    ensures sum { IfOk result (λ checksum. IfSome (D.seen disk.old).files
        (λ files. checksum.0 ≡ sha256 (bytes_at files path.now))) }
    ensures short { IfOk result (λ _. IfSome (D.seen disk.old).files
        (λ files. length (bytes_at files path.now) < 2 ^ 40)) }
    ensures once { GaveOnce (D.seen disk.old) (D.seen disk.new) path.now }
    ensures later { IsLater (D.seen disk.old) (D.seen disk.new) }
    ensures fault { IsErrOf result CheckEnd.Fault → FailedAt (D.seen disk.old) (D.seen disk.new) Read path.now }
    ensures faults { MatchResult result
        (λ _. (D.seen disk.new).faults ≡ (D.seen disk.old).faults)
        (λ end. (D.seen disk.new).faults ≤ (D.seen disk.old).faults + failed_calls end) }
    ensures long_by_count { IsErrOf result CheckEnd.Long →
        RoseBy (2 ^ 40) (D.seen disk.old).given (D.seen disk.new).given }
    ensures long_by_text { IsErrOf result CheckEnd.Long → IfSome (D.seen disk.old).files
        (λ files. 2 ^ 40 ≤ length (bytes_at files path.now)) }
{
    let sum = sha256_of_file(alloc, disk, path)?;
    Ok(Checksum(sum))
}

/// Whether the file at `path` has the expected checksum, and the checksum that it has. Errors are
/// those of `checksum_file`.
pub fn validate_checksum<D: PackageFiles>(
    alloc: Global,
    expected: &Checksum,
    disk: &mut D,
    path: &str,
) -> Result<(bool, Checksum), CheckEnd>
    ensures equal { IfOk result (λ answer. IsTrue answer.0 ↔ (answer.1.0 ≡ expected.now.0)) }
    ensures sum { IfOk result (λ answer. IfSome (D.seen disk.old).files
        (λ files. answer.1.0 ≡ sha256 (bytes_at files path.now))) }
    ensures short { IfOk result (λ _. IfSome (D.seen disk.old).files
        (λ files. length (bytes_at files path.now) < 2 ^ 40)) }
    ensures once { GaveOnce (D.seen disk.old) (D.seen disk.new) path.now }
    ensures later { IsLater (D.seen disk.old) (D.seen disk.new) }
    ensures fault { IsErrOf result CheckEnd.Fault → FailedAt (D.seen disk.old) (D.seen disk.new) Read path.now }
    ensures faults { MatchResult result
        (λ _. (D.seen disk.new).faults ≡ (D.seen disk.old).faults)
        (λ end. (D.seen disk.new).faults ≤ (D.seen disk.old).faults + failed_calls end) }
    ensures long_by_count { IsErrOf result CheckEnd.Long →
        RoseBy (2 ^ 40) (D.seen disk.old).given (D.seen disk.new).given }
    ensures long_by_text { IsErrOf result CheckEnd.Long → IfSome (D.seen disk.old).files
        (λ files. 2 ^ 40 ≤ length (bytes_at files path.now)) }
{
    let checksum = checksum_file(alloc, disk, path)?;
    let equal = is_equal(&checksum, expected);
    Ok((equal, checksum))
}

fn is_equal(checksum: &Checksum, expected: &Checksum) -> bool
    ensures { IsTrue result ↔ (checksum.now.0 ≡ expected.now.0) }
{
    checksum.0 == expected.0
}

/// A buffer for the pieces.
fn buffer_of(alloc: Global, len: usize) -> Result<Vec<u8>, AllocError>
    requires { 0 < len }
    ensures { IfOk result (λ buffer. 0 < length buffer.items) }
{
    vec![in alloc; 0u8; len]
}

/// Hashes the next piece of the file, and answers whether there was one.
fn read_part<D: PackageFiles>(
    disk: &mut D,
    path: &str,
    piece: &mut [u8],
    hasher: &mut Sha256,
    count: &mut u64,
) -> Result<bool, CheckEnd>
    requires room { 0 < length piece.old }
    requires few { count.old < 2 ^ 40 }
    ensures piece { length piece.new ≡ length piece.old }
    ensures hashing { (start : Disk) → IsHashing start (D.seen disk.old) path.now hasher.old count.old
        → IsOk result → IsHashing start (D.seen disk.new) path.now hasher.new count.new }
    ensures more { result ≡ Ok true → count.old < count.new }
    ensures last { result ≡ Ok false → count.new ≡ count.old }
    ensures ended { (start : Disk) → IsHashing start (D.seen disk.old) path.now hasher.old count.old
        → result ≡ Ok false → HasHashed start path.now hasher.new count.new }
    ensures once { (start : Disk) → IsHashing start (D.seen disk.old) path.now hasher.old count.old
        → GaveOnce start (D.seen disk.new) path.now }
    ensures later { IsLater (D.seen disk.old) (D.seen disk.new) }
    ensures fault { IsErrOf result CheckEnd.Fault → FailedAt (D.seen disk.old) (D.seen disk.new) Read path.now }
    ensures faults { MatchResult result
        (λ _. (D.seen disk.new).faults ≡ (D.seen disk.old).faults)
        (λ end. (D.seen disk.new).faults ≤ (D.seen disk.old).faults + failed_calls end) }
    ensures never_long { IsErrOf result CheckEnd.Long → ⊥ }
{
    let n = disk.read_at(path, *count, piece)?;
    hasher.update(&piece[..n]);
    *count += n as u64;
    Ok(n > 0)
}
