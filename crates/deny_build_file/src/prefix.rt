//! The prefix of a file that determines whether it is executable.
ghost use Rattle.std.specs.Prelude.{◌≡◌, ◌+◌, ◌≤◌, ◌<◌, false, length, take, IfOk, IfSome, IsErrOf};
ghost use Rattle.std.specs.Prelude.{MatchResult, Ok};
ghost use Rattle.std.specs.List.{list_any};
ghost use Rattle.deny_build_file.specs.Script.{is_newline};
ghost use Rattle.deny_base_disk.specs.Disk.{Disk, IsLater, FailedAt, bytes_at};
ghost use Rattle.deny_base_disk.specs.Read.{GaveOnce, IsReading, IsWhole};
ghost use Rattle.deny_base_disk.specs.declared.disk.Call.TheVariants.{Read};
ghost use Rattle.deny_build_file.specs.CheckEnd.{failed_calls};
ghost use Rattle.deny_build_file.specs.private.Prefix.{IsDecisivePrefix, is_enough, is_open_script};

use crate::check_end::CheckEnd;
use deny_base_disk::PackageFiles;

/// Reads a prefix of the file at `path` into the caller's buffer, and answers its length: enough to
/// determine whether the file is executable (at least 16 bytes, and of a script the first line), or
/// the whole file. At most 256 bytes are read, and by one call where that gives enough.
pub fn prefix_of<D: PackageFiles>(
    disk: &mut D,
    path: &str,
    buffer: &mut [u8; 256],
) -> Result<usize, CheckEnd>
    ensures prefix { IfOk result (λ n. IfSome (D.seen disk.old).files
        (λ files. IsDecisivePrefix (take n buffer.new) (bytes_at files path.now))) }
    ensures within { IfOk result (λ n. n ≤ 256) }
    ensures few { (D.seen disk.new).given ≤ (D.seen disk.old).given + 256 }
    ensures once { GaveOnce (D.seen disk.old) (D.seen disk.new) path.now }
    ensures later { IsLater (D.seen disk.old) (D.seen disk.new) }
    ensures fault { IsErrOf result CheckEnd.Fault → FailedAt (D.seen disk.old) (D.seen disk.new) Read path.now }
    ensures faults { MatchResult result
        (λ _. (D.seen disk.new).faults ≡ (D.seen disk.old).faults)
        (λ end. (D.seen disk.new).faults ≤ (D.seen disk.old).faults + failed_calls end) }
    ensures never_long { IsErrOf result CheckEnd.Long → ⊥ }
{
    let mut read = 0;
    while !is_enough(&buffer[..read]) {
        let n = read_piece(disk, path, buffer, read)?;
        if n == 0 {
            return Ok(read);
        }
        read += n;
    }
    Ok(read)
}

/// Reads a piece of the file after the first `read` bytes of the buffer, which are its prefix, and
/// answers the length of the piece.
fn read_piece<D: PackageFiles>(
    disk: &mut D,
    path: &str,
    buffer: &mut [u8],
    read: usize,
) -> Result<usize, CheckEnd>
    requires room { read < length buffer.old }
    ensures reading { (start : Disk) → IsReading start (D.seen disk.old) path.now (take read buffer.old)
        → IfOk result (λ n. IsReading start (D.seen disk.new) path.now (take (read + n) buffer.new)) }
    ensures given { MatchResult result
        (λ n. (D.seen disk.new).given ≤ (D.seen disk.old).given + n)
        (λ _. (D.seen disk.new).given ≡ (D.seen disk.old).given) }
    ensures fits { IfOk result (λ n. read + n ≤ length buffer.new) }
    ensures ended { (start : Disk) → IsReading start (D.seen disk.old) path.now (take read buffer.old)
        → result ≡ Ok 0 → IsWhole start path.now (take read buffer.new) }
    ensures later { IsLater (D.seen disk.old) (D.seen disk.new) }
    ensures fault { IsErrOf result CheckEnd.Fault → FailedAt (D.seen disk.old) (D.seen disk.new) Read path.now }
    ensures faults { MatchResult result
        (λ _. (D.seen disk.new).faults ≡ (D.seen disk.old).faults)
        (λ end. (D.seen disk.new).faults ≤ (D.seen disk.old).faults + failed_calls end) }
    ensures never_long { IsErrOf result CheckEnd.Long → ⊥ }
{
    Ok(disk.read_at(path, read as u64, &mut buffer[read..])?)
}

/// Whether a prefix determines whether the file is executable, whatever follows.
#[tactic(auto, unfolding(crate::specs::private::Prefix::is_enough))]
fn is_enough(prefix: &[u8]) -> bool
    ensures enough { result ≡ is_enough prefix.now }
    ensures short { result ≡ false → length prefix.now < 256 }
{
    prefix.len() >= 256 || (prefix.len() >= 16 && !is_open_script(prefix))
}

/// Whether a prefix is that of a script whose first line has not ended.
fn is_open_script(prefix: &[u8]) -> bool
    ensures { result ≡ is_open_script prefix.now }
{
    prefix.starts_with(b"#!") && !has_newline(prefix)
}

fn has_newline(bytes: &[u8]) -> bool
    ensures { result ≡ list_any is_newline bytes.now }
{
    bytes.iter().any(|byte| *byte == b'\n')
}
