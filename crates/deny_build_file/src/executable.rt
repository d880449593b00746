ghost use Rattle.std.specs.Prelude.{◌≡◌, ◌+◌, ◌≤◌, IfOk, IfSome, IsErrOf, MatchResult};
ghost use Rattle.deny_base_disk.specs.Disk.{IsLater, FailedAt, bytes_at};
ghost use Rattle.deny_base_disk.specs.Read.{GaveOnce};
ghost use Rattle.deny_base_disk.specs.declared.disk.Call.TheVariants.{Read};
ghost use Rattle.deny_build_file.specs.CheckEnd.{failed_calls};
ghost use Rattle.deny_build_file.specs.Header.{executable_in, native_kind, is_mach};

use crate::check_end::CheckEnd;
use crate::prefix::prefix_of;
use crate::script::interpreter_in;
use deny_base_disk::PackageFiles;
use deny_base_lists::NoMemory;
use deny_spec::{ExecutableKind, NativeKind};
use std::alloc::Global;

/// The kind of executable that the file at `path` is by its first bytes, or none; an archive is
/// none where `exclude_archives` is set. At most 256 bytes are read, each once, and by one call
/// where that gives enough. `Fault` is answered only where a read of this path failed, and `Long`
/// never. No read failed but the one that is answered as `Fault`.
pub fn check_is_executable<D: PackageFiles>(
    alloc: Global,
    disk: &mut D,
    path: &str,
    exclude_archives: bool,
) -> Result<Option<ExecutableKind>, CheckEnd>
    ensures kind { IfOk result (λ kind. IfSome (D.seen disk.old).files
        (λ files. kind ≡ executable_in exclude_archives path.now (bytes_at files path.now))) }
    ensures few { (D.seen disk.new).given ≤ (D.seen disk.old).given + 256 }
    ensures once { GaveOnce (D.seen disk.old) (D.seen disk.new) path.now }
    ensures later { IsLater (D.seen disk.old) (D.seen disk.new) }
    ensures fault { IsErrOf result CheckEnd.Fault → FailedAt (D.seen disk.old) (D.seen disk.new) Read path.now }
    ensures faults { MatchResult result
        (λ _. (D.seen disk.new).faults ≡ (D.seen disk.old).faults)
        (λ end. (D.seen disk.new).faults ≤ (D.seen disk.old).faults + failed_calls end) }
    ensures never_long { IsErrOf result CheckEnd.Long → ⊥ }
{
    let mut buffer = [0u8; 256];
    let n = prefix_of(disk, path, &mut buffer)?;
    Ok(executable_in(alloc, path, &buffer[..n], exclude_archives)?)
}

/// The kind of executable of a file with this prefix, where the prefix determines it.
#[tactic(auto, unfolding(crate::specs::Header::executable_in))]
fn executable_in(
    alloc: Global,
    path: &str,
    prefix: &[u8],
    exclude_archives: bool,
) -> Result<Option<ExecutableKind>, NoMemory>
    ensures { IfOk result (λ kind. kind ≡ executable_in exclude_archives path.now prefix.now) }
{
    if prefix.len() < 16 {
        return Ok(None);
    }
    match native_kind(&prefix[..16]) {
        Some(NativeKind::Archive) if exclude_archives => Ok(None),
        Some(kind) => Ok(Some(ExecutableKind::Native(kind))),
        None => match interpreter_in(alloc, path, prefix)? {
            Some(name) => Ok(Some(ExecutableKind::Interpreted(name))),
            None => Ok(None),
        },
    }
}

/// The format of native code with these first bytes.
#[tactic(auto, unfolding(crate::specs::Header::native_kind))]
fn native_kind(header: &[u8]) -> Option<NativeKind>
    ensures { result ≡ native_kind header.now }
{
    if header.starts_with(b"\x7fELF") {
        Some(NativeKind::Elf)
    } else if header.starts_with(b"MZ") {
        Some(NativeKind::Pe)
    } else if is_mach(header) {
        Some(NativeKind::Mach)
    } else if header.starts_with(b"!<arch>\n") {
        Some(NativeKind::Archive)
    } else {
        None
    }
}

/// Whether the file is Mach-O: of 32 or 64 bits, in either byte order, or a universal file.
#[tactic(auto, unfolding(crate::specs::Header::is_mach))]
fn is_mach(header: &[u8]) -> bool
    ensures { result ≡ is_mach header.now }
{
    header.starts_with(b"\xfe\xed\xfa\xce")
        || header.starts_with(b"\xce\xfa\xed\xfe")
        || header.starts_with(b"\xfe\xed\xfa\xcf")
        || header.starts_with(b"\xcf\xfa\xed\xfe")
        || header.starts_with(b"\xca\xfe\xba\xbe")
}
