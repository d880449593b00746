ghost use Rattle.std.specs.Prelude.{◌≡◌, ◌++◌, ◌^◌, ◌<◌, [], ◌∷◌};
ghost use Rattle.std.specs.Prelude.{length, is_some, option_map, IfOk, IfSome, OnOk, OnErr};
ghost use Rattle.std.specs.Option.{option_copied};
ghost use Rattle.deny_base_disk.specs.Disk.{IsLater, bytes_at};
ghost use Rattle.deny_base_disk.specs.Read.{GaveOnce};
ghost use Rattle.deny_base_unread.specs.Added.{added};
ghost use Rattle.deny_base_unread.specs.Bound.{Folders};
ghost use Rattle.deny_base_unread.specs.Causes.{AreCaused};
ghost use Rattle.deny_base.specs.Unread.{asked, if_unread};
ghost use Rattle.deny_base_unread.specs.View.{view_of};
ghost use Rattle.deny_base.specs.declared.purpose.Purpose.TheVariants as purpose;

use deny_base::{Kid, Purpose, Unread};
use deny_base_disk::{PackageFiles, ReadEnd, read_whole};
use deny_base_lists::{List, NoMemory, Text};
use std::alloc::Global;

/// The bytes of the manifest at `path`, which is read once. Where a read fails, or the file has
/// 2^28 bytes or more, there are none, and one entry is pushed to `unread`. Its crate is `krate`,
/// which is none for the manifest of a workspace that is no crate's.
///
/// Where memory runs out, `unread` stays as it was.
pub fn read_manifest<D: PackageFiles>(
    alloc: Global,
    disk: &mut D,
    krate: Option<&Kid>,
    path: &str,
    unread: &mut List<Unread>,
) -> Result<Option<Vec<u8>>, NoMemory>
    ensures bytes { IfOk result (λ read. IfSome read (λ bytes. IfSome (D.seen disk.old).files
        (λ files. bytes.items ≡ bytes_at files path.now))) }
    ensures short { IfOk result (λ read. IfSome read (λ bytes. length bytes.items < 2 ^ 28)) }
    ensures unread { IfOk result (λ read. unread.new ≡
        unread.old ++ if_unread (asked (option_copied krate.entry) purpose.Manifest path.now) (is_some read)) }
    ensures caused { IfOk result (λ _. (folder : Folders) →
        AreCaused folder (D.seen disk.old) (D.seen disk.new) (added unread.old unread.new)) }
    ensures seen { IfOk result (λ read. IfSome (D.seen disk.old).files (λ files.
        option_map (λ bytes. bytes.items) read ≡
        (view_of files (added unread.old unread.new) (option_copied krate.entry)).text purpose.Manifest path.now)) }
    ensures once { GaveOnce (D.seen disk.old) (D.seen disk.new) path.now }
    ensures later { IsLater (D.seen disk.old) (D.seen disk.new) }
    ensures no_memory { OnErr result (unread.new ≡ unread.old) }
{
    match read_whole(alloc, disk, path) {
        Ok(bytes) => Ok(Some(bytes)),
        Err(ReadEnd::Fault) => {
            put_entry(alloc, krate, path, unread)?;
            Ok(None)
        }
        Err(ReadEnd::Long) => {
            put_entry(alloc, krate, path, unread)?;
            Ok(None)
        }
        Err(ReadEnd::Memory) => Err(NoMemory),
    }
}

/// Pushes the entry for a manifest that was not read.
fn put_entry(
    alloc: Global,
    krate: Option<&Kid>,
    path: &str,
    unread: &mut List<Unread>,
) -> Result<(), NoMemory>
    ensures ok { OnOk result (unread.new ≡
        unread.old ++ asked (option_copied krate.entry) purpose.Manifest path.now ∷ []) }
    ensures err { OnErr result (unread.new ≡ unread.old) }
{
    unread.push(Unread {
        krate: krate.cloned()?,
        path: Text::from_str(alloc, path)?,
        purpose: Purpose::Manifest,
    })
}
