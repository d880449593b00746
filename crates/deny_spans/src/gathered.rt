//! The manifests of crates, as they are read one after another.
ghost use Rattle.std.specs.Prelude.{◌≡◌, ◌<◌, ◌≤◌, ◌-◌, ◌^◌, ◌++◌, ◌∷◌, [], ◌&&◌};
ghost use Rattle.std.specs.Prelude.{IfOk, IfSome, OnErr, OnOk, Some, is_none, length, option_map, slice_get};
ghost use Rattle.std.specs.List.{sum_by};
ghost use Rattle.deny_base_disk.specs.Disk.{IsLater};
ghost use Rattle.deny_base_disk.specs.Read.{GaveAtMost};
ghost use Rattle.deny_base_lists.specs.Prefix.{Gains};
ghost use Rattle.deny_krates.specs.Crates.{crate_view};
ghost use Rattle.deny_spans_manifest.specs.Manifest.{deps_in, ignored_by};
ghost use Rattle.deny_spans.specs.Begun.{AreOfFirst, own_manifest};
ghost use Rattle.deny_spans.specs.private.Begun.{MayHave, MayHaveText};
ghost use Rattle.deny_spans.specs.private.Gathered.{IsGathered, IsKept, IsScanned};
ghost use Rattle.deny_spans.specs.private.Gathered.{IsManifestRead, IsReadLocally, broken_if};
ghost use Rattle.deny_spans.specs.Wanted.{bytes_of};
ghost use Rattle.deny_base_unread.specs.Added.{added};
ghost use Rattle.deny_base_unread.specs.Bound.{Folders};
ghost use Rattle.deny_base_unread.specs.Causes.{AreCaused};

use crate::missed::Missed;
use deny_base::{FileId, Files};
use deny_base_disk::PackageFiles;
use deny_base_lists::{List, NoMemory};
use deny_base_unread::{Unread, read_manifest};
use deny_krates::{Krate, Krates};
use deny_spans_manifest::{Manifest, ManifestFault};
use std::alloc::Global;

/// What was made of the manifests of crates so far.
#[derive(Drop)]
pub struct GatheredManifests<'k> {
    /// The manifests that have a tree, by the places of the crates.
    pub manifests: List<Option<Manifest<'k>>>,
    /// The numbers of the files that manifests are kept as, by the places of the crates.
    pub numbers: List<Option<FileId>>,
    pub missed: Missed,
}

/// Reads the manifest of each crate without a source, in the order of the graph.
pub fn gather<'k, D: PackageFiles>(
    alloc: Global,
    krates: &'k Krates,
    disk: &mut D,
    files: &mut Files,
) -> Result<GatheredManifests<'k>, NoMemory>
    requires few { length files.old ≤ 2 ^ 31 }
    ensures gathered { IfOk result (λ gathered. IsGathered (D.seen disk.old).files krates.entry.now
        krates.entry.now.crates files.old files.new gathered) }
    ensures caused { IfOk result (λ gathered. (folder : Folders) →
        AreCaused folder (D.seen disk.old) (D.seen disk.new) gathered.missed.unread) }
    ensures once { IfOk result (λ _. GaveAtMost (D.seen disk.old) (D.seen disk.new)
        (λ files. sum_by (bytes_of files) krates.entry.now.crates)) }
    ensures begun { OnErr result (Gains (AreOfFirst (D.seen disk.old) (D.seen disk.new) krates.entry.now)
        files.old files.new) }
    ensures few { OnOk result (length files.new < 2 ^ 32 - 1) }
    ensures later { IsLater (D.seen disk.old) (D.seen disk.new) }
{
    let mut gathered = GatheredManifests {
        manifests: List::new(alloc),
        numbers: List::new(alloc),
        missed: Missed::none(alloc),
    };
    for (place, krate) in krates.krates().iter().enumerate() {
        scan_manifest(
            alloc,
            krates,
            place as u32,
            krate,
            disk,
            files,
            &mut gathered,
        )?;
    }
    Ok(gathered)
}

/// Reads the manifest of the crate at a place, if it has no source.
fn scan_manifest<'k, D: PackageFiles>(
    alloc: Global,
    krates: &'k Krates,
    place: u32,
    krate: &'k Krate,
    disk: &mut D,
    files: &mut Files,
    gathered: &mut GatheredManifests<'k>,
) -> Result<(), NoMemory>
    requires at_place { slice_get krates.now.crates place ≡ Some (crate_view place krate.now) }
    requires few { length files.old < 2 ^ 32 - 1 }
    ensures scan { OnOk result (IsScanned (D.seen disk.old).files krates.entry.now (crate_view place krate.entry.now)
        files.old files.new gathered.old gathered.new) }
    ensures caused { OnOk result ((folder : Folders) → AreCaused folder (D.seen disk.old) (D.seen disk.new)
        (added gathered.old.missed.unread gathered.new.missed.unread)) }
    ensures once { OnOk result (GaveAtMost (D.seen disk.old) (D.seen disk.new)
        (λ files. bytes_of files (crate_view place krate.entry.now))) }
    ensures begun { OnErr result (MayHave (D.seen disk.old).files (own_manifest (crate_view place krate.entry.now))
        files.old files.new) }
    ensures later { IsLater (D.seen disk.old) (D.seen disk.new) }
{
    let read = read_local(alloc, krate, disk, &mut gathered.missed.unread)?;
    let kept = keep_read(alloc, krates, place, krate, &read, files)?;
    put(gathered, krate, read.is_some(), kept)?;
    Ok(())
}

/// The bytes of a crate's manifest; none where the crate has a source or the manifest cannot be read.
fn read_local<D: PackageFiles>(
    alloc: Global,
    krate: &Krate,
    disk: &mut D,
    unread: &mut List<Unread>,
) -> Result<Option<Vec<u8>>, NoMemory>
    ensures read { IfOk result (λ read. IsReadLocally (D.seen disk.old).files (crate_view 0 krate.now)
        unread.old unread.new (option_map (λ bytes. bytes.items) read)) }
    ensures caused { IfOk result (λ _. (folder : Folders) →
        AreCaused folder (D.seen disk.old) (D.seen disk.new) (added unread.old unread.new)) }
    ensures once { OnOk result (GaveAtMost (D.seen disk.old) (D.seen disk.new)
        (λ files. bytes_of files (crate_view 0 krate.now))) }
    ensures later { IsLater (D.seen disk.old) (D.seen disk.new) }
{
    if krate.source.is_some() {
        return Ok(None);
    }
    read_manifest(
        alloc,
        disk,
        Some(&krate.id),
        krate.manifest_path.as_str(),
        unread,
    )
}

/// A manifest's text as a file, if it is UTF-8, and as a manifest, if it has a tree.
#[derive(Drop)]
pub struct ReadManifest<'k> {
    pub number: Option<FileId>,
    pub manifest: Option<Manifest<'k>>,
}

/// Keeps what was read of the manifest of the crate at a place, if anything.
fn keep_read<'k>(
    alloc: Global,
    krates: &'k Krates,
    place: u32,
    krate: &'k Krate,
    read: &Option<Vec<u8>>,
    files: &mut Files,
) -> Result<ReadManifest<'k>, NoMemory>
    requires at_place { slice_get krates.now.crates place ≡ Some (crate_view place krate.now) }
    requires few { length files.old < 2 ^ 32 - 1 }
    requires short { IfSome read.now (λ bytes. length bytes.items < 2 ^ 28) }
    ensures kept { IfOk result (IsKept krates.entry.now (crate_view place krate.entry.now)
        (option_map (λ bytes. bytes.items) read.now) files.old files.new) }
    ensures begun { OnErr result (MayHaveText krate.entry.now.manifest_path
        (option_map (λ bytes. bytes.items) read.now) files.old files.new) }
{
    match read {
        Some(bytes) => keep(alloc, krates, place, krate, bytes.as_slice(), files),
        None => Ok(ReadManifest {
            number: None,
            manifest: None,
        }),
    }
}

fn keep<'k>(
    alloc: Global,
    krates: &'k Krates,
    place: u32,
    krate: &'k Krate,
    bytes: &[u8],
    files: &mut Files,
) -> Result<ReadManifest<'k>, NoMemory>
    requires at_place { slice_get krates.now.crates place ≡ Some (crate_view place krate.now) }
    requires few { length files.old < 2 ^ 32 - 1 }
    requires short { length bytes.now < 2 ^ 28 }
    ensures kept { IfOk result (IsKept krates.entry.now (crate_view place krate.entry.now) (Some bytes.now)
        files.old files.new) }
    ensures begun { OnErr result (MayHaveText krate.entry.now.manifest_path (Some bytes.now) files.old files.new) }
{
    match str::from_utf8(bytes) {
        Ok(text) => {
            let number = files.add(krate.manifest_path.as_str(), text)?;
            let manifest = parsed_manifest(alloc, krates, place, krate, text, number)?;
            Ok(ReadManifest {
                number: Some(number),
                manifest,
            })
        }
        Err(_) => Ok(ReadManifest {
            number: None,
            manifest: None,
        }),
    }
}

/// The manifest of the crate at a place, by its text, which is the file with this number.
fn parsed_manifest<'k>(
    alloc: Global,
    krates: &'k Krates,
    place: u32,
    krate: &'k Krate,
    text: &str,
    number: FileId,
) -> Result<Option<Manifest<'k>>, NoMemory>
    requires at_place { slice_get krates.now.crates place ≡ Some (crate_view place krate.now) }
    requires short { length text.now < 2 ^ 28 }
    ensures { IfOk result (IsManifestRead krates.entry.now (crate_view place krate.entry.now) text.now number) }
{
    let _krates = krates.krates();
    match Manifest::parse(alloc, krate, krates, text) {
        Ok(manifest) => Ok(Some(numbered(manifest, number))),
        Err(ManifestFault::Toml) => Ok(None),
        // The crate is the graph's own.
        Err(ManifestFault::NoNode) => Ok(None),
        Err(ManifestFault::Memory) => Err(NoMemory),
    }
}

/// A manifest with the number of its file.
fn numbered<'k>(manifest: Manifest<'k>, number: FileId) -> Manifest<'k>
    ensures id { result.id ≡ number }
    ensures krate { result.krate.now ≡ manifest.entry.krate.now }
    ensures deps { deps_in result ≡ deps_in manifest.entry }
    ensures ignored { ignored_by result ≡ ignored_by manifest.entry }
{
    let mut manifest = manifest;
    manifest.id = number;
    manifest
}

/// Adds what was made of a crate's manifest behind the others.
fn put<'k>(
    gathered: &mut GatheredManifests<'k>,
    krate: &Krate,
    was_read: bool,
    kept: ReadManifest<'k>,
) -> Result<(), NoMemory>
    ensures manifests { OnOk result (gathered.new.manifests ≡ gathered.old.manifests ++ kept.entry.manifest ∷ []) }
    ensures numbers { OnOk result (gathered.new.numbers ≡ gathered.old.numbers ++ kept.entry.number ∷ []) }
    ensures unread { OnOk result (gathered.new.missed.unread ≡ gathered.old.missed.unread) }
    ensures malformed { OnOk result (gathered.new.missed.malformed ≡ gathered.old.missed.malformed
        ++ broken_if krate.now.manifest_path (was_read && is_none kept.entry.manifest)) }
{
    if was_read && kept.manifest.is_none() {
        gathered
            .missed
            .malformed
            .push(krate.manifest_path.clone()?)?;
    }
    gathered.manifests.push(kept.manifest)?;
    gathered.numbers.push(kept.number)
}
