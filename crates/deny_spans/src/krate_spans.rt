//! Where the crates of a graph stand in texts.
ghost use Rattle.std.specs.Prelude.{◌≡◌, ◌+◌, ◌++◌, ◌∷◌, [], ◌<◌, ◌≤◌, ◌^◌, IfNone, IfOk, IfSome, MatchOption};
ghost use Rattle.std.specs.Prelude.{None, OnErr, OnOk, Some, length, map, option_copied, option_map, slice_get};
ghost use Rattle.std.specs.List.{AllZip};
ghost use Rattle.std.specs.Option.{option_and_then, option_flatten};
ghost use Rattle.deny_base_disk.specs.Disk.{IsLater};
ghost use Rattle.deny_base_disk.specs.Read.{GaveAtMost};
ghost use Rattle.deny_base_lists.specs.Prefix.{Gains};
ghost use Rattle.deny_krates.specs.Ids.{crate_of};
ghost use Rattle.deny_krates_lock.specs.Text.{IsLineOf, lock_span_at, lock_text};
ghost use Rattle.deny_spec.specs.Graph.{Graph};
ghost use Rattle.deny_spec.specs.View.{manifest_of, shared_at};
ghost use Rattle.deny_spans.specs.Begun.{AreBegun, AreOfFirst};
ghost use Rattle.deny_spans.specs.Spans.{ViewLies};
ghost use Rattle.deny_spans.specs.Seen.{IsSeen, lock_file};
ghost use Rattle.deny_spans.specs.private.Found.{IsFound, IsPutTogether, OccursAt};
ghost use Rattle.deny_spans.specs.SpansView.{AreSpansOf, IsManifestAt, IsSharedAt, manifest_view, spans_view};
ghost use Rattle.deny_spans.specs.Wanted.{AreWanted, bytes_wanted};
ghost use Rattle.deny_base_unread.specs.Bound.{Folders};
ghost use Rattle.deny_base_unread.specs.Causes.{AreCaused};
ghost use Rattle.deny_spans_workspace.specs.Workspace.{span_view};

use crate::gathered::{GatheredManifests, gather};
use crate::missed::Missed;
use crate::paths::lock_path;
use crate::workspace::{Workspace, shared_or_none, workspace_of};
use deny_base::{FileId, Files, Kid};
use deny_base_disk::PackageFiles;
use deny_base_lists::{List, NoMemory, Text};
use deny_base_unread::Unread;
use deny_krates::Krates;
use deny_krates_lock::{LockSpan, lock_text};
use deny_spans_manifest::Manifest;
use deny_spans_workspace::{Registry, UnusedWorkspaceDep, WorkspaceDeps, WorkspaceSpan};
use std::alloc::Global;

/// Where the crates of a graph stand in the lock text, in their manifests, and in what the workspace's
/// manifest shares; and what could not be read of these.
#[derive(Drop)]
pub struct KrateSpans<'k> {
    /// The file that is the workspace's manifest; none where that was not read or is no UTF-8.
    pub workspace_id: Option<FileId>,
    /// The file that is the lock text.
    pub lock_id: FileId,
    /// The shared entries that stand for no crate, in byte order of their keys.
    pub unused_workspace_deps: List<UnusedWorkspaceDep>,
    /// What was not read of manifests, in order.
    pub unread: List<Unread>,
    /// The paths of manifests that were read and are no UTF-8 or no TOML, or go past its limits, in
    /// byte order.
    pub malformed: List<Text>,
    krates: &'k Krates,
    lock_spans: List<LockSpan>,
    manifests: List<Option<Manifest<'k>>>,
    shared: List<Option<WorkspaceSpan<'k>>>,
}

impl<'k> KrateSpans<'k> {
    /// The spans of a graph. The lock text is added to the files as `lock_name/Cargo.lock`. Then the
    /// manifest of each crate without a source is read once, in graph order. The manifest in the root of
    /// the workspace is read behind them, where it is no crate's. What was read and is UTF-8 is added to
    /// the files too.
    ///
    /// A manifest that is not read has an entry with its crate, or with none, and one that has no tree has
    /// its path among the malformed.
    ///
    /// Where memory runs out, the files are unchanged, or have the lock text and then what was read of the
    /// first of these manifests.
    pub fn synthesize<D: PackageFiles>(
        alloc: Global,
        krates: &'k Krates,
        lock_name: &str,
        registries: &[Registry],
        disk: &mut D,
        files: &mut Files,
    ) -> Result<KrateSpans<'k>, NoMemory>
        requires few { length files.old < 2 ^ 31 }
        ensures seen { IfOk result (λ s. IsSeen (D.seen disk.old).files krates.entry.now registries.now
            (files.old ++ lock_file lock_name.now krates.entry.now ∷ []) files.new
            s.unread s.malformed (spans_view s)) }
        ensures spans { IfOk result (AreSpansOf krates.entry.now) }
        ensures lock { IfOk result (λ s. s.lock_id ≡ length files.old) }
        ensures locked { IfOk result (λ s. slice_get files.new s.lock_id
            ≡ Some (lock_file lock_name.now krates.entry.now)) }
        ensures lies { IfOk result (λ s. ViewLies (length files.old + 1) files.new (spans_view s)) }
        ensures caused { IfOk result (λ s. (folder : Folders) →
            AreCaused folder (D.seen disk.old) (D.seen disk.new) s.unread) }
        ensures wanted { IfOk result (λ s. AreWanted krates.entry.now s.unread) }
        ensures once { IfOk result (λ _. GaveAtMost (D.seen disk.old) (D.seen disk.new)
            (λ files. bytes_wanted files krates.entry.now)) }
        ensures begun { OnErr result (AreBegun (D.seen disk.old) (D.seen disk.new) krates.entry.now lock_name.now
            files.old files.new) }
        ensures later { IsLater (D.seen disk.old) (D.seen disk.new) }
    {
        let _krates = krates.krates();
        let lock = add_lock(alloc, krates, lock_name, files)?;
        let found = find_manifests(alloc, krates, registries, disk, files)?;
        let spans = put_together(alloc, krates, lock, found)?;
        Ok(spans)
    }

    /// Where the crate of an id stands in the lock text; none where no crate has the id.
    pub fn lock_span(&self, kid: &Kid) -> Option<&LockSpan>
        ensures { (g : Graph) → AreSpansOf g self.now
            → option_copied result ≡ option_map (lock_span_at g.crates) (crate_of g kid.now.0) }
    {
        self.lock_span_at(self.place_of(kid)?)
    }

    /// The manifest of the crate of an id; none where no crate has the id, the crate has a source, or
    /// its manifest was not read or is malformed.
    pub fn manifest(&self, kid: &Kid) -> Option<&Manifest<'k>>
        ensures is { (g : Graph) → AreSpansOf g self.now → option_map (λ m. manifest_view m.now) result
            ≡ option_and_then (manifest_of (spans_view self.now)) (crate_of g kid.now.0) }
        ensures of { (g : Graph) → AreSpansOf g self.now → IfSome result (λ m.
            IfSome (crate_of g kid.now.0) (λ c. IsManifestAt g c.place m.now)) }
    {
        self.manifest_at(self.place_of(kid)?)
    }

    /// The shared entry that stands for the crate of an id; none where no crate has the id, and where
    /// no entry resolves to the crate.
    pub fn workspace_span(&self, kid: &Kid) -> Option<&WorkspaceSpan<'k>>
        ensures is { (g : Graph) → AreSpansOf g self.now
            → IfSome (crate_of g kid.now.0) (λ c. option_map (λ s. span_view c.place s.now) result
            ≡ shared_at (spans_view self.now) c.place) }
        ensures none { (g : Graph) → AreSpansOf g self.now
            → IfNone (crate_of g kid.now.0) (result ≡ None) }
        ensures of { (g : Graph) → AreSpansOf g self.now → IfSome result (λ s.
            IfSome (crate_of g kid.now.0) (λ c. IsSharedAt g c.place s.now)) }
    {
        self.shared_at(self.place_of(kid)?)
    }

    /// The place of the crate of an id.
    fn place_of(&self, kid: &Kid) -> Option<u32>
        ensures { (g : Graph) → AreSpansOf g self.now
            → MatchOption result (crate_of g kid.now.0 ≡ None) (OccursAt g kid.now.0) }
    {
        let _krates = self.krates.krates();
        self.krates.nid_for_kid(kid)
    }

    /// Where the crate at a place stands in the lock text; none where there is no such place.
    pub fn lock_span_at(&self, place: u32) -> Option<&LockSpan>
        ensures { (g : Graph) → AreSpansOf g self.now
            → option_copied result ≡ option_map (lock_span_at g.crates) (slice_get g.crates place) }
    {
        self.lock_spans.as_slice().get(place as usize)
    }

    /// The manifest of the crate at a place.
    pub fn manifest_at(&self, place: u32) -> Option<&Manifest<'k>>
        ensures is { option_map (λ m. manifest_view m.now) result
            ≡ option_flatten (slice_get (spans_view self.now).manifests place) }
        ensures of { (g : Graph) → AreSpansOf g self.now → IfSome result (λ m. IsManifestAt g place m.now) }
    {
        self.manifests.as_slice().get(place as usize)?.as_ref()
    }

    /// The shared entry that stands for the crate at a place.
    pub fn shared_at(&self, place: u32) -> Option<&WorkspaceSpan<'k>>
        ensures is { option_map (λ s. span_view place s.now) result ≡ shared_at (spans_view self.now) place }
        ensures of { (g : Graph) → AreSpansOf g self.now → IfSome result (λ s. IsSharedAt g place s.now) }
    {
        self.shared.as_slice().get(place as usize)?.as_ref()
    }
}

/// The lock text as a file, and where crates stand in it.
#[derive(Drop)]
struct Lock {
    id: FileId,
    spans: List<LockSpan>,
}

fn add_lock(
    alloc: Global,
    krates: &Krates,
    lock_name: &str,
    files: &mut Files,
) -> Result<Lock, NoMemory>
    requires { length files.old < 2 ^ 31 }
    ensures id { IfOk result (λ lock. lock.id ≡ length files.old) }
    ensures spans { IfOk result (λ lock. lock.spans ≡ map (lock_span_at krates.now.crates) krates.now.crates) }
    ensures lines { IfOk result (λ lock. AllZip (IsLineOf (lock_text krates.now.crates)) krates.now.crates lock.spans) }
    ensures files { OnOk result (files.new ≡ files.old ++ lock_file lock_name.now krates.now ∷ []) }
    ensures err { OnErr result (files.new ≡ files.old) }
{
    let lock = lock_text(alloc, krates)?;
    let path = lock_path(alloc, lock_name)?;
    Ok(Lock {
        id: files.add(path.as_str(), lock.text.as_str())?,
        spans: lock.spans,
    })
}

/// The manifests that were found.
#[derive(Drop)]
struct FoundManifests<'k> {
    manifests: List<Option<Manifest<'k>>>,
    missed: Missed,
    workspace: Workspace<'k>,
}

/// Reads the manifests of crates, and that of the workspace.
fn find_manifests<'k, D: PackageFiles>(
    alloc: Global,
    krates: &'k Krates,
    registries: &[Registry],
    disk: &mut D,
    files: &mut Files,
) -> Result<FoundManifests<'k>, NoMemory>
    requires { length files.old ≤ 2 ^ 31 }
    ensures found { IfOk result (IsFound (D.seen disk.old).files krates.entry.now registries.now files.old files.new) }
    ensures caused { IfOk result (λ found. (folder : Folders) →
        AreCaused folder (D.seen disk.old) (D.seen disk.new) found.missed.unread) }
    ensures once { IfOk result (λ _. GaveAtMost (D.seen disk.old) (D.seen disk.new)
        (λ files. bytes_wanted files krates.entry.now)) }
    ensures begun { OnErr result (Gains (AreOfFirst (D.seen disk.old) (D.seen disk.new) krates.entry.now)
        files.old files.new) }
    ensures later { IsLater (D.seen disk.old) (D.seen disk.new) }
{
    let GatheredManifests {
        manifests,
        numbers,
        missed,
    } = gather(alloc, krates, disk, files)?;
    let mut missed = missed;
    let workspace = workspace_of(
        alloc,
        krates,
        registries,
        numbers.as_slice(),
        disk,
        files,
        &mut missed,
    )?;
    Ok(FoundManifests {
        manifests,
        missed,
        workspace,
    })
}

/// The spans of the lock text and the found manifests.
fn put_together<'k>(
    alloc: Global,
    krates: &'k Krates,
    lock: Lock,
    found: FoundManifests<'k>,
) -> Result<KrateSpans<'k>, NoMemory>
    ensures { IfOk result (IsPutTogether krates.entry.now lock found.entry) }
{
    let Lock {
        id: lock_id,
        spans: lock_spans,
    } = lock;
    let FoundManifests {
        manifests,
        missed,
        workspace,
    } = found;
    let Workspace { id, deps } = workspace;
    let mut missed = missed;
    missed.put_in_order()?;
    let Missed { unread, malformed } = missed;
    let WorkspaceDeps { spans, unused } = shared_or_none(alloc, krates, deps)?;
    Ok(KrateSpans {
        workspace_id: id,
        lock_id,
        unused_workspace_deps: unused,
        unread,
        malformed,
        krates,
        lock_spans,
        manifests,
        shared: List::from_vec(spans),
    })
}
