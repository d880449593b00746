//! The manifest of the workspace.
ghost use Rattle.std.specs.Prelude.{◌≡◌, ◌<◌, ◌-◌, ◌^◌, ◌++◌, ◌∷◌, [], List, None, Option, IfOk, OnErr};
ghost use Rattle.std.specs.Prelude.{IfSome, Some, is_none, length, option_map, position};
ghost use Rattle.deny_base_disk.specs.Disk.{IsLater};
ghost use Rattle.deny_base_disk.specs.Read.{GaveAtMost, GaveOnce};
ghost use Rattle.deny_spans.specs.ManifestScan.{home_in};
ghost use Rattle.deny_spans.specs.Paths.{workspace_path};
ghost use Rattle.deny_spans.specs.Begun.{lone_manifest};
ghost use Rattle.deny_spans.specs.private.Begun.{MayHave, MayHaveText};
ghost use Rattle.deny_spans.specs.private.Gathered.{broken_if};
ghost use Rattle.deny_spans.specs.private.Workspace.{AreShared, AreSharedIf, AreSharedIn, AreSharedOf, IsKeptAlone};
ghost use Rattle.deny_spans.specs.private.Workspace.{IsReadAlone, IsShortAt, IsWorkspaceIn, is_home, text_at};
ghost use Rattle.deny_spans.specs.Wanted.{bytes_alone};
ghost use Rattle.deny_toml.specs.value.Value.{Value};
ghost use Rattle.deny_base.specs.Unread.{asked};
ghost use Rattle.deny_base.specs.declared.purpose.Purpose.TheVariants as purpose;
ghost use Rattle.deny_base_unread.specs.Added.{added};
ghost use Rattle.deny_base_unread.specs.Bound.{Folders};
ghost use Rattle.deny_base_unread.specs.Causes.{AreCaused};
ghost use Rattle.deny_spans_workspace.specs.Workspace.{AreSpans};
ghost use Rattle.deny_spans_workspace.specs.declared.registries.Registry.{Registry};

use crate::missed::Missed;
use crate::paths::workspace_path;
use deny_base::{FileId, Files};
use deny_base_disk::PackageFiles;
use deny_base_lists::{List, NoMemory, Text};
use deny_base_unread::read_manifest;
use deny_krates::{Krate, Krates};
use deny_spans_workspace::{Registry, WorkspaceDeps, workspace_deps};
use deny_toml::{TomlError, parse};
use std::alloc::Global;

/// The manifest of the workspace.
#[derive(Drop)]
pub struct Workspace<'k> {
    /// The number of the file that the manifest is kept as; none where it was not read or is no UTF-8.
    pub id: Option<FileId>,
    /// What the workspace's dependencies resolve to; none where the manifest has no tree.
    pub deps: Option<WorkspaceDeps<'k>>,
}

/// The manifest in the root of the workspace: that of the first crate whose manifest it is, or else it is
/// read on its own. `numbers` has the numbers of the files of crates, by their places.
pub fn workspace_of<'k, D: PackageFiles>(
    alloc: Global,
    krates: &'k Krates,
    registries: &[Registry],
    numbers: &[Option<FileId>],
    disk: &mut D,
    files: &mut Files,
    missed: &mut Missed,
) -> Result<Workspace<'k>, NoMemory>
    requires few { length files.old < 2 ^ 32 - 1 }
    requires long { length numbers.now ≡ length krates.now.crates }
    requires short { IsShortAt krates.now numbers.now files.old }
    ensures is { IfOk result (IsWorkspaceIn (D.seen disk.old).files krates.entry.now registries.now numbers.now
        files.old files.new missed.old missed.new) }
    ensures caused { IfOk result (λ _. (folder : Folders) → AreCaused folder (D.seen disk.old) (D.seen disk.new)
        (added missed.old.unread missed.new.unread)) }
    ensures once { IfOk result (λ _. GaveAtMost (D.seen disk.old) (D.seen disk.new)
        (λ files. bytes_alone files krates.entry.now)) }
    ensures begun { OnErr result (MayHave (D.seen disk.old).files (lone_manifest krates.entry.now)
        files.old files.new) }
    ensures later { IsLater (D.seen disk.old) (D.seen disk.new) }
{
    let path = workspace_path(alloc, krates.workspace_root())?;
    match home_of(krates, path.as_str()) {
        Some(place) => of_crate(alloc, krates, registries, numbers[place], files),
        None => alone(alloc, krates, registries, path, disk, files, missed),
    }
}

/// The place of the first crate whose manifest has this path, and that has no source.
fn home_of(krates: &Krates, path: &str) -> Option<usize>
    requires { path.now ≡ workspace_path krates.now.root }
    ensures is { result ≡ home_in krates.now }
    ensures inside { IfSome result (λ place. place < length krates.now.crates) }
{
    first_home(krates.krates(), path)
}

fn first_home(krates: &[Krate], path: &str) -> Option<usize>
    ensures { result ≡ position (is_home path.now) krates.now }
{
    krates.iter().position(|krate| is_home(krate, path))
}

fn is_home(krate: &Krate, path: &str) -> bool
    ensures { result ≡ is_home path.now krate.now }
{
    krate.source.is_none() && krate.manifest_path.as_str() == path
}

/// The workspace's manifest where it is a crate's, which is kept as the file of this number.
fn of_crate<'k>(
    alloc: Global,
    krates: &'k Krates,
    registries: &[Registry],
    id: Option<FileId>,
    files: &Files,
) -> Result<Workspace<'k>, NoMemory>
    requires { IfSome (text_at files.now id) (λ text. length text < 2 ^ 28) }
    ensures id { IfOk result (λ w. w.id ≡ id) }
    ensures deps { IfOk result (λ w. AreSharedOf krates.entry.now registries.now (text_at files.now id) w.deps) }
{
    let deps = match source_of(files, id) {
        Some(text) => deps_in(alloc, krates, registries, text)?,
        None => None,
    };
    Ok(Workspace { id, deps })
}

fn source_of(files: &Files, id: Option<FileId>) -> Option<&str>
    ensures { option_map (λ text. text.now) result ≡ text_at files.now id }
{
    files.source(id?)
}

/// What the dependencies of the workspace resolve to, by the text of its manifest; none where that has no
/// tree.
fn deps_in<'k>(
    alloc: Global,
    krates: &'k Krates,
    registries: &[Registry],
    text: &str,
) -> Result<Option<WorkspaceDeps<'k>>, NoMemory>
    requires { length text.now < 2 ^ 28 }
    ensures { IfOk result (AreSharedIn krates.entry.now registries.now text.now) }
{
    match parse(alloc, text) {
        Ok(tree) => Ok(Some(workspace_deps(alloc, &tree, krates, registries)?)),
        Err(TomlError::Fault { .. }) => Ok(None),
        Err(TomlError::Memory) => Err(NoMemory),
    }
}

/// The workspace's manifest where it is no crate's.
fn alone<'k, D: PackageFiles>(
    alloc: Global,
    krates: &'k Krates,
    registries: &[Registry],
    path: Text,
    disk: &mut D,
    files: &mut Files,
    missed: &mut Missed,
) -> Result<Workspace<'k>, NoMemory>
    requires few { length files.old < 2 ^ 32 - 1 }
    requires path { path ≡ workspace_path krates.now.root }
    ensures is { IfOk result (IsReadAlone (D.seen disk.old).files krates.entry.now registries.now
        files.old files.new missed.old missed.new) }
    ensures caused { IfOk result (λ _. (folder : Folders) → AreCaused folder (D.seen disk.old) (D.seen disk.new)
        (added missed.old.unread missed.new.unread)) }
    ensures once { GaveOnce (D.seen disk.old) (D.seen disk.new) (workspace_path krates.entry.now.root) }
    ensures begun { OnErr result (MayHave (D.seen disk.old).files
        (asked None purpose.Manifest (workspace_path krates.entry.now.root) ∷ []) files.old files.new) }
    ensures later { IsLater (D.seen disk.old) (D.seen disk.new) }
{
    match read_manifest(alloc, disk, None, path.as_str(), &mut missed.unread)? {
        Some(bytes) => of_bytes(
            alloc,
            krates,
            registries,
            path,
            bytes.as_slice(),
            files,
            &mut missed.malformed,
        ),
        None => Ok(Workspace {
            id: None,
            deps: None,
        }),
    }
}

/// The workspace's manifest with these bytes. Where it has no tree, its path is added to the malformed.
fn of_bytes<'k>(
    alloc: Global,
    krates: &'k Krates,
    registries: &[Registry],
    path: Text,
    bytes: &[u8],
    files: &mut Files,
    malformed: &mut List<Text>,
) -> Result<Workspace<'k>, NoMemory>
    requires few { length files.old < 2 ^ 32 - 1 }
    requires short { length bytes.now < 2 ^ 28 }
    ensures kept { IfOk result (IsKeptAlone krates.entry.now registries.now path bytes.now files.old files.new) }
    ensures malformed { IfOk result (λ w. malformed.new ≡ malformed.old ++ broken_if path (is_none w.deps)) }
    ensures begun { OnErr result (MayHaveText path (Some bytes.now) files.old files.new) }
{
    let workspace = keep_alone(alloc, krates, registries, path.as_str(), bytes, files)?;
    if workspace.deps.is_none() {
        malformed.push(path)?;
    }
    Ok(workspace)
}

fn keep_alone<'k>(
    alloc: Global,
    krates: &'k Krates,
    registries: &[Registry],
    path: &str,
    bytes: &[u8],
    files: &mut Files,
) -> Result<Workspace<'k>, NoMemory>
    requires few { length files.old < 2 ^ 32 - 1 }
    requires short { length bytes.now < 2 ^ 28 }
    ensures kept { IfOk result (IsKeptAlone krates.entry.now registries.now path.now bytes.now files.old files.new) }
    ensures begun { OnErr result (MayHaveText path.now (Some bytes.now) files.old files.new) }
{
    match str::from_utf8(bytes) {
        Ok(text) => {
            let id = files.add(path, text)?;
            let deps = deps_in(alloc, krates, registries, text)?;
            Ok(Workspace { id: Some(id), deps })
        }
        Err(_) => Ok(Workspace {
            id: None,
            deps: None,
        }),
    }
}

/// What the workspace's dependencies resolve to; where there is nothing, no entry stands for any crate.
pub fn shared_or_none<'k>(
    alloc: Global,
    krates: &'k Krates,
    deps: Option<WorkspaceDeps<'k>>,
) -> Result<WorkspaceDeps<'k>, NoMemory>
    ensures { IfOk result (λ shared. (registries : List Registry) (tree : Option Value)
        → AreSharedIf krates.entry.now registries tree deps.entry → AreShared krates.entry.now registries tree shared) }
{
    match deps {
        Some(deps) => Ok(deps),
        None => no_shared(alloc, krates),
    }
}

fn no_shared<'k>(alloc: Global, krates: &'k Krates) -> Result<WorkspaceDeps<'k>, NoMemory>
    ensures spans { IfOk result (λ deps. AreSpans krates.entry.now [] deps.spans.items) }
    ensures unused { IfOk result (λ deps. deps.unused ≡ []) }
{
    let mut spans = Vec::new(alloc);
    for _ in krates.krates() {
        spans.push(None)?;
    }
    Ok(WorkspaceDeps {
        spans,
        unused: List::new(alloc),
    })
}
