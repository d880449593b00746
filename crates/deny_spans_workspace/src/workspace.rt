//! The entries of a workspace's dependencies, each with the crate that it resolves to.
ghost use Rattle.std.specs.Prelude.{◌≡◌, ◌&&◌, ◌<◌, [], IfOk, IfSome, None, Some, find, length, map, option_map};
ghost use Rattle.std.specs.Option.{option_map_or};
ghost use Rattle.deny_toml.specs.TreeOrder.{IsOrderly};
ghost use Rattle.deny_spec.specs.Groups.{has_name};
ghost use Rattle.deny_spans_workspace.specs.Agreement.{counting, fits, home_of, is_of_registry};
ghost use Rattle.deny_spans_workspace.specs.Entries.{dependencies_in, entries_of, patches_in};
ghost use Rattle.deny_spans_workspace.specs.private.Entries.{entry_view};
ghost use Rattle.deny_spans_manifest.specs.Found.{held_spanned, requirement_read};
ghost use Rattle.deny_spans_workspace.specs.Workspace.{AreSpans, dep_view, entries_in, resolved_entry, unused_in};
ghost use Rattle.deny_spans_workspace.specs.private.Workspace.{IsPut};

use crate::agreement::{home_of, is_of_registry, place_of};
use crate::dep_spec::DepSpec;
use crate::entries::{SharedEntry, entries_of, table_below};
use crate::manifest_key::ManifestKey;
use crate::origin::Origin;
use crate::registries::Registry;
use deny_base::{Span, Spanned};
use deny_base_lists::{List, NoMemory, Text};
use deny_krates::{Krate, Krates};
use deny_toml::Value;
use semver::VersionReq;
use std::alloc::Global;

/// The entry that stands for a crate.
#[derive(Drop)]
pub struct WorkspaceSpan<'k> {
    pub krate: &'k Krate,
    /// The span of the entry's key: the patch's, where a patch replaces the entry.
    pub key: Span,
    /// The span of the entry's value.
    pub value: Span,
    /// The requirement that parses there; that of the patch, where a patch replaces the entry.
    pub version: Option<Spanned<VersionReq>>,
    /// The name of the package, where it differs from the key, from the same value.
    pub rename: Option<Spanned<Text>>,
    /// The span of the entry's own key, where a patch replaces the entry.
    pub patched: Option<Span>,
}

/// An entry that resolves to no crate.
#[derive(Drop)]
pub struct UnusedWorkspaceDep {
    /// The span of the entry's key: the patch's, where a patch replaces the entry.
    pub key: Span,
    /// The span of the entry's value.
    pub value: Span,
    /// The requirement that parses there; that of the patch, where a patch replaces the entry.
    pub version: Option<Spanned<VersionReq>>,
    /// The name of the package, where it differs from the key, from the same value.
    pub rename: Option<Spanned<Text>>,
    /// The span of the entry's own key, where a patch replaces the entry.
    pub patched: Option<Span>,
}

/// What the dependencies of a workspace resolve to.
#[derive(Drop)]
pub struct WorkspaceDeps<'k> {
    /// By the places of the crates, for each the last entry that resolves to it.
    pub spans: Vec<Option<WorkspaceSpan<'k>>>,
    /// The entries that resolve to no crate, in byte order of their keys.
    pub unused: List<UnusedWorkspaceDep>,
}

/// What the entries of `workspace.dependencies` resolve to, in the tree of the workspace's manifest and by
/// the known registries. An entry that is passed over, as one without a source or with a requirement that
/// does not parse, is neither kept nor unused.
pub fn workspace_deps<'k>(
    alloc: Global,
    root: &Value<'_>,
    krates: &'k Krates,
    registries: &[Registry],
) -> Result<WorkspaceDeps<'k>, NoMemory>
    requires ordered { IsOrderly root.now }
    ensures spans { IfOk result (λ deps. AreSpans krates.entry.now
        (entries_in krates.entry.now registries.now root.now) deps.spans.items) }
    ensures unused { IfOk result (λ deps. map (dep_view None) deps.unused
        ≡ unused_in (entries_in krates.entry.now registries.now root.now)) }
{
    let entries = all_entries(alloc, root)?;
    resolve_all(alloc, krates, registries, entries)
}

/// The entries of a tree that are not passed over.
fn all_entries(alloc: Global, root: &Value<'_>) -> Result<List<SharedEntry>, NoMemory>
    requires { IsOrderly root.now }
    ensures { IfOk result (λ entries. map entry_view entries
        ≡ entries_of (patches_in root.now) (dependencies_in root.now)) }
{
    let Some(dependencies) = table_below(root, ManifestKey::Workspace, ManifestKey::Dependencies)
    else {
        return Ok(List::new(alloc));
    };
    let patches = table_below(root, ManifestKey::Patch, ManifestKey::CratesIo);
    entries_of(alloc, patches, dependencies)
}

/// An entry, and the place of the crate that it resolves to.
#[derive(Drop)]
struct Resolved {
    dep: UnusedWorkspaceDep,
    place: Option<u32>,
}

fn resolve_all<'k>(
    alloc: Global,
    krates: &'k Krates,
    registries: &[Registry],
    entries: List<SharedEntry>,
) -> Result<WorkspaceDeps<'k>, NoMemory>
    ensures spans { IfOk result (λ deps. AreSpans krates.entry.now
        (map (λ e. resolved_entry krates.entry.now registries.now (entry_view e)) entries) deps.spans.items) }
    ensures unused { IfOk result (λ deps. map (dep_view None) deps.unused
        ≡ unused_in (map (λ e. resolved_entry krates.entry.now registries.now (entry_view e)) entries)) }
{
    let mut spans = no_spans(alloc, krates)?;
    let mut unused = List::new(alloc);
    'entries: for entry in entries.vec {
        let Resolved { dep, place } = resolve(alloc, krates, registries, entry)?;
        match place {
            Some(place) => put(krates, &mut spans, place, dep),
            None => unused.push(dep)?,
        }
    }
    Ok(WorkspaceDeps { spans, unused })
}

/// The spans of no entries: none at the place of any crate.
fn no_spans<'k>(
    alloc: Global,
    krates: &'k Krates,
) -> Result<Vec<Option<WorkspaceSpan<'k>>>, NoMemory>
    ensures { IfOk result (λ spans. AreSpans krates.entry.now [] spans.items) }
{
    let mut spans = Vec::new(alloc);
    for _ in krates.krates() {
        spans.push(None)?;
    }
    Ok(spans)
}

/// Puts an entry at the place of its crate, over what was there.
fn put<'k>(
    krates: &'k Krates,
    spans: &mut Vec<Option<WorkspaceSpan<'k>>>,
    place: u32,
    dep: UnusedWorkspaceDep,
)
    requires inside { place < length krates.now.crates }
    requires long { length spans.old.items ≡ length krates.now.crates }
    ensures { IsPut krates.entry.now place (dep_view (Some place) dep) spans.old.items spans.new.items }
{
    spans[place as usize] = Some(WorkspaceSpan {
        krate: &krates.krates()[place as usize],
        key: dep.key,
        value: dep.value,
        version: dep.version,
        rename: dep.rename,
        patched: dep.patched,
    });
}

fn resolve(
    alloc: Global,
    krates: &Krates,
    registries: &[Registry],
    entry: SharedEntry,
) -> Result<Resolved, NoMemory>
    ensures entry { IfOk result (λ r. dep_view r.place r.dep
        ≡ resolved_entry krates.now registries.now (entry_view entry)) }
    ensures within { IfOk result (λ r. IfSome r.place (λ p. p < length krates.now.crates)) }
{
    let SharedEntry {
        name,
        key,
        value,
        spec,
        patched,
    } = entry;
    let DepSpec {
        origin,
        version,
        rename,
    } = spec;
    let package = package_of(&rename, &name);
    let place = place_of_origin(alloc, krates, registries, origin, package, &version)?;
    Ok(Resolved {
        dep: UnusedWorkspaceDep {
            key,
            value,
            version,
            rename,
            patched,
        },
        place,
    })
}

/// The place of the first crate of a name that comes from an origin and meets a requirement.
fn place_of_origin(
    alloc: Global,
    krates: &Krates,
    registries: &[Registry],
    origin: Origin,
    name: &str,
    version: &Option<Spanned<VersionReq>>,
) -> Result<Option<u32>, NoMemory>
    ensures place { IfOk result (λ place. place ≡ option_map (λ c. c.place) (find (λ c.
        fits (home_of krates.now.root registries.now origin)
        (counting (is_of_registry origin) (option_map held_spanned version.now)) c && has_name name.now c)
        krates.now.crates)) }
    ensures within { IfOk result (λ place. IfSome place (λ p. p < length krates.now.crates)) }
{
    let counts = is_of_registry(&origin);
    let home = home_of(alloc, krates.workspace_root(), registries, origin)?;
    place_of(alloc, krates, name, &home, requirement_of(version, counts))
}

/// The package that an entry names, or else its key.
fn package_of<'e>(rename: &'e Option<Spanned<Text>>, name: &'e Text) -> &'e str
    ensures { result.now ≡ option_map_or (λ r. r.value) rename.now name.now }
{
    match rename {
        Some(rename) => rename.value.as_str(),
        None => name.as_str(),
    }
}

/// The requirement of an entry, where it counts.
fn requirement_of(version: &Option<Spanned<VersionReq>>, counts: bool) -> Option<&VersionReq>
    ensures { option_map (λ r. requirement_read r.now) result ≡ counting counts (option_map held_spanned version.now) }
{
    match version {
        Some(version) => if counts { Some(&version.value) } else { None },
        None => None,
    }
}
