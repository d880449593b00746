//! The entries of `workspace.dependencies`, with the patches that replace them.
ghost use Rattle.std.specs.Prelude.{◌≡◌, IfOk, None, map, option_copied, option_map, if◌then◌else◌};
ghost use Rattle.deny_toml.specs.Calls.{entry_at};
ghost use Rattle.deny_toml.specs.TreeOrder.{NamesAscend};
ghost use Rattle.deny_toml.specs.Value.{entries_in};
ghost use Rattle.deny_spans_workspace.specs.Entries.{entries_of, entry_of, keys_in};
ghost use Rattle.deny_spans_workspace.specs.private.Entries.{Ascends, entry_view};
ghost use Rattle.deny_spans_workspace.specs.Entries.{may_be_patched, patch_of, patched_entry};
ghost use Rattle.deny_spans_workspace.specs.private.Entries.{patch_view};
ghost use Rattle.deny_spans_workspace.specs.Entries.{replaced_by, table_below};
ghost use Rattle.deny_spans_workspace.specs.private.DepSpec.{dep_spec_view};

use crate::dep_spec::{DepSpec, dep_spec_in};
use crate::manifest_key::ManifestKey;
use crate::origin::{Origin, value_at};
use deny_base::Span;
use deny_base_lists::{List, NoMemory, Text};
use deny_toml::{Key, Table, Value};
use std::alloc::Global;

/// An entry, or the patch that replaces it.
#[derive(Drop)]
pub struct SharedEntry {
    /// The name of the key.
    pub name: Text,
    /// The span of the key: the patch's, where a patch replaces the entry.
    pub key: Span,
    /// The span of the entry's own value.
    pub value: Span,
    pub spec: DepSpec,
    /// The span of the entry's own key, where a patch replaces the entry.
    pub patched: Option<Span>,
}

/// The table below two keys, one in the other.
pub fn table_below<'v, 't>(
    tree: &'v Value<'t>,
    outer: ManifestKey,
    inner: ManifestKey,
) -> Option<&'v Table<'t>>
    ensures { option_copied result ≡ table_below outer inner tree.now }
{
    value_at(value_at(tree, outer)?, inner)?.as_table()
}

/// The entry of a name.
fn named_entry<'v, 't>(table: &'v Table<'t>, name: &str) -> Option<&'v (Key<'t>, Value<'t>)>
    requires { NamesAscend table.now }
    ensures { option_copied result ≡ entry_at name.now (entries_in table.now) }
{
    let entries = table.entries();
    match entries.binary_search_by(|entry| entry.0.name.as_str().cmp(name)) {
        Ok(at) => Some(&entries[at]),
        Err(_) => None,
    }
}

fn may_be_patched(origin: &Origin) -> bool
    ensures { result ≡ may_be_patched origin.now }
{
    match origin {
        Origin::Registry(name) => name.is_none(),
        Origin::Path(_) | Origin::Git(_, _) => false,
    }
}

/// What the patch of a name specifies, with the span of its key.
#[tactic(auto, unfolding(crate::specs::Entries::patch_of))]
fn patch_of<'t>(
    alloc: Global,
    patches: Option<&Table<'t>>,
    name: &str,
) -> Result<Option<(Span, DepSpec)>, NoMemory>
    requires { Ascends (option_copied patches) }
    ensures { IfOk result (λ patch. option_map patch_view patch
        ≡ patch_of (keys_in (option_copied patches.entry)) name.now) }
{
    let Some(table) = patches else {
        return Ok(None);
    };
    let Some((key, value)) = named_entry(table, name) else {
        return Ok(None);
    };
    match dep_spec_in(alloc, value)? {
        Some(spec) => Ok(Some((key.span, spec))),
        None => Ok(None),
    }
}

/// The entry of a key and its value, if it is not passed over.
fn entry_of<'t>(
    alloc: Global,
    patches: Option<&Table<'t>>,
    key: &Key<'_>,
    value: &Value<'_>,
) -> Result<Option<SharedEntry>, NoMemory>
    requires { Ascends (option_copied patches) }
    ensures { IfOk result (λ entry. option_map entry_view entry
        ≡ entry_of (keys_in (option_copied patches.entry)) (key.now, value.now)) }
{
    match dep_spec_in(alloc, value)? {
        Some(spec) => Ok(Some(patched_entry(alloc, patches, key, value.span, spec)?)),
        None => Ok(None),
    }
}

/// The entry, or the patch that replaces it.
fn patched_entry<'t>(
    alloc: Global,
    patches: Option<&Table<'t>>,
    key: &Key<'_>,
    value: Span,
    spec: DepSpec,
) -> Result<SharedEntry, NoMemory>
    requires { Ascends (option_copied patches) }
    ensures { IfOk result (λ entry. entry_view entry ≡ patched_entry (keys_in (option_copied patches.entry))
        key.now value (dep_spec_view spec)) }
{
    let name = Text::from_str(alloc, key.name.as_str())?;
    let patch = allowed_patch(alloc, patches, &spec.origin, key.name.as_str())?;
    Ok(entry_or_patch(patch, name, key.span, value, spec))
}

/// The patch of a name, where an entry of this origin may be patched.
fn allowed_patch<'t>(
    alloc: Global,
    patches: Option<&Table<'t>>,
    origin: &Origin,
    name: &str,
) -> Result<Option<(Span, DepSpec)>, NoMemory>
    requires { Ascends (option_copied patches) }
    ensures { IfOk result (λ patch. option_map patch_view patch
        ≡ (if may_be_patched origin.now then patch_of (keys_in (option_copied patches.entry)) name.now else None)) }
{
    if may_be_patched(origin) {
        patch_of(alloc, patches, name)
    } else {
        Ok(None)
    }
}

/// The entry of a key, or the patch that replaces it.
fn entry_or_patch(
    patch: Option<(Span, DepSpec)>,
    name: Text,
    key: Span,
    value: Span,
    spec: DepSpec,
) -> SharedEntry
    ensures { entry_view result
        ≡ replaced_by (option_map patch_view patch) (record { name = name; span = key }) value (dep_spec_view spec) }
{
    match patch {
        Some((patch, asked)) => SharedEntry {
            name,
            key: patch,
            value,
            spec: asked,
            patched: Some(key),
        },
        None => SharedEntry {
            name,
            key,
            value,
            spec,
            patched: None,
        },
    }
}

/// The entries that are not passed over, in byte order of their keys.
#[tactic(auto, unfolding(crate::specs::Entries::entries_of))]
pub fn entries_of<'t>(
    alloc: Global,
    patches: Option<&Table<'t>>,
    dependencies: &Table<'t>,
) -> Result<List<SharedEntry>, NoMemory>
    requires { Ascends (option_copied patches) }
    ensures { IfOk result (λ entries. map entry_view entries
        ≡ entries_of (keys_in (option_copied patches.entry)) (entries_in dependencies.now)) }
{
    let mut entries = List::new(alloc);
    for (key, value) in dependencies.entries() {
        if let Some(entry) = entry_of(alloc, patches, key, value)? {
            entries.push(entry)?;
        }
    }
    Ok(entries)
}
