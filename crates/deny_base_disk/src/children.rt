ghost use Rattle.std.specs.Prelude.{◌≡◌, ◌++◌, [], IfOk, OnOk, Some, codes, map, nat_eq};
ghost use Rattle.std.specs.Prelude.{if◌then◌else◌};
ghost use Rattle.std.specs.BTreeMap.{IsOrdered};
ghost use Rattle.std.specs.FinMap as finite;
ghost use Rattle.std.specs.List.{cons_option, ends_with, filter_map, list_any};
ghost use Rattle.std.specs.Option.{option_copied};
ghost use Rattle.std.specs.String.{string_cmp};
ghost use Rattle.deny_base_lists.specs.TextMap.{with_bytes};
ghost use Rattle.deny_base_disk.specs.Children.{child, children, entry_behind, prefix_of};
ghost use Rattle.deny_base_disk.specs.Children.{is_child_name, name_behind, text_behind};
ghost use Rattle.deny_base_disk.specs.Disk.{is_folder};
ghost use Rattle.deny_base_disk.specs.Paths.{is_slash};

use crate::disk::{Entry, Place};
use crate::path::is_name;
use deny_base_lists::{List, NoMemory, Text, TextMap};
use std::alloc::Global;
use std::collections::BTreeMap;

/// The path of a folder's child: a slash stands before the name, and only one where the path of
/// the folder ends with one.
pub fn child_path(alloc: Global, dir: &str, name: &str) -> Result<Text, NoMemory>
    ensures { IfOk result (λ path. path ≡ child dir.now name.now) }
{
    let mut path = prefix_with_room(alloc, dir, name.len())?;
    path.push_str(name)?;
    Ok(path)
}

/// The prefix of the paths of a folder's children, with room for a name of this length.
#[tactic(auto, unfolding(crate::specs::Children::prefix_of))]
fn prefix_with_room(alloc: Global, dir: &str, room: usize) -> Result<Text, NoMemory>
    ensures { IfOk result (λ prefix. prefix ≡ prefix_of dir.now) }
{
    let length = dir.len().saturating_add(1).saturating_add(room);
    let mut prefix = Text::from_string(String::with_capacity(alloc, length)?);
    prefix.push_str(dir)?;
    if !dir.as_bytes().ends_with(b"/") {
        prefix.push_str("/")?;
    }
    Ok(prefix)
}

/// Whether a child can have this name: it is a name, and has no slash.
pub(crate) fn is_child_name(name: &[u8]) -> bool
    ensures { result ≡ is_child_name name.now }
{
    is_name(name) && !has_slash(name)
}

fn has_slash(name: &[u8]) -> bool
    ensures { result ≡ list_any is_slash name.now }
{
    name.iter().any(|byte| *byte == b'/')
}

/// The rest of a path behind a prefix, if it begins with that.
pub fn path_behind<'p>(prefix: &str, path: &'p str) -> Option<&'p str>
    ensures { option_copied result ≡ text_behind prefix.now path.now }
{
    path.strip_prefix(prefix)
}

/// The rest of a path behind a folder and its slash, if it begins with these.
pub fn path_in_folder<'p>(dir: &str, path: &'p str) -> Option<&'p str>
    ensures { option_copied result ≡ text_behind (prefix_of dir.now) path.now }
{
    match path_behind(dir, path) {
        Some(rest) => behind_slash(dir, rest),
        None => None,
    }
}

/// The rest behind a folder's slash, where this is the rest behind the folder's path.
fn behind_slash<'p>(dir: &str, rest: &'p str) -> Option<&'p str>
    ensures { option_copied result ≡ (if ends_with nat_eq dir.now (codes "/") then Some rest.now
        else text_behind (codes "/") rest.now) }
{
    if dir.as_bytes().ends_with(b"/") {
        Some(rest)
    } else {
        path_behind("/", rest)
    }
}

/// The name behind the prefix of a folder, at the path of one of its children.
fn name_behind<'p>(prefix: &str, path: &'p str) -> Option<&'p str>
    ensures { option_copied result ≡ name_behind prefix.now path.now }
{
    let name = path_behind(prefix, path)?;
    if is_child_name(name.as_bytes()) {
        Some(name)
    } else {
        None
    }
}

/// The entries of the children whose paths have a prefix, in the order of the map.
fn entries_behind(
    alloc: Global,
    tree: &BTreeMap<String, Place>,
    prefix: &str,
) -> Result<List<Entry>, NoMemory>
    ensures entries { IfOk result (λ entries. entries ≡
        filter_map (entry_behind prefix.now) (map with_bytes tree.now.entries)) }
    ensures ordered { IsOrdered string_cmp tree.now }
{
    let mut entries = List::new(alloc);
    for (path, place) in tree.iter() {
        add_behind(alloc, prefix, path.as_str(), place, &mut entries)?;
    }
    Ok(entries)
}

/// Pushes the entry for a path, if the path is that of a child with this prefix.
fn add_behind(
    alloc: Global,
    prefix: &str,
    path: &str,
    place: &Place,
    entries: &mut List<Entry>,
) -> Result<(), NoMemory>
    ensures { OnOk result (entries.new ≡
        entries.old ++ cons_option (entry_behind prefix.now (path.now, place.now)) []) }
{
    match name_behind(prefix, path) {
        Some(name) => entries.push(Entry {
            name: Text::from_str(alloc, name)?,
            folder: matches!(place, Place::Folder),
        }),
        None => Ok(()),
    }
}

pub(crate) fn is_folder_at(files: &TextMap<Place>, path: &str) -> bool
    ensures { result ≡ is_folder (finite.get files.now path.now) }
{
    matches!(files.get(path), Some(Place::Folder))
}

/// The entries of a folder; none where no folder is at the path.
#[tactic(auto, unfolding(crate::specs::Children::children))]
pub(crate) fn children_of(
    alloc: Global,
    files: &TextMap<Place>,
    dir: &str,
) -> Result<List<Entry>, NoMemory>
    ensures { IfOk result (λ entries. entries ≡ children files.now dir.now) }
{
    if !is_folder_at(files, dir) {
        return Ok(List::new(alloc));
    }
    let prefix = prefix_with_room(alloc, dir, 0)?;
    entries_behind(alloc, &files.tree, prefix.as_str())
}
