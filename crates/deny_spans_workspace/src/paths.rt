//! Paths by their components, as the standard library reads them.
ghost use Rattle.std.specs.Prelude.{◌≡◌, IfOk, OnOk};
ghost use Rattle.std.specs.Path.{parent_dir, path_components, root_dir};
ghost use Rattle.deny_spec.specs.Text.{same_text};
ghost use Rattle.deny_spans_workspace.specs.Paths.{above, folder_named, further, joined, resolved};

use deny_base_lists::{List, NoMemory, Text};
use std::alloc::Global;
use std::path::Path;

/// A path joined to the workspace's root, unless it is absolute.
#[tactic(auto, unfolding(crate::specs::Paths::joined))]
fn joined(alloc: Global, root: &str, path: &str) -> Result<Text, NoMemory>
    ensures { IfOk result (λ whole. whole ≡ joined root.now path.now) }
{
    if path.starts_with('/') {
        return Text::from_str(alloc, path);
    }
    let mut whole = Text::from_str(alloc, root)?;
    if !root.ends_with('/') {
        whole.push_str("/")?;
    }
    whole.push_str(path)?;
    Ok(whole)
}

/// The components of a path: the root, names, and `.` and `..`.
pub fn components(alloc: Global, path: &str) -> Result<List<Text>, NoMemory>
    ensures { IfOk result (λ parts. parts ≡ path_components path.now) }
{
    let mut parts = List::new(alloc);
    for part in Path::new(path).components() {
        parts.push(Text::from_str(alloc, part.as_os_str())?)?;
    }
    Ok(parts)
}

fn is_root(part: &Text) -> bool
    ensures { result ≡ same_text part.now root_dir }
{
    part.as_str() == "/"
}

fn leads_up(part: &Text) -> bool
    ensures { result ≡ same_text part.now parent_dir }
{
    part.as_str() == ".."
}

/// Goes one level up: the last name of the path goes. The root stays, and so does each `..` that has no
/// name before it.
#[tactic(auto, unfolding(crate::specs::Paths::above))]
fn above(alloc: Global, parts: &mut List<Text>) -> Result<(), NoMemory>
    ensures { OnOk result (parts.new ≡ above parts.old) }
{
    let Some(last) = parts.vec.pop() else {
        parts.push(Text::from_str(alloc, "..")?)?;
        return Ok(());
    };
    if is_root(&last) {
        parts.push(last)?;
        return Ok(());
    }
    if leads_up(&last) {
        parts.push(last)?;
        parts.push(Text::from_str(alloc, "..")?)?;
        return Ok(());
    }
    Ok(())
}

/// Adds one component to a path.
#[tactic(auto, unfolding(crate::specs::Paths::further))]
fn further(alloc: Global, parts: &mut List<Text>, part: &str) -> Result<(), NoMemory>
    ensures { OnOk result (parts.new ≡ further parts.old part.now) }
{
    if part == "." {
        return Ok(());
    }
    if part == ".." {
        return above(alloc, parts);
    }
    parts.push(Text::from_str(alloc, part)?)
}

#[tactic(auto, unfolding(crate::specs::Paths::resolved))]
fn resolved(alloc: Global, path: &str) -> Result<List<Text>, NoMemory>
    ensures { IfOk result (λ parts. parts ≡ resolved (path_components path.now)) }
{
    let mut parts = List::new(alloc);
    for part in Path::new(path).components() {
        further(alloc, &mut parts, part.as_os_str())?;
    }
    Ok(parts)
}

/// The components of the folder that an entry names, from the workspace's root and without `.` and `..`.
pub fn folder_named(alloc: Global, root: &str, path: &str) -> Result<List<Text>, NoMemory>
    ensures { IfOk result (λ parts. parts ≡ folder_named root.now path.now) }
{
    let whole = joined(alloc, root, path)?;
    resolved(alloc, whole.as_str())
}
