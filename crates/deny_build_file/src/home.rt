//! Paths as they are shown: below cargo's home, below the folder of a crate, or as they are.
ghost use Rattle.std.specs.Prelude.{◌≡◌, ◌≤◌, ◌++◌, true, codes, drop, length, map};
ghost use Rattle.std.specs.Prelude.{option_map, option_copied, IfOk, IfSome, Some};
ghost use Rattle.std.specs.List.{join_by};
ghost use Rattle.deny_spec.specs.Paths.{is_component, parts};
ghost use Rattle.deny_base_disk.specs.Children.{text_behind};
ghost use Rattle.deny_build_file.specs.Home.{below_home, home_path, is_absolute};
ghost use Rattle.deny_build_file.specs.Home.{parts_behind, rest_below, same_name, same_start};
ghost use Rattle.deny_build_file.specs.private.Home.{begins_plainly, parts_after, parts_below, parts_past};

use crate::parts::split_parts;
use deny_base_disk::path_behind;
use deny_base_lists::{NoMemory, Text};
use std::alloc::Global;

/// The path as it is shown: `$CARGO_HOME/` and the rest below `home`, or else `$crate/` and the
/// rest below `root`, or else the path itself. Paths are compared by their components: empty parts
/// and `.` are skipped, `..` is a component, and an absolute path lies only in an absolute folder.
/// The rest is the text as it is written, from the component that follows to the end.
#[tactic(auto, unfolding(crate::specs::Home::home_path))]
pub fn home_path(
    alloc: Global,
    path: &str,
    root: &str,
    home: Option<&str>,
) -> Result<Text, NoMemory>
    ensures { IfOk result (λ shown. shown ≡ home_path path.now root.now (option_copied home.entry)) }
{
    if let Some(shown) = shown_in_home(alloc, path, home)? {
        return Ok(shown);
    }
    match shown_below(alloc, "$crate/", root, path)? {
        Some(shown) => Ok(shown),
        None => Text::from_str(alloc, path),
    }
}

fn shown_in_home(alloc: Global, path: &str, home: Option<&str>) -> Result<Option<Text>, NoMemory>
    ensures { IfOk result (λ shown. shown
        ≡ option_map (λ rest. codes "$CARGO_HOME/" ++ rest) (below_home path.now (option_copied home.entry))) }
{
    match home {
        Some(home) => shown_below(alloc, "$CARGO_HOME/", home, path),
        None => Ok(None),
    }
}

// The prefix and the rest of a path below a folder, where the path lies in the folder.
fn shown_below(
    alloc: Global,
    prefix: &str,
    folder: &str,
    path: &str,
) -> Result<Option<Text>, NoMemory>
    ensures { IfOk result (λ shown. shown ≡ option_map (λ rest. prefix.now ++ rest) (rest_below folder.now path.now)) }
{
    if let Some(rest) = written_below(folder, path) {
        let shown = joined(alloc, prefix, rest)?;
        return Ok(Some(shown));
    }
    match rest_below(alloc, folder, path)? {
        Some(rest) => {
            let shown = joined(alloc, prefix, rest.as_str())?;
            Ok(Some(shown))
        }
        None => Ok(None),
    }
}

// The rest of a path that is written as the folder, a slash and a component: such a path, as most
// are, is not split into parts.
fn written_below<'p>(folder: &str, path: &'p str) -> Option<&'p str>
    ensures { IfSome result (λ rest. rest_below folder.now path.now ≡ Some rest.now) }
{
    match path_behind(folder, path) {
        Some(slashed) if !folder.is_empty() => component_behind(slashed),
        Some(_) | None => None,
    }
}

// The text after a slash, where it begins with a component by its first byte.
fn component_behind(slashed: &str) -> Option<&str>
    ensures behind { IfSome result (λ rest. Some rest.now ≡ text_behind (codes "/") slashed.now) }
    ensures component { IfSome result (λ rest. begins_plainly rest.now ≡ true) }
{
    match path_behind("/", slashed) {
        Some(rest) if begins_plainly(rest) => Some(rest),
        Some(_) | None => None,
    }
}

// Whether a text begins with a component, by its first byte.
fn begins_plainly(rest: &str) -> bool
    ensures { result ≡ begins_plainly rest.now }
{
    match rest.as_bytes() {
        [byte, ..] => !(*byte == b'/' || *byte == b'.'),
        [] => false,
    }
}

// The rest of a path below a folder, where the path lies in the folder.
fn rest_below(alloc: Global, folder: &str, path: &str) -> Result<Option<Text>, NoMemory>
    ensures { IfOk result (λ rest. rest ≡ rest_below folder.now path.now) }
{
    if !same_start(folder, path) {
        return Ok(None);
    }
    let names = split_parts(alloc, folder, '/')?;
    let own = split_parts(alloc, path, '/')?;
    match parts_below(names.as_slice(), own.as_slice()) {
        Some(rest) => {
            let text = text_of(alloc, rest)?;
            Ok(Some(text))
        }
        None => Ok(None),
    }
}

fn same_start(folder: &str, path: &str) -> bool
    ensures { result ≡ same_start (is_absolute folder.now) (is_absolute path.now) }
{
    if folder.as_bytes().starts_with(b"/") {
        path.as_bytes().starts_with(b"/")
    } else {
        !path.as_bytes().starts_with(b"/")
    }
}

fn is_component(part: &str) -> bool
    ensures { result ≡ is_component part.now }
{
    !(part == "" || part == ".")
}

// The parts of a path from the component on that follows those of a folder, where the path begins
// with them.
fn parts_below<'o, 'p>(names: &[&str], own: &'o [&'p str]) -> Option<&'o [&'p str]>
    ensures { option_map (λ rest. map (λ part. part.now) rest.now) result
        ≡ parts_below (map (λ name. name.now) names.now) (map (λ part. part.now) own.now) }
{
    let mut index = 0;
    for name in names {
        index = skip_part(name, own, index)?;
    }
    let start = next_component(own, index);
    Some(&own[start..])
}

// The index after a part of a folder: after the first component from an index on, if that is this
// name, and the index itself where the folder's part is no component.
fn skip_part(name: &str, own: &[&str], index: usize) -> Option<usize>
    requires { index ≤ length own.now }
    ensures within { IfSome result (λ next. next ≤ length own.now) }
    ensures past { option_map (λ next. map (λ part. part.now) (drop next own.now)) result
        ≡ parts_past name.now (map (λ part. part.now) (drop index own.now)) }
{
    if is_component(name) {
        skip_name(name, own, next_component(own, index))
    } else {
        Some(index)
    }
}

// The index after the part at an index, if that part is this name.
fn skip_name(name: &str, own: &[&str], index: usize) -> Option<usize>
    requires { index ≤ length own.now }
    ensures within { IfSome result (λ next. next ≤ length own.now) }
    ensures after { option_map (λ next. map (λ part. part.now) (drop next own.now)) result
        ≡ parts_after name.now (map (λ part. part.now) (drop index own.now)) }
{
    if index < own.len() && is_same(name, own[index]) {
        Some(index + 1)
    } else {
        None
    }
}

fn is_same(name: &str, part: &str) -> bool
    ensures { result ≡ same_name name.now part.now }
{
    name == part
}

// The index of the first component from an index on, or else the end.
fn next_component(own: &[&str], index: usize) -> usize
    requires { index ≤ length own.now }
    ensures within { result ≤ length own.now }
    ensures from { map (λ part. part.now) (drop result own.now)
        ≡ parts_behind 0 (map (λ part. part.now) (drop index own.now)) }
{
    for start in index..own.len() {
        if is_component(own[start]) {
            return start;
        }
    }
    own.len()
}

fn text_of(alloc: Global, parts: &[&str]) -> Result<Text, NoMemory>
    ensures { IfOk result (λ text.
        text ≡ join_by (λ part. part) (codes "/") (map (λ part. part.now) parts.now)) }
{
    let text = parts.join(alloc, "/")?;
    Ok(Text::from_string(text))
}

fn joined(alloc: Global, prefix: &str, rest: &str) -> Result<Text, NoMemory>
    ensures { IfOk result (λ text. text ≡ prefix.now ++ rest.now) }
{
    let length = prefix.len().saturating_add(rest.len());
    let mut text = Text::from_string(String::with_capacity(alloc, length)?);
    text.push_str(prefix)?;
    text.push_str(rest)?;
    Ok(text)
}
