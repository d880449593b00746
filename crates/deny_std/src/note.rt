//! The note of a crate that the standard library replaces.
ghost use Rattle.std.specs.Prelude.{◌≡◌, ◌++◌, IfOk, OnOk, encode_utf8_all, map, option_copied};
ghost use Rattle.std.specs.Prelude.{string_bytes};
ghost use Rattle.std.specs.Str.{chars};
ghost use Rattle.deny_spec_report.specs.StdReplacements.{code_name, remark, replacement_note};
ghost use Rattle.deny_spec_report.specs.StdReplacements.{unavailable_line};
ghost use Rattle.deny_std_table.specs.Texts.{api_given, item_given, replacement_given};
ghost use Rattle.deny_std.specs.private.Note.{code_letter, heading_line, heading_of, item_lines};
ghost use Rattle.deny_std.specs.private.Note.{link_line, new_heading, replaced_lines, same_heading};
ghost use Rattle.deny_std.specs.private.Said.{said_of};

use deny_base_lists::{NoMemory, Text};
use deny_std_table::{Api, ApiReplacement, Replacement, ReplacementItem};
use std::alloc::{AllocError, Global};

/// The heading above items of a note.
#[derive(Clone, Copy)]
pub enum Heading {
    /// The items are stable since this minor version of Rust.
    Version(u8),
    Unstable,
    Unavailable,
}

/// The note of what a table says of the crate of a name, line by line.
pub fn replacement_note(
    alloc: Global,
    name: &str,
    replacement: &Replacement<'_>,
) -> Result<Text, NoMemory>
    ensures { IfOk result (λ note. note ≡ replacement_note name.now (said_of replacement.now)) }
{
    let code_name = code_name(alloc, name)?;
    let code = code_name.as_str();
    let mut note = Text::from_str(alloc, "## Stable\n")?;
    let mut last = Heading::Version(0);
    let mut items = replacement.iter();
    while let Some(item) = items.next() {
        let heading = heading_of(&item);
        add_new_heading(alloc, &mut note, heading, last)?;
        add_item(alloc, &mut note, name, code, &item)?;
        last = heading;
    }
    Ok(note)
}

/// A name with `_` for `-`.
#[tactic(auto, unfolding(deny_spec_report::specs::StdReplacements::code_name))]
fn code_name(alloc: Global, name: &str) -> Result<Text, NoMemory>
    ensures { IfOk result (λ code. code ≡ code_name name.now) }
{
    Ok(Text::from_string(code_letters(alloc, name)?))
}

fn code_letters(alloc: Global, name: &str) -> Result<String, AllocError>
    ensures { IfOk result (λ code. string_bytes code ≡ encode_utf8_all (map code_letter
        (chars name.now))) }
{
    name.chars()
        .map(|letter| if letter == '-' { '_' } else { letter })
        .collect(alloc)
}

fn heading_of(item: &ReplacementItem<'_>) -> Heading
    ensures { result ≡ heading_of (item_given item.now) }
{
    match item {
        ReplacementItem::Stable { minor, .. } => Heading::Version(*minor),
        ReplacementItem::Unstable { .. } => Heading::Unstable,
        ReplacementItem::Unavailable { .. } => Heading::Unavailable,
    }
}

fn same_heading(heading: Heading, last: Heading) -> bool
    ensures { result ≡ same_heading heading last }
{
    match (heading, last) {
        (Heading::Version(minor), Heading::Version(other)) => minor == other,
        (Heading::Unstable, Heading::Unstable) => true,
        (Heading::Unavailable, Heading::Unavailable) => true,
        _ => false,
    }
}

/// Appends a heading where it differs from the last one.
fn add_new_heading(
    alloc: Global,
    note: &mut Text,
    heading: Heading,
    last: Heading,
) -> Result<(), NoMemory>
    ensures { OnOk result (note.new ≡ note.old ++ new_heading heading last) }
{
    if same_heading(heading, last) {
        return Ok(());
    }
    add_heading(alloc, note, heading)
}

fn add_heading(alloc: Global, note: &mut Text, heading: Heading) -> Result<(), NoMemory>
    ensures { OnOk result (note.new ≡ note.old ++ heading_line heading) }
{
    match heading {
        Heading::Version(minor) => note.push_str(format!(in alloc; "### 1.{minor}.0\n")?.as_str()),
        Heading::Unstable => note.push_str("## Unstable\n"),
        Heading::Unavailable => note.push_str("## Unavailable\n"),
    }
}

fn add_item(
    alloc: Global,
    note: &mut Text,
    name: &str,
    code: &str,
    item: &ReplacementItem<'_>,
) -> Result<(), NoMemory>
    ensures { OnOk result (note.new ≡ note.old ++ item_lines name.now code.now
        (item_given item.now)) }
{
    match item {
        ReplacementItem::Stable { replacement, .. } | ReplacementItem::Unstable { replacement } => {
            add_replacement(alloc, note, code, replacement)
        }
        ReplacementItem::Unavailable { api } => add_unavailable(alloc, note, name, api),
    }
}

/// Appends the lines of a replacement: the crate's API crossed out for that of the standard
/// library.
fn add_replacement(
    alloc: Global,
    note: &mut Text,
    code: &str,
    replacement: &ApiReplacement<'_>,
) -> Result<(), NoMemory>
    ensures { OnOk result (note.new ≡ note.old ++ replaced_lines code.now
        (replacement_given replacement.now)) }
{
    note.push_str("```diff\n")?;
    add_link(alloc, note, "- [", code, "::", &replacement.krate)?;
    add_link(alloc, note, "+ [", "", "", &replacement.std)?;
    note.push_str("```\n\n")?;
    add_remark(alloc, note, replacement.note)
}

fn add_link(
    alloc: Global,
    note: &mut Text,
    sign: &str,
    code: &str,
    divider: &str,
    api: &Api<'_>,
) -> Result<(), NoMemory>
    ensures { OnOk result (note.new ≡ note.old ++ link_line sign.now code.now divider.now
        (api_given api.now)) }
{
    let name = api.name;
    let url = api.url;
    let link = format!(in alloc; "{sign}{code}{divider}{name}]({url})\n")?;
    note.push_str(link.as_str())
}

fn add_remark(alloc: Global, note: &mut Text, text: Option<&str>) -> Result<(), NoMemory>
    ensures { OnOk result (note.new ≡ note.old ++ remark (option_copied text.entry)) }
{
    match text {
        Some(text) => note.push_str(format!(in alloc; "  {text}\n\n")?.as_str()),
        None => Ok(()),
    }
}

/// Appends the line of an API that the standard library does not have.
fn add_unavailable(
    alloc: Global,
    note: &mut Text,
    name: &str,
    api: &Api<'_>,
) -> Result<(), NoMemory>
    ensures { OnOk result (note.new ≡ note.old ++ unavailable_line name.now (api_given api.now)) }
{
    let path = api.name;
    let url = api.url;
    note.push_str(format!(in alloc; "  - {name}::{path} - {url}\n")?.as_str())
}
