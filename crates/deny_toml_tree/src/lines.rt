//! Lines: the headers and keys of a document as seen from a slot, and the steps that they lead along.
ghost use Rattle.std.specs.Prelude.{◌≡◌, ◌<◌, ◌^◌, ◌∷◌, ◌++◌, [], IfOk, OnOk, MatchOption};
ghost use Rattle.std.specs.Prelude.{is_some, None, List, ℕ};
ghost use Rattle.deny_toml_tree.specs.Tree as spec;
ghost use Rattle.deny_toml_tree.specs.private.Gathered.{elements_with, IsGrouped};

use crate::value::Value;
use deny_base::Span;
use deny_base_lists::{List, NoMemory};
use deny_toml_grammar::{CowStr, Key};
use std::alloc::Global;
use std::collections::BTreeMap;
use std::mem;

/// A key of a table, dotted or not, and its value.
#[derive(Drop)]
pub(crate) struct TableMember<'t> {
    pub path: List<Key<'t>>,
    pub value: Value<'t>,
}

/// The end of a line's path.
#[derive(Drop)]
pub(crate) enum PathEnd<'t> {
    /// The value of a key.
    Value(Value<'t>),
    /// The keys below a header `[path]`.
    Table(List<TableMember<'t>>),
    /// The keys below a header `[[path]]`.
    Element(List<TableMember<'t>>),
}

/// A key or a header, seen from a slot on its path.
#[derive(Drop)]
pub(crate) struct Line<'t> {
    /// The span of the part at the slot.
    pub at: Span,
    /// The parts after it.
    pub path: List<Key<'t>>,
    pub path_end: PathEnd<'t>,
}

/// The span of the part at a slot, in the first line that leads there.
pub(crate) fn slot_span(leading: &[Line<'_>]) -> Span
    ensures { result ≡ spec.slot_span leading.now }
{
    match leading.first() {
        Some(line) => line.at,
        None => Span { start: 0, end: 0 },
    }
}

/// Takes out the value that the first line assigns to the slot.
pub(crate) fn assigned<'t>(lines: &mut List<Line<'t>>) -> Option<Value<'t>>
    ensures value { result ≡ spec.assigned lines.old }
    ensures others { result ≡ None → lines.new ≡ lines.old }
{
    if !starts_value(lines.as_slice()) {
        return None;
    }
    let Line {
        at: _,
        path: _,
        path_end,
    } = lines.vec.remove(0);
    match path_end {
        PathEnd::Value(value) => Some(value),
        _ => None,
    }
}

fn starts_value(lines: &[Line<'_>]) -> bool
    ensures { result ≡ is_some (spec.assigned lines.now) }
{
    match lines.first() {
        Some(
            Line {
                path,
                path_end: PathEnd::Value(_),
                ..
            },
        ) => path.len() == 0,
        _ => false,
    }
}

pub(crate) fn starts_array(lines: &[Line<'_>]) -> bool
    ensures { result ≡ spec.starts_array lines.now }
{
    match lines.first() {
        Some(line) => is_element(line),
        None => false,
    }
}

/// Whether a line is a header `[[path]]` that ends at the slot.
fn is_element(line: &Line<'_>) -> bool
    ensures { result ≡ spec.is_element line.now }
{
    match line.path_end {
        PathEnd::Element(_) => line.path.len() == 0,
        _ => false,
    }
}

/// The header of an element as that of a table.
fn as_table(line: Line<'_>) -> Line<'_>
    ensures { result ≡ spec.as_table line.entry }
{
    let Line { at, path, path_end } = line;
    let path_end = match path_end {
        PathEnd::Element(members) => PathEnd::Table(members),
        other => other,
    };
    Line { at, path, path_end }
}

/// The largest number of parts that a line has left, with those of a key below its header.
#[tactic(auto, unfolding(crate::specs::Tree::depth))]
pub(crate) fn depth(lines: &[Line<'_>]) -> u128
    ensures value { result ≡ spec.depth lines.now }
    ensures small { result < 2 ^ 65 }
{
    let mut most = 0;
    for line in lines {
        most = most.max(line.path.len() as u128 + end_depth(&line.path_end) as u128);
    }
    most
}

fn end_depth(path_end: &PathEnd<'_>) -> usize
    ensures { result ≡ spec.end_depth path_end.now }
{
    match path_end {
        PathEnd::Value(_) => 0,
        PathEnd::Table(members) => longest(members.as_slice()),
        PathEnd::Element(members) => longest(members.as_slice()),
    }
}

#[tactic(auto, unfolding(crate::specs::Tree::longest))]
fn longest(members: &[TableMember<'_>]) -> usize
    ensures { result ≡ spec.longest members.now }
{
    let mut most = 0;
    for member in members {
        most = most.max(member.path.len());
    }
    most
}

pub(crate) fn groups_of_lines<'t>(
    alloc: Global,
    lines: List<Line<'t>>,
) -> Result<BTreeMap<CowStr<'t>, List<Line<'t>>>, NoMemory>
    ensures { IfOk result (λ found. found.entries ≡ spec.groups (spec.steps lines.entry)) }
{
    groups(alloc, steps(alloc, lines)?)
}

/// Each name, with the lines that lead through it.
fn groups<'t>(
    alloc: Global,
    steps: List<(CowStr<'t>, Line<'t>)>,
) -> Result<BTreeMap<CowStr<'t>, List<Line<'t>>>, NoMemory>
    ensures { IfOk result (λ found. found.entries ≡ spec.groups steps.entry) }
{
    let mut found = BTreeMap::new(alloc);
    'steps: for (name, line) in steps.vec {
        add_to_group(alloc, &mut found, name, line)?;
    }
    Ok(found)
}

fn add_to_group<'t>(
    alloc: Global,
    found: &mut BTreeMap<CowStr<'t>, List<Line<'t>>>,
    name: CowStr<'t>,
    line: Line<'t>,
) -> Result<(), NoMemory>
    ensures { OnOk result ((seen : List (List ℕ × Line)) → IsGrouped seen found.old.entries
        → IsGrouped (seen ++ (name.entry, line.entry) ∷ []) found.new.entries) }
{
    let mut lines = found.remove(&name).unwrap_or(List::new(alloc));
    lines.push(line)?;
    found.insert(name, lines)?;
    Ok(())
}

/// The lines seen from the table that they lead into: each with the name of its next part.
#[tactic(auto, unfolding(crate::specs::Tree::steps))]
fn steps<'t>(alloc: Global, lines: List<Line<'t>>) -> Result<List<(CowStr<'t>, Line<'t>)>, NoMemory>
    ensures { IfOk result (λ found. found ≡ spec.steps lines.entry) }
{
    let mut found = List::new(alloc);
    'lines: for line in lines.vec {
        add_steps(&mut found, line)?;
    }
    Ok(found)
}

fn add_steps<'t>(found: &mut List<(CowStr<'t>, Line<'t>)>, line: Line<'t>) -> Result<(), NoMemory>
    ensures { OnOk result (found.new ≡ found.old ++ spec.line_steps line.entry.path_end line.entry.path) }
{
    let Line {
        at: _,
        mut path,
        path_end,
    } = line;
    match take_first(&mut path) {
        Some(key) => found.push(step(key, path, path_end)),
        None => add_end_steps(found, path_end),
    }
}

fn add_end_steps<'t>(
    found: &mut List<(CowStr<'t>, Line<'t>)>,
    path_end: PathEnd<'t>,
) -> Result<(), NoMemory>
    ensures { OnOk result (found.new ≡ found.old ++ spec.end_steps path_end.entry) }
{
    match path_end {
        PathEnd::Table(members) => add_member_steps(found, members),
        _ => Ok(()),
    }
}

fn add_member_steps<'t>(
    found: &mut List<(CowStr<'t>, Line<'t>)>,
    members: List<TableMember<'t>>,
) -> Result<(), NoMemory>
    ensures { OnOk result (found.new ≡ found.old ++ spec.end_steps (PathEnd.Table members.entry)) }
{
    'members: for member in members.vec {
        add_member_step(found, member)?;
    }
    Ok(())
}

fn add_member_step<'t>(
    found: &mut List<(CowStr<'t>, Line<'t>)>,
    member: TableMember<'t>,
) -> Result<(), NoMemory>
    ensures { OnOk result (found.new ≡ found.old ++ spec.member_steps member.entry.value member.entry.path) }
{
    let mut path = member.path;
    match take_first(&mut path) {
        Some(key) => found.push(step(key, path, PathEnd::Value(member.value))),
        None => Ok(()),
    }
}

fn step<'t>(key: Key<'t>, path: List<Key<'t>>, path_end: PathEnd<'t>) -> (CowStr<'t>, Line<'t>)
    ensures { result ≡ spec.step key.entry path.entry path_end.entry }
{
    let line = Line {
        at: key.span,
        path,
        path_end,
    };
    (key.name, line)
}

fn take_first<'t>(path: &mut List<Key<'t>>) -> Option<Key<'t>>
    ensures { MatchOption result ((path.old ≡ []) × (path.new ≡ [])) (λ key. path.old ≡ key ∷ path.new) }
{
    if path.len() == 0 {
        None
    } else {
        Some(path.vec.remove(0))
    }
}

/// The lines of each table of an array: its header, as that of a table, and those up to the next.
pub(crate) fn elements<'t>(
    alloc: Global,
    lines: List<Line<'t>>,
) -> Result<List<List<Line<'t>>>, NoMemory>
    ensures { IfOk result (λ found. found ≡ spec.elements lines.entry) }
{
    let mut found = List::new(alloc);
    let mut table = List::new(alloc);
    add_element_lines(alloc, lines, &mut found, &mut table)?;
    found.push(table)?;
    // The lines before the first header belong to no table.
    found.vec.remove(0);
    Ok(found)
}

/// Adds lines to the tables found before, and to the one that continues.
fn add_element_lines<'t>(
    alloc: Global,
    lines: List<Line<'t>>,
    found: &mut List<List<Line<'t>>>,
    table: &mut List<Line<'t>>,
) -> Result<(), NoMemory>
    ensures { OnOk result (elements_with found.old table.old lines.entry ≡ found.new ++ table.new ∷ []) }
{
    'lines: for line in lines.vec {
        add_element_line(alloc, line, found, table)?;
    }
    Ok(())
}

fn add_element_line<'t>(
    alloc: Global,
    line: Line<'t>,
    found: &mut List<List<Line<'t>>>,
    table: &mut List<Line<'t>>,
) -> Result<(), NoMemory>
    ensures { OnOk result ((rest : List Line) → elements_with found.old table.old (line.entry ∷ rest)
        ≡ elements_with found.new table.new rest) }
{
    if is_element(&line) {
        begin_element(alloc, line, found, table)
    } else {
        table.push(line)
    }
}

/// Adds the table that continues to those found, and begins the next with its header.
fn begin_element<'t>(
    alloc: Global,
    line: Line<'t>,
    found: &mut List<List<Line<'t>>>,
    table: &mut List<Line<'t>>,
) -> Result<(), NoMemory>
    ensures { OnOk result ((found.new ≡ found.old ++ table.old ∷ []) × (table.new ≡ spec.as_table line.entry ∷ [])) }
{
    let begun = begun_element(alloc, line)?;
    found.push(mem::replace(table, begun))
}

/// The lines of a table of an array of which only the header was read.
fn begun_element<'t>(alloc: Global, header: Line<'t>) -> Result<List<Line<'t>>, NoMemory>
    ensures { IfOk result (λ lines. lines ≡ spec.as_table header.entry ∷ []) }
{
    let mut lines = List::new(alloc);
    lines.push(as_table(header))?;
    Ok(lines)
}
