//! Tables, from the lines that lead into them.
ghost use Rattle.std.specs.Prelude.{◌≡◌, ◌∷◌, ◌++◌, [], IfOk, OnOk, map};
ghost use Rattle.deny_toml_tree.specs.Tree as spec;

use crate::lines::{Line, assigned, depth, elements, groups_of_lines, slot_span, starts_array};
use crate::value::{Content, Table, Value};
use deny_base_lists::{List, NoMemory};
use deny_toml_grammar::{CowStr, Key};
use std::alloc::Global;

#[tactic(auto, unfolding(crate::specs::Tree::table_of))]
pub(crate) fn table_of_lines<'t>(
    alloc: Global,
    lines: List<Line<'t>>,
) -> Result<Table<'t>, NoMemory>
    ensures { IfOk result (λ table. table ≡ spec.table_of lines.entry) }
{
    let depth = depth(lines.as_slice());
    table(alloc, depth, lines)
}

/// The table that lines lead into, each of which has at most `depth` parts left.
#[cycle(tables)]
fn table<'t>(alloc: Global, depth: u128, lines: List<Line<'t>>) -> Result<Table<'t>, NoMemory>
    ensures { IfOk result (λ table. table ≡ spec.table depth lines.entry) }
{
    if depth == 0 {
        return Ok(Table {
            entries: List::new(alloc),
        });
    }
    let mut entries = List::new(alloc);
    'groups: for (name, lines) in groups_of_lines(alloc, lines)? {
        add_entry(alloc, depth - 1, name, lines, &mut entries)?;
    }
    Ok(Table { entries })
}

#[cycle(tables)]
fn add_entry<'t>(
    alloc: Global,
    depth: u128,
    name: CowStr<'t>,
    lines: List<Line<'t>>,
    entries: &mut List<(Key<'t>, Value<'t>)>,
) -> Result<(), NoMemory>
    ensures { OnOk result (entries.new ≡ entries.old
        ++ spec.entry_of (spec.table depth) (name.entry, lines.entry) ∷ []) }
{
    let span = slot_span(lines.as_slice());
    let value = value_of_lines(alloc, depth, lines)?;
    entries.push((Key { name, span }, value))
}

/// The value at a slot, by the first line that leads there.
#[cycle(tables)]
fn value_of_lines<'t>(
    alloc: Global,
    depth: u128,
    lines: List<Line<'t>>,
) -> Result<Value<'t>, NoMemory>
    ensures { IfOk result (λ value. value ≡ spec.value_of_lines (spec.table depth) lines.entry) }
{
    let mut lines = lines;
    if let Some(value) = assigned(&mut lines) {
        return Ok(value);
    }
    if starts_array(lines.as_slice()) {
        array_value(alloc, depth, lines)
    } else {
        table_value(alloc, depth, lines)
    }
}

#[cycle(tables)]
fn array_value<'t>(alloc: Global, depth: u128, lines: List<Line<'t>>) -> Result<Value<'t>, NoMemory>
    ensures { IfOk result (λ value. value ≡ spec.array_value (spec.table depth) lines.entry) }
{
    let span = slot_span(lines.as_slice());
    let values = array(alloc, depth, elements(alloc, lines)?)?;
    Ok(Value {
        span,
        content: Content::Array(values),
    })
}

#[cycle(tables)]
fn array<'t>(
    alloc: Global,
    depth: u128,
    elements: List<List<Line<'t>>>,
) -> Result<List<Value<'t>>, NoMemory>
    ensures { IfOk result (λ values. values ≡ map (spec.table_value (spec.table depth)) elements.entry) }
{
    let mut values = List::new(alloc);
    'elements: for lines in elements.vec {
        values.push(table_value(alloc, depth, lines)?)?;
    }
    Ok(values)
}

#[cycle(tables)]
fn table_value<'t>(alloc: Global, depth: u128, lines: List<Line<'t>>) -> Result<Value<'t>, NoMemory>
    ensures { IfOk result (λ value. value ≡ spec.table_value (spec.table depth) lines.entry) }
{
    let span = slot_span(lines.as_slice());
    let table = table(alloc, depth, lines)?;
    Ok(Value {
        span,
        content: Content::Table(table),
    })
}
