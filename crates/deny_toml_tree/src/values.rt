//! Written values, with the tables and arrays in them.
ghost use Rattle.std.specs.Prelude.{◌≡◌, IfOk, map};
ghost use Rattle.deny_toml_tree.specs.Tree as spec;

use crate::lines::{Line, PathEnd, TableMember};
use crate::tables::table_of_lines;
use crate::value::{Content, Table, Value};
use deny_base::Span;
use deny_base_lists::{List, NoMemory};
use deny_toml_grammar::{Assignment, Written, WrittenContent};
use std::alloc::Global;

/// A written value with its parts.
#[cycle(values)]
fn value_of<'t>(alloc: Global, written: Written<'t>) -> Result<Value<'t>, NoMemory>
    ensures { IfOk result (λ value. value ≡ spec.written_value written.entry) }
{
    let span = written.span;
    let content = content_of(alloc, span, written.content)?;
    Ok(Value { span, content })
}

#[cycle(values)]
fn content_of<'t>(
    alloc: Global,
    span: Span,
    written: WrittenContent<'t>,
) -> Result<Content<'t>, NoMemory>
    ensures { IfOk result (λ content. content ≡ spec.written_in span written.entry) }
{
    match written {
        WrittenContent::Scalar(scalar) => Ok(Content::Scalar(scalar)),
        WrittenContent::Array(elements) => Ok(Content::Array(values_of(alloc, elements)?)),
        WrittenContent::InlineTable(assignments) => {
            let members = members_of(alloc, assignments)?;
            Ok(Content::Table(inline_table(alloc, span, members)?))
        }
    }
}

#[cycle(values)]
fn values_of<'t>(alloc: Global, written: List<Written<'t>>) -> Result<List<Value<'t>>, NoMemory>
    ensures { IfOk result (λ values. values ≡ map spec.written_value written.entry) }
{
    let mut values = List::new(alloc);
    'written: for element in written.vec {
        values.push(value_of(alloc, element)?)?;
    }
    Ok(values)
}

#[cycle(values)]
fn members_of<'t>(
    alloc: Global,
    assignments: List<Assignment<'t>>,
) -> Result<List<TableMember<'t>>, NoMemory>
    ensures { IfOk result (λ members. members ≡ map spec.written_member assignments.entry) }
{
    let mut members = List::new(alloc);
    'assignments: for assignment in assignments.vec {
        members.push(member_of(alloc, assignment)?)?;
    }
    Ok(members)
}

#[cycle(values)]
pub(crate) fn member_of<'t>(
    alloc: Global,
    assignment: Assignment<'t>,
) -> Result<TableMember<'t>, NoMemory>
    ensures { IfOk result (λ member. member ≡ spec.written_member assignment.entry) }
{
    let path = assignment.path;
    let value = value_of(alloc, assignment.value)?;
    Ok(TableMember { path, value })
}

fn inline_table<'t>(
    alloc: Global,
    span: Span,
    members: List<TableMember<'t>>,
) -> Result<Table<'t>, NoMemory>
    ensures { IfOk result (λ table. table ≡ spec.table_of_members span members.entry) }
{
    let mut lines = List::new(alloc);
    lines.push(Line {
        at: span,
        path: List::new(alloc),
        path_end: PathEnd::Table(members),
    })?;
    table_of_lines(alloc, lines)
}
