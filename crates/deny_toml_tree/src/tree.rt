//! The tree of a document: the value of its headers and assignments.
ghost use Rattle.std.specs.Prelude.{◌≡◌, ◌∷◌, ◌++◌, [], IfOk, OnOk, List, ℕ, ◌≤◌};
ghost use Rattle.deny_base.specs.declared.span.Span.{Span};
ghost use Rattle.deny_toml_grammar.specs.declared.expression.TomlExpression.{TomlExpression};
ghost use Rattle.deny_toml_tree.specs.Tree as spec;
ghost use Rattle.deny_toml_tree.specs.declared.lines.Line.{Line};
ghost use Rattle.deny_toml_tree.specs.TreeOrder.{IsOrderly};
ghost use Rattle.deny_toml_tree.specs.private.Gathered.{lines_with};

use crate::lines::{Line, PathEnd, TableMember};
use crate::tables::table_of_lines;
use crate::value::{Content, Value};
use crate::values::member_of;
use deny_base::Span;
use deny_base_lists::{List, NoMemory};
use deny_toml_grammar::{Assignment, Header, TomlExpression};
use std::alloc::Global;
use std::mem;

/// The names of each table of a tree ascend, at any depth, so that a look-up by name finds the only
/// entry.
fn names_of_trees_ascend()
    ensures { (span : Span) (es : List TomlExpression) → IsOrderly (spec.tree span es) }
{}

/// The depth by which a table is defined drops nothing: with a larger one the table is equal.
pub(crate) fn depth_of_trees_suffices()
    ensures { (n : ℕ) (lines : List Line) → spec.depth lines ≤ n → spec.table n lines ≡ spec.table_of lines }
{}

/// The value of headers and assignments, in a text with this span.
pub fn tree_of<'t>(
    alloc: Global,
    span: Span,
    expressions: List<TomlExpression<'t>>,
) -> Result<Value<'t>, NoMemory>
    ensures exact { IfOk result (λ value. value ≡ spec.tree span expressions.entry) }
    ensures ordered { IfOk result IsOrderly }
{
    names_of_trees_ascend();
    root(alloc, span, expressions)
}

/// The value of a document, which is a table.
fn root<'t>(
    alloc: Global,
    span: Span,
    expressions: List<TomlExpression<'t>>,
) -> Result<Value<'t>, NoMemory>
    ensures { IfOk result (λ value. value ≡ spec.tree span expressions.entry) }
{
    let table = table_of_lines(alloc, lines(alloc, span, expressions)?)?;
    Ok(Value {
        span,
        content: Content::Table(table),
    })
}

/// A line for the keys before the first header, and one for each header.
fn lines<'t>(
    alloc: Global,
    span: Span,
    expressions: List<TomlExpression<'t>>,
) -> Result<List<Line<'t>>, NoMemory>
    ensures { IfOk result (λ found. found ≡ spec.lines span expressions.entry) }
{
    let mut found = List::new(alloc);
    let mut header = Header {
        path: List::new(alloc),
        is_array: false,
    };
    let mut members = List::new(alloc);
    add_expressions(
        alloc,
        span,
        expressions,
        &mut found,
        &mut header,
        &mut members,
    )?;
    found.push(header_line(span, header, members))?;
    Ok(found)
}

/// Adds the lines of expressions to those found before, and to the header that continues.
fn add_expressions<'t>(
    alloc: Global,
    span: Span,
    expressions: List<TomlExpression<'t>>,
    found: &mut List<Line<'t>>,
    header: &mut Header<'t>,
    members: &mut List<TableMember<'t>>,
) -> Result<(), NoMemory>
    ensures { OnOk result (lines_with span found.old header.old members.old expressions.entry
        ≡ found.new ++ spec.header_line span header.new members.new ∷ []) }
{
    'expressions: for expression in expressions.vec {
        add_expression(alloc, span, expression, found, header, members)?;
    }
    Ok(())
}

fn add_expression<'t>(
    alloc: Global,
    span: Span,
    expression: TomlExpression<'t>,
    found: &mut List<Line<'t>>,
    header: &mut Header<'t>,
    members: &mut List<TableMember<'t>>,
) -> Result<(), NoMemory>
    ensures { OnOk result ((rest : List TomlExpression) → lines_with span found.old header.old members.old
        (expression.entry ∷ rest) ≡ lines_with span found.new header.new members.new rest) }
{
    match expression {
        TomlExpression::Assignment(assignment) => add_member(alloc, assignment, members),
        TomlExpression::Header(begun) => add_header(alloc, span, begun, found, header, members),
    }
}

fn add_member<'t>(
    alloc: Global,
    assignment: Assignment<'t>,
    members: &mut List<TableMember<'t>>,
) -> Result<(), NoMemory>
    ensures { OnOk result (members.new ≡ members.old ++ spec.written_member assignment.entry ∷ []) }
{
    members.push(member_of(alloc, assignment)?)
}

/// Begins a header, and adds the line of the one before.
fn add_header<'t>(
    alloc: Global,
    span: Span,
    begun: Header<'t>,
    found: &mut List<Line<'t>>,
    header: &mut Header<'t>,
    members: &mut List<TableMember<'t>>,
) -> Result<(), NoMemory>
    ensures found { OnOk result (found.new ≡ found.old ++ spec.header_line span header.old members.old ∷ []) }
    ensures header { header.new ≡ begun.entry }
    ensures members { members.new ≡ [] }
{
    let ended = mem::replace(header, begun);
    let below = mem::replace(members, List::new(alloc));
    found.push(header_line(span, ended, below))
}

fn header_line<'t>(span: Span, header: Header<'t>, members: List<TableMember<'t>>) -> Line<'t>
    ensures { result ≡ spec.header_line span header.entry members.entry }
{
    let path_end = if header.is_array {
        PathEnd::Element(members)
    } else {
        PathEnd::Table(members)
    };
    Line {
        at: span,
        path: header.path,
        path_end,
    }
}
