use crate::parts::{Key, Scalar};
use deny_base::Span;
use deny_base_lists::List;

/// A value as it is written: the dotted keys of its inline tables are kept as they are.
#[cycle(written)]
#[derive(Drop)]
pub struct Written<'t> {
    pub span: Span,
    pub content: WrittenContent<'t>,
}

/// The content of a written value.
#[cycle(written)]
#[derive(Drop)]
pub enum WrittenContent<'t> {
    Scalar(Scalar<'t>),
    Array(List<Written<'t>>),
    InlineTable(List<Assignment<'t>>),
}

/// A dotted key and the value that is assigned to it. The path has at least one part.
#[cycle(written)]
#[derive(Drop)]
pub struct Assignment<'t> {
    pub path: List<Key<'t>>,
    pub value: Written<'t>,
}

/// A header `[path]`, or `[[path]]` where `is_array`. The path has at least one part.
#[derive(Drop)]
pub struct Header<'t> {
    pub path: List<Key<'t>>,
    pub is_array: bool,
}

/// A line of a document that is not blank: a header or an assignment.
#[derive(Drop)]
pub enum TomlExpression<'t> {
    Header(Header<'t>),
    Assignment(Assignment<'t>),
}
