//! The parts that expressions and trees have in common.
use crate::cow_str::CowStr;
use deny_base::Span;

/// A key, or a part of a dotted one.
#[derive(Drop)]
pub struct Key<'t> {
    pub name: CowStr<'t>,
    /// The span of the part, without quotes.
    pub span: Span,
}

/// A value that contains no other values.
#[derive(Drop)]
pub enum Scalar<'t> {
    /// A string on one line.
    Text(CowStr<'t>),
    /// A string between three delimiters, which may span several lines.
    Multiline(CowStr<'t>),
    Integer(i64),
    /// A float, as it is written.
    Float(CowStr<'t>),
    Boolean(bool),
    /// A date, a time or both, as written.
    Date(CowStr<'t>),
}
