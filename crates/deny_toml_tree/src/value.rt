//! Values and their spans.
use deny_base::Span;
use deny_base_lists::List;
use deny_toml_grammar::{Key, Scalar};

/// A value and its span.
#[cycle(value)]
#[derive(Drop)]
pub struct Value<'t> {
    pub span: Span,
    pub content: Content<'t>,
}

/// The content of a value.
#[cycle(value)]
#[derive(Drop)]
pub enum Content<'t> {
    Scalar(Scalar<'t>),
    Array(List<Value<'t>>),
    Table(Table<'t>),
}

/// A table: its keys, each once, in byte order of their names, with their values.
#[cycle(value)]
#[derive(Drop)]
pub struct Table<'t> {
    pub entries: List<(Key<'t>, Value<'t>)>,
}
