use deny_base_lists::Text;

/// The byte offsets of a part of a text: from `start` to before `end`.
#[derive(Debug, Clone, Copy, PartialEq, Eq, PartialOrd, Ord)]
pub struct Span {
    pub start: u32,
    pub end: u32,
}

/// A value with the span of the text that it was read from.
#[derive(Drop)]
pub struct Spanned<T> {
    pub value: T,
    pub span: Span,
}

/// The id of a crate: the text by which cargo's metadata names a package.
#[derive(Clone, PartialEq, Eq, PartialOrd, Ord, Drop)]
pub struct Kid(pub Text);
