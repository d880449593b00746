//! The spans of texts in the bytes of a table.

ghost use Rattle.std.specs.Prelude.{◌≡◌, ◌+◌, ◌≤◌, length};
ghost use Rattle.deny_std_table.specs.Spans.{contents};
ghost use Rattle.deny_std_table.specs.private.Spans.{IsTextIn};

use std::str;

/// The span of a text: the offset of its first byte, and its length.
#[derive(Clone, Copy)]
pub(crate) struct TextSpan {
    pub at: usize,
    pub size: usize,
}

#[derive(Clone, Copy)]
pub(crate) struct ApiSpans {
    pub name: TextSpan,
    pub url: TextSpan,
}

#[derive(Clone, Copy)]
pub(crate) struct ReplacementSpans {
    pub krate: ApiSpans,
    pub std: ApiSpans,
    pub note: Option<TextSpan>,
}

/// An item of an entry, by the spans of its texts.
#[derive(Clone, Copy)]
pub(crate) enum ItemSpans {
    Stable {
        replacement: ReplacementSpans,
        minor: u8,
    },
    Unstable {
        replacement: ReplacementSpans,
    },
    Unavailable {
        api: ApiSpans,
    },
}

/// The numbers at the head of an entry's items.
#[derive(Clone, Copy)]
pub(crate) struct Counts {
    pub groups: u8,
    pub unstable: u8,
    pub unavailable: u8,
}

/// The head of a group: its minor version, and the number of replacements that are stable since
/// then.
#[derive(Clone, Copy)]
pub(crate) struct GroupHead {
    pub minor: u8,
    pub count: u8,
}

/// A value that was read, and the offset right after it.
#[derive(Clone, Copy)]
pub(crate) struct Read<T> {
    pub value: T,
    pub next: usize,
}

/// The bytes of a span.
pub(crate) fn slice_at(bytes: &[u8], span: TextSpan) -> &[u8]
    requires { span.at + span.size ≤ length bytes.now }
    ensures { result.now ≡ contents bytes.now span }
{
    &bytes[span.at..span.at + span.size]
}

/// The text of a span.
pub(crate) fn borrow_text(bytes: &[u8], span: TextSpan) -> &str
    requires { IsTextIn bytes.now span }
    ensures { result.now ≡ contents bytes.now span }
{
    str::from_utf8(slice_at(bytes, span)).unwrap()
}
