//! The items of an entry, as they are returned.

ghost use Rattle.std.specs.Prelude.{◌≡◌, option_map, option_copied, Some};
ghost use Rattle.deny_std_table.specs.declared.spans.TextSpan.{TextSpan};
ghost use Rattle.deny_std_table.specs.Spans.{contents};
ghost use Rattle.deny_std_table.specs.private.Spans.{IsTextIn, IsApiIn, IsReplacementIn, IsItemIn};
ghost use Rattle.deny_std_table.specs.Item.{IsApiAt, IsReplacementAt, IsItemAt};

use crate::spans::{ApiSpans, ItemSpans, ReplacementSpans, TextSpan, borrow_text};

/// An API.
#[derive(Clone, Copy)]
pub struct Api<'d> {
    /// Its path.
    pub name: &'d str,
    /// The address of its documentation.
    pub url: &'d str,
}

/// An API of a crate that has a replacement in the standard library.
#[derive(Clone, Copy)]
pub struct ApiReplacement<'d> {
    /// The API of the crate.
    pub krate: Api<'d>,
    /// The API of the standard library.
    pub std: Api<'d>,
    /// How the two differ, if there is a note.
    pub note: Option<&'d str>,
}

/// An item: an API of the crate, and whether the standard library replaces it.
#[derive(Clone, Copy)]
pub enum ReplacementItem<'d> {
    /// It has a replacement, which is stable since the minor version of Rust 1.
    Stable {
        replacement: ApiReplacement<'d>,
        minor: u8,
    },
    /// It has a replacement that is not stable.
    Unstable {
        replacement: ApiReplacement<'d>,
    },
    /// It has none.
    Unavailable {
        api: Api<'d>,
    },
}

fn borrow_api(bytes: &[u8], spans: ApiSpans) -> Api
    requires { IsApiIn bytes.now spans }
    ensures { IsApiAt bytes.now spans result }
{
    Api {
        name: borrow_text(bytes, spans.name),
        url: borrow_text(bytes, spans.url),
    }
}

fn borrow_note(bytes: &[u8], span: Option<TextSpan>) -> Option<&str>
    requires { (t : TextSpan) → span ≡ Some t → IsTextIn bytes.now t }
    ensures { option_copied result ≡ option_map (contents bytes.now) span }
{
    match span {
        None => None,
        Some(span) => Some(borrow_text(bytes, span)),
    }
}

fn borrow_replacement(bytes: &[u8], spans: ReplacementSpans) -> ApiReplacement
    requires { IsReplacementIn bytes.now spans }
    ensures { IsReplacementAt bytes.now spans result }
{
    ApiReplacement {
        krate: borrow_api(bytes, spans.krate),
        std: borrow_api(bytes, spans.std),
        note: borrow_note(bytes, spans.note),
    }
}

/// An item with the texts of its spans.
pub(crate) fn item_at(bytes: &[u8], spans: ItemSpans) -> ReplacementItem
    requires { IsItemIn bytes.now spans }
    ensures { IsItemAt bytes.now spans result }
{
    match spans {
        ItemSpans::Stable { replacement, minor } => ReplacementItem::Stable {
            replacement: borrow_replacement(bytes, replacement),
            minor,
        },
        ItemSpans::Unstable { replacement } => ReplacementItem::Unstable {
            replacement: borrow_replacement(bytes, replacement),
        },
        ItemSpans::Unavailable { api } => ReplacementItem::Unavailable {
            api: borrow_api(bytes, api),
        },
    }
}
