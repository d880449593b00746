//! The reader of whole texts.
ghost use Rattle.std.specs.Prelude.{◌≡◌, ◌^◌, ◌<◌, length, IfOk, IfErr};
ghost use Rattle.std.specs.Str.{IsCharBoundary};
ghost use Rattle.deny_toml_tree.specs.Spans.{IsSpan, OccursIn};
ghost use Rattle.deny_toml_tree.specs.TreeOrder.{IsOrderly};
ghost use Rattle.deny_toml_tree.specs.Apart.{AreApart};
ghost use Rattle.deny_toml.specs.Parser.{IsDocumentOf, IsTreeOf, IsCauseOf, LiesIn};
ghost use Rattle.deny_toml.specs.Parser as spec;

use crate::error::{TomlError, TomlKind};
use deny_base::Span;
use deny_base_lists::List;
use deny_toml_grammar::{ReadError, TomlExpression, read_document};
use deny_toml_tree::{Value, first_clash, tree_of};
use std::alloc::Global;

/// The tree of a text.
///
/// A text outside the grammar, or in which arrays, inline tables or keys exceed their limits, is a
/// `Grammar` fault where the reading stops. Else the first key that defines something a second time
/// is a `Clash`. The tree borrows from the text where it can, and no two scalars of it begin at one
/// offset.
pub fn parse<'t>(alloc: Global, text: &'t str) -> Result<Value<'t>, TomlError>
    requires small { length text.now < 2 ^ 28 }
    ensures tree { IfOk result (IsTreeOf text.now) }
    ensures cause { IfErr result (IsCauseOf text.now) }
    ensures holds { IfOk result (OccursIn text.now) }
    ensures ordered { IfOk result IsOrderly }
    ensures apart { IfOk result AreApart }
    ensures lies { IfErr result (LiesIn text.now) }
{
    let expressions = expressions(alloc, text)?;
    if let Some(span) = first_clash(alloc, &expressions)? {
        return Err(TomlError::Fault {
            kind: TomlKind::Clash,
            span,
        });
    }
    Ok(tree_of(alloc, whole(text), expressions)?)
}

/// The headers and assignments of a text.
fn expressions<'t>(alloc: Global, text: &'t str) -> Result<List<TomlExpression<'t>>, TomlError>
    requires small { length text.now < 2 ^ 28 }
    ensures document { IfOk result (IsDocumentOf text.now) }
    ensures cause { IfErr result (IsCauseOf text.now) }
    ensures lies { IfErr result (LiesIn text.now) }
{
    match read_document(alloc, text) {
        Ok(expressions) => Ok(expressions),
        Err(ReadError::Grammar(left)) => Err(TomlError::Fault {
            kind: TomlKind::Grammar,
            span: stop(text, left),
        }),
        Err(ReadError::Memory) => Err(TomlError::Memory),
    }
}

/// The empty span before the last `left` bytes.
fn stop(text: &str, left: usize) -> Span
    requires small { length text.now < 2 ^ 28 }
    ensures { IsSpan text.now result }
{
    let offset = boundary(text, text.len().saturating_sub(left)) as u32;
    Span {
        start: offset,
        end: offset,
    }
}

/// The offset, or the start of the text where it is no character boundary.
fn boundary(text: &str, offset: usize) -> usize
    ensures { IsCharBoundary text.now result }
{
    if text.is_char_boundary(offset) {
        offset
    } else {
        0
    }
}

/// The span of the whole text.
fn whole(text: &str) -> Span
    requires small { length text.now < 2 ^ 28 }
    ensures { result ≡ spec.whole text.now }
{
    Span {
        start: 0,
        end: text.len() as u32,
    }
}
