ghost use Rattle.std.specs.Prelude.{◌≡◌, ◌+◌, ◌<◌, ◌^◌, ◌++◌, [], ◌∷◌, IfOk, length};
ghost use Rattle.deny_krates.specs.Bounds.{lock_line_length};
ghost use Rattle.deny_krates.specs.Crates.{crate_view};
ghost use Rattle.deny_krates_lock.specs.Line.{before_source, line_span, lock_line};

use deny_base::Span;
use deny_base_lists::{NoMemory, Text};
use deny_krates::Krate;
use std::alloc::Global;

/// The spans of a crate in the lock text.
#[derive(Clone, Copy)]
pub struct LockSpan {
    /// The span of its line, without the newline.
    pub total: Span,
    /// The span of its source in that line.
    pub source: Span,
}

/// Appends the line of a crate, with a newline, and gives its spans.
pub fn put_line(alloc: Global, text: &mut Text, krate: &Krate) -> Result<LockSpan, NoMemory>
    requires { length text.old + lock_line_length (crate_view 0 krate.now) < 2 ^ 32 }
    ensures text { IfOk result (λ _. text.new ≡ text.old ++ (lock_line (crate_view 0 krate.now) ++ 10 ∷ [])) }
    ensures span { IfOk result (λ span. span ≡ line_span (length text.old) (crate_view 0 krate.now)) }
{
    let start = len_of(text);
    put_start(alloc, text, krate)?;
    let source = len_of(text);
    text.push_str(krate.source_or_folder())?;
    let end = len_of(text);
    text.push_str("\n")?;
    Ok(LockSpan {
        total: Span { start, end },
        source: Span { start: source, end },
    })
}

// Appends the part of the line before the source.
fn put_start(alloc: Global, text: &mut Text, krate: &Krate) -> Result<(), NoMemory>
    ensures { IfOk result (λ _. text.new ≡ text.old ++ before_source (crate_view 0 krate.now)) }
{
    let version = krate.version_text(alloc)?;
    text.push_str(krate.name.as_str())?;
    text.push_str(" ")?;
    text.push_str(version.as_str())?;
    text.push_str(" ")
}

fn len_of(text: &Text) -> u32
    requires { length text.now < 2 ^ 32 }
    ensures { result ≡ length text.now }
{
    text.as_str().len() as u32
}
