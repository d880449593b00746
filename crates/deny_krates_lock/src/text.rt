ghost use Rattle.std.specs.Prelude.{◌≡◌, ◌<◌, ◌^◌, IfOk, length, map};
ghost use Rattle.std.specs.List.{AllZip};
ghost use Rattle.deny_krates_lock.specs.Order.{in_lock_order};
ghost use Rattle.deny_krates_lock.specs.Text.{IsLineOf, lock_span_at, lock_text};
ghost use Rattle.deny_krates_lock.specs.private.Placed.{placed_view};

use crate::line::{LockSpan, put_line};
use crate::order::{Placed, placed_of, put_in_lock_order};
use deny_base::Span;
use deny_base_lists::{List, NoMemory, Text};
use deny_krates::Krates;
use std::alloc::Global;

/// The lock text of a graph, and the spans of each crate in it, by the crates' places.
#[derive(Drop)]
pub struct LockText {
    pub text: Text,
    pub spans: List<LockSpan>,
}

/// The lock text of a graph: a line `name version source` for each crate, in the order of names,
/// versions by precedence, and ids. The source is as the metadata writes it, or the folder of a
/// crate without one.
pub fn lock_text(alloc: Global, krates: &Krates) -> Result<LockText, NoMemory>
    ensures text { IfOk result (λ lock. lock.text ≡ lock_text krates.now.crates) }
    ensures spans { IfOk result (λ lock. lock.spans ≡ map (lock_span_at krates.now.crates) krates.now.crates) }
    ensures short { IfOk result (λ lock. length lock.text < 2 ^ 29) }
    ensures lines { IfOk result (λ lock. AllZip (IsLineOf lock.text) krates.now.crates lock.spans) }
{
    let mut placed = placed_of(alloc, krates.krates())?;
    put_in_lock_order(&mut placed)?;
    let lock = written(alloc, krates, placed.as_slice())?;
    lie_in(krates, lock.text.as_str());
    Ok(lock)
}

// The lock text of crates in this order, with the spans of each crate by its place.
fn written(alloc: Global, krates: &Krates, placed: &[Placed<'_>]) -> Result<LockText, NoMemory>
    requires { map placed_view placed.now ≡ in_lock_order krates.now.crates }
    ensures text { IfOk result (λ lock. lock.text ≡ lock_text krates.now.crates) }
    ensures spans { IfOk result (λ lock. lock.spans ≡ map (lock_span_at krates.now.crates) krates.now.crates) }
{
    let mut text = Text::new(alloc);
    let mut spans = no_spans(alloc, krates.krates().len())?;
    for line in placed {
        let span = put_line(alloc, &mut text, line.krate)?;
        spans[line.place as usize] = span;
    }
    Ok(LockText {
        text,
        spans: List::from_vec(spans),
    })
}

// As many spans as there are crates, all of them empty.
fn no_spans(alloc: Global, count: usize) -> Result<Vec<LockSpan>, NoMemory>
    ensures { IfOk result (λ spans. length spans.items ≡ count) }
{
    let nowhere = Span { start: 0, end: 0 };
    let span = LockSpan {
        total: nowhere,
        source: nowhere,
    };
    Ok(vec![in alloc; span; count]?)
}

// A law: the line of each crate is the part of the lock text at its span.
fn lie_in(krates: &Krates, text: &str)
    requires { text.now ≡ lock_text krates.now.crates }
    ensures { AllZip (IsLineOf text.now) krates.now.crates (map (lock_span_at krates.now.crates) krates.now.crates) }
{
    krates.krates();
}
