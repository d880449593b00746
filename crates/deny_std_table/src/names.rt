//! The names of a table, among which one is found in a number of steps logarithmic in theirs.

ghost use Rattle.std.specs.Prelude.{◌≡◌, ◌≢◌, ℕ, ◌<◌, MatchOption};
ghost use Rattle.deny_std_table.specs.Width.{width_of};
ghost use Rattle.deny_std_table.specs.private.Names.{name_at, HasNames};

use crate::head::start_of;
use crate::spans::{TextSpan, slice_at};
use crate::width::Width;
use std::cmp::Ordering;

/// The bytes of an entry's name.
#[tactic(auto, unfolding(crate::specs::private::Names::name_at))]
fn name_at(width: Width, bytes: &[u8], count: u32, i: u32) -> &[u8]
    requires names { HasNames (width_of width) bytes.now count }
    requires entry { i < count }
    ensures { result.now ≡ name_at (width_of width) bytes.now i }
{
    let start = start_of(bytes, i);
    let span = TextSpan {
        at: start + width.bytes(),
        size: width.length_at(bytes, start),
    };
    slice_at(bytes, span)
}

/// The number of the entry with a name.
pub(crate) fn find(width: Width, bytes: &[u8], count: u32, name: &[u8]) -> Option<u32>
    requires { HasNames (width_of width) bytes.now count }
    ensures { MatchOption result
        ((i : ℕ) → i < count → name_at (width_of width) bytes.now i ≢ name.now)
        (λ i. (i < count) × (name_at (width_of width) bytes.now i ≡ name.now)) }
{
    let mut low = 0;
    let mut high = count;
    while low < high {
        let middle = low + (high - low) / 2;
        match name_at(width, bytes, count, middle).cmp(name) {
            Ordering::Less => low = middle + 1,
            Ordering::Equal => return Some(middle),
            Ordering::Greater => high = middle,
        }
    }
    None
}
