//! Since which minor version of Rust an item is stable.
ghost use Rattle.std.specs.Prelude.{◌≡◌, ◌||◌, ℕ, Some, nat_le};
ghost use Rattle.deny_std.specs.private.Said.{said_of};
ghost use Rattle.deny_std.specs.private.StableSince.{IsLeastMinor, is_reached};

use deny_std_table::{Replacement, ReplacementItem};

/// The least minor version in which an item of a replacement is stable.
pub fn least_minor(replacement: &Replacement<'_>) -> Option<u8>
    ensures { IsLeastMinor (said_of replacement.now) result }
{
    let mut least = None;
    let mut items = replacement.iter();
    while let Some(item) = items.next() {
        if let ReplacementItem::Stable { minor, .. } = item {
            least = Some(lesser(least, minor));
        }
    }
    least
}

fn lesser(least: Option<u8>, minor: u8) -> u8
    ensures { (m : ℕ) → is_reached (Some result) m ≡ (is_reached least m || nat_le minor m) }
{
    match least {
        Some(least) => least.min(minor),
        None => minor,
    }
}
