//! The entries of a table: each in the bytes from its offset to the next one.

ghost use Rattle.std.specs.Prelude.{◌≡◌, ◌+◌, ◌≤◌, ◌<◌, None, length, IfOk};
ghost use Rattle.std.specs.Option.{ForSome};
ghost use Rattle.deny_std_table.specs.private.Reading.{done_of};
ghost use Rattle.deny_std_table.specs.Width.{width_of};
ghost use Rattle.deny_std_table.specs.Region.{bounds};
ghost use Rattle.deny_std_table.specs.Head.{start_of, HasOffsets};
ghost use Rattle.deny_std_table.specs.Entries.{is_above, entry, stop_of, entries};
ghost use Rattle.deny_std_table.specs.private.Entries.{name_of};

use crate::error::ReplacementError;
use crate::head::start_of;
use crate::region::Region;
use crate::spans::{TextSpan, slice_at};
use crate::width::Width;

/// Whether a name is above the one before it.
fn is_above(bytes: &[u8], before: Option<TextSpan>, name: TextSpan) -> bool
    requires before { ForSome before (λ p. p.at + p.size ≤ length bytes.now) }
    requires name { name.at + name.size ≤ length bytes.now }
    ensures { result ≡ is_above bytes.now before name }
{
    match before {
        None => true,
        Some(before) => slice_at(bytes, before).cmp(slice_at(bytes, name)).is_lt(),
    }
}

/// Checks an entry, whose name must be above the one before, and returns the name.
#[tactic(auto, unfolding(crate::specs::Entries::entry))]
fn check_entry(
    region: &Region,
    before: Option<TextSpan>,
    start: usize,
) -> Result<TextSpan, ReplacementError>
    requires { ForSome before (λ p. p.at + p.size ≤ length region.now.bytes.now) }
    ensures value { result
        ≡ name_of (entry (bounds (width_of region.now.width) region.now.bytes.now region.now.stop) before start) }
    ensures inside { IfOk result (λ p. p.at + p.size ≤ length region.now.bytes.now) }
{
    let name = region.text(start)?;
    if !is_above(region.bytes, before, name.value) {
        return Err(ReplacementError::Bad(start));
    }
    region.skip_items(name.next)?;
    Ok(name.value)
}

/// The region of an entry.
#[tactic(auto, unfolding(crate::specs::Entries::stop_of))]
pub(crate) fn region_of(width: Width, bytes: &[u8], count: u32, i: u32) -> Region
    requires entry { i < count }
    requires offsets { HasOffsets bytes.now count }
    ensures bytes { result.bytes.now ≡ bytes.now }
    ensures width { result.width ≡ width }
    ensures stop { result.stop ≡ stop_of bytes.now count i }
{
    let stop = if i + 1 < count {
        start_of(bytes, i + 1)
    } else {
        bytes.len()
    };
    Region { bytes, width, stop }
}

/// Checks all entries in order.
pub(crate) fn check_entries(width: Width, bytes: &[u8], count: u32) -> Result<(), ReplacementError>
    requires { HasOffsets bytes.now count }
    ensures { result ≡ done_of (entries (width_of width) bytes.now count None 0 count) }
{
    let mut before = None;
    for i in 0..count {
        let region = region_of(width, bytes, count, i);
        before = Some(check_entry(&region, before, start_of(bytes, i))?);
    }
    Ok(())
}
