//! The head of a table: its mark and version, the number of its entries, and their offsets.

ghost use Rattle.std.specs.Prelude.{◌≡◌, ◌+◌, ◌*◌, ◌≤◌, ◌<◌, ◌==◌, ◌||◌, ◌-◌, nat_lt, length, MatchResult};
ghost use Rattle.deny_base_lists.specs.Reader.{IsFault, IsValue};
ghost use Rattle.deny_std_table.specs.Reading.{unless_bad, number};
ghost use Rattle.deny_std_table.specs.Width.{width_of};
ghost use Rattle.deny_std_table.specs.Head.{has_byte, version, header, count_of, start_of, is_offset, offsets};

use crate::error::ReplacementError;
use crate::width::Width;

const MARK: u8 = 0xcd;

/// Whether this byte is at an offset.
fn has_byte(bytes: &[u8], at: usize, value: u8) -> bool
    ensures { result ≡ has_byte bytes.now at value }
{
    at < bytes.len() && bytes[at] == value
}

/// Checks that the byte at an offset is this one.
fn check_byte(bytes: &[u8], at: usize, value: u8) -> Result<(), ReplacementError>
    ensures { result ≡ unless_bad (has_byte bytes.now at value) at }
{
    if has_byte(bytes, at, value) {
        Ok(())
    } else {
        Err(ReplacementError::Bad(at))
    }
}

/// The version, in the fourth byte.
#[tactic(auto, unfolding(crate::specs::Head::version))]
fn version(bytes: &[u8]) -> Result<Width, ReplacementError>
    ensures { MatchResult result (λ width. IsValue (version bytes.now) (width_of width)) (IsFault (version bytes.now)) }
{
    if has_byte(bytes, 3, 1) {
        Ok(Width::One)
    } else if has_byte(bytes, 3, 2) {
        Ok(Width::Two)
    } else {
        Err(ReplacementError::Bad(3))
    }
}

/// Checks the first four bytes: the mark three times, and the version, which is the number of bytes
/// of the length of a text.
#[tactic(auto, unfolding(crate::specs::Head::header))]
pub(crate) fn check_header(bytes: &[u8]) -> Result<Width, ReplacementError>
    ensures { MatchResult result (λ width. IsValue (header bytes.now) (width_of width)) (IsFault (header bytes.now)) }
{
    check_byte(bytes, 0, MARK)?;
    check_byte(bytes, 1, MARK)?;
    check_byte(bytes, 2, MARK)?;
    version(bytes)
}

/// The little endian number of four bytes.
#[tactic(auto, unfolding(crate::specs::Reading::number))]
pub(crate) fn number_at(bytes: &[u8], at: usize) -> u32
    requires { at + 4 ≤ length bytes.now }
    ensures { result ≡ number 4 bytes.now at }
{
    u32::from_le_bytes([bytes[at], bytes[at + 1], bytes[at + 2], bytes[at + 3]])
}

/// The number of entries.
#[tactic(auto, unfolding(crate::specs::Head::count_of))]
pub(crate) fn count(bytes: &[u8]) -> Result<u32, ReplacementError>
    ensures { result ≡ count_of bytes.now }
{
    if bytes.len() < 8 {
        return Err(ReplacementError::Bad(4));
    }
    let count = number_at(bytes, 4);
    if count == 0 {
        return Err(ReplacementError::Bad(4));
    }
    Ok(count)
}

/// The offset of an entry.
pub(crate) fn start_of(bytes: &[u8], i: u32) -> usize
    requires { 8 + 4 * i + 4 ≤ length bytes.now }
    ensures { result ≡ start_of bytes.now i }
{
    number_at(bytes, 8 + 4 * i as usize) as usize
}

/// Whether an offset is above the one before.
fn rises(bytes: &[u8], i: u32) -> bool
    requires { 8 + 4 * i + 4 ≤ length bytes.now }
    ensures { result ≡ (i == 0 || nat_lt (start_of bytes.now (i - 1)) (start_of bytes.now i)) }
{
    i == 0 || start_of(bytes, i - 1) < start_of(bytes, i)
}

/// Checks one offset, in its four bytes.
fn check_offset(bytes: &[u8], count: u32, i: u32) -> Result<(), ReplacementError>
    requires { i < count }
    ensures { result ≡ unless_bad (is_offset bytes.now count i) (8 + 4 * i) }
{
    let at = 8 + 4 * i as usize;
    if bytes.len() < at + 4 {
        return Err(ReplacementError::Bad(at));
    }
    let start = start_of(bytes, i);
    if start >= 8 + 4 * count as usize && rises(bytes, i) && start < bytes.len() {
        Ok(())
    } else {
        Err(ReplacementError::Bad(at))
    }
}

/// Checks all offsets in order.
pub(crate) fn check_offsets(bytes: &[u8], count: u32) -> Result<(), ReplacementError>
    ensures { result ≡ offsets bytes.now count 0 count }
{
    for i in 0..count {
        check_offset(bytes, count, i)?;
    }
    Ok(())
}
