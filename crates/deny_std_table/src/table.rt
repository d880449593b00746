//! The replacement table.

ghost use Rattle.std.specs.Prelude.{◌≡◌, ◌≢◌, ◌↔◌, ◌≤◌, ◌^◌, ℕ, List, length};
ghost use Rattle.std.specs.Prelude.{Err, IfOk, IfErr, OnErr, MatchResult, option_map};
ghost use Rattle.deny_base_lists.specs.Reader.{IsFault, IsValue};
ghost use Rattle.deny_std_table.specs.Entries.{Entry};
ghost use Rattle.deny_std_table.specs.Width.{width_of};
ghost use Rattle.deny_std_table.specs.Layout.{IsTable};
ghost use Rattle.deny_std_table.specs.Spelling.{upgraded, SaysTheSame};
ghost use Rattle.deny_std_table.specs.Table.{table, entry_named, items_in, IsRead, read_entries};

use crate::entries::{check_entries, region_of};
use crate::error::{ReplacementError, UpgradeError};
use crate::head::{check_header, check_offsets, count, start_of};
use crate::names::find;
use crate::replacement::Replacement;
use crate::upgrade::upgraded_bytes;
use crate::width::Width;
use std::alloc::Global;
use std::marker::Model;

/// A replacement table over a caller's bytes, which contracts see as those bytes and their entries.
#[derive(Drop)]
pub struct ReplacementData<'d> {
    bytes: &'d [u8],
    width: Width,
    count: u32,
}

impl<'d> Model for ReplacementData<'d> {
    ghost use Rattle.deny_std_table.specs.Width.{width_of};
    ghost use Rattle.deny_std_table.specs.Table.{Table, IsRead, read_entries};

    ghost Value = { Table };

    ghost view = { λ d. record { bytes = d.bytes.now; entries = read_entries (width_of d.width) d.bytes.now d.count } };

    ghost invariant = { λ d. IsRead (width_of d.width) d.bytes.now d.count };
}

impl<'d> ReplacementData<'d> {
    /// Reads a whole table, of which nothing is copied. Bytes after the last item of an entry are
    /// ignored.
    ///
    /// The bytes are refused as `Bad` exactly where they are no table, with the byte offset of
    /// their first break: in the mark and version, the number of entries, their offsets, or the
    /// entries, in this order. `Memory` never comes, since no memory is allocated. The time is
    /// linear in the number of bytes.
    pub fn from_bytes(
        _alloc: Global,
        bytes: &'d [u8],
    ) -> Result<ReplacementData<'d>, ReplacementError>
        ensures bytes { IfOk result (λ t. t.bytes ≡ bytes.now) }
        ensures entries { IfOk result (λ t. IsValue (table bytes.now) t.entries) }
        ensures table { IfOk result (λ t. IsTable bytes.now t.entries) }

        ensures first_break { IfErr result (IsFault (table bytes.now)) }
        ensures bad { (offset : ℕ) → (result ≡ Err (ReplacementError.Bad offset))
            ↔ (table bytes.now ≡ Err (ReplacementError.Bad offset)) }
        ensures no_table { OnErr result ((es : List Entry) → IsTable bytes.now es → ⊥) }
        ensures no_memory { result ≢ Err ReplacementError.Memory }
    {
        let (width, count) = check(bytes)?;
        Ok(ReplacementData {
            bytes,
            width,
            count,
        })
    }

    /// The entry of the crate with a name. The names ascend, so that binary search finds it: in a
    /// number of steps logarithmic in the number of entries.
    pub fn entry(&self, name: &str) -> Option<Replacement<'d>>
        ensures { result ≡ option_map (items_in self.now) (entry_named self.now name.now) }
    {
        let i = find(self.width, self.bytes, self.count, name.as_bytes())?;
        let region = region_of(self.width, self.bytes, self.count, i);
        Some(Replacement::open(&region, start_of(self.bytes, i)))
    }

    /// The table in version 2 of the format, without the bytes that are ignored. They are read as a
    /// table that says the same.
    ///
    /// `Long` comes exactly where they would be 2^28 or more. The time is linear in the number of
    /// the table's bytes.
    pub fn upgrade(&self, alloc: Global) -> Result<Vec<u8>, UpgradeError>
        ensures bytes { IfOk result (λ bytes. bytes.items ≡ upgraded self.now) }
        ensures same_items { IfOk result (λ bytes. SaysTheSame self.now bytes.items) }
        ensures long { (result ≡ Err UpgradeError.Long) ↔ (2 ^ 28 ≤ length (upgraded self.now)) }
    {
        upgraded_bytes(alloc, self.width, self.bytes, self.count)
    }
}

/// Checks all bytes of a table, and returns the number of bytes of the length of a text, and the
/// number of entries.
fn check(bytes: &[u8]) -> Result<(Width, u32), ReplacementError>
    ensures { MatchResult result
        (λ r. IsRead (width_of r.0) bytes.now r.1)
        (IsFault (table bytes.now)) }
{
    let width = check_header(bytes)?;
    let count = count(bytes)?;
    check_offsets(bytes, count)?;
    check_entries(width, bytes, count)?;
    Ok((width, count))
}
