//! The entry of one crate.

ghost use Rattle.std.specs.Prelude.{◌≡◌, Ok, None, IsOk, MatchOption, [], ◌∷◌};
ghost use Rattle.deny_std_table.specs.Width.{width_of};
ghost use Rattle.deny_std_table.specs.declared.spans.ItemSpans.{ItemSpans};
ghost use Rattle.deny_std_table.specs.Region.{bounds};
ghost use Rattle.deny_std_table.specs.Entries.{Entry, entry};
ghost use Rattle.deny_std_table.specs.Item.{items_of, IsItemAt};

use crate::cursor::Cursor;
use crate::item::{ReplacementItem, item_at};
use crate::region::Region;
use crate::spans::Counts;
use std::marker::Model;

/// The entry of one crate, in the bytes of its table.
#[derive(Drop)]
pub struct Replacement<'d> {
    region: Region<'d>,
    counts: Counts,
    at: usize,
}

impl<'d> Model for Replacement<'d> {
    ghost use Rattle.std.specs.Prelude.{IsOk};
    ghost use Rattle.deny_std_table.specs.Width.{width_of};
    ghost use Rattle.deny_std_table.specs.Region.{bounds, counted_items};
    ghost use Rattle.deny_std_table.specs.Replacement.{EntryItems, items_read};

    ghost Value = { EntryItems };

    ghost view = { λ r. record {
      bytes = r.region.bytes.now;
      items = items_read
          (counted_items (bounds (width_of r.region.width) r.region.bytes.now r.region.stop) r.counts r.at);
    } };

    ghost invariant = { λ r. IsOk
        (counted_items (bounds (width_of r.region.width) r.region.bytes.now r.region.stop) r.counts r.at) };
}

impl<'d> Replacement<'d> {
    /// The entry that begins at an offset of a table.
    pub(crate) fn open(region: &Region<'d>, start: usize) -> Replacement<'d>
        requires { IsOk (entry (bounds (width_of region.now.width) region.now.bytes.now region.now.stop) None start) }
        ensures bytes { result.bytes ≡ region.now.bytes.now }
        ensures items { (e : Entry)
            → entry (bounds (width_of region.now.width) region.now.bytes.now region.now.stop) None start ≡ Ok e
            → result.items ≡ e.items }
    {
        let name = region.text(start).unwrap();
        let counts = region.counts(name.next).unwrap();
        Replacement {
            region: *region,
            counts: counts.value,
            at: counts.next,
        }
    }

    /// All items of the entry: the stable replacements, then the others, then the APIs without one.
    pub fn iter(&self) -> ReplacementIter<'d>
        ensures bytes { result.bytes ≡ self.now.bytes }
        ensures items { result.items ≡ items_of self.now.items }
    {
        let cursor = Cursor {
            region: self.region,
            at: self.at,
            minor: 0,
            stable: 0,
            counts: self.counts,
        };
        ReplacementIter { cursor }
    }
}

/// The items of an entry that are left.
#[derive(Drop)]
pub struct ReplacementIter<'d> {
    cursor: Cursor<'d>,
}

impl<'d> Model for ReplacementIter<'d> {
    ghost use Rattle.std.specs.Prelude.{◌≡◌, Ok};
    ghost use Rattle.deny_std_table.specs.Cursor.{coming_of, left_of};
    ghost use Rattle.deny_std_table.specs.Replacement.{ItemsLeft};

    ghost Value = { ItemsLeft };

    ghost view = { λ i. record { bytes = i.cursor.region.bytes.now; items = left_of i.cursor } };

    ghost invariant = { λ i. coming_of i.cursor ≡ Ok (left_of i.cursor) };
}

impl<'d> ReplacementIter<'d> {
    /// The next item, with its texts in the bytes of the table. After the last one there is none,
    /// however often it is asked for.
    pub fn next(&mut self) -> Option<ReplacementItem<'d>>
        ensures bytes { self.new.bytes ≡ self.old.bytes }
        ensures items { MatchOption result
            ((self.old.items ≡ []) × (self.new.items ≡ []))
            (λ item. (spans : ItemSpans) × (self.old.items ≡ spans ∷ self.new.items)
            × IsItemAt self.old.bytes spans item) }
    {
        let spans = self.cursor.next()?;
        Some(item_at(self.cursor.region.bytes, spans))
    }
}
