//! A point between two items of an entry.

ghost use Rattle.std.specs.Prelude.{◌≡◌, ◌<◌, Ok, MatchOption};
ghost use Rattle.deny_std_table.specs.Cursor.{coming_of, left_of};
ghost use Rattle.deny_std_table.specs.private.Cursor.{GivesItem, Ends};

use crate::region::Region;
use crate::spans::{Counts, ItemSpans};

/// The items of an entry that are left: first those of the current group, which are stable since
/// its minor version, then as many groups and other items as the counts say.
#[derive(Clone, Copy)]
pub(crate) struct Cursor<'d> {
    pub region: Region<'d>,
    pub at: usize,
    pub minor: u8,
    pub stable: u8,
    pub counts: Counts,
}

impl<'d> Cursor<'d> {
    /// The next replacement of the current group.
    fn next_stable(&mut self) -> ItemSpans
        requires some { 0 < self.old.stable }
        requires reads { coming_of self.old ≡ Ok (left_of self.old) }
        ensures { GivesItem self.old self.new result }
    {
        let read = self.region.replacement(self.at).unwrap();
        self.at = read.next;
        self.stable -= 1;
        ItemSpans::Stable {
            replacement: read.value,
            minor: self.minor,
        }
    }

    /// The next replacement that is not stable.
    fn next_unstable(&mut self) -> ItemSpans
        requires stable { self.old.stable ≡ 0 }
        requires groups { self.old.counts.groups ≡ 0 }
        requires some { 0 < self.old.counts.unstable }
        requires reads { coming_of self.old ≡ Ok (left_of self.old) }
        ensures { GivesItem self.old self.new result }
    {
        let read = self.region.replacement(self.at).unwrap();
        self.at = read.next;
        self.counts.unstable -= 1;
        ItemSpans::Unstable {
            replacement: read.value,
        }
    }

    /// The next API without a replacement.
    fn next_unavailable(&mut self) -> ItemSpans
        requires stable { self.old.stable ≡ 0 }
        requires groups { self.old.counts.groups ≡ 0 }
        requires unstable { self.old.counts.unstable ≡ 0 }
        requires some { 0 < self.old.counts.unavailable }
        requires reads { coming_of self.old ≡ Ok (left_of self.old) }
        ensures { GivesItem self.old self.new result }
    {
        let read = self.region.api(self.at).unwrap();
        self.at = read.next;
        self.counts.unavailable -= 1;
        ItemSpans::Unavailable { api: read.value }
    }

    /// Makes the next group the current one.
    fn begin_group(&mut self)
        requires stable { self.old.stable ≡ 0 }
        requires some { 0 < self.old.counts.groups }
        requires reads { coming_of self.old ≡ Ok (left_of self.old) }
        ensures same { self.new.region ≡ self.old.region }
        ensures left { coming_of self.new ≡ Ok (left_of self.old) }
        ensures stable { 0 < self.new.stable }
    {
        let head = self.region.group_head(self.at).unwrap();
        self.at = head.next;
        self.minor = head.value.minor;
        self.stable = head.value.count;
        self.counts.groups -= 1;
    }

    /// Makes the next group the current one where the current one has ended.
    fn settle(&mut self)
        requires { coming_of self.old ≡ Ok (left_of self.old) }
        ensures same { self.new.region ≡ self.old.region }
        ensures left { coming_of self.new ≡ Ok (left_of self.old) }
        ensures settled { self.new.stable ≡ 0 → self.new.counts.groups ≡ 0 }
    {
        if self.stable == 0 && self.counts.groups > 0 {
            self.begin_group();
        }
    }

    /// The next item, where no group follows an ended one.
    fn next_settled(&mut self) -> Option<ItemSpans>
        requires settled { self.old.stable ≡ 0 → self.old.counts.groups ≡ 0 }
        requires reads { coming_of self.old ≡ Ok (left_of self.old) }
        ensures { MatchOption result (Ends self.old self.new) (λ spans. GivesItem self.old self.new spans) }
    {
        if self.stable > 0 {
            Some(self.next_stable())
        } else if self.counts.unstable > 0 {
            Some(self.next_unstable())
        } else if self.counts.unavailable > 0 {
            Some(self.next_unavailable())
        } else {
            None
        }
    }

    /// The next item.
    pub fn next(&mut self) -> Option<ItemSpans>
        requires { coming_of self.old ≡ Ok (left_of self.old) }
        ensures { MatchOption result (Ends self.old self.new) (λ spans. GivesItem self.old self.new spans) }
    {
        self.settle();
        self.next_settled()
    }
}
