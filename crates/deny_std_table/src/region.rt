//! The bytes of one entry, and the readers of its parts.

ghost use Rattle.std.specs.Prelude.{◌≡◌, ◌+◌, ◌≤◌, length, IfOk};
ghost use Rattle.std.specs.Str.{is_utf8};
ghost use Rattle.deny_std_table.specs.Spans.{contents};
ghost use Rattle.deny_std_table.specs.Reading.{many};
ghost use Rattle.deny_std_table.specs.private.Reading.{next_of};
ghost use Rattle.deny_std_table.specs.Width.{width_of};
ghost use Rattle.deny_std_table.specs.Region.{bounds, byte, text, api, replacement, nonempty_note};
ghost use Rattle.deny_std_table.specs.Region.{group_head, group, counts, counted_items, items};

use crate::error::ReplacementError;
use crate::spans::{ApiSpans, Counts, GroupHead, Read, ReplacementSpans, TextSpan};
use crate::width::Width;
use std::str;

/// The bytes of a table, the number of bytes of the length of a text, and the offset where the
/// entry ends: nothing past it is read.
#[derive(Clone, Copy)]
pub(crate) struct Region<'d> {
    pub bytes: &'d [u8],
    pub width: Width,
    pub stop: usize,
    ghost within: { stop ≤ length bytes.now },
}

impl<'d> Region<'d> {
    #[tactic(auto, unfolding(crate::specs::Region::byte))]
    pub fn byte(&self, at: usize) -> Result<Read<u8>, ReplacementError>
        ensures { result ≡ byte (bounds (width_of self.now.width) self.now.bytes.now self.now.stop) at }
    {
        if at >= self.stop {
            return Err(ReplacementError::Bad(self.stop));
        }
        Ok(Read {
            value: self.bytes[at],
            next: at + 1,
        })
    }

    #[tactic(auto, unfolding(crate::specs::Region::text))]
    pub fn text(&self, at: usize) -> Result<Read<TextSpan>, ReplacementError>
        ensures value { result ≡ text (bounds (width_of self.now.width) self.now.bytes.now self.now.stop) at }
        ensures inside { IfOk result (λ t. t.value.at + t.value.size ≤ length self.now.bytes.now) }
    {
        let length = self.width.bytes();
        if at >= self.stop || length > self.stop - at {
            return Err(ReplacementError::Bad(at));
        }
        let span = TextSpan {
            at: at + length,
            size: self.width.length_at(self.bytes, at),
        };
        if span.size > self.stop - span.at || !is_text(self.bytes, span) {
            return Err(ReplacementError::Bad(at));
        }
        Ok(Read {
            value: span,
            next: span.at + span.size,
        })
    }

    #[tactic(auto, unfolding(crate::specs::Region::api))]
    pub fn api(&self, at: usize) -> Result<Read<ApiSpans>, ReplacementError>
        ensures { result ≡ api (bounds (width_of self.now.width) self.now.bytes.now self.now.stop) at }
    {
        let name = self.text(at)?;
        let url = self.text(name.next)?;
        Ok(Read {
            value: ApiSpans {
                name: name.value,
                url: url.value,
            },
            next: url.next,
        })
    }

    #[tactic(auto, unfolding(crate::specs::Region::replacement))]
    pub fn replacement(&self, at: usize) -> Result<Read<ReplacementSpans>, ReplacementError>
        ensures { result ≡ replacement (bounds (width_of self.now.width) self.now.bytes.now self.now.stop) at }
    {
        let krate = self.api(at)?;
        let std = self.api(krate.next)?;
        let note = self.text(std.next)?;
        Ok(Read {
            value: ReplacementSpans {
                krate: krate.value,
                std: std.value,
                note: nonempty_note(note.value),
            },
            next: note.next,
        })
    }

    #[tactic(auto, unfolding(crate::specs::Region::group_head))]
    pub fn group_head(&self, at: usize) -> Result<Read<GroupHead>, ReplacementError>
        ensures { result ≡ group_head (bounds (width_of self.now.width) self.now.bytes.now self.now.stop) at }
    {
        let minor = self.byte(at)?;
        let count = self.byte(minor.next)?;
        if count.value == 0 {
            return Err(ReplacementError::Bad(minor.next));
        }
        Ok(Read {
            value: GroupHead {
                minor: minor.value,
                count: count.value,
            },
            next: count.next,
        })
    }

    #[tactic(auto, unfolding(crate::specs::Region::counts))]
    pub fn counts(&self, at: usize) -> Result<Read<Counts>, ReplacementError>
        ensures { result ≡ counts (bounds (width_of self.now.width) self.now.bytes.now self.now.stop) at }
    {
        let groups = self.byte(at)?;
        let unstable = self.byte(groups.next)?;
        let unavailable = self.byte(unstable.next)?;
        Ok(Read {
            value: Counts {
                groups: groups.value,
                unstable: unstable.value,
                unavailable: unavailable.value,
            },
            next: unavailable.next,
        })
    }

    /// Skips replacements, and returns where they end.
    fn skip_replacements(&self, count: u8, at: usize) -> Result<usize, ReplacementError>
        ensures { result ≡ next_of
            (many (replacement (bounds (width_of self.now.width) self.now.bytes.now self.now.stop)) count at) }
    {
        let mut next = at;
        for _index in 0..count {
            next = self.replacement(next)?.next;
        }
        Ok(next)
    }

    /// Skips APIs, and returns where they end.
    fn skip_apis(&self, count: u8, at: usize) -> Result<usize, ReplacementError>
        ensures { result ≡ next_of
            (many (api (bounds (width_of self.now.width) self.now.bytes.now self.now.stop)) count at) }
    {
        let mut next = at;
        for _index in 0..count {
            next = self.api(next)?.next;
        }
        Ok(next)
    }

    #[tactic(auto, unfolding(crate::specs::Region::group))]
    fn skip_group(&self, at: usize) -> Result<usize, ReplacementError>
        ensures { result ≡ next_of (group (bounds (width_of self.now.width) self.now.bytes.now self.now.stop) at) }
    {
        let head = self.group_head(at)?;
        self.skip_replacements(head.value.count, head.next)
    }

    /// Skips groups, and returns where they end.
    fn skip_groups(&self, count: u8, at: usize) -> Result<usize, ReplacementError>
        ensures { result ≡ next_of
            (many (group (bounds (width_of self.now.width) self.now.bytes.now self.now.stop)) count at) }
    {
        let mut next = at;
        for _index in 0..count {
            next = self.skip_group(next)?;
        }
        Ok(next)
    }

    /// Skips the items of an entry, and returns where they end.
    #[tactic(auto, unfolding(crate::specs::Region::items, crate::specs::Region::counted_items))]
    pub fn skip_items(&self, at: usize) -> Result<usize, ReplacementError>
        ensures { result ≡ next_of (items (bounds (width_of self.now.width) self.now.bytes.now self.now.stop) at) }
    {
        let counts = self.counts(at)?;
        let unstable = self.skip_groups(counts.value.groups, counts.next)?;
        let unavailable = self.skip_replacements(counts.value.unstable, unstable)?;
        self.skip_apis(counts.value.unavailable, unavailable)
    }
}

/// The span of a note, which is none where it is empty.
fn nonempty_note(span: TextSpan) -> Option<TextSpan>
    ensures { result ≡ nonempty_note span }
{
    if span.size == 0 { None } else { Some(span) }
}

/// Whether the bytes of a span are UTF-8.
fn is_text(bytes: &[u8], span: TextSpan) -> bool
    requires { span.at + span.size ≤ length bytes.now }
    ensures { result ≡ is_utf8 (contents bytes.now span) }
{
    str::from_utf8(&bytes[span.at..span.at + span.size]).is_ok()
}
