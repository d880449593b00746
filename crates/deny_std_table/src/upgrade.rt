//! A table in version 2 of the format, without the bytes that are ignored.

ghost use Rattle.std.specs.Prelude.{◌≡◌, ◌++◌, ◌↔◌, ◌≤◌, ◌<◌, ◌+◌, List, [], ◌∷◌};
ghost use Rattle.std.specs.Prelude.{length, map, flat_map, Ok, Err, Some, None, IsOk, IfOk, option_map};
ghost use Rattle.deny_std_table.specs.declared.spans.ReplacementSpans.{ReplacementSpans};
ghost use Rattle.deny_std_table.specs.declared.spans.TextSpan.{TextSpan};
ghost use Rattle.deny_std_table.specs.declared.spans.ApiSpans.{ApiSpans};
ghost use Rattle.deny_std_table.specs.declared.spans.Read.{Read};
ghost use Rattle.deny_std_table.specs.Width.{width_of};
ghost use Rattle.deny_std_table.specs.Reading.{many};
ghost use Rattle.deny_std_table.specs.private.Reading.{next_of};
ghost use Rattle.deny_std_table.specs.Region.{bounds, Group, Items, api, replacement, group, items};
ghost use Rattle.deny_std_table.specs.Entries.{Entry, entry};
ghost use Rattle.deny_std_table.specs.Spans.{contents};
ghost use Rattle.deny_std_table.specs.private.Spans.{IsTextIn, IsApiIn, IsReplacementIn};
ghost use Rattle.deny_std_table.specs.Table.{IsRead, read_entries};
ghost use Rattle.deny_std_table.specs.Spelling.{SaysTheSame, api_text, replacement_text, group_text, items_text};
ghost use Rattle.deny_std_table.specs.Spelling.{entry_text, texts_of, api_bytes, note_bytes, replacement_bytes};
ghost use Rattle.deny_std_table.specs.Spelling.{group_bytes, items_bytes, entry_bytes, table_bytes, number_bytes};
ghost use Rattle.deny_std_table.specs.private.Draft.{Writes};

use crate::draft::Draft;
use crate::entries::region_of;
use crate::error::{ReplacementError, UpgradeError};
use crate::head::start_of;
use crate::region::Region;
use crate::spans::{ApiSpans, ReplacementSpans, TextSpan, slice_at};
use crate::width::Width;
use std::alloc::Global;

fn put_api(draft: &mut Draft, bytes: &[u8], spans: ApiSpans)
    requires { IsApiIn bytes.now spans }
    ensures { Writes draft.old draft.new (api_bytes (api_text bytes.now spans)) }
{
    draft.put_text(slice_at(bytes, spans.name));
    draft.put_text(slice_at(bytes, spans.url));
}

/// Writes a note, which is empty where there is none.
fn put_note(draft: &mut Draft, bytes: &[u8], span: Option<TextSpan>)
    requires { (t : TextSpan) → span ≡ Some t → IsTextIn bytes.now t }
    ensures { Writes draft.old draft.new (note_bytes (option_map (contents bytes.now) span)) }
{
    match span {
        None => draft.put_text(&[]),
        Some(span) => draft.put_text(slice_at(bytes, span)),
    }
}

fn put_replacement(draft: &mut Draft, bytes: &[u8], spans: ReplacementSpans)
    requires { IsReplacementIn bytes.now spans }
    ensures { Writes draft.old draft.new (replacement_bytes (replacement_text bytes.now spans)) }
{
    put_api(draft, bytes, spans.krate);
    put_api(draft, bytes, spans.std);
    put_note(draft, bytes, spans.note);
}

/// Writes replacements, and returns where they end.
fn copy_replacements(
    draft: &mut Draft,
    region: &Region,
    count: u8,
    at: usize,
) -> Result<usize, ReplacementError>
    ensures value { result ≡ next_of
        (many (replacement (bounds (width_of region.now.width) region.now.bytes.now region.now.stop)) count at) }
    ensures written { (r : Read (List ReplacementSpans))
        → many (replacement (bounds (width_of region.now.width) region.now.bytes.now region.now.stop)) count at ≡ Ok r
        → Writes draft.old draft.new
        (flat_map replacement_bytes (map (replacement_text region.now.bytes.now) r.value)) }
{
    let mut next = at;
    for _index in 0..count {
        let read = region.replacement(next)?;
        put_replacement(draft, region.bytes, read.value);
        next = read.next;
    }
    Ok(next)
}

/// Writes APIs, and returns where they end.
fn copy_apis(
    draft: &mut Draft,
    region: &Region,
    count: u8,
    at: usize,
) -> Result<usize, ReplacementError>
    ensures value { result ≡ next_of
        (many (api (bounds (width_of region.now.width) region.now.bytes.now region.now.stop)) count at) }
    ensures written { (r : Read (List ApiSpans))
        → many (api (bounds (width_of region.now.width) region.now.bytes.now region.now.stop)) count at ≡ Ok r
        → Writes draft.old draft.new (flat_map api_bytes (map (api_text region.now.bytes.now) r.value)) }
{
    let mut next = at;
    for _index in 0..count {
        let read = region.api(next)?;
        put_api(draft, region.bytes, read.value);
        next = read.next;
    }
    Ok(next)
}

/// Writes a group, and returns where it ends.
#[tactic(auto, unfolding(crate::specs::Region::group))]
fn copy_group(draft: &mut Draft, region: &Region, at: usize) -> Result<usize, ReplacementError>
    ensures value { result
        ≡ next_of (group (bounds (width_of region.now.width) region.now.bytes.now region.now.stop) at) }
    ensures written { (r : Read Group)
        → group (bounds (width_of region.now.width) region.now.bytes.now region.now.stop) at ≡ Ok r
        → Writes draft.old draft.new (group_bytes (group_text region.now.bytes.now r.value)) }
{
    let head = region.group_head(at)?;
    draft.put(head.value.minor);
    draft.put(head.value.count);
    copy_replacements(draft, region, head.value.count, head.next)
}

/// Writes groups, and returns where they end.
fn copy_groups(
    draft: &mut Draft,
    region: &Region,
    count: u8,
    at: usize,
) -> Result<usize, ReplacementError>
    ensures value { result ≡ next_of
        (many (group (bounds (width_of region.now.width) region.now.bytes.now region.now.stop)) count at) }
    ensures written { (r : Read (List Group))
        → many (group (bounds (width_of region.now.width) region.now.bytes.now region.now.stop)) count at ≡ Ok r
        → Writes draft.old draft.new (flat_map group_bytes (map (group_text region.now.bytes.now) r.value)) }
{
    let mut next = at;
    for _index in 0..count {
        next = copy_group(draft, region, next)?;
    }
    Ok(next)
}

/// Writes the items of an entry, and returns where they end.
#[tactic(auto, unfolding(crate::specs::Region::items, crate::specs::Region::counted_items))]
fn copy_items(draft: &mut Draft, region: &Region, at: usize) -> Result<usize, ReplacementError>
    ensures value { result
        ≡ next_of (items (bounds (width_of region.now.width) region.now.bytes.now region.now.stop) at) }
    ensures written { (r : Read Items)
        → items (bounds (width_of region.now.width) region.now.bytes.now region.now.stop) at ≡ Ok r
        → Writes draft.old draft.new (items_bytes (items_text region.now.bytes.now r.value)) }
{
    let counts = region.counts(at)?;
    draft.put(counts.value.groups);
    draft.put(counts.value.unstable);
    draft.put(counts.value.unavailable);
    let unstable = copy_groups(draft, region, counts.value.groups, counts.next)?;
    let unavailable = copy_replacements(draft, region, counts.value.unstable, unstable)?;
    copy_apis(draft, region, counts.value.unavailable, unavailable)
}

/// Writes an entry.
fn copy_entry(draft: &mut Draft, region: &Region, start: usize) -> Result<usize, ReplacementError>
    ensures { (e : Entry)
        → entry (bounds (width_of region.now.width) region.now.bytes.now region.now.stop) None start ≡ Ok e
        → IsOk result × Writes draft.old draft.new (entry_bytes (entry_text region.now.bytes.now e)) }
{
    let name = region.text(start)?;
    draft.put_text(slice_at(region.bytes, name.value));
    copy_items(draft, region, name.next)
}

/// Writes the mark, the version, and the number of entries.
fn put_head(draft: &mut Draft, count: u32)
    ensures { Writes draft.old draft.new ((0xcd ∷ 0xcd ∷ 0xcd ∷ 2 ∷ []) ++ number_bytes 4 count) }
{
    draft.put(0xcd);
    draft.put(0xcd);
    draft.put(0xcd);
    draft.put(2);
    draft.put_four(count as usize);
}

/// The bytes of version 2 that say what a table says.
pub(crate) fn upgraded_bytes(
    alloc: Global,
    width: Width,
    bytes: &[u8],
    count: u32,
) -> Result<Vec<u8>, UpgradeError>
    requires { IsRead (width_of width) bytes.now count }
    ensures bytes { IfOk result (λ written. written.items
        ≡ table_bytes (texts_of bytes.now (read_entries (width_of width) bytes.now count))) }
    ensures same_items { IfOk result (λ written. SaysTheSame
        (record { bytes = bytes.now; entries = read_entries (width_of width) bytes.now count }) written.items) }
    ensures long { (result ≡ Err UpgradeError.Long) ↔ (268435456
        ≤ length (table_bytes (texts_of bytes.now (read_entries (width_of width) bytes.now count)))) }
{
    let mut head = Draft::new(alloc);
    let mut body = Draft::new(alloc);
    put_head(&mut head, count);
    for i in 0..count {
        if body.is_long() {
            return Err(UpgradeError::Long);
        }
        head.put_four(8 + 4 * count as usize + body.size);
        let region = region_of(width, bytes, count, i);
        copy_entry(&mut body, &region, start_of(bytes, i)).unwrap();
    }
    head.joined(body)
}
