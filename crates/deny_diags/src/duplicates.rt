//! The messages about duplicates: crates of one name in several versions.
ghost use Rattle.std.specs.Prelude.{◌≡◌, ◌++◌, IfOk, codes, length, map};
ghost use Rattle.std.specs.Fmt.{decimal};
ghost use Rattle.deny_spec_report.specs.Duplicates.{duplicate_diag, lock_label, lock_labels};
ghost use Rattle.deny_spec.specs.Duplicates.{duplicate_level};
ghost use Rattle.deny_spec.specs.DiagParts.{crate_at, crate_name_at, crates_at, node_of};
ghost use Rattle.deny_spans.specs.SpansView.{AreSpansOf};
ghost use Rattle.deny_diags.specs.private.DiagWriter.{circumstances_from};

use crate::writer::DiagWriter;
use deny_base::{GraphNode, Key, LintLevel, Span};
use deny_base_lists::{List, NoMemory, Text};
use deny_diags_parts::{Labels, lone_label};
use deny_krates::{Krates, krate_at};
use deny_rules_match::krate_name;
use deny_spec_report::Message;
use std::alloc::Global;

/// The message about the duplicates of a key.
#[tactic(auto, unfolding(deny_spec_report::specs::Duplicates::duplicate_diag))]
pub fn duplicate_diag(
    alloc: Global,
    writer: &DiagWriter<'_>,
    key: &Key,
) -> Result<Message, NoMemory>
    requires spans { AreSpansOf writer.now.ctx.krates.now writer.now.ctx.spans.now }
    ensures { IfOk result (λ diag. let c = circumstances_from writer.now in
        diag ≡ duplicate_diag c.policy c.graph c.files.lock key.now) }
{
    let message = duplicate_message(alloc, writer.ctx.krates, key)?;
    let labels = lock_labels(alloc, writer, key.places.as_slice())?;
    let nodes = nodes_at(alloc, writer.ctx.krates, key.places.as_slice())?;
    Ok(Message {
        severity: duplicate_level(writer, key.places.as_slice()).severity(),
        message,
        labels,
        notes: List::new(alloc),
        nodes,
        with_features: false,
        krate: None,
    })
}

fn duplicate_message(alloc: Global, krates: &Krates, key: &Key) -> Result<Text, NoMemory>
    ensures { IfOk result (λ text. text ≡ codes "found "
        ++ (decimal (length key.now.places) ++ (codes " duplicate entries for crate '"
        ++ (crate_name_at krates.now key.now.place ++ codes "'")))) }
{
    let count = key.places.len();
    let name = krate_name(alloc, krates, key.place)?;
    Ok(Text::from_string(format!(in alloc; "found {count} duplicate entries for crate '{name}'")?))
}

#[tactic(auto, unfolding(deny_spec::specs::Duplicates::duplicate_level))]
fn duplicate_level(writer: &DiagWriter<'_>, places: &[u32]) -> LintLevel
    ensures { let c = circumstances_from writer.now in
        result ≡ duplicate_level c.policy (crates_at c.graph places.now) }
{
    if writer.denies_several(places) {
        LintLevel::Deny
    } else {
        writer.ctx.cfg.multiple_versions
    }
}

// The label of the lines of the lock text from that of the first of these places to that of the last.
fn lock_labels(alloc: Global, writer: &DiagWriter<'_>, places: &[u32]) -> Labels
    requires spans { AreSpansOf writer.now.ctx.krates.now writer.now.ctx.spans.now }
    ensures { IfOk result (λ labels. labels
        ≡ lock_labels writer.now.ctx.krates.now writer.now.ctx.spans.now.lock_id places.now) }
{
    let Some(first) = places.first() else {
        return Ok(List::new(alloc));
    };
    let Some(last) = places.last() else {
        return Ok(List::new(alloc));
    };
    lock_label(alloc, writer, *first, *last)
}

#[tactic(auto, unfolding(deny_spec_report::specs::Duplicates::lock_label, deny_spec_report::specs::Duplicates::lock_lines))]
fn lock_label(alloc: Global, writer: &DiagWriter<'_>, first: u32, last: u32) -> Labels
    requires spans { AreSpansOf writer.now.ctx.krates.now writer.now.ctx.spans.now }
    ensures { IfOk result (λ labels. let g = writer.now.ctx.krates.now in
        labels ≡ lock_label g writer.now.ctx.spans.now.lock_id (crate_at g first) (crate_at g last)) }
{
    let Some(first) = writer.ctx.spans.lock_span_at(first) else {
        return Ok(List::new(alloc));
    };
    let Some(last) = writer.ctx.spans.lock_span_at(last) else {
        return Ok(List::new(alloc));
    };
    let lines = Span {
        start: first.total.start,
        end: last.total.end,
    };
    lone_label(alloc, writer.ctx.spans.lock_id, lines, "lock entries")
}

// The crates at these places, as graph nodes.
#[tactic(auto, unfolding(deny_spec::specs::DiagParts::crates_at))]
fn nodes_at(alloc: Global, krates: &Krates, places: &[u32]) -> Result<List<GraphNode>, NoMemory>
    ensures { IfOk result (λ nodes. nodes ≡ map node_of (crates_at krates.now places.now)) }
{
    let mut nodes = List::new(alloc);
    for place in places {
        if let Some(krate) = krate_at(krates, *place) {
            nodes.push(GraphNode {
                kid: krate.id.clone()?,
                feature: None,
            })?;
        }
    }
    Ok(nodes)
}
