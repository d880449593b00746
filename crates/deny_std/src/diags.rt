//! Diagnostics of ignores that were not hit, and of replaced crates.
ghost use Rattle.std.specs.Prelude.{◌≡◌, ◌++◌, IfOk, OnErr, OnOk, map};
ghost use Rattle.deny_spec_report.specs.Saying.{said_in};
ghost use Rattle.deny_spec_report.specs.StdReplacements.{note_at};
ghost use Rattle.deny_std.specs.private.Diags.{ReportsFirst, note_of, reason_label, replaced_message};
ghost use Rattle.deny_std.specs.private.Diags.{replaced_pack, replacement_message, unmatched_message};
ghost use Rattle.deny_std.specs.private.Diags.{unmatched_pack};

use crate::note::replacement_note;
use deny_base::{Code, DiagnosticCode, FileId, Label, LintLevel, Pack, Section, Severity, Span};
use deny_base_lists::{Keyed, List, NoMemory, Text};
use deny_krates::{Krates, kid_at, krate_at, krate_text};
use deny_spec::{key_of, no_span, primary, secondary, unused_key};
use deny_spec_report::{Message, pack_of};
use deny_std_table::ReplacementData;
use std::alloc::Global;

/// An ignore that was not hit.
#[derive(Drop)]
pub struct Unmatched {
    /// The span of its name.
    pub span: Span,
    /// Its package spec as text.
    pub spec: Text,
    /// The span of its reason.
    pub reason: Option<Span>,
}

impl Keyed for Unmatched {
    type Key = Span;

    ghost key = { λ u. u.span };

    fn key(&self) -> &Span {
        &self.span
    }
}

/// Appends a pack for each unmatched ignore.
pub fn report_unmatched(
    alloc: Global,
    entries: &[Unmatched],
    id: FileId,
    sink: &mut List<Pack>,
) -> Result<(), NoMemory>
    ensures ok { OnOk result (sink.new ≡ sink.old ++ map (unmatched_pack id) entries.now) }
    ensures prefix { OnErr result (ReportsFirst (unmatched_pack id) entries.now sink.old sink.new) }
{
    for entry in entries {
        sink.push(unmatched_pack(alloc, entry, id)?)?;
    }
    Ok(())
}

/// Appends a pack for each replaced crate.
pub fn report_replaced(
    alloc: Global,
    table: &ReplacementData<'_>,
    level: LintLevel,
    krates: &Krates,
    places: &[u32],
    sink: &mut List<Pack>,
) -> Result<(), NoMemory>
    ensures ok { OnOk result (sink.new ≡ sink.old ++ map
        (replaced_pack level krates.now (said_in table.now)) places.now) }
    ensures prefix { OnErr result (ReportsFirst
        (replaced_pack level krates.now (said_in table.now)) places.now sink.old sink.new) }
{
    for place in places {
        sink.push(replaced_pack(alloc, table, level, krates, *place)?)?;
    }
    Ok(())
}

#[tactic(auto, unfolding(crate::specs::private::Diags::unmatched_pack))]
fn unmatched_pack(alloc: Global, entry: &Unmatched, id: FileId) -> Result<Pack, NoMemory>
    ensures { IfOk result (λ pack. pack ≡ unmatched_pack id entry.now) }
{
    let key = unused_key(alloc, Code::UnmatchedReplacementIgnore, entry.span);
    let message = unmatched_message(alloc, entry, id)?;
    pack_of(alloc, key, message)
}

#[tactic(auto, unfolding(crate::specs::private::Diags::replaced_pack, deny_spec::specs::Keys::key_of))]
fn replaced_pack(
    alloc: Global,
    table: &ReplacementData<'_>,
    level: LintLevel,
    krates: &Krates,
    place: u32,
) -> Result<Pack, NoMemory>
    ensures { IfOk result (λ pack. pack ≡ replaced_pack level krates.now
        (said_in table.now) place) }
{
    let code = DiagnosticCode::Bans(Code::ReplacedInStd);
    let key = key_of(alloc, Section::Std, code, place, no_span());
    let message = replacement_message(alloc, table, level, krates, place)?;
    pack_of(alloc, key, message)
}

fn unmatched_message(alloc: Global, entry: &Unmatched, id: FileId) -> Result<Message, NoMemory>
    ensures { IfOk result (λ message. message ≡ unmatched_message id entry.now) }
{
    let spec = &entry.spec;
    let message = Text::from_string(format!(in alloc;
        "std replacement ignore '{spec}' was not encountered"
    )?);
    let mut labels = List::new(alloc);
    let label = Text::from_str(alloc, "unmatched ignore configuration")?;
    labels.push(primary(id, entry.span, label))?;
    add_reason(alloc, &mut labels, id, entry.reason)?;
    Ok(Message {
        severity: Severity::Warning,
        message,
        labels,
        notes: List::new(alloc),
        nodes: List::new(alloc),
        with_features: false,
        krate: None,
    })
}

fn add_reason(
    alloc: Global,
    labels: &mut List<Label>,
    id: FileId,
    reason: Option<Span>,
) -> Result<(), NoMemory>
    ensures { OnOk result (labels.new ≡ labels.old ++ reason_label id reason) }
{
    if let Some(span) = reason {
        let label = Text::from_str(alloc, "ignore reason")?;
        labels.push(secondary(id, span, label))?;
    }
    Ok(())
}

fn replacement_message(
    alloc: Global,
    table: &ReplacementData<'_>,
    level: LintLevel,
    krates: &Krates,
    place: u32,
) -> Result<Message, NoMemory>
    ensures { IfOk result (λ message. message ≡ replacement_message level krates.now
        (said_in table.now) place) }
{
    let message = replaced_message(alloc, krates, place)?;
    let notes = notes_of(alloc, table, krates, place)?;
    let kid = kid_at(krates, place)?;
    Ok(Message {
        severity: level.severity(),
        message,
        labels: List::new(alloc),
        notes,
        nodes: List::new(alloc),
        with_features: false,
        krate: kid,
    })
}

fn replaced_message(alloc: Global, krates: &Krates, place: u32) -> Result<Text, NoMemory>
    ensures { IfOk result (λ text. text ≡ replaced_message krates.now place) }
{
    let krate = krate_text(alloc, krates, place)?;
    Ok(Text::from_string(format!(in alloc;
        "crate '{krate}' is partially or fully replaced in std and/or core"
    )?))
}

/// The note of the crate at a place, where the table has an entry for it.
fn notes_of(
    alloc: Global,
    table: &ReplacementData<'_>,
    krates: &Krates,
    place: u32,
) -> Result<List<Text>, NoMemory>
    ensures { IfOk result (λ notes. notes ≡ note_at krates.now (said_in table.now) place) }
{
    match krate_at(krates, place) {
        Some(krate) => note_of(alloc, table, krate.name.as_str()),
        None => note_of(alloc, table, ""),
    }
}

#[tactic(auto, unfolding(deny_spec_report::specs::Saying::said_in))]
fn note_of(alloc: Global, table: &ReplacementData<'_>, name: &str) -> Result<List<Text>, NoMemory>
    ensures { IfOk result (λ notes. notes ≡ note_of (said_in table.now) name.now) }
{
    let mut notes = List::new(alloc);
    if let Some(replacement) = table.entry(name) {
        notes.push(replacement_note(alloc, name, &replacement)?)?;
    }
    Ok(notes)
}
