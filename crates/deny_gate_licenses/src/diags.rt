//! Diagnostics of crates, and of entries that grant nothing.
ghost use Rattle.std.specs.Prelude.{◌≡◌, ◌++◌, ◌∷◌, [], None, IfOk, OnOk, map};
ghost use Rattle.deny_spec_report.specs.Licences.{licence_text, with_text};
ghost use Rattle.deny_spec_report.specs.MessageParts.{plainly};
ghost use Rattle.deny_krates.specs.Crates.{crate_view};
ghost use Rattle.deny_spec.specs.Graph.{crate_text};
ghost use Rattle.deny_spec.specs.DiagParts.{primary};
ghost use Rattle.deny_gate_licenses.specs.declared.judgement.Judgement.TheVariants.{Unreadable};
ghost use Rattle.deny_gate_licenses.specs.private.Reported.{judged_message, judged_notes, judged_pack};
ghost use Rattle.deny_gate_licenses.specs.private.Reported.{judged_severity, judgement_message, unused_pack};
ghost use Rattle.deny_gate_licenses.specs.private.Reported.{unused_message};

use crate::granter::Granter;
use crate::judgement::{Judgement, licence_text};
use deny_base::{DiagnosticCode, FileId, LintLevel, Pack, Section, Severity, Span};
use deny_base_lists::{List, NoMemory, Text};
use deny_krates::Krate;
use deny_spec::{key_of, no_span, primary};
use deny_spec_report::{Message, pack_of};
use std::alloc::Global;

/// Appends a pack for each unused entry.
pub fn report_unused(
    alloc: Global,
    level: LintLevel,
    id: FileId,
    unused: &[Granter],
    packs: &mut List<Pack>,
) -> Result<(), NoMemory>
    ensures { OnOk result (packs.new ≡ packs.old ++ map (unused_pack level id) unused.now) }
{
    for by in unused {
        packs.push(unused_pack(alloc, level, id, *by)?)?;
    }
    Ok(())
}

#[tactic(auto, unfolding(crate::specs::private::Reported::unused_pack))]
fn unused_pack(alloc: Global, level: LintLevel, id: FileId, by: Granter) -> Result<Pack, NoMemory>
    ensures { IfOk result (λ pack. pack ≡ unused_pack level id by) }
{
    let code = DiagnosticCode::License(by.unused_code());
    let key = key_of(alloc, Section::LicensesUnused, code, 0, by.span());
    pack_of(alloc, key, unused_message(alloc, level, id, by)?)
}

fn unused_message(
    alloc: Global,
    level: LintLevel,
    id: FileId,
    by: Granter,
) -> Result<Message, NoMemory>
    ensures { IfOk result (λ message. message ≡ unused_message level id by) }
{
    match by {
        Granter::Allowance(span) => entry_message(
            alloc,
            level.severity(),
            "license was not encountered",
            id,
            span,
            "unmatched license allowance",
        ),
        Granter::Exception(span) => entry_message(
            alloc,
            Severity::Warning,
            "license exception was not encountered",
            id,
            span,
            "unmatched license exception",
        ),
    }
}

/// The message of an unused entry, with a label at its span.
fn entry_message(
    alloc: Global,
    severity: Severity,
    message: &str,
    id: FileId,
    span: Span,
    label: &str,
) -> Result<Message, NoMemory>
    ensures { IfOk result (λ made. made
        ≡ plainly severity message.now (primary id span label.now ∷ []) None) }
{
    let message = Text::from_str(alloc, message)?;
    let label = Text::from_str(alloc, label)?;
    let mut labels = List::new(alloc);
    labels.push(primary(id, span, label))?;
    Ok(Message {
        severity,
        message,
        labels,
        notes: List::new(alloc),
        nodes: List::new(alloc),
        with_features: false,
        krate: None,
    })
}

/// The pack of the crate at a place, by its judgement.
#[tactic(auto, unfolding(crate::specs::private::Reported::judged_pack))]
pub fn judged_pack(
    alloc: Global,
    place: u32,
    krate: &Krate,
    judgement: Judgement,
) -> Result<Pack, NoMemory>
    ensures { IfOk result (λ pack. pack ≡ judged_pack (crate_view place krate.now) judgement) }
{
    let code = DiagnosticCode::License(judgement.code());
    let key = key_of(alloc, Section::Licenses, code, place, no_span());
    pack_of(alloc, key, judgement_message(alloc, krate, judgement)?)
}

fn judgement_message(
    alloc: Global,
    krate: &Krate,
    judgement: Judgement,
) -> Result<Message, NoMemory>
    ensures { IfOk result (λ message. message ≡ judgement_message (crate_view 0 krate.now) judgement) }
{
    let severity = severity_of(&judgement);
    let message = message_of(alloc, krate, &judgement)?;
    let notes = notes_of(alloc, krate, judgement)?;
    let kid = krate.id.clone()?;
    Ok(Message {
        severity,
        message,
        labels: List::new(alloc),
        notes,
        nodes: List::new(alloc),
        with_features: false,
        krate: Some(kid),
    })
}

fn severity_of(judgement: &Judgement) -> Severity
    ensures { result ≡ judged_severity judgement.now }
{
    match judgement {
        Judgement::Private | Judgement::Accepted(_) => Severity::Note,
        Judgement::Unlicensed | Judgement::Unreadable(_) | Judgement::Rejected(_, _) => {
            Severity::Error
        }
    }
}

fn message_of(alloc: Global, krate: &Krate, judgement: &Judgement) -> Result<Text, NoMemory>
    ensures { IfOk result (λ text. text ≡ judged_message (crate_view 0 krate.now) judgement.now) }
{
    match judgement {
        Judgement::Private => around(alloc, "skipping private workspace crate '", krate, "'"),
        Judgement::Unlicensed => around(alloc, "crate '", krate, "' is unlicensed"),
        Judgement::Unreadable(place) => unreadable_message(alloc, krate, *place),
        Judgement::Accepted(_) => Text::from_str(alloc, "license requirements satisfied"),
        Judgement::Rejected(_, _) => Text::from_str(
            alloc,
            "failed to satisfy license requirements",
        ),
    }
}

/// The text of a crate between two texts.
fn around(alloc: Global, before: &str, krate: &Krate, after: &str) -> Result<Text, NoMemory>
    ensures { IfOk result (λ text. text ≡ before.now ++ (crate_text (crate_view 0 krate.now) ++ after.now)) }
{
    Ok(Text::from_string(format!(in alloc; "{before}{krate}{after}")?))
}

fn unreadable_message(alloc: Global, krate: &Krate, place: usize) -> Result<Text, NoMemory>
    ensures { IfOk result (λ text. text ≡ judged_message (crate_view 0 krate.now) (Unreadable place)) }
{
    Ok(Text::from_string(format!(in alloc;
        "license expression of crate '{krate}' can't be read at byte {place}"
    )?))
}

fn notes_of(alloc: Global, krate: &Krate, judgement: Judgement) -> Result<List<Text>, NoMemory>
    ensures { IfOk result (λ notes. notes ≡ judged_notes (crate_view 0 krate.now) judgement) }
{
    match judgement {
        Judgement::Private | Judgement::Unlicensed => Ok(List::new(alloc)),
        Judgement::Unreadable(_) | Judgement::Accepted(_) => notes_with_text(
            alloc,
            krate,
            List::new(alloc),
        ),
        Judgement::Rejected(_, notes) => notes_with_text(alloc, krate, notes),
    }
}

/// A note of the crate's licence text, followed by other notes.
fn notes_with_text(alloc: Global, krate: &Krate, others: List<Text>) -> Result<List<Text>, NoMemory>
    ensures { IfOk result (λ notes. notes ≡ with_text (licence_text (crate_view 0 krate.now)) ∷ others) }
{
    let mut others = others;
    let mut notes = List::new(alloc);
    notes.push(text_note(alloc, licence_text(krate))?)?;
    notes.vec.append(&mut others.vec)?;
    Ok(notes)
}

fn text_note(alloc: Global, text: &str) -> Result<Text, NoMemory>
    ensures { IfOk result (λ note. note ≡ with_text text.now) }
{
    Ok(Text::from_string(format!(in alloc; "license = '{text}'")?))
}
