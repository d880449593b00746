//! The parts of a message: the crate at a place, sentences, and labels.
ghost use Rattle.std.specs.Prelude.{◌≡◌, ◌∷◌, [], IfOk};
ghost use Rattle.deny_spec_report.specs.MessageParts.{not_built, plainly};
ghost use Rattle.deny_spec.specs.DiagParts.{kid_at, of_crate, primary, secondary};

use deny_base::{FileId, Key, Kid, Label, Severity, Span};
use deny_base_lists::{List, NoMemory, Text};
use deny_krates::{Krates, kid_at, krate_text};
use deny_spec_report::Message;
use std::alloc::Global;

/// Labels, or no memory for them.
pub type Labels = Result<List<Label>, NoMemory>;

/// A sentence about the crate of a key.
pub fn of_crate(
    alloc: Global,
    krates: &Krates,
    before: &str,
    key: &Key,
    after: &str,
) -> Result<Text, NoMemory>
    ensures { IfOk result (λ text. text ≡ of_crate before.now krates.now key.now after.now) }
{
    let krate = krate_text(alloc, krates, key.place)?;
    Ok(Text::from_string(format!(in alloc; "{before}{krate}{after}")?))
}

/// A primary label.
pub fn primary(alloc: Global, file: FileId, span: Span, message: &str) -> Result<Label, NoMemory>
    ensures { IfOk result (λ label. label ≡ primary file span message.now) }
{
    let message = Text::from_str(alloc, message)?;
    Ok(deny_spec::primary(file, span, message))
}

/// A secondary label.
pub fn secondary(alloc: Global, file: FileId, span: Span, message: &str) -> Result<Label, NoMemory>
    ensures { IfOk result (λ label. label ≡ secondary file span message.now) }
{
    let message = Text::from_str(alloc, message)?;
    Ok(deny_spec::secondary(file, span, message))
}

/// A primary label alone.
pub fn lone_label(alloc: Global, file: FileId, span: Span, message: &str) -> Labels
    ensures { IfOk result (λ labels. labels ≡ primary file span message.now ∷ []) }
{
    let mut labels = List::new(alloc);
    labels.push(primary(alloc, file, span, message)?)?;
    Ok(labels)
}

/// A message without notes that shows no crates but the finding's own.
pub fn plainly(
    alloc: Global,
    severity: Severity,
    message: Text,
    labels: List<Label>,
    krate: Option<Kid>,
) -> Message
    ensures { result ≡ plainly severity message labels krate }
{
    Message {
        severity,
        message,
        labels,
        notes: List::new(alloc),
        nodes: List::new(alloc),
        with_features: false,
        krate,
    }
}

/// A message about the crate of a key, without notes. Such messages are made here alone, so that no other
/// function drops a text and labels where memory for the crate's name runs out.
pub fn crate_message(
    alloc: Global,
    krates: &Krates,
    key: &Key,
    severity: Severity,
    message: Text,
    labels: List<Label>,
) -> Result<Message, NoMemory>
    ensures { IfOk result (λ diag. diag ≡ plainly severity message labels (kid_at krates.now key.now.place)) }
{
    let krate = kid_at(krates, key.place)?;
    Ok(plainly(alloc, severity, message, labels, krate))
}

/// The message of a code without a rule in the policy.
pub fn not_built(alloc: Global) -> Message
    ensures { result ≡ not_built }
{
    plainly(
        alloc,
        Severity::Warning,
        Text::new(alloc),
        List::new(alloc),
        None,
    )
}
