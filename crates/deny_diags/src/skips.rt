//! The messages about skips.
ghost use Rattle.std.specs.Prelude.{◌≡◌, ◌++◌, IfOk, IsTrue, None, is_some};
ghost use Rattle.deny_base.specs.declared.level.Severity.TheVariants as severity;
ghost use Rattle.deny_cfg.specs.SpecView.{spec_view};
ghost use Rattle.deny_spec_report.specs.Skips.{skipped_diag, unmatched_skip_diag, unnecessary_skip_diag};
ghost use Rattle.deny_spec_report.specs.MessageParts.{plainly, skip_labels_at};
ghost use Rattle.deny_spec.specs.DiagParts.{skip_at, skip_text_at, spec_text};
ghost use Rattle.deny_diags.specs.private.DiagWriter.{circumstances_from};

use crate::crate_message::sentence_message;
use crate::entry_labels::skip_labels_at;
use crate::writer::DiagWriter;
use deny_base::{Key, Severity, Span};
use deny_base_lists::{NoMemory, Text};
use deny_cfg::{PackageSpec, spec_text};
use deny_diags_parts::plainly;
use deny_spec_report::Message;
use std::alloc::Global;

/// The message about a crate that a skip matches.
#[tactic(auto, unfolding(deny_spec_report::specs::Skips::skipped_diag))]
pub fn skipped_diag(alloc: Global, writer: &DiagWriter<'_>, key: &Key) -> Result<Message, NoMemory>
    requires { IsTrue (is_some (skip_at (circumstances_from writer.now).policy key.now.entry)) }
    ensures { IfOk result (λ diag. let c = circumstances_from writer.now in
        diag ≡ skipped_diag c.policy c.graph c.files.policy key.now) }
{
    let labels = skip_labels_at(alloc, writer, "skipped here", key.entry)?;
    sentence_message(
        alloc,
        writer.ctx.krates,
        Severity::Note,
        "crate '",
        key,
        "' skipped when checking for duplicates",
        labels,
    )
}

/// The message about a skip that matches no crate.
#[tactic(auto, unfolding(deny_spec_report::specs::Skips::unmatched_skip_diag))]
pub fn unmatched_skip_diag(
    alloc: Global,
    writer: &DiagWriter<'_>,
    key: &Key,
) -> Result<Message, NoMemory>
    requires { IsTrue (is_some (skip_at (circumstances_from writer.now).policy key.now.entry)) }
    ensures { IfOk result (λ diag. let c = circumstances_from writer.now in
        diag ≡ unmatched_skip_diag c.policy c.files.policy key.now) }
{
    let label = "unmatched skip configuration";
    let after = "' was not encountered";
    skip_warning(alloc, writer, "skipped crate '", key.entry, after, label)
}

/// The message about a skip without which there would be no more duplicates.
#[tactic(auto, unfolding(deny_spec_report::specs::Skips::unnecessary_skip_diag))]
pub fn unnecessary_skip_diag(
    alloc: Global,
    writer: &DiagWriter<'_>,
    key: &Key,
) -> Result<Message, NoMemory>
    requires { IsTrue (is_some (skip_at (circumstances_from writer.now).policy key.now.entry)) }
    ensures { IfOk result (λ diag. let c = circumstances_from writer.now in
        diag ≡ unnecessary_skip_diag c.policy c.files.policy key.now) }
{
    let label = "unnecessary skip configuration";
    let after = "' applied to a crate with only one version";
    skip_warning(alloc, writer, "skip '", key.entry, after, label)
}

// A warning about the skip with this span, in a sentence about it and with its labels.
fn skip_warning(
    alloc: Global,
    writer: &DiagWriter<'_>,
    before: &str,
    span: Span,
    after: &str,
    label: &str,
) -> Result<Message, NoMemory>
    requires { IsTrue (is_some (skip_at (circumstances_from writer.now).policy span)) }
    ensures { IfOk result (λ diag. let c = circumstances_from writer.now in diag ≡ plainly severity.Warning
        (before.now ++ (skip_text_at c.policy span ++ after.now))
        (skip_labels_at c.files.policy label.now c.policy span) None) }
{
    let labels = skip_labels_at(alloc, writer, label, span)?;
    let message = of_spec(alloc, before, &writer.skip(span).spec, after)?;
    Ok(plainly(alloc, Severity::Warning, message, labels, None))
}

// A sentence about a spec.
fn of_spec(alloc: Global, before: &str, spec: &PackageSpec, after: &str) -> Result<Text, NoMemory>
    ensures { IfOk result (λ text. text ≡ before.now ++ (spec_text (spec_view spec.now) ++ after.now)) }
{
    let spec = spec_text(alloc, spec)?;
    Ok(Text::from_string(format!(in alloc; "{before}{spec}{after}")?))
}
