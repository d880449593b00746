//! The messages about bans, and about the wrappers that waive them.
ghost use Rattle.std.specs.Prelude.{◌≡◌, ◌++◌, IfOk, IsTrue, is_some};
ghost use Rattle.deny_spec_report.specs.Bans.{allowed_by_wrapper_diag, banned_diag};
ghost use Rattle.deny_spec_report.specs.Bans.{unmatched_wrapper_diag, wrapper_labels_at};
ghost use Rattle.deny_spec.specs.DiagParts.{ban_at, crate_text_at};
ghost use Rattle.deny_diags.specs.private.DiagWriter.{circumstances_from};

use crate::crate_message::sentence_message;
use crate::entry_labels::ban_labels_at;
use crate::writer::DiagWriter;
use deny_base::{Key, Severity};
use deny_base_lists::{List, NoMemory, Text};
use deny_diags_parts::{Labels, crate_message, lone_label, primary};
use deny_krates::{Krates, krate_text};
use deny_rules_match::span_at;
use deny_spec_report::Message;
use std::alloc::Global;

/// The message about a crate that is banned.
#[tactic(auto, unfolding(deny_spec_report::specs::Bans::banned_diag))]
pub fn banned_diag(alloc: Global, writer: &DiagWriter<'_>, key: &Key) -> Result<Message, NoMemory>
    requires { IsTrue (is_some (ban_at (circumstances_from writer.now).policy key.now.entry)) }
    ensures { IfOk result (λ diag. let c = circumstances_from writer.now in
        diag ≡ banned_diag c.policy c.graph c.files.policy key.now) }
{
    let labels = ban_labels_at(alloc, writer, "banned here", key.entry)?;
    sentence_message(
        alloc,
        writer.ctx.krates,
        Severity::Error,
        "crate '",
        key,
        "' is explicitly banned",
        labels,
    )
}

/// The message about a wrapper by which a banned crate is allowed.
#[tactic(auto, unfolding(deny_spec_report::specs::Bans::allowed_by_wrapper_diag))]
pub fn allowed_by_wrapper_diag(
    alloc: Global,
    writer: &DiagWriter<'_>,
    key: &Key,
) -> Result<Message, NoMemory>
    requires { IsTrue (is_some (ban_at (circumstances_from writer.now).policy key.now.entry)) }
    ensures { IfOk result (λ diag. let c = circumstances_from writer.now in
        diag ≡ allowed_by_wrapper_diag c.policy c.graph c.files.policy key.now) }
{
    let labels = wrapper_labels_at(alloc, writer, key)?;
    let krates = writer.ctx.krates;
    let message = of_crates(
        alloc,
        krates,
        "banned crate '",
        key.place,
        "' allowed by wrapper '",
        key.other,
        "'",
    )?;
    crate_message(alloc, krates, key, Severity::Note, message, labels)
}

// The labels at the ban of a key, and at its wrapper with the name of the key's dependent.
fn wrapper_labels_at(alloc: Global, writer: &DiagWriter<'_>, key: &Key) -> Labels
    requires { IsTrue (is_some (ban_at (circumstances_from writer.now).policy key.now.entry)) }
    ensures { IfOk result (λ labels. let c = circumstances_from writer.now in
        labels ≡ wrapper_labels_at c.files.policy c.policy c.graph key.now) }
{
    let found = writer.ban(key.entry);
    let Some(wrapper) = span_at(writer.ctx.krates, &found.spans, key.other) else {
        return Ok(List::new(alloc));
    };
    let file = writer.ctx.cfg.file_id;
    let mut labels = lone_label(alloc, file, found.ban.spec.name.span, "banned here")?;
    labels.push(primary(alloc, file, wrapper, "allowed wrapper")?)?;
    Ok(labels)
}

/// The message about a dependent of a banned crate that is no wrapper.
#[tactic(auto, unfolding(deny_spec_report::specs::Bans::unmatched_wrapper_diag))]
pub fn unmatched_wrapper_diag(
    alloc: Global,
    writer: &DiagWriter<'_>,
    key: &Key,
) -> Result<Message, NoMemory>
    requires { IsTrue (is_some (ban_at (circumstances_from writer.now).policy key.now.entry)) }
    ensures { IfOk result (λ diag. let c = circumstances_from writer.now in
        diag ≡ unmatched_wrapper_diag c.policy c.graph c.files.policy key.now) }
{
    let labels = ban_labels_at(alloc, writer, "banned here", key.entry)?;
    let krates = writer.ctx.krates;
    let message = of_crates(
        alloc,
        krates,
        "direct parent '",
        key.other,
        "' of banned crate '",
        key.place,
        "' was not marked as a wrapper",
    )?;
    crate_message(alloc, krates, key, Severity::Warning, message, labels)
}

// A sentence about the crates at two places.
fn of_crates(
    alloc: Global,
    krates: &Krates,
    before: &str,
    first: u32,
    between: &str,
    second: u32,
    after: &str,
) -> Result<Text, NoMemory>
    ensures { IfOk result (λ text. text ≡ before.now ++ (crate_text_at krates.now first
        ++ (between.now ++ (crate_text_at krates.now second ++ after.now)))) }
{
    let first = krate_text(alloc, krates, first)?;
    let second = krate_text(alloc, krates, second)?;
    Ok(Text::from_string(format!(in alloc; "{before}{first}{between}{second}{after}")?))
}
