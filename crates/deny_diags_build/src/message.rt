//! Messages about the crate of a key, with notes or a label; and the file and the bypass of a key.
ghost use Rattle.std.specs.Prelude.{◌≡◌, ◌∷◌, [], IfOk, option_map};
ghost use Rattle.deny_cfg_build.specs.BuildingView.{building_view, bypass_view};
ghost use Rattle.deny_spec.specs.Unseen.{package_at};
ghost use Rattle.deny_diags_build.specs.AtHand.{IsAtHand};
ghost use Rattle.deny_spec_report.specs.PackageDiags.{file_shown, used_by_key};
ghost use Rattle.deny_spec_report.specs.MessageParts.{plainly};
ghost use Rattle.deny_spec.specs.DiagParts.{kid_at, primary};
ghost use Rattle.deny_diags_parts.specs.Context.{circumstances_from};

use crate::at_hand::AtHand;
use deny_base::{Key, Label, Severity};
use deny_base_lists::{List, NoMemory, Text};
use deny_build_bypass::used;
use deny_cfg_build::{ValidBuildConfig, ValidBypass};
use deny_diags_parts::{DiagContext, lone_label};
use deny_krates::{Krates, kid_at, krate_at};
use deny_spec::{Package, PackageFile};
use deny_spec_report::Message;
use std::alloc::Global;

/// A message about the crate of a key, with notes. Such messages are made here alone, so that no other
/// function drops a text, labels and notes where memory for the crate's name runs out.
pub fn noted_message(
    alloc: Global,
    krates: &Krates,
    key: &Key,
    severity: Severity,
    message: Text,
    labels: List<Label>,
    notes: List<Text>,
) -> Result<Message, NoMemory>
    ensures { IfOk result (λ diag. diag ≡ record
        (plainly severity message labels (kid_at krates.now key.now.place)) { notes = notes }) }
{
    let krate = kid_at(krates, key.place)?;
    Ok(Message {
        severity,
        message,
        labels,
        notes,
        nodes: List::new(alloc),
        with_features: false,
        krate,
    })
}

/// A message about the crate of a key, with a fixed text and these notes.
pub fn with_notes(
    alloc: Global,
    krates: &Krates,
    key: &Key,
    severity: Severity,
    message: &str,
    labels: List<Label>,
    notes: List<Text>,
) -> Result<Message, NoMemory>
    ensures { IfOk result (λ diag. diag ≡ record
        (plainly severity message.now labels (kid_at krates.now key.now.place)) { notes = notes }) }
{
    let message = Text::from_str(alloc, message)?;
    noted_message(alloc, krates, key, severity, message, labels, notes)
}

/// A message about the crate of a key, with one label, at the entry of the key.
pub fn at_entry(
    alloc: Global,
    ctx: &DiagContext<'_>,
    key: &Key,
    severity: Severity,
    message: &str,
    label: &str,
) -> Result<Message, NoMemory>
    ensures { IfOk result (λ diag. diag ≡ plainly severity message.now
        (primary ctx.now.cfg.now.file_id key.now.entry label.now ∷ []) (kid_at ctx.now.krates.now key.now.place)) }
{
    let labels = lone_label(alloc, ctx.cfg.file_id, key.entry, label)?;
    with_notes(
        alloc,
        ctx.krates,
        key,
        severity,
        message,
        labels,
        List::new(alloc),
    )
}

/// The file that a key shows, where it shows one.
pub fn file_of_key<'c>(_packages: &[Package], at: &AtHand<'c>, key: &Key) -> Option<&'c PackageFile>
    requires { IsAtHand _packages.now key.now.place at.now }
    ensures { option_map (λ file. file.now) result
        ≡ file_shown (package_at _packages.now key.now.place) key.now.text }
{
    at.file(key.text.as_str())
}

/// The bypass of the crate of a key.
pub fn used_by_key<'c>(
    ctx: &DiagContext<'_>,
    build: &'c ValidBuildConfig,
    key: &Key,
) -> Option<&'c ValidBypass>
    ensures { option_map (λ bypass. bypass_view bypass.now) result
        ≡ used_by_key (building_view build.now) (circumstances_from ctx.now) key.now }
{
    let krate = krate_at(ctx.krates, key.place)?;
    used(build, krate)
}
