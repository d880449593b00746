//! The labels of an entry of the policy.
ghost use Rattle.std.specs.Prelude.{◌≡◌, ◌++◌, IfOk, IsTrue, OnOk, is_some, option_map};
ghost use Rattle.deny_base.specs.declared.span.Spanned.{Spanned};
ghost use Rattle.deny_cfg.specs.PolicyView.{allow_view, ban_view, entry_view, root_view};
ghost use Rattle.deny_cfg.specs.SpecView.{spec_view};
ghost use Rattle.deny_spec_report.specs.MessageParts.{allow_labels_at, ban_labels_at, root_labels_at, skip_labels_at};
ghost use Rattle.deny_spec.specs.DiagParts.{allow_at, ban_at, label_at, root_at, skip_at, spec_labels};
ghost use Rattle.deny_diags.specs.private.DiagWriter.{circumstances_from};

use crate::writer::DiagWriter;
use deny_base::{FileId, Label, Span, Spanned};
use deny_base_lists::{List, NoMemory, Text};
use deny_cfg::bans::cfg::{CrateAllow, CrateSkip, KrateBan, TreeSkipExtended};
use deny_cfg::{PackageSpec, PackageSpecOrExtended, Waiver};
use deny_diags_parts::{Labels, lone_label, secondary};
use std::alloc::Global;

// Appends a label at a text of an entry, where the entry writes it.
fn add_label(
    alloc: Global,
    labels: &mut List<Label>,
    file: FileId,
    message: &str,
    written: Option<&Spanned<Text>>,
) -> Result<(), NoMemory>
    ensures { OnOk result (labels.new ≡ labels.old
        ++ label_at file message.now (option_map (λ w. w.now) written.entry)) }
{
    if let Some(written) = written {
        labels.push(secondary(alloc, file, written.span, message)?)?;
    }
    Ok(())
}

// The labels of an entry: at its name, its reason, and the crate to use instead.
#[tactic(auto, unfolding(deny_spec::specs::DiagParts::spec_labels))]
fn spec_labels(
    alloc: Global,
    file: FileId,
    message: &str,
    spec: &PackageSpec,
    reason: Option<&Spanned<Text>>,
    use_instead: Option<&Spanned<Text>>,
) -> Labels
    ensures { IfOk result (λ labels. labels ≡ spec_labels file message.now (spec_view spec.now)
        (option_map (λ w. w.now) reason.entry) (option_map (λ w. w.now) use_instead.entry)) }
{
    let mut labels = lone_label(alloc, file, spec.name.span, message)?;
    add_label(alloc, &mut labels, file, "reason", reason)?;
    add_label(alloc, &mut labels, file, "use instead", use_instead)?;
    Ok(labels)
}

/// The labels of the ban with this span.
pub fn ban_labels_at(alloc: Global, writer: &DiagWriter<'_>, message: &str, span: Span) -> Labels
    requires { IsTrue (is_some (ban_at (circumstances_from writer.now).policy span)) }
    ensures { IfOk result (λ labels. let c = circumstances_from writer.now in
        labels ≡ ban_labels_at c.files.policy message.now c.policy span) }
{
    let ban = writer.ban(span).ban;
    spec_labels(
        alloc,
        writer.ctx.cfg.file_id,
        message,
        &ban.spec,
        reason_of_ban(ban),
        use_instead_of(ban),
    )
}

fn reason_of_ban(ban: &PackageSpecOrExtended<KrateBan>) -> Option<&Spanned<Text>>
    ensures { option_map (λ w. w.now) result ≡ (ban_view ban.now).reason }
{
    match &ban.inner {
        Some(
            KrateBan {
                reason: Some(reason),
                ..
            },
        ) => Some(&reason.0),
        _ => None,
    }
}

fn use_instead_of(ban: &PackageSpecOrExtended<KrateBan>) -> Option<&Spanned<Text>>
    ensures { option_map (λ w. w.now) result ≡ (ban_view ban.now).use_instead }
{
    match &ban.inner {
        Some(inner) => inner.use_instead.as_ref(),
        None => None,
    }
}

/// The labels of the allow list's entry with this span.
pub fn allow_labels_at(alloc: Global, writer: &DiagWriter<'_>, message: &str, span: Span) -> Labels
    requires { IsTrue (is_some (allow_at (circumstances_from writer.now).policy span)) }
    ensures { IfOk result (λ labels. let c = circumstances_from writer.now in
        labels ≡ allow_labels_at c.files.policy message.now c.policy span) }
{
    let entry = writer.allow(span);
    let reason = reason_of_allow(entry);
    spec_labels(
        alloc,
        writer.ctx.cfg.file_id,
        message,
        &entry.spec,
        reason,
        None,
    )
}

fn reason_of_allow(entry: &CrateAllow) -> Option<&Spanned<Text>>
    ensures { option_map (λ w. w.now) result ≡ (allow_view entry.now).reason }
{
    match &entry.inner {
        Some(reason) => Some(&reason.0),
        None => None,
    }
}

/// The labels of the skip with this span.
pub fn skip_labels_at(alloc: Global, writer: &DiagWriter<'_>, message: &str, span: Span) -> Labels
    requires { IsTrue (is_some (skip_at (circumstances_from writer.now).policy span)) }
    ensures { IfOk result (λ labels. let c = circumstances_from writer.now in
        labels ≡ skip_labels_at c.files.policy message.now c.policy span) }
{
    let entry = writer.skip(span);
    let reason = reason_of_skip(entry);
    spec_labels(
        alloc,
        writer.ctx.cfg.file_id,
        message,
        &entry.spec,
        reason,
        None,
    )
}

fn reason_of_skip(entry: &CrateSkip) -> Option<&Spanned<Text>>
    ensures { option_map (λ w. w.now) result ≡ (entry_view entry.now).reason }
{
    match &entry.inner {
        Some(
            Waiver {
                reason: Some(reason),
                ..
            },
        ) => Some(&reason.0),
        _ => None,
    }
}

/// The labels of the skipped tree with this span.
pub fn root_labels_at(alloc: Global, writer: &DiagWriter<'_>, message: &str, span: Span) -> Labels
    requires { IsTrue (is_some (root_at (circumstances_from writer.now).policy span)) }
    ensures { IfOk result (λ labels. let c = circumstances_from writer.now in
        labels ≡ root_labels_at c.files.policy message.now c.policy span) }
{
    let root = writer.root(span);
    let reason = reason_of_root(root);
    spec_labels(
        alloc,
        writer.ctx.cfg.file_id,
        message,
        &root.spec,
        reason,
        None,
    )
}

fn reason_of_root(root: &PackageSpecOrExtended<TreeSkipExtended>) -> Option<&Spanned<Text>>
    ensures { option_map (λ w. w.now) result ≡ (root_view 0 root.now).reason }
{
    match &root.inner {
        Some(
            TreeSkipExtended {
                reason: Some(reason),
                ..
            },
        ) => Some(&reason.0),
        _ => None,
    }
}
