//! The warnings about a policy itself: about the older key that stands for the table `build`, and about each waiver
//! that expired.
ghost use Rattle.std.specs.Prelude.{◌≡◌, ◌++◌, IfOk, OnErr, OnOk, codes, map, option_map};
ghost use Rattle.deny_spec.specs.DiagParts.{label_at};
ghost use Rattle.deny_spec.specs.Expired.{expired_labels, expired_message};
ghost use Rattle.deny_cfg.specs.PolicyView.{past_waiver_view, reason_words};
ghost use Rattle.deny_cfg.specs.Warnings.{deprecated_diag, expired_diag, expired_warnings, warnings_by};

use crate::clash_diag::label_of;
use crate::expired::ExpiredWaiver;
use crate::shown::spec_text;
use deny_base::{Diagnostic, DiagnosticCode, FileId, Label, LabelStyle, Severity, Span};
use deny_base_lists::{List, NoMemory, Text};
use deny_cfg_entries::Reason;
use std::alloc::Global;

/// The warning about the older key, in the policy's file.
#[tactic(auto, unfolding(crate::specs::Warnings::deprecated_diag))]
pub fn deprecated_diag(alloc: Global, file: FileId, span: Span) -> Result<Diagnostic, NoMemory>
    ensures { IfOk result (λ reported. reported ≡ deprecated_diag file span) }
{
    let message = concat!(
        "[bans.allow-build-scripts] has been deprecated in favor of [bans.build.allow-build-scripts], ",
        "this will become an error in the future",
    );
    let mut labels = List::new(alloc);
    labels.push(label_of(alloc, LabelStyle::Primary, file, span, "")?)?;
    Ok(Diagnostic {
        severity: Severity::Warning,
        code: Some(DiagnosticCode::Deprecated),
        message: Text::from_str(alloc, message)?,
        labels,
        notes: List::new(alloc),
    })
}

/// Reports the older key, if it stands for the table, behind the other diagnostics. When out of memory, nothing
/// changes.
pub fn report_deprecated(
    alloc: Global,
    file: FileId,
    older_key: Option<Span>,
    reported: &mut List<Diagnostic>,
) -> Result<(), NoMemory>
    ensures ok { OnOk result (reported.new ≡ reported.old ++ warnings_by file older_key) }
    ensures err { OnErr result (reported.new ≡ reported.old) }
{
    match older_key {
        Some(span) => reported.push(deprecated_diag(alloc, file, span)?),
        None => Ok(()),
    }
}

#[tactic(auto, unfolding(deny_spec::specs::Expired::expired_message))]
fn expired_message(alloc: Global, waiver: &ExpiredWaiver) -> Result<Text, NoMemory>
    ensures { IfOk result (λ message. message ≡ expired_message (past_waiver_view waiver.now)) }
{
    let spec = spec_text(alloc, &waiver.spec)?;
    let day = &waiver.expires.value.written;
    Ok(Text::from_string(format!(in alloc; "waiver '{spec}' expired on {day}")?))
}

/// Adds the label at a reason, if there is one.
fn add_reason(
    alloc: Global,
    file: FileId,
    reason: &Option<Reason>,
    labels: &mut List<Label>,
) -> Result<(), NoMemory>
    ensures { OnOk result (labels.new
        ≡ labels.old ++ label_at file (codes "reason") (option_map reason_words reason.now)) }
{
    match reason {
        Some(reason) => labels.push(label_of(
            alloc,
            LabelStyle::Secondary,
            file,
            reason.0.span,
            "reason",
        )?),
        None => Ok(()),
    }
}

#[tactic(auto, unfolding(deny_spec::specs::Expired::expired_labels))]
fn expired_labels(
    alloc: Global,
    file: FileId,
    waiver: &ExpiredWaiver,
) -> Result<List<Label>, NoMemory>
    ensures { IfOk result (λ labels. labels ≡ expired_labels file (past_waiver_view waiver.now)) }
{
    let mut labels = List::new(alloc);
    labels.push(label_of(
        alloc,
        LabelStyle::Primary,
        file,
        waiver.expires.span,
        "expired here",
    )?)?;
    add_reason(alloc, file, &waiver.reason, &mut labels)?;
    Ok(labels)
}

/// The warning about a waiver that expired, in the policy's file.
#[tactic(auto, unfolding(crate::specs::Warnings::expired_diag))]
pub fn expired_diag(
    alloc: Global,
    file: FileId,
    waiver: &ExpiredWaiver,
) -> Result<Diagnostic, NoMemory>
    ensures { IfOk result (λ reported. reported ≡ expired_diag file (past_waiver_view waiver.now)) }
{
    Ok(Diagnostic {
        severity: Severity::Warning,
        code: Some(DiagnosticCode::Expired),
        message: expired_message(alloc, waiver)?,
        labels: expired_labels(alloc, file, waiver)?,
        notes: List::new(alloc),
    })
}

/// Reports each waiver that expired, behind the other diagnostics.
pub fn report_expired(
    alloc: Global,
    file: FileId,
    waivers: &[ExpiredWaiver],
    reported: &mut List<Diagnostic>,
) -> Result<(), NoMemory>
    ensures { OnOk result (reported.new
        ≡ reported.old ++ expired_warnings file (map past_waiver_view waivers.now)) }
{
    for waiver in waivers {
        reported.push(expired_diag(alloc, file, waiver)?)?;
    }
    Ok(())
}
