//! Diagnostics of clashes.
ghost use Rattle.std.specs.Prelude.{◌≡◌, ◌++◌, IfOk, OnErr, OnOk, codes, if◌then◌else◌, map};
ghost use Rattle.std.specs.Fmt.{decimal};
ghost use Rattle.deny_base.specs.declared.label.LabelStyle.TheVariants.{Secondary};
ghost use Rattle.deny_cfg.specs.Clashes as spec;
ghost use Rattle.deny_cfg.specs.Clashes.{clash_labels, clash_message, clash_diag};
ghost use Rattle.deny_cfg.specs.Clashes.{extension_labels, label_of, marks, one_label};
ghost use Rattle.deny_base_lists.specs.Prefix.{GainsPrefix};

use crate::clash::{Clash, ClashKind};
use deny_base::{Diagnostic, FileId, Label, LabelStyle, Severity, Span};
use deny_base_lists::{List, NoMemory, Text};
use std::alloc::Global;

fn extension_message(ascii: bool) -> &'static str
    ensures { result.now
        ≡ (if ascii then codes "invalid file extension provided" else codes "non-ascii file extension provided") }
{
    if ascii {
        "invalid file extension provided"
    } else {
        "non-ascii file extension provided"
    }
}

fn glob_message(alloc: Global, byte: u64) -> Result<Text, NoMemory>
    ensures { IfOk result (λ message. message ≡ codes "invalid glob pattern: at byte " ++ decimal byte) }
{
    Ok(Text::from_string(format!(in alloc; "invalid glob pattern: at byte {byte}")?))
}

fn clash_message(alloc: Global, clash: &Clash) -> Result<Text, NoMemory>
    ensures { IfOk result (λ message. message ≡ clash_message clash.now.kind clash.now) }
{
    match clash.kind {
        ClashKind::WrappersOfMultiple => Text::from_str(
            alloc,
            "a crate ban was specified with both `wrappers` and `deny-multiple-versions` = true",
        ),
        ClashKind::DenyAndAllow => Text::from_str(
            alloc,
            "a crate was specified in both `allow` and `deny`",
        ),
        ClashKind::DenyAndSkip => Text::from_str(
            alloc,
            "a crate was specified in both `skip` and `deny`",
        ),
        ClashKind::AllowAndSkip => Text::from_str(
            alloc,
            "a crate was specified in both `skip` and `allow`",
        ),
        ClashKind::FeatureTwice => Text::from_str(
            alloc,
            "a crate feature was specified as both allowed and denied",
        ),
        ClashKind::Extension => Text::from_str(alloc, extension_message(clash.ascii)),
        ClashKind::Glob => glob_message(alloc, clash.number),
        ClashKind::Path => Text::from_str(alloc, "absolute paths are not allowed"),
    }
}

pub(crate) fn label_of(
    alloc: Global,
    style: LabelStyle,
    file_id: FileId,
    span: Span,
    message: &str,
) -> Result<Label, NoMemory>
    ensures { IfOk result (λ label. label ≡ label_of style file_id span message.now) }
{
    Ok(Label {
        style,
        file_id,
        span,
        message: Text::from_str(alloc, message)?,
    })
}

/// Labels at the first two spans of a clash.
fn marks(
    alloc: Global,
    file: FileId,
    clash: &Clash,
    first: &str,
    second: &str,
) -> Result<List<Label>, NoMemory>
    ensures { IfOk result (λ labels. labels ≡ marks file clash.now first.now second.now) }
{
    let mut labels = List::new(alloc);
    labels.push(label_of(alloc, LabelStyle::Secondary, file, clash.first, first)?)?;
    labels.push(label_of(alloc, LabelStyle::Secondary, file, clash.second, second)?)?;
    Ok(labels)
}

/// The labels of an entry with wrappers that denies only several versions.
fn wrapper_labels(alloc: Global, file: FileId, clash: &Clash) -> Result<List<Label>, NoMemory>
    ensures { IfOk result (λ labels. labels ≡ spec.wrapper_labels file clash.now) }
{
    let first = format!(in alloc; "has {} `wrappers`", clash.number)?;
    marks(
        alloc,
        file,
        clash,
        first.as_str(),
        "has `deny-multiple-versions` set to true",
    )
}

/// The labels of a feature that is allowed and denied.
fn feature_labels(alloc: Global, file: FileId, clash: &Clash) -> Result<List<Label>, NoMemory>
    ensures { IfOk result (λ labels. labels ≡ spec.feature_labels file clash.now) }
{
    let mut labels = List::new(alloc);
    labels.push(label_of(
        alloc,
        LabelStyle::Primary,
        file,
        clash.first,
        "crate ban entry",
    )?)?;
    labels.push(label_of(
        alloc,
        LabelStyle::Secondary,
        file,
        clash.second,
        "marked as `allow`",
    )?)?;
    labels.push(label_of(
        alloc,
        LabelStyle::Secondary,
        file,
        clash.third,
        "marked as `deny`",
    )?)?;
    Ok(labels)
}

/// One label, at the first span.
fn one_label(
    alloc: Global,
    file: FileId,
    clash: &Clash,
    message: &str,
) -> Result<List<Label>, NoMemory>
    ensures { IfOk result (λ labels. labels ≡ one_label file clash.now message.now) }
{
    let mut labels = List::new(alloc);
    labels.push(label_of(alloc, LabelStyle::Primary, file, clash.first, message)?)?;
    Ok(labels)
}

/// The labels of an extension.
fn extension_labels(alloc: Global, file: FileId, clash: &Clash) -> Result<List<Label>, NoMemory>
    ensures { IfOk result (λ labels. labels ≡ extension_labels file clash.now) }
{
    if !clash.ascii {
        return one_label(alloc, file, clash, "invalid extension");
    }
    let mut labels = one_label(alloc, file, clash, "extension")?;
    labels.push(label_of(
        alloc,
        LabelStyle::Secondary,
        file,
        clash.second,
        "invalid character",
    )?)?;
    Ok(labels)
}

fn clash_labels(alloc: Global, file: FileId, clash: &Clash) -> Result<List<Label>, NoMemory>
    ensures { IfOk result (λ labels. labels ≡ clash_labels clash.now.kind file clash.now) }
{
    match clash.kind {
        ClashKind::WrappersOfMultiple => wrapper_labels(alloc, file, clash),
        ClashKind::DenyAndAllow => marks(
            alloc,
            file,
            clash,
            "marked as `deny`",
            "marked as `allow`",
        ),
        ClashKind::DenyAndSkip => marks(alloc, file, clash, "marked as `deny`", "marked as `skip`"),
        ClashKind::AllowAndSkip => marks(
            alloc,
            file,
            clash,
            "marked as `allow`",
            "marked as `skip`",
        ),
        ClashKind::FeatureTwice => feature_labels(alloc, file, clash),
        ClashKind::Extension => extension_labels(alloc, file, clash),
        ClashKind::Glob => one_label(alloc, file, clash, ""),
        ClashKind::Path => one_label(alloc, file, clash, ""),
    }
}

#[tactic(auto, unfolding(crate::specs::Clashes::clash_diag))]
fn clash_diag(alloc: Global, file: FileId, clash: &Clash) -> Result<Diagnostic, NoMemory>
    ensures { IfOk result (λ reported. reported ≡ clash_diag file clash.now) }
{
    Ok(Diagnostic {
        severity: Severity::Error,
        code: None,
        message: clash_message(alloc, clash)?,
        labels: clash_labels(alloc, file, clash)?,
        notes: List::new(alloc),
    })
}

/// Reports the clashes of a file, in order, behind the other diagnostics. When out of memory, a
/// prefix of them is reported.
pub fn report_clashes(
    alloc: Global,
    file: FileId,
    clashes: &[Clash],
    reported: &mut List<Diagnostic>,
) -> Result<(), NoMemory>
    ensures ok { OnOk result (reported.new ≡ reported.old ++ map (clash_diag file) clashes.now) }
    ensures err { OnErr result (GainsPrefix (map (clash_diag file) clashes.now) reported.old reported.new) }
{
    for clash in clashes {
        reported.push(clash_diag(alloc, file, clash)?)?;
    }
    Ok(())
}
