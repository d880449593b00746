//! Labels of spans of files.
ghost use Rattle.std.specs.Prelude.{◌≡◌};
ghost use Rattle.deny_spec.specs.DiagParts.{primary, secondary};

use deny_base::{FileId, Label, LabelStyle, Span};
use deny_base_lists::Text;

/// The label of what a finding is about.
pub fn primary(file: FileId, span: Span, message: Text) -> Label
    ensures { result ≡ primary file span message }
{
    Label {
        style: LabelStyle::Primary,
        file_id: file,
        span,
        message,
    }
}

/// The label of what helps to understand a finding.
pub fn secondary(file: FileId, span: Span, message: Text) -> Label
    ensures { result ≡ secondary file span message }
{
    Label {
        style: LabelStyle::Secondary,
        file_id: file,
        span,
        message,
    }
}
