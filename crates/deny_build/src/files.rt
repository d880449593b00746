//! The finding of a file.
ghost use Rattle.std.specs.Prelude.{◌≡◌, None, option_map};
ghost use Rattle.deny_cfg_build.specs.BuildingView.{checksum_view, path_view};
ghost use Rattle.deny_spec_report.specs.PackageFiles.{BySum, class_by, class_by_header, class_of_kind, step_allowed};
ghost use Rattle.deny_spec_report.specs.PackageFiles.{step_by};
ghost use Rattle.deny_build.specs.private.Files.{finding, finding_by};

use deny_base::{Code, Span, Spanned};
use deny_build_bypass::has_sum;
use deny_cfg_tables::bans::cfg::{BypassPath, Checksum};
use deny_spec::{ExecutableKind, Found, no_span};

/// The finding of a file: a code, and the span of an entry.
#[derive(Clone, Copy)]
pub struct FileFinding {
    pub code: Code,
    pub entry: Span,
}

fn finding(code: Code, entry: Span) -> Option<FileFinding>
    ensures { result ≡ finding code entry }
{
    Some(FileFinding { code, entry })
}

fn finding_by_kind(kind: &Option<ExecutableKind>) -> Option<FileFinding>
    ensures { result ≡ finding_by (class_of_kind kind.now) }
{
    match kind {
        None => None,
        Some(ExecutableKind::Native(_)) => finding(Code::DetectedExecutable, no_span()),
        Some(ExecutableKind::Interpreted(_)) => finding(Code::DetectedExecutableScript, no_span()),
    }
}

/// The finding of a file by its first bytes.
fn finding_by_header(found: &Found) -> Option<FileFinding>
    ensures { result ≡ finding_by (class_by_header found.now) }
{
    match found {
        Found::Unasked | Found::Sum(_) => None,
        Found::Kind(kind) => finding_by_kind(kind),
        Found::Failed(_) => finding(Code::UnableToCheckPath, no_span()),
    }
}

fn finding_by_sum(sum: &Spanned<Checksum>, found: &Found) -> Option<FileFinding>
    ensures { result ≡ finding_by (class_by (BySum (checksum_view sum.now)) found.now) }
{
    if has_sum(&sum.value, found) {
        finding(Code::ChecksumMatch, sum.span)
    } else {
        finding(Code::ChecksumMismatch, sum.span)
    }
}

/// The finding of a file that an allowed path matches.
fn finding_of_allowed(path: &BypassPath, by_glob: bool, found: &Found) -> Option<FileFinding>
    ensures { result ≡ finding_by (class_by
        (step_allowed (path_view path.now) by_glob (path_view path.now).checksum) found.now) }
{
    match &path.checksum {
        None => finding(Code::PathBypassed, path.path.span),
        Some(_) if by_glob => finding(Code::PathBypassedByGlob, no_span()),
        Some(sum) => finding_by_sum(sum, found),
    }
}

/// The finding of a file that no allowed path matches.
fn finding_of_unlisted(by_glob: bool, by_extension: bool, found: &Found) -> Option<FileFinding>
    ensures { result ≡ finding_by (class_by (step_by None by_glob by_extension) found.now) }
{
    if by_glob {
        finding(Code::PathBypassedByGlob, no_span())
    } else if by_extension {
        finding(Code::DeniedByExtension, no_span())
    } else {
        finding_by_header(found)
    }
}

/// The finding of a file, by the allowed path that matches it, and by whether globs of its crate's
/// bypass or of script extensions decide it.
pub fn finding_of(
    path: Option<&BypassPath>,
    by_glob: bool,
    by_extension: bool,
    found: &Found,
) -> Option<FileFinding>
    ensures { result
        ≡ finding_by (class_by (step_by (option_map (λ a. path_view a.now) path.entry) by_glob by_extension)
        found.now) }
{
    match path {
        Some(path) => finding_of_allowed(path, by_glob, found),
        None => finding_of_unlisted(by_glob, by_extension, found),
    }
}
