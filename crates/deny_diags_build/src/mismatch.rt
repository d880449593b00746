//! The messages about the checksums of build scripts and of files.
ghost use Rattle.std.specs.Prelude.{◌≡◌, ◌++◌, ◌∷◌, [], IfOk, Some, codes, option_map, if◌then◌else◌};
ghost use Rattle.deny_base.specs.declared.level.Severity.TheVariants as severity;
ghost use Rattle.deny_cfg_build.specs.BuildingView.{building_view};
ghost use Rattle.deny_spec.specs.Unseen.{package_at};
ghost use Rattle.deny_diags_build.specs.AtHand.{IsAtHand};
ghost use Rattle.deny_diags_build.specs.Sums.{AreSumsOf};
ghost use Rattle.deny_diags_build.specs.private.Found.{found_or_unasked, script_error};
ghost use Rattle.deny_spec_report.specs.BuildScripts.{script_found};
ghost use Rattle.deny_spec_report.specs.PackageDiags.{checksum_match_diag, checksum_mismatch_diag, file_shown};
ghost use Rattle.deny_spec_report.specs.PackageDiags.{found_of_file, mismatch_text, path_note, quoted, script_failed};
ghost use Rattle.deny_spec_report.specs.PackageDiags.{build_diag};
ghost use Rattle.deny_diags_parts.specs.Context.{circumstances_from};
ghost use Rattle.hex.specs.Hex.{encode_lower};

use crate::at_hand::AtHand;
use crate::message::{file_of_key, with_notes};
use crate::notes::{add_quoted, digits, failure_text, path_notes};
use crate::sums::is_script_sum;
use deny_base::{Key, Severity, Spanned};
use deny_base_lists::{List, NoMemory, Text};
use deny_cfg::bans::cfg::Checksum;
use deny_cfg_build::ValidBuildConfig;
use deny_diags_parts::{BySpan, DiagContext, lone_label, not_built};
use deny_spec::{Found, Package};
use deny_spec_report::Message;
use std::alloc::Global;

/// The message about a build script or a file that has the checksum that a bypass writes.
#[tactic(auto, unfolding(deny_spec_report::specs::PackageDiags::checksum_match_diag))]
pub fn checksum_match_diag(
    alloc: Global,
    ctx: &DiagContext<'_>,
    key: &Key,
) -> Result<Message, NoMemory>
    ensures { IfOk result (λ diag. diag ≡ checksum_match_diag (circumstances_from ctx.now) key.now) }
{
    let labels = lone_label(alloc, ctx.cfg.file_id, key.entry, "checksum")?;
    let notes = path_notes(alloc, key)?;
    let message = "file checksum matched";
    let severity = Severity::Help;
    with_notes(alloc, ctx.krates, key, severity, message, labels, notes)
}

/// The message about a build script or a file that has another checksum than a bypass writes.
pub fn checksum_mismatch_diag(
    alloc: Global,
    ctx: &DiagContext<'_>,
    sums: &BySpan<'_, Spanned<Checksum>>,
    at: &AtHand<'_>,
    key: &Key,
) -> Result<Message, NoMemory>
    requires sums { AreSumsOf ctx.now.cfg.now sums.now }
    requires at_hand { IsAtHand ctx.now.packages.now key.now.place at.now }
    ensures { IfOk result (λ diag. diag ≡ build_diag checksum_mismatch_diag (circumstances_from ctx.now) key.now) }
{
    match &ctx.cfg.build {
        Some(build) => mismatch_diag(alloc, ctx, build, sums, at, key),
        None => Ok(not_built(alloc)),
    }
}

#[tactic(auto, unfolding(deny_spec_report::specs::PackageDiags::checksum_mismatch_diag, deny_spec_report::specs::PackageDiags::mismatch_note, deny_spec_report::specs::PackageDiags::mismatch_severity))]
fn mismatch_diag(
    alloc: Global,
    ctx: &DiagContext<'_>,
    build: &ValidBuildConfig,
    sums: &BySpan<'_, Spanned<Checksum>>,
    at: &AtHand<'_>,
    key: &Key,
) -> Result<Message, NoMemory>
    requires build { ctx.now.cfg.now.build ≡ Some build.now }
    requires sums { AreSumsOf ctx.now.cfg.now sums.now }
    requires at_hand { IsAtHand ctx.now.packages.now key.now.place at.now }
    ensures { IfOk result (λ diag. diag
        ≡ checksum_mismatch_diag (building_view build.now) (circumstances_from ctx.now) key.now) }
{
    let is_script = is_script_sum(ctx, build, sums, key.entry);
    let notes = mismatch_notes(alloc, ctx.packages, is_script, at, key)?;
    let labels = lone_label(alloc, ctx.cfg.file_id, key.entry, "expected checksum")?;
    let severity = mismatch_severity(is_script);
    let message = "file did not match the expected checksum";
    with_notes(alloc, ctx.krates, key, severity, message, labels, notes)
}

fn mismatch_severity(is_script: bool) -> Severity
    ensures { result ≡ (if is_script then severity.Warning else severity.Error) }
{
    if is_script {
        Severity::Warning
    } else {
        Severity::Error
    }
}

// The notes on the path, and on why the file has another checksum than is expected.
fn mismatch_notes(
    alloc: Global,
    packages: &[Package],
    is_script: bool,
    at: &AtHand<'_>,
    key: &Key,
) -> Result<List<Text>, NoMemory>
    requires { IsAtHand packages.now key.now.place at.now }
    ensures { IfOk result (λ notes. let seen = package_at packages.now key.now.place in notes
        ≡ path_note key.now ∷ quoted (codes "error")
        (if is_script then script_error (script_found seen)
        else mismatch_text (found_of_file (file_shown seen key.now.text))) ∷ []) }
{
    let error = mismatch_error(alloc, packages, is_script, at, key)?;
    let mut notes = path_notes(alloc, key)?;
    add_quoted(alloc, &mut notes, "error", error.as_str())?;
    Ok(notes)
}

// Why a build script, or a file, has another checksum than is expected.
fn mismatch_error(
    alloc: Global,
    packages: &[Package],
    is_script: bool,
    at: &AtHand<'_>,
    key: &Key,
) -> Result<Text, NoMemory>
    requires { IsAtHand packages.now key.now.place at.now }
    ensures { IfOk result (λ error. let seen = package_at packages.now key.now.place in error
        ≡ (if is_script then script_error (script_found seen)
        else mismatch_text (found_of_file (file_shown seen key.now.text)))) }
{
    if is_script {
        return script_error(alloc, script_found(packages, key.place));
    }
    match file_of_key(packages, at, key) {
        Some(file) => mismatch_text(alloc, &file.seen.found),
        None => Ok(Text::new(alloc)),
    }
}

// What was found of the build script of the crate at a place, where it was asked for.
fn script_found(packages: &[Package], place: u32) -> Option<&Found>
    ensures { found_or_unasked (option_map (λ found. found.now) result)
        ≡ script_found (package_at packages.now place) }
{
    let seen = packages.get(place as usize)?.script.as_ref()?;
    Some(&seen.found)
}

fn script_error(alloc: Global, found: Option<&Found>) -> Result<Text, NoMemory>
    ensures { IfOk result (λ error. error
        ≡ script_error (found_or_unasked (option_map (λ f. f.now) found.entry))) }
{
    let Some(found) = found else {
        return Ok(Text::new(alloc));
    };
    let failed = script_failed(found);
    let why = mismatch_text(alloc, found)?;
    Ok(Text::from_string(format!(in alloc; "{failed}{why}")?))
}

fn script_failed(found: &Found) -> &'static str
    ensures { result.now ≡ script_failed found.now }
{
    match found {
        Found::Failed(_) => "build script failed checksum: ",
        Found::Unasked | Found::Sum(_) | Found::Kind(_) => "",
    }
}

fn mismatch_text(alloc: Global, found: &Found) -> Result<Text, NoMemory>
    ensures { IfOk result (λ text. text ≡ mismatch_text found.now) }
{
    match found {
        Found::Sum(sum) => calculated(alloc, sum),
        Found::Failed(failure) => Ok(Text::from_str(alloc, failure_text(*failure))?),
        Found::Unasked | Found::Kind(_) => Ok(Text::new(alloc)),
    }
}

fn calculated(alloc: Global, sum: &[u8; 32]) -> Result<Text, NoMemory>
    ensures { IfOk result (λ text. text ≡ codes "calculated different checksum " ++ encode_lower sum.now) }
{
    let digits = digits(alloc, sum)?;
    Ok(Text::from_string(format!(in alloc; "calculated different checksum {digits}")?))
}
