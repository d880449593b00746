//! The messages about files, and about folders that have no list.
ghost use Rattle.std.specs.Prelude.{◌≡◌, ◌++◌, ◌∷◌, [], IfOk, OnOk, Some, codes, option_map};
ghost use Rattle.std.specs.Option.{option_map_or};
ghost use Rattle.deny_base.specs.declared.level.Severity.TheVariants as severity;
ghost use Rattle.deny_cfg_build.specs.BuildingView.{building_view};
ghost use Rattle.deny_spec.specs.Unseen.{package_at};
ghost use Rattle.deny_diags_build.specs.AtHand.{IsAtHand};
ghost use Rattle.deny_diags_build.specs.private.Found.{found_or_unasked};
ghost use Rattle.deny_spec_report.specs.PackageDiags.{bypassed_by_glob_diag, denied_by_extension_diag, detected_diag};
ghost use Rattle.deny_spec_report.specs.PackageDiags.{extension_labels, failure_notes, file_of_key, found_at};
ghost use Rattle.deny_spec_report.specs.PackageDiags.{glob_labels, file_shown, folder_shown, found_of_file, kind_notes};
ghost use Rattle.deny_spec_report.specs.PackageDiags.{path_bypassed_diag, script_diag, build_diag};
ghost use Rattle.deny_spec_report.specs.PackageDiags.{unable_to_check_diag};
ghost use Rattle.deny_diags_parts.specs.Context.{circumstances_from};

use crate::at_hand::AtHand;
use crate::globs::{extension_labels, own_labels};
use crate::message::{at_entry, file_of_key, used_by_key, with_notes};
use crate::notes::{add_failure_notes, add_kind_notes, path_notes};
use deny_base::{Key, Severity};
use deny_base_lists::{List, NoMemory, Text};
use deny_cfg_build::ValidBuildConfig;
use deny_diags_parts::{DiagContext, Labels, not_built};
use deny_spec::{Found, Package, PackageFile};
use deny_spec_report::Message;
use std::alloc::Global;

/// The message about a file that an allowed path lets pass.
#[tactic(auto, unfolding(deny_spec_report::specs::PackageDiags::path_bypassed_diag))]
pub fn path_bypassed_diag(
    alloc: Global,
    ctx: &DiagContext<'_>,
    key: &Key,
) -> Result<Message, NoMemory>
    ensures { IfOk result (λ diag. diag ≡ path_bypassed_diag (circumstances_from ctx.now) key.now) }
{
    let message = "file explicitly allowed";
    at_entry(alloc, ctx, key, Severity::Help, message, "allowed path")
}

/// The message about a file that globs of a bypass let pass.
pub fn bypassed_by_glob_diag(
    alloc: Global,
    ctx: &DiagContext<'_>,
    at: &AtHand<'_>,
    key: &Key,
) -> Result<Message, NoMemory>
    requires { IsAtHand ctx.now.packages.now key.now.place at.now }
    ensures { IfOk result (λ diag. diag ≡ build_diag bypassed_by_glob_diag (circumstances_from ctx.now) key.now) }
{
    match &ctx.cfg.build {
        Some(build) => glob_diag(alloc, ctx, build, at, key),
        None => Ok(not_built(alloc)),
    }
}

#[tactic(auto, unfolding(deny_spec_report::specs::PackageDiags::bypassed_by_glob_diag))]
fn glob_diag(
    alloc: Global,
    ctx: &DiagContext<'_>,
    build: &ValidBuildConfig,
    at: &AtHand<'_>,
    key: &Key,
) -> Result<Message, NoMemory>
    requires { IsAtHand ctx.now.packages.now key.now.place at.now }
    ensures { IfOk result (λ diag. diag
        ≡ bypassed_by_glob_diag (building_view build.now) (circumstances_from ctx.now) key.now) }
{
    let labels = glob_labels_at(alloc, ctx, build, at, key)?;
    let notes = path_notes(alloc, key)?;
    let message = "file allowed by glob";
    let severity = Severity::Help;
    with_notes(alloc, ctx.krates, key, severity, message, labels, notes)
}

// The labels of the globs that decide about a key's file, in the bypass of its crate.
fn glob_labels_at(
    alloc: Global,
    ctx: &DiagContext<'_>,
    build: &ValidBuildConfig,
    at: &AtHand<'_>,
    key: &Key,
) -> Labels
    requires { IsAtHand ctx.now.packages.now key.now.place at.now }
    ensures { IfOk result (λ labels. let c = circumstances_from ctx.now in labels
        ≡ option_map_or (glob_labels (building_view build.now) c key.now) (file_of_key c key.now) []) }
{
    match file_of_key(ctx.packages, at, key) {
        Some(file) => glob_labels(alloc, ctx, build, key, file),
        None => Ok(List::new(alloc)),
    }
}

fn glob_labels(
    alloc: Global,
    ctx: &DiagContext<'_>,
    build: &ValidBuildConfig,
    key: &Key,
    file: &PackageFile,
) -> Labels
    ensures { IfOk result (λ labels. labels
        ≡ glob_labels (building_view build.now) (circumstances_from ctx.now) key.now file.now) }
{
    match used_by_key(ctx, build, key) {
        Some(bypass) => own_labels(alloc, ctx.cfg.file_id, bypass, file),
        None => Ok(List::new(alloc)),
    }
}

/// The message about a file that globs of scripts fit.
pub fn denied_by_extension_diag(
    alloc: Global,
    ctx: &DiagContext<'_>,
    at: &AtHand<'_>,
    key: &Key,
) -> Result<Message, NoMemory>
    requires { IsAtHand ctx.now.packages.now key.now.place at.now }
    ensures { IfOk result (λ diag. diag
        ≡ build_diag denied_by_extension_diag (circumstances_from ctx.now) key.now) }
{
    match &ctx.cfg.build {
        Some(build) => extension_diag(alloc, ctx, build, at, key),
        None => Ok(not_built(alloc)),
    }
}

#[tactic(auto, unfolding(deny_spec_report::specs::PackageDiags::denied_by_extension_diag))]
fn extension_diag(
    alloc: Global,
    ctx: &DiagContext<'_>,
    build: &ValidBuildConfig,
    at: &AtHand<'_>,
    key: &Key,
) -> Result<Message, NoMemory>
    requires build { ctx.now.cfg.now.build ≡ Some build.now }
    requires at_hand { IsAtHand ctx.now.packages.now key.now.place at.now }
    ensures { IfOk result (λ diag. diag
        ≡ denied_by_extension_diag (building_view build.now) (circumstances_from ctx.now) key.now) }
{
    let labels = extension_labels_at(alloc, ctx, build, at, key)?;
    let notes = path_notes(alloc, key)?;
    let message = "path disallowed by extension";
    let severity = Severity::Error;
    with_notes(alloc, ctx.krates, key, severity, message, labels, notes)
}

// The labels of the globs of scripts that decide about a key's file.
fn extension_labels_at(
    alloc: Global,
    ctx: &DiagContext<'_>,
    build: &ValidBuildConfig,
    at: &AtHand<'_>,
    key: &Key,
) -> Labels
    requires build { ctx.now.cfg.now.build ≡ Some build.now }
    requires at_hand { IsAtHand ctx.now.packages.now key.now.place at.now }
    ensures { IfOk result (λ labels. let c = circumstances_from ctx.now in labels
        ≡ option_map_or (extension_labels (building_view build.now) c) (file_of_key c key.now) []) }
{
    match file_of_key(ctx.packages, at, key) {
        Some(file) => extension_labels(alloc, ctx, build, file),
        None => Ok(List::new(alloc)),
    }
}

/// The message about native code.
pub fn detected_diag(
    alloc: Global,
    ctx: &DiagContext<'_>,
    at: &AtHand<'_>,
    key: &Key,
) -> Result<Message, NoMemory>
    requires { IsAtHand ctx.now.packages.now key.now.place at.now }
    ensures { IfOk result (λ diag. diag ≡ detected_diag severity.Error (circumstances_from ctx.now) key.now) }
{
    detected_as(alloc, ctx, Severity::Error, at, key)
}

/// The message about a script with an interpreter in its first line, at the level for such scripts.
pub fn script_diag(
    alloc: Global,
    ctx: &DiagContext<'_>,
    at: &AtHand<'_>,
    key: &Key,
) -> Result<Message, NoMemory>
    requires { IsAtHand ctx.now.packages.now key.now.place at.now }
    ensures { IfOk result (λ diag. diag ≡ build_diag script_diag (circumstances_from ctx.now) key.now) }
{
    match &ctx.cfg.build {
        Some(build) => detected_as(alloc, ctx, build.interpreted.severity(), at, key),
        None => Ok(not_built(alloc)),
    }
}

#[tactic(auto, unfolding(deny_spec_report::specs::PackageDiags::detected_diag))]
fn detected_as(
    alloc: Global,
    ctx: &DiagContext<'_>,
    level: Severity,
    at: &AtHand<'_>,
    key: &Key,
) -> Result<Message, NoMemory>
    requires { IsAtHand ctx.now.packages.now key.now.place at.now }
    ensures { IfOk result (λ diag. diag ≡ detected_diag level (circumstances_from ctx.now) key.now) }
{
    let mut notes = path_notes(alloc, key)?;
    add_kind_notes_at(alloc, ctx.packages, at, key, &mut notes)?;
    with_notes(
        alloc,
        ctx.krates,
        key,
        level,
        "detected executable",
        List::new(alloc),
        notes,
    )
}

// Appends a note on how the file of a key is executed.
fn add_kind_notes_at(
    alloc: Global,
    packages: &[Package],
    at: &AtHand<'_>,
    key: &Key,
    notes: &mut List<Text>,
) -> Result<(), NoMemory>
    requires { IsAtHand packages.now key.now.place at.now }
    ensures { OnOk result (notes.new ≡ notes.old
        ++ kind_notes (found_of_file (file_shown (package_at packages.now key.now.place) key.now.text))) }
{
    match file_of_key(packages, at, key) {
        Some(file) => add_kind_notes(alloc, &file.seen.found, notes),
        None => Ok(()),
    }
}

/// The message about a file whose first bytes could not be read, or a folder that has no list.
#[tactic(auto, unfolding(deny_spec_report::specs::PackageDiags::unable_to_check_diag))]
pub fn unable_to_check_diag(
    alloc: Global,
    ctx: &DiagContext<'_>,
    at: &AtHand<'_>,
    key: &Key,
) -> Result<Message, NoMemory>
    requires { IsAtHand ctx.now.packages.now key.now.place at.now }
    ensures { IfOk result (λ diag. diag ≡ unable_to_check_diag (circumstances_from ctx.now) key.now) }
{
    let mut notes = bare_path_notes(alloc, key)?;
    add_failure_notes_at(alloc, ctx, at, key, &mut notes)?;
    with_notes(
        alloc,
        ctx.krates,
        key,
        Severity::Error,
        "unable to check if path is an executable",
        List::new(alloc),
        notes,
    )
}

// The note on the path that a key shows, without quotes.
fn bare_path_notes(alloc: Global, key: &Key) -> Result<List<Text>, NoMemory>
    ensures { IfOk result (λ notes. notes ≡ (codes "path = " ++ key.now.text) ∷ []) }
{
    let path = &key.text;
    let mut notes = List::new(alloc);
    notes.push(Text::from_string(format!(in alloc; "path = {path}")?))?;
    Ok(notes)
}

// Appends a note on why the file or the folder of a key was not read.
fn add_failure_notes_at(
    alloc: Global,
    ctx: &DiagContext<'_>,
    at: &AtHand<'_>,
    key: &Key,
    notes: &mut List<Text>,
) -> Result<(), NoMemory>
    requires { IsAtHand ctx.now.packages.now key.now.place at.now }
    ensures { OnOk result (notes.new
        ≡ notes.old ++ failure_notes (found_at (circumstances_from ctx.now) key.now)) }
{
    match found_at(ctx, at, key) {
        Some(found) => add_failure_notes(alloc, found, notes),
        None => Ok(()),
    }
}

// What was found of the file or the folder that a key shows.
fn found_at<'c>(ctx: &DiagContext<'_>, at: &AtHand<'c>, key: &Key) -> Option<&'c Found>
    requires { IsAtHand ctx.now.packages.now key.now.place at.now }
    ensures { found_or_unasked (option_map (λ found. found.now) result)
        ≡ found_at (circumstances_from ctx.now) key.now }
{
    match file_of_key(ctx.packages, at, key) {
        Some(file) => Some(&file.seen.found),
        None => folder_found(ctx.packages, at, key),
    }
}

fn folder_found<'c>(_packages: &[Package], at: &AtHand<'c>, key: &Key) -> Option<&'c Found>
    requires { IsAtHand _packages.now key.now.place at.now }
    ensures { option_map (λ found. found.now) result
        ≡ option_map (λ seen. seen.found) (folder_shown (package_at _packages.now key.now.place) key.now.text) }
{
    match at.folder(key.text.as_str()) {
        Some(folder) => Some(&folder.found),
        None => None,
    }
}
