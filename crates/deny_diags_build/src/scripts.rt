//! The messages about build scripts that are not allowed, and about features for which files are scanned all
//! the same.
ghost use Rattle.std.specs.Prelude.{◌≡◌, ◌++◌, ◌∷◌, [], IfOk, codes, map};
ghost use Rattle.std.specs.Fmt.{decimal};
ghost use Rattle.deny_cfg_build.specs.BuildingView.{building_view};
ghost use Rattle.deny_spec.specs.Unseen.{package_at};
ghost use Rattle.deny_spec_report.specs.BuildScripts.{script_found};
ghost use Rattle.deny_spec_report.specs.Packages.{script_shown};
ghost use Rattle.deny_spec_report.specs.PackageDiags.{enabled_by_key, features_enabled_diag, glob_label};
ghost use Rattle.deny_spec_report.specs.PackageDiags.{script_denied_diag, quoted, script_notes, build_diag};
ghost use Rattle.deny_diags_parts.specs.Context.{circumstances_from};
ghost use Rattle.hex.specs.Hex.{encode_lower};

use crate::message::noted_message;
use crate::notes::{add_quoted, digits};
use deny_base::{FileId, Key, Severity, Spanned};
use deny_base_lists::{List, NoMemory, Text};
use deny_build_bypass::required_enabled;
use deny_cfg_build::ValidBuildConfig;
use deny_diags_parts::{DiagContext, Labels, not_built, of_crate, secondary};
use deny_krates::krate_at;
use deny_spec::{Found, Package, Seen};
use deny_spec_report::Message;
use std::alloc::Global;

/// The message about a crate that has a build script and is not allowed to have one.
#[tactic(auto, unfolding(deny_spec_report::specs::PackageDiags::script_denied_diag))]
pub fn script_denied_diag(
    alloc: Global,
    ctx: &DiagContext<'_>,
    key: &Key,
) -> Result<Message, NoMemory>
    ensures { IfOk result (λ diag. diag ≡ script_denied_diag (circumstances_from ctx.now) key.now) }
{
    let notes = script_notes_at(alloc, ctx.packages, key.place)?;
    let after = "' has a build script but is not allowed to have one";
    let message = of_crate(alloc, ctx.krates, "crate '", key, after)?;
    noted_message(
        alloc,
        ctx.krates,
        key,
        Severity::Error,
        message,
        List::new(alloc),
        notes,
    )
}

// The notes on the path and the checksum of the build script of the crate at a place, where it was read.
fn script_notes_at(alloc: Global, packages: &[Package], place: u32) -> Result<List<Text>, NoMemory>
    ensures { IfOk result (λ notes. let seen = package_at packages.now place in
        notes ≡ script_notes (script_shown seen) (script_found seen)) }
{
    let Some(seen) = packages.get(place as usize) else {
        return Ok(List::new(alloc));
    };
    match &seen.script {
        Some(script) => script_notes(alloc, script),
        None => Ok(List::new(alloc)),
    }
}

fn script_notes(alloc: Global, script: &Seen) -> Result<List<Text>, NoMemory>
    ensures { IfOk result (λ notes. notes ≡ script_notes script.now.shown script.now.found) }
{
    match &script.found {
        Found::Sum(sum) => sum_notes(alloc, script.shown.as_str(), sum),
        Found::Unasked | Found::Kind(_) | Found::Failed(_) => Ok(List::new(alloc)),
    }
}

fn sum_notes(alloc: Global, shown: &str, sum: &[u8; 32]) -> Result<List<Text>, NoMemory>
    ensures { IfOk result (λ notes. notes ≡ quoted (codes "path") shown.now
        ∷ quoted (codes "checksum") (encode_lower sum.now) ∷ []) }
{
    let digits = digits(alloc, sum)?;
    let mut notes = List::new(alloc);
    add_quoted(alloc, &mut notes, "path", shown)?;
    add_quoted(alloc, &mut notes, "checksum", digits.as_str())?;
    Ok(notes)
}

/// The message about features for which the files of a crate are scanned, though its script has the right
/// checksum.
pub fn features_enabled_diag(
    alloc: Global,
    ctx: &DiagContext<'_>,
    key: &Key,
) -> Result<Message, NoMemory>
    ensures { IfOk result (λ diag. diag ≡ build_diag features_enabled_diag (circumstances_from ctx.now) key.now) }
{
    match &ctx.cfg.build {
        Some(build) => enabled_diag(alloc, ctx, build, key),
        None => Ok(not_built(alloc)),
    }
}

#[tactic(auto, unfolding(deny_spec_report::specs::PackageDiags::features_enabled_diag))]
fn enabled_diag(
    alloc: Global,
    ctx: &DiagContext<'_>,
    build: &ValidBuildConfig,
    key: &Key,
) -> Result<Message, NoMemory>
    ensures { IfOk result (λ diag. diag
        ≡ features_enabled_diag (building_view build.now) (circumstances_from ctx.now) key.now) }
{
    let enabled = enabled_by_key(alloc, ctx, build, key)?;
    let message = enabled_message(alloc, enabled.len())?;
    let labels = labels_of(alloc, ctx.cfg.file_id, enabled.as_slice())?;
    noted_message(
        alloc,
        ctx.krates,
        key,
        Severity::Note,
        message,
        labels,
        List::new(alloc),
    )
}

fn enabled_message(alloc: Global, count: usize) -> Result<Text, NoMemory>
    ensures { IfOk result (λ text. text
        ≡ decimal count ++ codes " features enabled for crate with build script, checking sources") }
{
    Ok(Text::from_string(format!(in alloc;
        "{count} features enabled for crate with build script, checking sources"
    )?))
}

// The enabled features that the bypass of a key's crate requires.
fn enabled_by_key<'c>(
    alloc: Global,
    ctx: &DiagContext<'_>,
    build: &'c ValidBuildConfig,
    key: &Key,
) -> Result<Vec<&'c Spanned<Text>>, NoMemory>
    ensures { IfOk result (λ enabled. map (λ w. w.now) enabled.items
        ≡ enabled_by_key (building_view build.now) (circumstances_from ctx.now) key.now) }
{
    match krate_at(ctx.krates, key.place) {
        Some(krate) => required_enabled(alloc, build, ctx.krates, krate),
        None => Ok(Vec::new(alloc)),
    }
}

fn labels_of(alloc: Global, policy: FileId, features: &[&Spanned<Text>]) -> Labels
    ensures { IfOk result (λ labels. labels ≡ map (glob_label policy) (map (λ w. w.now) features.now)) }
{
    let mut labels = List::new(alloc);
    for feature in features {
        labels.push(secondary(alloc, policy, feature.span, "")?)?;
    }
    Ok(labels)
}
