//! The labels of globs that decide about a file.
ghost use Rattle.std.specs.Prelude.{◌≡◌, IfOk, Some, filter, map};
ghost use Rattle.deny_cfg_build.specs.BuildingView.{building_view, bypass_view, words_of};
ghost use Rattle.deny_cfg_build.specs.Globs.{extension_text};
ghost use Rattle.deny_diags_build.specs.ByText.{IsByText};
ghost use Rattle.deny_diags_build.specs.private.Globs.{script_label};
ghost use Rattle.deny_spec_report.specs.PackageFiles.{is_decided_by};
ghost use Rattle.deny_spec_report.specs.PackageDiags.{extension_labels, glob_label};
ghost use Rattle.deny_diags_parts.specs.Context.{circumstances_from};

use crate::by_text::ByText;
use deny_base::{FileId, Label, Spanned};
use deny_base_lists::{List, NoMemory, Text};
use deny_cfg_build::{GlobPattern, ValidBuildConfig, ValidBypass, globs_file};
use deny_diags_parts::{DiagContext, Labels, secondary};
use deny_spec::PackageFile;
use std::alloc::Global;

/// The globs that decide about a file.
#[derive(Drop)]
struct Deciding<'f> {
    file: &'f PackageFile,
    globs: ByText<'f, Text>,
    ghost found: { IsByText (λ text. text) file.now.globs globs },
}

impl<'f> Deciding<'f> {
    fn of(alloc: Global, file: &'f PackageFile) -> Result<Deciding<'f>, NoMemory>
        ensures { IfOk result (λ deciding. deciding.file.now ≡ file.entry.now) }
    {
        Ok(Deciding {
            file,
            globs: ByText::new(alloc, file.globs.as_slice())?,
        })
    }

    #[tactic(auto, unfolding(deny_spec_report::specs::PackageFiles::is_decided_by))]
    fn has(&self, glob: &str) -> bool
        ensures { result ≡ is_decided_by self.now.file.now glob.now }
    {
        self.globs.at(glob).is_some()
    }
}

/// The labels of the deciding globs of a bypass, in the file of the policy.
pub fn own_labels(alloc: Global, policy: FileId, bypass: &ValidBypass, file: &PackageFile) -> Labels
    ensures { IfOk result (λ labels. labels
        ≡ map (glob_label policy) (filter (λ w. is_decided_by file.now w.value) (bypass_view bypass.now).globs)) }
{
    let deciding = Deciding::of(alloc, file)?;
    match &bypass.allow_globs {
        Some(globs) => labels_of_globs(alloc, policy, globs.patterns.as_slice(), &deciding),
        None => Ok(List::new(alloc)),
    }
}

fn labels_of_globs(
    alloc: Global,
    policy: FileId,
    patterns: &[GlobPattern],
    deciding: &Deciding<'_>,
) -> Labels
    ensures { IfOk result (λ labels. labels ≡ map (glob_label policy)
        (filter (λ w. is_decided_by deciding.now.file.now w.value) (map words_of patterns.now))) }
{
    let mut labels = List::new(alloc);
    for pattern in patterns {
        let glob = words_of(pattern);
        if deciding.has(glob.value.as_str()) {
            labels.push(secondary(alloc, policy, glob.span, "")?)?;
        }
    }
    Ok(labels)
}

fn words_of(pattern: &GlobPattern) -> &Spanned<Text>
    ensures { result.now ≡ words_of pattern.now }
{
    match pattern {
        GlobPattern::Builtin(glob) => &glob.0,
        GlobPattern::User(glob) => glob,
    }
}

/// The labels of the deciding globs of scripts; the built-in globs have a file of their own.
pub fn extension_labels(
    alloc: Global,
    ctx: &DiagContext<'_>,
    build: &ValidBuildConfig,
    file: &PackageFile,
) -> Labels
    requires { ctx.now.cfg.now.build ≡ Some build.now }
    ensures { IfOk result (λ labels. labels
        ≡ extension_labels (building_view build.now) (circumstances_from ctx.now) file.now) }
{
    let globs = globs_file(build).unwrap_or(0);
    let patterns = build.script_extensions.patterns.as_slice();
    let deciding = Deciding::of(alloc, file)?;
    labels_of_extensions(alloc, ctx.cfg.file_id, globs, patterns, &deciding)
}

// The labels of the deciding globs, by the numbers of the policy's file and of the file of the built-in
// globs.
fn labels_of_extensions(
    alloc: Global,
    policy: FileId,
    globs: FileId,
    patterns: &[GlobPattern],
    deciding: &Deciding<'_>,
) -> Labels
    ensures { IfOk result (λ labels. labels ≡ map (script_label policy globs)
        (filter (λ pattern. is_decided_by deciding.now.file.now (extension_text pattern)) patterns.now)) }
{
    let mut labels = List::new(alloc);
    for pattern in patterns {
        let glob = pattern.extension_text(alloc)?;
        if deciding.has(glob.as_str()) {
            labels.push(script_label(alloc, policy, globs, pattern)?)?;
        }
    }
    Ok(labels)
}

fn script_label(
    alloc: Global,
    policy: FileId,
    globs: FileId,
    pattern: &GlobPattern,
) -> Result<Label, NoMemory>
    ensures { IfOk result (λ label. label ≡ script_label policy globs pattern.now) }
{
    match pattern {
        GlobPattern::Builtin(glob) => secondary(alloc, globs, glob.0.span, "builtin"),
        GlobPattern::User(glob) => secondary(alloc, policy, glob.span, ""),
    }
}
