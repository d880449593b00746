//! The table `build` of a policy becomes the one that the rules take.
ghost use Rattle.std.specs.Prelude.{◌≡◌, ◌<◌, ◌^◌, ◌++◌, IfOk, OnErr, OnOk, length, map};
ghost use Rattle.std.specs.List.{AllZip};
ghost use Rattle.deny_cfg_build.specs.Build.{HasFiles, IsBuildOf, IsBypassOf, IsMadeOf, build_by};
ghost use Rattle.deny_cfg_build.specs.Build.{builtin_if, files_of, number_of, of_scripts, older_key_by};
ghost use Rattle.deny_cfg_build.specs.Globs.{IsSetOf, OfBoth, extension_text, own_text};
ghost use Rattle.deny_cfg_build.specs.private.Globs.{GathersMore};
ghost use Rattle.deny_cfg_build.specs.declared.pattern.GlobPattern.TheVariants.{User};

use crate::builtin::{add_builtin_file, gather_builtin};
use crate::gathered::{GatheredGlobs, extension_globs, own_globs};
use crate::glob_set::ValidGlobSet;
use crate::valid::{ValidBuildConfig, ValidBypass};
use deny_base::{FileId, Files, LintLevel, Span, Spanned};
use deny_base_lists::{List, NoMemory, Text};
use deny_cfg_entries::PackageSpec;
use deny_cfg_tables::bans::cfg::{BuildConfig, Bypass};
use std::alloc::Global;

/// The set of the globs so far.
fn set_of(all: GatheredGlobs) -> ValidGlobSet
    requires { length all.set ≡ length all.patterns }
    ensures set { result.set ≡ all.set }
    ensures patterns { result.patterns ≡ all.patterns }
{
    ValidGlobSet {
        set: all.set,
        patterns: all.patterns,
    }
}

/// The set of the globs that a policy writes.
fn own_set(alloc: Global, globs: List<Spanned<Text>>) -> Result<ValidGlobSet, NoMemory>
    ensures { IfOk result (IsSetOf own_text (map User globs)) }
{
    let all = own_globs(alloc, globs)?;
    Ok(set_of(all))
}

fn own_set_if(
    alloc: Global,
    globs: Option<List<Spanned<Text>>>,
) -> Result<Option<ValidGlobSet>, NoMemory>
    ensures { IfOk result (OfBoth (λ own. IsSetOf own_text (map User own)) globs) }
{
    match globs {
        Some(globs) => Ok(Some(own_set(alloc, globs)?)),
        None => Ok(None),
    }
}

fn bypass_of(alloc: Global, bypass: Bypass) -> Result<ValidBypass, NoMemory>
    ensures { IfOk result (IsBypassOf bypass) }
{
    Ok(ValidBypass {
        spec: bypass.spec,
        build_script: bypass.build_script,
        required_features: bypass.required_features,
        allow_globs: own_set_if(alloc, bypass.allow_globs)?,
        allow: bypass.allow,
        expires: bypass.expires,
    })
}

fn bypasses_of(alloc: Global, entries: List<Bypass>) -> Result<List<ValidBypass>, NoMemory>
    ensures { IfOk result (AllZip IsBypassOf entries) }
{
    let mut all = List::new(alloc);
    'entries: for entry in entries.vec {
        all.push(bypass_of(alloc, entry)?)?;
    }
    Ok(all)
}

/// Adds the built-in globs to those so far, where their file has a number.
fn gather_builtin_if(
    alloc: Global,
    file: Option<FileId>,
    all: &mut GatheredGlobs,
) -> Result<(), NoMemory>
    ensures { OnOk result (GathersMore extension_text (builtin_if file)
        all.old.patterns all.old.set all.new.patterns all.new.set) }
{
    match file {
        Some(file) => gather_builtin(alloc, file, all),
        None => Ok(()),
    }
}

/// The set of the extensions that a policy writes, and of the built-in globs behind them.
fn extension_set(
    alloc: Global,
    extensions: List<Spanned<Text>>,
    file: Option<FileId>,
) -> Result<ValidGlobSet, NoMemory>
    ensures { IfOk result (IsSetOf extension_text (map User extensions ++ builtin_if file)) }
{
    let mut all = extension_globs(alloc, extensions)?;
    gather_builtin_if(alloc, file, &mut all)?;
    Ok(set_of(all))
}

/// A table as the rules take it. The built-in globs, where the table asks for them, are in the file of this number.
fn build_with_file(
    alloc: Global,
    build: BuildConfig,
    file: Option<FileId>,
    older_key: Option<Span>,
) -> Result<ValidBuildConfig, NoMemory>
    ensures { IfOk result (IsMadeOf build file older_key) }
{
    let extensions = build.script_extensions.unwrap_or(List::new(alloc));
    let bypass = build.bypass.unwrap_or(List::new(alloc));
    Ok(ValidBuildConfig {
        allow_build_scripts: build.allow_build_scripts,
        executables: build.executables,
        interpreted: build.interpreted,
        script_extensions: extension_set(alloc, extensions, file)?,
        bypass: bypasses_of(alloc, bypass)?,
        include_dependencies: build.include_dependencies,
        include_workspace: build.include_workspace,
        include_archives: build.include_archives,
        older_key,
    })
}

/// Adds the file of the built-in globs behind the others, where it is asked for. When out of memory, the files are
/// unchanged.
fn add_file_if(asked: bool, files: &mut Files) -> Result<Option<FileId>, NoMemory>
    requires few { length files.old < 2 ^ 31 }
    ensures id { IfOk result (λ file. file ≡ number_of asked (length files.old)) }
    ensures ok { OnOk result (files.new ≡ files.old ++ files_of asked) }
    ensures err { OnErr result (files.new ≡ files.old) }
{
    if asked {
        Ok(Some(add_builtin_file(files)?))
    } else {
        Ok(None)
    }
}

/// The table as the rules take it. Texts that are no globs are left out. The file of the built-in globs is added
/// behind the others exactly where the table asks for them; when out of memory it may have been added, or the files
/// are unchanged. `older_key` is the span of the older key, where that stands for the table.
pub fn valid_build(
    alloc: Global,
    build: BuildConfig,
    older_key: Option<Span>,
    files: &mut Files,
) -> Result<ValidBuildConfig, NoMemory>
    requires few { length files.old < 2 ^ 31 }
    ensures valid { IfOk result (IsBuildOf build (length files.old) older_key) }
    ensures files { OnOk result (files.new ≡ files.old ++ files_of build.enable_builtin_globs) }
    ensures files_too { OnErr result (HasFiles (files_of build.enable_builtin_globs) files.old files.new) }
{
    let file = add_file_if(build.enable_builtin_globs, files)?;
    build_with_file(alloc, build, file, older_key)
}

/// The table `build` that a policy writes. Where it writes none, the table that the older key, a list of the
/// crates that may have build scripts, is read as; none where there is neither.
pub fn build_by(
    build: Option<BuildConfig>,
    scripts: Option<Spanned<List<PackageSpec>>>,
) -> Option<BuildConfig>
    ensures { result ≡ build_by build scripts }
{
    match build {
        Some(build) => Some(build),
        None => scripts.map(|list| of_scripts(list.value)),
    }
}

/// The span of the list of crates that may have build scripts, where the list stands for the table.
pub fn older_key_by(
    build: &Option<BuildConfig>,
    scripts: &Option<Spanned<List<PackageSpec>>>,
) -> Option<Span>
    ensures { result ≡ older_key_by build.now scripts.now }
{
    match build {
        Some(_) => None,
        None => scripts.as_ref().map(|list| list.span),
    }
}

/// The table that a list of crates that may have build scripts stands for: executables are not checked.
fn of_scripts(scripts: List<PackageSpec>) -> BuildConfig
    ensures { result ≡ of_scripts scripts }
{
    BuildConfig {
        allow_build_scripts: Some(scripts),
        executables: LintLevel::Allow,
        interpreted: LintLevel::Warn,
        script_extensions: None,
        bypass: None,
        enable_builtin_globs: false,
        include_dependencies: false,
        include_workspace: false,
        include_archives: false,
    }
}
