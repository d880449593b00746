//! The globs of a policy by their texts.
ghost use Rattle.std.specs.Prelude.{◌≡◌, IfOk, is_some, map, option_map};
ghost use Rattle.std.specs.FinMap as finite;
ghost use Rattle.std.specs.List.{list_any};
ghost use Rattle.deny_cfg_build.specs.BuildingView.{building_view, bypass_view, words_of};
ghost use Rattle.deny_spec_report.specs.PackageFiles.{globs_of};
ghost use Rattle.deny_build.specs.private.Globs.{IsSetOf, decides, own_texts, script_texts};

use deny_base::Spanned;
use deny_base_lists::{NoMemory, Text, TextMap};
use deny_cfg_build::{GlobPattern, ValidBuildConfig, ValidBypass};
use deny_spec::PackageFile;
use std::alloc::Global;

/// The text of a pattern with its span.
pub fn words_of(pattern: &GlobPattern) -> &Spanned<Text>
    ensures { result.now ≡ words_of pattern.now }
{
    match pattern {
        GlobPattern::Builtin((glob, _)) => glob,
        GlobPattern::User(glob) => glob,
    }
}

/// The globs of a bypass.
pub fn globs_of(bypass: &ValidBypass) -> &[GlobPattern]
    ensures { map words_of result.now ≡ (bypass_view bypass.now).globs }
{
    match &bypass.allow_globs {
        Some(globs) => globs.patterns.as_slice(),
        None => &[],
    }
}

fn globs_if(bypass: Option<&ValidBypass>) -> &[GlobPattern]
    ensures { map words_of result.now ≡ globs_of (option_map (λ y. bypass_view y.now) bypass.entry) }
{
    match bypass {
        Some(bypass) => globs_of(bypass),
        None => &[],
    }
}

/// The set of the texts of a bypass's globs.
pub fn own_set(alloc: Global, bypass: Option<&ValidBypass>) -> Result<TextMap<bool>, NoMemory>
    ensures { IfOk result (IsSetOf (own_texts (option_map (λ y. bypass_view y.now) bypass.entry))) }
{
    let globs = globs_if(bypass);
    let mut set = TextMap::new(alloc);
    for pattern in globs {
        set.insert(words_of(pattern).value.clone()?, true)?;
    }
    Ok(set)
}

/// The set of the texts of the globs of script extensions.
pub fn script_set(alloc: Global, config: &ValidBuildConfig) -> Result<TextMap<bool>, NoMemory>
    ensures { IfOk result (IsSetOf (script_texts (building_view config.now))) }
{
    let globs = config.script_extensions.patterns.as_slice();
    let mut set = TextMap::new(alloc);
    for pattern in globs {
        set.insert(pattern.extension_text(alloc)?, true)?;
    }
    Ok(set)
}

/// Whether a file is decided by one of the globs of a set.
pub fn decides(set: &TextMap<bool>, file: &PackageFile) -> bool
    ensures { result ≡ decides set.now file.now }
{
    has_any(set, file.globs.as_slice())
}

fn has_any(set: &TextMap<bool>, globs: &[Text]) -> bool
    ensures { result ≡ list_any (λ glob. is_some (finite.get set.now glob)) globs.now }
{
    globs.iter().any(|glob| set.contains_key(glob.as_str()))
}
