//! The globs that fit a path, by their texts.
ghost use Rattle.std.specs.Prelude.{◌≡◌, IfOk, IfSome, map};
ghost use Rattle.std.specs.Option.{option_copied};
ghost use Rattle.deny_cfg_build.specs.BuildingView.{globs_view, words_of};
ghost use Rattle.deny_cfg_build.specs.Globs.{AreWritten, extension_text, own_text};
ghost use Rattle.deny_build_scan.specs.Globs.{AreFitting};

use deny_base_lists::{List, NoMemory, Text};
use deny_cfg_build::{GlobPattern, ValidGlobSet};
use std::alloc::Global;

/// The globs of an entry that fit the path. `indices` is a buffer whose contents do not matter.
pub(crate) fn fitting_own(
    alloc: Global,
    globs: Option<&ValidGlobSet>,
    path: &str,
    indices: &mut Vec<usize>,
) -> Result<List<Text>, NoMemory>
    requires { IfSome (option_copied globs) (AreWritten own_text) }
    ensures { IfOk result (AreFitting path.now (map (λ w. w.value) (globs_view (option_copied globs.entry)))) }
{
    match globs {
        Some(globs) => fitting_in(alloc, globs, path, indices),
        None => Ok(List::new(alloc)),
    }
}

fn fitting_in(
    alloc: Global,
    globs: &ValidGlobSet,
    path: &str,
    indices: &mut Vec<usize>,
) -> Result<List<Text>, NoMemory>
    requires { AreWritten own_text globs.now }
    ensures { IfOk result (AreFitting path.now (map (λ w. w.value) (map words_of globs.now.patterns))) }
{
    globs.set.are_read();
    match globs.matches(path, indices)? {
        Some(patterns) => own_texts(alloc, patterns.as_slice()),
        None => Ok(List::new(alloc)),
    }
}

/// The globs of script extensions that fit the path. `indices` is a buffer whose contents do not
/// matter.
pub(crate) fn fitting_scripts(
    alloc: Global,
    globs: &ValidGlobSet,
    path: &str,
    indices: &mut Vec<usize>,
) -> Result<List<Text>, NoMemory>
    requires { AreWritten extension_text globs.now }
    ensures { IfOk result (AreFitting path.now (map extension_text globs.now.patterns)) }
{
    if globs.patterns.len() == 0 {
        return Ok(List::new(alloc));
    }
    globs.set.are_read();
    match globs.matches(path, indices)? {
        Some(patterns) => extension_texts(alloc, patterns.as_slice()),
        None => Ok(List::new(alloc)),
    }
}

fn own_texts(alloc: Global, patterns: &[&GlobPattern]) -> Result<List<Text>, NoMemory>
    ensures { IfOk result (λ texts. texts ≡ map (λ pattern. own_text pattern.now) patterns.now) }
{
    let mut texts = List::new(alloc);
    for pattern in patterns {
        texts.push(own_text(pattern).clone()?)?;
    }
    Ok(texts)
}

fn own_text(pattern: &GlobPattern) -> &Text
    ensures { result.now ≡ own_text pattern.now }
{
    match pattern {
        GlobPattern::Builtin((glob, _)) => &glob.value,
        GlobPattern::User(glob) => &glob.value,
    }
}

fn extension_texts(alloc: Global, patterns: &[&GlobPattern]) -> Result<List<Text>, NoMemory>
    ensures { IfOk result (λ texts. texts ≡ map (λ pattern. extension_text pattern.now) patterns.now) }
{
    let mut texts = List::new(alloc);
    for pattern in patterns {
        texts.push(pattern.extension_text(alloc)?)?;
    }
    Ok(texts)
}
