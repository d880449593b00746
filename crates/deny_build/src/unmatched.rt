//! The keys of allowed paths and globs that match no file of a crate.
ghost use Rattle.std.specs.Prelude.{◌≡◌, ◌++◌, [], OnOk, filter, is_some, map, not, option_map};
ghost use Rattle.std.specs.FinMap as finite;
ghost use Rattle.std.specs.Option.{option_map_or};
ghost use Rattle.deny_base.specs.declared.code.Code.TheVariants.{UnmatchedGlob, UnmatchedPathBypass};
ghost use Rattle.deny_cfg_build.specs.BuildingView.{bypass_view, path_view, words_of};
ghost use Rattle.deny_spec_report.specs.PackageFiles.{path_span};
ghost use Rattle.deny_spec.specs.Keys.{crate_key};
ghost use Rattle.deny_build.specs.private.FileMatch.{matched_view};
ghost use Rattle.deny_build.specs.private.Unmatched.{is_path_matched, missed_glob_keys, missed_keys, missed_path_keys};

use crate::glob_texts::{globs_of, words_of};
use crate::matched::{FileMatch, firsts_by_glob, firsts_by_path};
use deny_base::{Code, Key, Span};
use deny_base_lists::{List, NoMemory, TextMap};
use deny_cfg_build::{GlobPattern, ValidBypass};
use deny_cfg_tables::bans::cfg::BypassPath;
use deny_spec::crate_key;
use std::alloc::Global;
use std::collections::BTreeMap;

#[tactic(auto, unfolding(crate::specs::private::Unmatched::is_path_matched))]
fn is_path_matched(firsts: &BTreeMap<Span, usize>, path: &BypassPath) -> bool
    ensures { result ≡ is_path_matched firsts.now (path_view path.now) }
{
    let span = path.path.span;
    firsts.contains_key(&span)
}

/// Adds the keys of the paths for whose span `firsts` has no file.
fn add_missed_spans(
    alloc: Global,
    place: u32,
    paths: &[BypassPath],
    firsts: &BTreeMap<Span, usize>,
    keys: &mut List<Key>,
) -> Result<(), NoMemory>
    ensures { OnOk result (keys.new ≡ keys.old ++ map (λ a. crate_key UnmatchedPathBypass place (path_span a))
        (filter (λ a. not (is_path_matched firsts.now a)) (map path_view paths.now))) }
{
    for path in paths {
        if !is_path_matched(firsts, path) {
            keys.push(crate_key(alloc, Code::UnmatchedPathBypass, place, path.path.span))?;
        }
    }
    Ok(())
}

/// Adds the keys of the paths that match no file.
fn add_missed_paths(
    alloc: Global,
    place: u32,
    paths: &[BypassPath],
    all: &[FileMatch<'_>],
    keys: &mut List<Key>,
) -> Result<(), NoMemory>
    ensures { OnOk result (keys.new
        ≡ keys.old ++ missed_path_keys place (map matched_view all.now) (map path_view paths.now)) }
{
    let firsts = firsts_by_path(alloc, all)?;
    add_missed_spans(alloc, place, paths, &firsts, keys)
}

/// Adds the keys of the globs for whose text `firsts` has no file.
fn add_unmatched_globs(
    alloc: Global,
    place: u32,
    globs: &[GlobPattern],
    firsts: &TextMap<usize>,
    keys: &mut List<Key>,
) -> Result<(), NoMemory>
    ensures { OnOk result (keys.new ≡ keys.old ++ map (λ w. crate_key UnmatchedGlob place w.span)
        (filter (λ w. not (is_some (finite.get firsts.now w.value))) (map words_of globs.now))) }
{
    for pattern in globs {
        let glob = words_of(pattern);
        if !firsts.contains_key(glob.value.as_str()) {
            keys.push(crate_key(alloc, Code::UnmatchedGlob, place, glob.span))?;
        }
    }
    Ok(())
}

/// Adds the keys of the globs that let no file pass.
fn add_missed_globs(
    alloc: Global,
    place: u32,
    globs: &[GlobPattern],
    all: &[FileMatch<'_>],
    keys: &mut List<Key>,
) -> Result<(), NoMemory>
    ensures { OnOk result (keys.new
        ≡ keys.old ++ missed_glob_keys place (map matched_view all.now) (map words_of globs.now)) }
{
    let firsts = firsts_by_glob(alloc, all)?;
    add_unmatched_globs(alloc, place, globs, &firsts, keys)
}

fn add_missed(
    alloc: Global,
    place: u32,
    bypass: &ValidBypass,
    all: &[FileMatch<'_>],
    keys: &mut List<Key>,
) -> Result<(), NoMemory>
    ensures { OnOk result (keys.new ≡ keys.old ++ missed_keys place (map matched_view all.now)
        (bypass_view bypass.now)) }
{
    add_missed_paths(alloc, place, bypass.allow.as_slice(), all, keys)?;
    add_missed_globs(alloc, place, globs_of(bypass), all, keys)
}

/// Adds the keys of the paths and the globs of a crate's bypass, if it has one, that match none of
/// the crate's files.
pub fn add_unmatched_keys(
    alloc: Global,
    place: u32,
    bypass: Option<&ValidBypass>,
    all: &[FileMatch<'_>],
    keys: &mut List<Key>,
) -> Result<(), NoMemory>
    ensures { OnOk result (keys.new ≡ keys.old ++ option_map_or (missed_keys place (map matched_view all.now))
        (option_map (λ y. bypass_view y.now) bypass.entry) []) }
{
    match bypass {
        Some(bypass) => add_missed(alloc, place, bypass, all, keys),
        None => Ok(()),
    }
}
