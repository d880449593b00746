//! The files of crates with the paths and globs of a bypass that match them.
ghost use Rattle.std.specs.Prelude.{◌≡◌, ◌++◌, ℕ, IfOk, List, None, OnOk, Some, cond, map, option_map};
ghost use Rattle.std.specs.FinMap as finite;
ghost use Rattle.std.specs.List.{list_any};
ghost use Rattle.std.specs.Option.{option_or};
ghost use Rattle.deny_base.specs.declared.span.Span.{Span};
ghost use Rattle.deny_cfg_build.specs.BuildingView.{bypass_view, path_view};
ghost use Rattle.deny_spec_report.specs.PackageFiles.{leaves_to_globs, path_of_used};
ghost use Rattle.deny_base_lists.specs.First.{GainsEntry};
ghost use Rattle.deny_spec.specs.Text.{same_text};
ghost use Rattle.deny_build.specs.private.FileMatch.{IsFirstAt, all_matched, matches_glob, matches_path};
ghost use Rattle.deny_build.specs.private.FileMatch.{matched_by, matched_view, number_at, is_same_span};

use deny_base::{Kid, Span};
use deny_base_lists::{NoMemory, Text, TextMap};
use deny_build_bypass::Allowed;
use deny_cfg_tables::bans::cfg::BypassPath;
use deny_spec::PackageFile;
use std::alloc::Global;
use std::collections::BTreeMap;

/// A file of a crate, with the allowed path that matches it.
#[derive(Drop)]
pub struct FileMatch<'a> {
    pub kid: &'a Kid,
    pub file: &'a PackageFile,
    pub path: Option<&'a BypassPath>,
}

fn path_of<'b>(
    alloc: Global,
    allowed: &Allowed<'b>,
    path: &str,
) -> Result<Option<&'b BypassPath>, NoMemory>
    ensures { IfOk result (λ found. option_map (λ a. path_view a.now) found
        ≡ path_of_used (option_map (λ y. bypass_view y.now) allowed.now.bypass) path.now) }
{
    allowed.path_of(alloc, path)
}

#[tactic(auto, unfolding(crate::specs::private::FileMatch::matched_by))]
fn match_file<'a>(
    alloc: Global,
    allowed: &Allowed<'a>,
    kid: &'a Kid,
    file: &'a PackageFile,
) -> Result<FileMatch<'a>, NoMemory>
    ensures { IfOk result (λ m. matched_view m
        ≡ matched_by (option_map (λ y. bypass_view y.now) allowed.now.bypass) kid.now file.now) }
{
    Ok(FileMatch {
        kid,
        file,
        path: path_of(alloc, allowed, file.path.as_str())?,
    })
}

/// Appends the files of a crate, each with the allowed path that matches it, if there is one.
pub fn match_files<'a>(
    alloc: Global,
    allowed: &Allowed<'a>,
    kid: &'a Kid,
    files: &'a [PackageFile],
    all: &mut Vec<FileMatch<'a>>,
) -> Result<(), NoMemory>
    ensures { OnOk result (map matched_view all.new.items ≡ map matched_view all.old.items
        ++ all_matched (option_map (λ y. bypass_view y.now) allowed.now.bypass) kid.now files.now) }
{
    for file in files {
        all.push(match_file(alloc, allowed, kid, file)?)?;
    }
    Ok(())
}

fn leaves_to_globs(matched: &FileMatch<'_>) -> bool
    ensures { result ≡ leaves_to_globs (matched_view matched.now).path }
{
    match matched.path {
        Some(path) => path.checksum.is_some(),
        None => true,
    }
}

/// Puts the index of a file for a span, if there is none yet.
fn note_span(number: usize, span: Span, firsts: &mut BTreeMap<Span, usize>) -> Result<(), NoMemory>
    ensures { OnOk result (GainsEntry is_same_span span number (number_at firsts.old) (number_at firsts.new)) }
{
    if !firsts.contains_key(&span) {
        firsts.insert(span, number)?;
    }
    Ok(())
}

/// Puts the index of a file for the span of the allowed path that matches it, if there is none yet.
fn note_path(
    number: usize,
    matched: &FileMatch<'_>,
    firsts: &mut BTreeMap<Span, usize>,
) -> Result<(), NoMemory>
    ensures { OnOk result ((span : Span) → number_at firsts.new span
        ≡ option_or (number_at firsts.old span) (cond (matches_path span (matched_view matched.now))
        (Some number) None)) }
{
    match matched.path {
        Some(path) => note_span(number, path.path.span, firsts),
        None => Ok(()),
    }
}

/// The index of the first file that each allowed path matches, by the path's span.
pub fn firsts_by_path(
    alloc: Global,
    all: &[FileMatch<'_>],
) -> Result<BTreeMap<Span, usize>, NoMemory>
    ensures { IfOk result (λ firsts. (span : Span)
        → IsFirstAt (matches_path span) (map matched_view all.now) (number_at firsts span)) }
{
    let mut firsts = BTreeMap::new(alloc);
    for number in 0..all.len() {
        note_path(number, &all[number], &mut firsts)?;
    }
    Ok(firsts)
}

/// Puts the index of a file for a glob, if there is none yet.
fn note_glob(number: usize, glob: &Text, firsts: &mut TextMap<usize>) -> Result<(), NoMemory>
    ensures { OnOk result ((text : List ℕ) → finite.get firsts.new text
        ≡ option_or (finite.get firsts.old text) (cond (same_text text glob.now) (Some number) None)) }
{
    if firsts.contains_key(glob.as_str()) {
        return Ok(());
    }
    firsts.insert(glob.clone()?, number)
}

/// Puts the index of a file for each of the globs that has none yet.
fn note_globs(number: usize, globs: &[Text], firsts: &mut TextMap<usize>) -> Result<(), NoMemory>
    ensures { OnOk result ((text : List ℕ) → finite.get firsts.new text
        ≡ option_or (finite.get firsts.old text) (cond (list_any (same_text text) globs.now) (Some number) None)) }
{
    for glob in globs {
        note_glob(number, glob, firsts)?;
    }
    Ok(())
}

#[tactic(auto, unfolding(crate::specs::private::FileMatch::matches_glob))]
fn note(number: usize, matched: &FileMatch<'_>, firsts: &mut TextMap<usize>) -> Result<(), NoMemory>
    ensures { OnOk result ((glob : List ℕ) → finite.get firsts.new glob
        ≡ option_or (finite.get firsts.old glob) (cond (matches_glob glob (matched_view matched.now))
        (Some number) None)) }
{
    if !leaves_to_globs(matched) {
        return Ok(());
    }
    note_globs(number, matched.file.globs.as_slice(), firsts)
}

/// The index of the first file that each glob lets pass, by the glob's text.
pub fn firsts_by_glob(alloc: Global, all: &[FileMatch<'_>]) -> Result<TextMap<usize>, NoMemory>
    ensures { IfOk result (λ firsts. (glob : List ℕ)
        → IsFirstAt (matches_glob glob) (map matched_view all.now) (finite.get firsts glob)) }
{
    let mut firsts = TextMap::new(alloc);
    for number in 0..all.len() {
        note(number, &all[number], &mut firsts)?;
    }
    Ok(firsts)
}
