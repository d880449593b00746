//! The keys of the files of a walked crate.
ghost use Rattle.std.specs.Prelude.{◌≡◌, ◌++◌, IfOk, OnOk, map, option_map};
ghost use Rattle.std.specs.List.{flat_map};
ghost use Rattle.deny_cfg_build.specs.BuildingView.{bypass_view};
ghost use Rattle.deny_spec_report.specs.Packages.{folder_key, walked_keys};
ghost use Rattle.deny_build.specs.private.Files.{matched_keys, finding_keys};
ghost use Rattle.deny_build.specs.private.Globs.{IsSetOf, script_texts};
ghost use Rattle.deny_build.specs.private.ScannedKrates.{krate_of, scanning_at};
ghost use Rattle.deny_build.specs.private.FileMatch.{all_matched, matched_view};

use crate::files::{FileFinding, finding_of};
use crate::glob_texts::{decides, own_set};
use crate::keys::path_key;
use crate::matched::{FileMatch, match_files};
use crate::scanned_krate::ScannedKrate;
use crate::unmatched::add_unmatched_keys;
use deny_base::{Code, Key};
use deny_base_lists::{List, NoMemory, Text, TextMap};
use deny_build_bypass::Allowed;
use deny_spec::{Seen, no_span};
use std::alloc::Global;

/// Adds the keys of the folders without a list.
fn add_folder_keys(
    alloc: Global,
    place: u32,
    unlisted: &[Seen],
    keys: &mut List<Key>,
) -> Result<(), NoMemory>
    ensures { OnOk result (keys.new ≡ keys.old ++ map (folder_key place) unlisted.now) }
{
    for seen in unlisted {
        keys.push(path_key(
            alloc,
            Code::UnableToCheckPath,
            place,
            no_span(),
            &seen.shown,
        )?)?;
    }
    Ok(())
}

fn add_finding(
    alloc: Global,
    place: u32,
    shown: &Text,
    finding: Option<FileFinding>,
    keys: &mut List<Key>,
) -> Result<(), NoMemory>
    ensures { OnOk result (keys.new ≡ keys.old ++ finding_keys place shown.now finding) }
{
    match finding {
        Some(finding) => keys.push(path_key(alloc, finding.code, place, finding.entry, shown)?),
        None => Ok(()),
    }
}

#[tactic(auto, unfolding(crate::specs::private::Files::matched_keys))]
fn add_matched(
    alloc: Global,
    place: u32,
    own: &TextMap<bool>,
    scripts: &TextMap<bool>,
    matched: &FileMatch<'_>,
    keys: &mut List<Key>,
) -> Result<(), NoMemory>
    ensures { OnOk result (keys.new ≡ keys.old ++ matched_keys own.now scripts.now place (matched_view matched.now)) }
{
    let file = matched.file;
    let by_glob = decides(own, file);
    let by_extension = decides(scripts, file);
    let finding = finding_of(matched.path, by_glob, by_extension, &file.seen.found);
    add_finding(alloc, place, &file.seen.shown, finding, keys)
}

/// Adds the keys of files, by the sets of the globs of their crate's bypass and of script
/// extensions.
fn add_matched_keys(
    alloc: Global,
    place: u32,
    own: &TextMap<bool>,
    scripts: &TextMap<bool>,
    all: &[FileMatch<'_>],
    keys: &mut List<Key>,
) -> Result<(), NoMemory>
    ensures { OnOk result (keys.new
        ≡ keys.old ++ flat_map (matched_keys own.now scripts.now place) (map matched_view all.now)) }
{
    for matched in all {
        add_matched(alloc, place, own, scripts, matched, keys)?;
    }
    Ok(())
}

/// The files of a crate, each with the allowed path of its bypass that matches it.
fn matched_of<'a>(alloc: Global, at: &ScannedKrate<'a>) -> Result<Vec<FileMatch<'a>>, NoMemory>
    ensures { IfOk result (λ all. map matched_view all.items ≡ all_matched (option_map
        (λ y. bypass_view y.now) at.now.bypass)
        at.now.krate.now.id at.now.contents.now.files) }
{
    let allowed = Allowed::new(alloc, at.bypass)?;
    let mut all = Vec::new(alloc);
    let files = at.contents.files.as_slice();
    match_files(alloc, &allowed, &at.krate.id, files, &mut all)?;
    Ok(all)
}

/// Adds the keys of a walked crate: of its folders without a list, of its files, and of the paths
/// and globs of its bypass that match no file.
pub fn add_walked_keys(
    alloc: Global,
    at: &ScannedKrate<'_>,
    scripts: &TextMap<bool>,
    keys: &mut List<Key>,
) -> Result<(), NoMemory>
    requires { IsSetOf (script_texts (scanning_at at.now).building) scripts.now }
    ensures { OnOk result (keys.new ≡ keys.old ++ walked_keys (scanning_at at.now) (krate_of at.now)) }
{
    let own = own_set(alloc, at.bypass)?;
    let all = matched_of(alloc, at)?;
    add_folder_keys(alloc, at.place, at.contents.unlisted.as_slice(), keys)?;
    add_matched_keys(alloc, at.place, &own, scripts, all.as_slice(), keys)?;
    add_unmatched_keys(alloc, at.place, at.bypass, all.as_slice(), keys)
}
