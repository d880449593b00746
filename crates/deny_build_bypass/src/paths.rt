//! The files that a bypass allows, found by the components of their paths.
ghost use Rattle.std.specs.Prelude.{◌≡◌, ◌++◌, IfOk, OnOk, codes, filter, find};
ghost use Rattle.std.specs.Prelude.{map, option_and_then, option_map, slice_get};
ghost use Rattle.std.specs.Option.{option_copied};
ghost use Rattle.deny_cfg_build.specs.BuildingView.{bypass_view, path_view};
ghost use Rattle.deny_spec.specs.Paths.{components, is_component, parts};
ghost use Rattle.deny_spec_report.specs.PackageFiles.{path_of_used};
ghost use Rattle.deny_build_bypass.specs.private.Paths.{files_of, spelled, spelling_of};
ghost use Rattle.deny_build_bypass.specs.private.Components.{has_components, has_components_at};

use deny_base_lists::{NoMemory, Text};
use deny_cfg::SpecIndex;
use deny_cfg_build::ValidBypass;
use deny_cfg_tables::bans::cfg::BypassPath;
use std::alloc::{AllocError, Global};

/// The bypass of a crate, if it has one, with an index of its allowed files.
#[derive(Drop)]
pub struct Allowed<'b> {
    pub bypass: Option<&'b ValidBypass>,
    spellings: SpecIndex,
    ghost spelled: { spellings ≡ map spelling_of (files_of (option_copied bypass)) },
}

impl<'b> Allowed<'b> {
    /// Indexes the files that a bypass allows.
    pub fn new(alloc: Global, bypass: Option<&'b ValidBypass>) -> Result<Allowed<'b>, NoMemory>
        ensures { IfOk result (λ allowed. allowed.bypass ≡ bypass.entry) }
    {
        let spellings = spellings_of(alloc, files_of(bypass))?;
        Ok(Allowed { bypass, spellings })
    }

    /// The first allowed file with the same components as a path.
    pub fn path_of(&self, alloc: Global, path: &str) -> Result<Option<&'b BypassPath>, NoMemory>
        ensures { IfOk result (λ found. option_map (λ file. path_view file.now) found
            ≡ path_of_used (option_map bypass_view (option_copied self.now.bypass)) path.now) }
    {
        let files = files_of(self.bypass);
        if files.is_empty() {
            return Ok(None);
        }
        let names = components(alloc, path)?;
        let spelling = spelled(alloc, names.as_slice())?;
        let mut numbers = Vec::new(alloc);
        self.spellings.numbers_of(spelling.as_str(), &mut numbers)?;
        first_with(alloc, files, numbers.as_slice(), names.as_slice())
    }
}

fn files_of(bypass: Option<&ValidBypass>) -> &[BypassPath]
    ensures { result.now ≡ files_of (option_copied bypass.entry) }
{
    match bypass {
        Some(bypass) => bypass.allow.as_slice(),
        None => &[],
    }
}

fn spellings_of(alloc: Global, files: &[BypassPath]) -> Result<SpecIndex, NoMemory>
    ensures { IfOk result (λ spellings. spellings ≡ map spelling_of files.now) }
{
    let mut spellings = SpecIndex::new(alloc);
    for file in files {
        let spelling = spelling_of(alloc, file)?;
        spellings.add(spelling.as_str())?;
    }
    Ok(spellings)
}

#[tactic(auto, unfolding(crate::specs::private::Paths::spelling))]
fn spelling_of(alloc: Global, file: &BypassPath) -> Result<Text, NoMemory>
    ensures { IfOk result (λ text. text ≡ spelling_of file.now) }
{
    let names = components(alloc, file.path.value.as_str())?;
    spelled(alloc, names.as_slice())
}

/// The components of a path, each followed by a slash.
fn spelled(alloc: Global, names: &[&str]) -> Result<Text, NoMemory>
    ensures { IfOk result (λ text. text ≡ spelled (map (λ name. name.now) names.now)) }
{
    let mut text = Text::new(alloc);
    for name in names {
        spell(name, &mut text)?;
    }
    Ok(text)
}

fn spell(name: &str, text: &mut Text) -> Result<(), NoMemory>
    ensures { OnOk result (text.new ≡ text.old ++ (name.now ++ codes "/")) }
{
    text.push_str(name)?;
    text.push_str("/")
}

fn is_component(part: &str) -> bool
    ensures { result ≡ is_component part.now }
{
    !(part == "" || part == ".")
}

fn parts_of(alloc: Global, path: &str) -> Result<Vec<&str>, AllocError>
    ensures { IfOk result (λ all. map (λ part. part.now) all.items ≡ parts path.now) }
{
    path.split('/').collect(alloc)
}

fn select_components<'p>(alloc: Global, parts: &[&'p str]) -> Result<Vec<&'p str>, NoMemory>
    ensures { IfOk result (λ names. map (λ name. name.now) names.items
        ≡ filter is_component (map (λ part. part.now) parts.now)) }
{
    let mut names = Vec::new(alloc);
    for part in parts {
        if is_component(part) {
            names.push(*part)?;
        }
    }
    Ok(names)
}

#[tactic(auto, unfolding(deny_spec::specs::Paths::components))]
fn components(alloc: Global, path: &str) -> Result<Vec<&str>, NoMemory>
    ensures { IfOk result (λ names. map (λ name. name.now) names.items ≡ components path.now) }
{
    let parts = parts_of(alloc, path)?;
    select_components(alloc, parts.as_slice())
}

fn has_components(alloc: Global, path: &str, names: &[&str]) -> Result<bool, NoMemory>
    ensures { IfOk result (λ has. has ≡ has_components (map (λ name. name.now) names.now) path.now) }
{
    let own = components(alloc, path)?;
    Ok(own.as_slice() == names)
}

fn has_components_at(
    alloc: Global,
    files: &[BypassPath],
    number: usize,
    names: &[&str],
) -> Result<bool, NoMemory>
    ensures { IfOk result (λ has. has
        ≡ has_components_at files.now (map (λ name. name.now) names.now) number) }
{
    match files.get(number) {
        Some(file) => has_components(alloc, file.path.value.as_str(), names),
        None => Ok(false),
    }
}

fn file_at(files: &[BypassPath], number: usize) -> Option<&BypassPath>
    ensures { option_copied result ≡ slice_get files.now number }
{
    files.get(number)
}

/// The first of the files at these indices that has these components.
fn first_with<'f>(
    alloc: Global,
    files: &'f [BypassPath],
    numbers: &[usize],
    names: &[&str],
) -> Result<Option<&'f BypassPath>, NoMemory>
    ensures { IfOk result (λ found. option_copied found ≡ option_and_then (slice_get files.now)
        (find (has_components_at files.now (map (λ name. name.now) names.now)) numbers.now)) }
{
    for number in numbers {
        if has_components_at(alloc, files, *number, names)? {
            return Ok(file_at(files, *number));
        }
    }
    Ok(None)
}
