//! An index of the dependency sections of a manifest.
ghost use Rattle.std.specs.Prelude.{◌≡◌, ◌++◌, [], ℕ, Bool, List, IfOk, MatchOption, OnOk, map, option_map};
ghost use Rattle.std.specs.Option.{option_copied};
ghost use Rattle.deny_krates.specs.Crates.{dependency_view};
ghost use Rattle.deny_spans_manifest.specs.Agreement.{ReportsAgreement};
ghost use Rattle.deny_spans_manifest.specs.Written.{entries_at, found_in, key_name, section_name};
ghost use Rattle.deny_spans_manifest.specs.private.Sections.{FindsKeyed, IsIndexOf, KeyedEntry, kind_keyed};
ghost use Rattle.deny_spans_manifest.specs.private.Sections.{keyed_at, sections_keyed, targets_keyed};
ghost use Rattle.deny_spans_manifest.specs.private.Targets.{NumbersTargets, number_of};
ghost use Rattle.deny_toml.specs.value.Value.{Value};

use crate::firsts::Firsts;
use crate::found::below;
use crate::targets::Targets;
use deny_base_lists::{NoMemory, Text};
use deny_krates::{DepKind, Dependency};
use deny_toml::{Key, Value};
use std::alloc::Global;

/// Where a declaration is written: for all targets or under the target keys of a number, in the section of
/// a kind, under its key.
#[derive(PartialEq, Eq, PartialOrd, Ord, Drop)]
pub struct SectionKey {
    pub target: Option<usize>,
    pub kind: DepKind,
    pub name: Text,
}

/// The entries of a manifest's sections by their section keys; of several with equal keys the first.
#[derive(Drop)]
pub struct Sections<'m, 't> {
    targets: Targets,
    entries: Firsts<SectionKey, &'m (Key<'t>, Value<'t>)>,
}

impl<'m, 't> Sections<'m, 't> {
    /// The sections of a manifest's tree.
    pub fn of(alloc: Global, tree: &'m Value<'t>) -> Result<Sections<'m, 't>, NoMemory>
        ensures { IfOk result (IsIndexOf tree.now) }
    {
        let mut entries = Firsts::new(alloc);
        add_sections(alloc, &mut entries, None, tree)?;
        let Some(keys) = entries_at(tree, "target") else {
            return Ok(Sections {
                targets: Targets::none(alloc),
                entries,
            });
        };
        let targets = Targets::of(alloc, keys)?;
        add_targets(alloc, &mut entries, &targets, keys)?;
        Ok(Sections { targets, entries })
    }

    /// The entry that writes a declaration.
    pub fn find(
        &self,
        alloc: Global,
        declaration: &Dependency,
    ) -> Result<Option<&'m (Key<'t>, Value<'t>)>, NoMemory>
        ensures { IfOk result (λ found. (agrees : List ℕ → List ℕ → Bool) → ReportsAgreement agrees
            → (tree : Value) → IsIndexOf tree self.now
            → option_copied found ≡ found_in agrees tree (dependency_view declaration.now)) }
    {
        let section_key = SectionKey {
            target: self.number(alloc, &declaration.target)?,
            kind: declaration.kind,
            name: key_name(declaration).clone()?,
        };
        Ok(self.entries.find(&section_key))
    }

    /// The number of a target, if there is one.
    fn number(&self, alloc: Global, target: &Option<Text>) -> Result<Option<usize>, NoMemory>
        ensures { IfOk result (λ number. (agrees : List ℕ → List ℕ → Bool) → ReportsAgreement agrees
            → (keys : List (List ℕ)) → NumbersTargets keys self.now.targets
            → number ≡ option_map (number_of agrees keys) target.now) }
    {
        match target {
            Some(key) => Ok(Some(self.targets.number(alloc, key.as_str())?)),
            None => Ok(None),
        }
    }
}

/// The key that a declaration has in its section.
fn key_name(declaration: &Dependency) -> &Text
    ensures { result.now ≡ key_name (dependency_view declaration.now) }
{
    match &declaration.rename {
        Some(rename) => rename,
        None => &declaration.name,
    }
}

/// The section that declares the dependencies of a kind.
fn section_name(kind: DepKind) -> &'static str
    ensures { result.now ≡ section_name kind }
{
    match kind {
        DepKind::Normal => "dependencies",
        DepKind::Dev => "dev-dependencies",
        DepKind::Build => "build-dependencies",
    }
}

/// The entries of the table at a key, where there is such a table.
#[tactic(auto, unfolding(crate::specs::Written::entries_of))]
fn entries_at<'v, 't>(value: &'v Value<'t>, name: &str) -> Option<&'v [(Key<'t>, Value<'t>)]>
    ensures { MatchOption result (entries_at name.now value.now ≡ [])
        (λ entries. entries.now ≡ entries_at name.now value.now) }
{
    let table = below(value, name)?.as_table()?;
    Some(table.entries())
}

/// Adds the entries of a section.
fn add_section<'m, 't>(
    alloc: Global,
    entries: &mut Firsts<SectionKey, &'m (Key<'t>, Value<'t>)>,
    target: Option<usize>,
    kind: DepKind,
    section: &'m [(Key<'t>, Value<'t>)],
) -> Result<(), NoMemory>
    ensures { OnOk result ((keyed : List KeyedEntry) → FindsKeyed keyed entries.old
        → FindsKeyed (keyed ++ map (keyed_at target kind) section.now) entries.new) }
{
    for entry in section {
        let section_key = SectionKey {
            target,
            kind,
            name: Text::from_str(alloc, entry.0.name.as_str())?,
        };
        entries.add(section_key, entry)?;
    }
    Ok(())
}

/// Adds the section of a kind.
fn add_kind<'m, 't>(
    alloc: Global,
    entries: &mut Firsts<SectionKey, &'m (Key<'t>, Value<'t>)>,
    target: Option<usize>,
    value: &'m Value<'t>,
    kind: DepKind,
) -> Result<(), NoMemory>
    ensures { OnOk result ((keyed : List KeyedEntry) → FindsKeyed keyed entries.old
        → FindsKeyed (keyed ++ kind_keyed target value.now kind) entries.new) }
{
    match entries_at(value, section_name(kind)) {
        Some(section) => add_section(alloc, entries, target, kind, section),
        None => Ok(()),
    }
}

/// Adds the sections of all kinds, for all targets or for one.
fn add_sections<'m, 't>(
    alloc: Global,
    entries: &mut Firsts<SectionKey, &'m (Key<'t>, Value<'t>)>,
    target: Option<usize>,
    value: &'m Value<'t>,
) -> Result<(), NoMemory>
    ensures { OnOk result ((keyed : List KeyedEntry) → FindsKeyed keyed entries.old
        → FindsKeyed (keyed ++ sections_keyed target value.now) entries.new) }
{
    add_kind(alloc, entries, target, value, DepKind::Normal)?;
    add_kind(alloc, entries, target, value, DepKind::Dev)?;
    add_kind(alloc, entries, target, value, DepKind::Build)?;
    Ok(())
}

/// Adds the sections of targets.
fn add_targets<'m, 't>(
    alloc: Global,
    entries: &mut Firsts<SectionKey, &'m (Key<'t>, Value<'t>)>,
    targets: &Targets,
    keys: &'m [(Key<'t>, Value<'t>)],
) -> Result<(), NoMemory>
    ensures { OnOk result ((agrees : List ℕ → List ℕ → Bool) → ReportsAgreement agrees
        → (names : List (List ℕ)) → NumbersTargets names targets.now
        → (keyed : List KeyedEntry) → FindsKeyed keyed entries.old
        → FindsKeyed (keyed ++ targets_keyed (number_of agrees names) keys.now) entries.new) }
{
    for entry in keys {
        let number = targets.number(alloc, entry.0.name.as_str())?;
        add_sections(alloc, entries, Some(number), &entry.1)?;
    }
    Ok(())
}
