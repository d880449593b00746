//! The kinds of dependencies that a manifest excludes from the search for duplicates.
ghost use Rattle.std.specs.Prelude.{◌≡◌, ◌==◌, ◌++◌, ◌∷◌, [], IfOk, OnOk, option_map, if◌then◌else◌};
ghost use Rattle.std.specs.List.{list_any};
ghost use Rattle.deny_spans_manifest.specs.Ignored.{duplicates_in, ignored_at, is_among, kind_word, unnamed_in};
ghost use Rattle.deny_spans_manifest.specs.Ignored.{words_in};
ghost use Rattle.deny_spans_manifest.specs.private.Ignored.{names_kind};
ghost use Rattle.deny_spec.specs.Text.{same_text};

use deny_base_lists::{List, NoMemory};
use deny_krates::{DepKind, Krates};
use deny_toml::Value;
use std::alloc::Global;

/// The kinds that the manifest of the crate at a place ignores. Only a member's ignores any.
pub fn ignored_at(
    alloc: Global,
    krates: &Krates,
    place: u32,
    tree: &Value<'_>,
) -> Result<List<DepKind>, NoMemory>
    ensures { IfOk result (λ ignored. ignored ≡ ignored_at krates.now place tree.now) }
{
    if !is_member(krates, place) {
        return Ok(List::new(alloc));
    }
    match listed_in(tree) {
        Some(listed) => unnamed_in(alloc, listed),
        None => Ok(List::new(alloc)),
    }
}

fn is_member(krates: &Krates, place: u32) -> bool
    ensures { result ≡ list_any (λ member. member == place) krates.now.members }
{
    krates.workspace_members().binary_search(&place).is_ok()
}

/// The elements of `workspace-duplicates`, where it is an array.
fn listed_in<'v, 't>(tree: &'v Value<'t>) -> Option<&'v [Value<'t>]>
    ensures { option_map (λ listed. listed.now) result ≡ duplicates_in tree.now }
{
    match tree.pointer("/package/metadata/cargo-deny/workspace-duplicates") {
        Some(listed) => listed.as_array(),
        None => None,
    }
}

/// The kinds that no element names.
fn unnamed_in(alloc: Global, listed: &[Value<'_>]) -> Result<List<DepKind>, NoMemory>
    ensures { IfOk result (λ unnamed. unnamed ≡ unnamed_in (words_in listed.now)) }
{
    let mut unnamed = List::new(alloc);
    push_unnamed(&mut unnamed, listed, DepKind::Normal)?;
    push_unnamed(&mut unnamed, listed, DepKind::Dev)?;
    push_unnamed(&mut unnamed, listed, DepKind::Build)?;
    Ok(unnamed)
}

fn push_unnamed(
    unnamed: &mut List<DepKind>,
    listed: &[Value<'_>],
    kind: DepKind,
) -> Result<(), NoMemory>
    ensures { OnOk result (unnamed.new ≡ unnamed.old
        ++ (if list_any (same_text (kind_word kind)) (words_in listed.now) then [] else kind ∷ [])) }
{
    if !is_named(listed, kind) {
        unnamed.push(kind)?;
    }
    Ok(())
}

/// Whether an element names a kind.
fn is_named(listed: &[Value<'_>], kind: DepKind) -> bool
    ensures { result ≡ list_any (names_kind kind) listed.now }
{
    listed.iter().any(|element| names(element, kind))
}

fn names(element: &Value<'_>, kind: DepKind) -> bool
    ensures { result ≡ names_kind kind element.now }
{
    match element.as_str() {
        Some(word) => word == kind_word(kind),
        None => false,
    }
}

/// The word that a manifest lists for a kind.
fn kind_word(kind: DepKind) -> &'static str
    ensures { result.now ≡ kind_word kind }
{
    match kind {
        DepKind::Normal => "",
        DepKind::Dev => "dev",
        DepKind::Build => "build",
    }
}

/// Whether a kind is in the list.
#[tactic(auto, unfolding(crate::specs::Ignored::is_among))]
pub fn is_among(ignored: &[DepKind], kind: DepKind) -> bool
    ensures { result ≡ is_among ignored.now kind }
{
    ignored.iter().any(|other| *other == kind)
}
