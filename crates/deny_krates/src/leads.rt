//! How lists of features and declarations lead from one node to another.
ghost use Rattle.std.specs.Prelude.{◌≡◌, ◌&&◌, ◌++◌, IfSome, IfNone, Some, false, codes, map, slice_get};
ghost use Rattle.std.specs.Cmp.Lexicographic.{slice_cmp};
ghost use Rattle.std.specs.List.{list_any};
ghost use Rattle.std.specs.List.Sorted.{IsStrictlySortedBy};
ghost use Rattle.std.specs.Ordering.{nat_cmp};
ghost use Rattle.deny_krates_graph.specs.Crates.{crate_view, dependency_view};
ghost use Rattle.deny_krates.specs.Nodes.{asks_for, asks_in_vain, entries_of, holds_plain};
ghost use Rattle.deny_krates.specs.Nodes.{is_called, is_of_kind, is_plain, leads_over, manifest_name};
ghost use Rattle.deny_krates.specs.private.Sources.{any_there, asks_for_none, is_led_over, passes_there};
ghost use Rattle.deny_spec.specs.Text.{same_text};

use crate::resolved::ResolvedAt;
use deny_base::DepKind;
use deny_base_lists::Text;
use deny_krates_graph::{Dependency, Krate};

/// The index of a text in an ascending list.
pub fn index_of(texts: &[Text], text: &str) -> Option<usize>
    requires { IsStrictlySortedBy (slice_cmp nat_cmp) texts.now }
    ensures found { IfSome result (λ index. slice_get texts.now index ≡ Some text.now) }
    ensures none { IfNone result (list_any (same_text text.now) texts.now ≡ false) }
{
    match texts.binary_search_by(|other| other.as_str().cmp(text)) {
        Ok(index) => Some(index),
        Err(_) => None,
    }
}

fn has(texts: &[Text], text: &str) -> bool
    requires { IsStrictlySortedBy (slice_cmp nat_cmp) texts.now }
    ensures { result ≡ list_any (same_text text.now) texts.now }
{
    match index_of(texts, text) {
        Some(_) => true,
        None => false,
    }
}

/// Whether the list of a crate's feature contains another feature as a plain entry.
#[tactic(auto, unfolding(crate::specs::Nodes::holds_plain, crate::specs::Nodes::entries_of))]
pub fn holds_plain(krate: &Krate, other: &str, feature: &Text) -> bool
    ensures { result ≡ holds_plain (crate_view 0 krate.now) other.now feature.now }
{
    is_plain(other) && is_among(other, entries_of(krate, feature))
}

#[tactic(auto, unfolding(crate::specs::Nodes::is_plain))]
fn is_plain(entry: &str) -> bool
    ensures { result ≡ is_plain entry.now }
{
    let bytes = entry.as_bytes();
    !bytes.starts_with(b"dep:") && !bytes.contains(&b'/')
}

fn is_among(text: &str, texts: &[Text]) -> bool
    ensures { result ≡ list_any (same_text text.now) texts.now }
{
    texts.iter().any(|other| text == other.as_str())
}

#[tactic(auto, unfolding(crate::specs::Nodes::entries_of))]
fn entries_of<'k>(krate: &'k Krate, feature: &Text) -> &'k [Text]
    ensures { result.now ≡ entries_of (crate_view 0 krate.now) feature.now }
{
    match krate.features.get(feature.as_str()) {
        Some(entries) => entries.as_slice(),
        None => &[],
    }
}

/// Whether one of the declarations at these indices is of this kind.
pub fn is_declared(run: &[ResolvedAt], declarations: &[Dependency], kind: DepKind) -> bool
    ensures { result ≡ list_any (passes_there (map dependency_view declarations.now) (is_of_kind kind)) run.now }
{
    run.iter().any(|at| is_of_kind_at(declarations, at, kind))
}

fn is_of_kind_at(declarations: &[Dependency], at: &ResolvedAt, kind: DepKind) -> bool
    ensures { result ≡ passes_there (map dependency_view declarations.now) (is_of_kind kind) at.now }
{
    match declarations.get(at.index) {
        Some(declaration) => declaration.kind == kind,
        None => false,
    }
}

/// Whether one of the declarations at these indices is of this kind and asks for a feature.
pub fn any_asks_for(
    run: &[ResolvedAt],
    declarations: &[Dependency],
    kind: DepKind,
    feature: &str,
) -> bool
    ensures { result ≡ any_there (map dependency_view declarations.now) kind (asks_for feature.now) run.now }
{
    run.iter()
        .any(|at| asks_for_at(declarations, at, kind, feature))
}

fn asks_for_at(declarations: &[Dependency], at: &ResolvedAt, kind: DepKind, feature: &str) -> bool
    ensures { result ≡ passes_there (map dependency_view declarations.now)
        (λ d. is_of_kind kind d && asks_for feature.now d) at.now }
{
    match declarations.get(at.index) {
        Some(declaration) => declaration.kind == kind && asks_for(declaration, feature),
        None => false,
    }
}

#[tactic(auto, using(crate::proofs::LeadLemmas::any_asked), unfolding(crate::specs::Nodes::asks_for))]
fn asks_for(declaration: &Dependency, feature: &str) -> bool
    ensures { result ≡ asks_for feature.now (dependency_view declaration.now) }
{
    is_among(feature, declaration.features.as_slice())
        || (declaration.uses_default_features && feature == "default")
}

/// Whether one of the declarations at these indices is of this kind and asks for no feature that is enabled in
/// the crate.
pub fn any_asks_in_vain(
    run: &[ResolvedAt],
    declarations: &[Dependency],
    kind: DepKind,
    krate: &Krate,
) -> bool
    requires { IsStrictlySortedBy (slice_cmp nat_cmp) krate.now.enabled }
    ensures { result ≡ any_there (map dependency_view declarations.now) kind
        (asks_in_vain (crate_view 0 krate.now)) run.now }
{
    let enabled = krate.enabled.as_slice();
    for at in run {
        if asks_in_vain_at(declarations, at, kind, enabled) {
            return true;
        }
    }
    false
}

fn asks_in_vain_at(
    declarations: &[Dependency],
    at: &ResolvedAt,
    kind: DepKind,
    enabled: &[Text],
) -> bool
    requires { IsStrictlySortedBy (slice_cmp nat_cmp) enabled.now }
    ensures { result ≡ passes_there (map dependency_view declarations.now)
        (λ d. is_of_kind kind d && asks_for_none enabled.now d) at.now }
{
    match declarations.get(at.index) {
        Some(declaration) => declaration.kind == kind && asks_for_none(declaration, enabled),
        None => false,
    }
}

#[tactic(auto, using(crate::proofs::LeadLemmas::any_asked))]
fn asks_for_none(declaration: &Dependency, enabled: &[Text]) -> bool
    requires { IsStrictlySortedBy (slice_cmp nat_cmp) enabled.now }
    ensures { result ≡ asks_for_none enabled.now (dependency_view declaration.now) }
{
    let asks = any_has(enabled, declaration.features.as_slice())
        || (declaration.uses_default_features && has(enabled, "default"));
    !asks
}

// Whether one of some texts is in an ascending list.
fn any_has(texts: &[Text], some: &[Text]) -> bool
    requires { IsStrictlySortedBy (slice_cmp nat_cmp) texts.now }
    ensures { result ≡ list_any (λ text. list_any (same_text text) texts.now) some.now }
{
    for text in some {
        if has(texts, text.as_str()) {
            return true;
        }
    }
    false
}

/// Whether the list of a crate's feature leads over one of its declarations at these indices, which is of this
/// kind, to a feature of the dependency.
#[tactic(auto, unfolding(crate::specs::private::Sources::is_led_over))]
pub fn any_led_over(
    run: &[ResolvedAt],
    krate: &Krate,
    kind: DepKind,
    feature: &str,
    from: &Text,
) -> bool
    ensures { result ≡ is_led_over krate.now run.now kind feature.now from.now }
{
    let entries = entries_of(krate, from);
    let declarations = krate.deps.as_slice();
    run.iter().any(|at| is_led_over_at(declarations, at, kind, feature, entries))
}

fn is_led_over_at(
    declarations: &[Dependency],
    at: &ResolvedAt,
    kind: DepKind,
    feature: &str,
    entries: &[Text],
) -> bool
    ensures { result ≡ passes_there (map dependency_view declarations.now)
        (λ d. is_of_kind kind d && list_any (leads_over d feature.now) entries.now) at.now }
{
    match declarations.get(at.index) {
        Some(declaration) => declaration.kind == kind && is_led_over(declaration, feature, entries),
        None => false,
    }
}

fn is_led_over(declaration: &Dependency, feature: &str, entries: &[Text]) -> bool
    ensures { result ≡ list_any (leads_over (dependency_view declaration.now) feature.now) entries.now }
{
    entries
        .iter()
        .any(|entry| leads_over(declaration, feature, entry.as_str()))
}

// Whether an entry is `n/f` or `n?/f`, of the dependency n.
fn leads_over(declaration: &Dependency, feature: &str, entry: &str) -> bool
    ensures { result ≡ leads_over (dependency_view declaration.now) feature.now entry.now }
{
    match entry.split_once('/') {
        Some((name, rest)) => rest == feature && is_called(declaration, name),
        None => false,
    }
}

#[tactic(auto, unfolding(crate::specs::Nodes::is_called))]
fn is_called(declaration: &Dependency, text: &str) -> bool
    ensures { result ≡ is_called (dependency_view declaration.now) text.now }
{
    let name = manifest_name(declaration);
    text == name || is_optional_name(name, text)
}

// Whether a text is a name with a `?` at its end.
fn is_optional_name(name: &str, text: &str) -> bool
    ensures { result ≡ same_text text.now (name.now ++ codes "?") }
{
    match text.strip_suffix('?') {
        Some(rest) => rest == name,
        None => false,
    }
}

#[tactic(auto, unfolding(crate::specs::Nodes::manifest_name))]
fn manifest_name(declaration: &Dependency) -> &str
    ensures { result.now ≡ manifest_name (dependency_view declaration.now) }
{
    match &declaration.rename {
        Some(rename) => rename.as_str(),
        None => declaration.name.as_str(),
    }
}
