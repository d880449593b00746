//! The sources of the edges that end at a node.
ghost use Rattle.std.specs.Prelude.{◌≡◌, if◌then◌else◌, ◌||◌, ◌++◌, ◌∷◌, ◌<◌, ◌↔◌, []};
ghost use Rattle.std.specs.Prelude.{IfOk, OnOk, Some, None, Contains, filter, length, map, not, slice_get};
ghost use Rattle.std.specs.Cmp.{IsTotalOrder};
ghost use Rattle.std.specs.FinMap.{IsAntisymmetric};
ghost use Rattle.std.specs.List.{flat_map, list_any};
ghost use Rattle.std.specs.List.Sorted.{IsStrictlySortedBy};
ghost use Rattle.std.specs.Cmp.Lexicographic.{slice_cmp};
ghost use Rattle.std.specs.Ordering.{nat_cmp};
ghost use Rattle.deny_krates_graph.specs.Crates.{crate_view, dependency_view};
ghost use Rattle.deny_krates.specs.Nodes.{all_kinds, asks_in_vain, feature_leads, is_of_kind};
ghost use Rattle.deny_krates.specs.Nodes.{holds_plain, leads_by_asking, leads_in_vain, leads_undeclared};
ghost use Rattle.deny_krates.specs.Nodes.{sources_at, sources_of_crate, sources_of_feature};
ghost use Rattle.deny_krates.specs.private.Sources.{any_there, is_led_over, passes_there};
ghost use Rattle.deny_krates.specs.private.Sources.{parent_cmp, parent_in, parent_of};
ghost use Rattle.deny_krates.specs.declared.incoming.Parent.{Parent};
ghost use Rattle.deny_spec.specs.Graph.{Crate};

use crate::krates::Krates;
use crate::leads::{any_asks_for, any_asks_in_vain, any_led_over, holds_plain, is_declared};
use crate::resolved::ResolvedAt;
use deny_base::{DepKind, edge_order};
use deny_base_lists::{List, NoMemory, Text};
use deny_krates_graph::{Dependency, Krate};
use std::alloc::Global;

/// The source of an edge: a crate, or a feature of it, with the id of the crate and the kind of the
/// dependency.
#[derive(PartialEq, Eq, PartialOrd, Ord, Drop)]
pub struct Parent {
    pub feature: Option<Text>,
    pub id: Text,
    pub kind: Option<DepKind>,
    pub place: u32,
}

/// The order of parents is by feature, id, kind and place, it is total, and only equal ones tie.
pub fn parent_order()
    ensures fields { (a b : Parent) → ⟦<Parent as Ord>⟧.cmp a b ≡ parent_cmp a b }
    ensures total { IsTotalOrder parent_cmp }
    ensures equal { IsAntisymmetric parent_cmp }
{
    edge_order();
}

/// The sources of the edges that end at a crate.
pub fn parents_of_crate(
    alloc: Global,
    krates: &Krates,
    place: u32,
) -> Result<List<Parent>, NoMemory>
    requires { place < length krates.now.crates }
    ensures { IfOk result (λ parents. (c : Crate) → slice_get krates.now.crates place ≡ Some c → (p : Parent)
        → Contains parents p ↔ Contains (map (parent_of krates.now) (sources_at krates.now None c)) p) }
{
    let mut parents = List::new(alloc);
    add_own(&krates.krates()[place as usize], place, &mut parents)?;
    let dependents = krates.direct_dependents(place);
    for direct in dependents {
        add_crate_edges(krates, place, direct.place, &mut parents)?;
    }
    Ok(parents)
}

/// The sources of the edges that end at an enabled feature of a crate.
pub fn parents_of_feature(
    alloc: Global,
    krates: &Krates,
    place: u32,
    feature: &str,
) -> Result<List<Parent>, NoMemory>
    requires { place < length krates.now.crates }
    ensures { IfOk result (λ parents. (c : Crate) → slice_get krates.now.crates place ≡ Some c → (p : Parent)
        → Contains parents p ↔ Contains (map (parent_of krates.now) (sources_at krates.now (Some feature.now) c)) p) }
{
    let mut parents = List::new(alloc);
    add_own_leading(
        &krates.krates()[place as usize],
        place,
        feature,
        &mut parents,
    )?;
    let dependents = krates.direct_dependents(place);
    for direct in dependents {
        add_feature_edges(krates, place, feature, direct.place, &mut parents)?;
    }
    Ok(parents)
}

// Appends the enabled features of a crate.
fn add_own(krate: &Krate, place: u32, parents: &mut List<Parent>) -> Result<(), NoMemory>
    ensures { OnOk result (parents.new ≡ parents.old
        ++ map (λ f. parent_in (crate_view place krate.now) None (Some f)) krate.now.enabled) }
{
    let enabled = krate.enabled.as_slice();
    for feature in enabled {
        push_feature(krate, place, feature, None, parents)?;
    }
    Ok(())
}

// Appends the enabled features of a crate whose lists contain another feature as a plain entry.
fn add_own_leading(
    krate: &Krate,
    place: u32,
    other: &str,
    parents: &mut List<Parent>,
) -> Result<(), NoMemory>
    ensures { OnOk result (parents.new ≡ parents.old
        ++ map (λ f. parent_in (crate_view place krate.now) None (Some f))
        (filter (holds_plain (crate_view 0 krate.now) other.now) krate.now.enabled)) }
{
    let enabled = krate.enabled.as_slice();
    for feature in enabled {
        if holds_plain(krate, other, feature) {
            push_feature(krate, place, feature, None, parents)?;
        }
    }
    Ok(())
}

fn push_feature(
    krate: &Krate,
    place: u32,
    feature: &Text,
    kind: Option<DepKind>,
    parents: &mut List<Parent>,
) -> Result<(), NoMemory>
    ensures { OnOk result (parents.new ≡ parents.old
        ++ parent_in (crate_view place krate.now) kind (Some feature.now) ∷ []) }
{
    parents.push(Parent {
        feature: Some(feature.clone()?),
        id: krate.id.0.clone()?,
        kind,
        place,
    })
}

// Appends the sources of the edges from one crate to another.
fn add_crate_edges(
    krates: &Krates,
    child: u32,
    parent: u32,
    parents: &mut List<Parent>,
) -> Result<(), NoMemory>
    requires child { child < length krates.now.crates }
    requires parent { parent < length krates.now.crates }
    ensures { OnOk result ((c p : Crate) → slice_get krates.now.crates child ≡ Some c
        → slice_get krates.now.crates parent ≡ Some p → parents.new ≡ parents.old
        ++ map (parent_of krates.now) (flat_map (sources_of_crate krates.now c p) all_kinds)) }
{
    add_crate_edges_of_kind(krates, child, parent, DepKind::Normal, parents)?;
    add_crate_edges_of_kind(krates, child, parent, DepKind::Dev, parents)?;
    add_crate_edges_of_kind(krates, child, parent, DepKind::Build, parents)?;
    Ok(())
}

// Appends the sources of the edges from one crate to another, where an edge of this kind leads there.
fn add_crate_edges_of_kind(
    krates: &Krates,
    child: u32,
    parent: u32,
    kind: DepKind,
    parents: &mut List<Parent>,
) -> Result<(), NoMemory>
    requires child { child < length krates.now.crates }
    requires parent { parent < length krates.now.crates }
    ensures { OnOk result ((c p : Crate) → slice_get krates.now.crates child ≡ Some c
        → slice_get krates.now.crates parent ≡ Some p → parents.new ≡ parents.old
        ++ map (parent_of krates.now) (sources_of_crate krates.now c p kind)) }
{
    let _placed = krates.krates();
    if leads_to_crate(krates, child, parent, kind) {
        push_crate(krates, parent, kind, parents)?;
    }
    Ok(())
}

fn push_crate(
    krates: &Krates,
    place: u32,
    kind: DepKind,
    parents: &mut List<Parent>,
) -> Result<(), NoMemory>
    requires { place < length krates.now.crates }
    ensures { OnOk result ((p : Crate) → slice_get krates.now.crates place ≡ Some p
        → parents.new ≡ parents.old ++ parent_in p (Some kind) None ∷ []) }
{
    let krate = &krates.krates()[place as usize];
    add_krate(krate, place, kind, parents)?;
    Ok(())
}

fn add_krate(
    krate: &Krate,
    place: u32,
    kind: DepKind,
    parents: &mut List<Parent>,
) -> Result<(), NoMemory>
    ensures { OnOk result (parents.new ≡ parents.old
        ++ parent_in (crate_view place krate.now) (Some kind) None ∷ []) }
{
    parents.push(Parent {
        feature: None,
        id: krate.id.0.clone()?,
        kind: Some(kind),
        place,
    })
}

// Whether an edge of this kind leads from one crate to another, and a declaration of this kind asks for no
// feature that is enabled there, or there is no declaration of this kind.
fn leads_to_crate(krates: &Krates, child: u32, parent: u32, kind: DepKind) -> bool
    requires child { child < length krates.now.crates }
    requires parent { parent < length krates.now.crates }
    ensures { (c p : Crate) → slice_get krates.now.crates child ≡ Some c → slice_get krates.now.crates parent ≡ Some p
        → result ≡ (leads_in_vain krates.now c p kind || leads_undeclared krates.now c p kind) }
{
    let all = krates.krates();
    if !krates.has_edge(parent, child, kind) {
        return false;
    }
    let run = krates.resolved_between(child, parent);
    let declarations = all[parent as usize].deps.as_slice();
    leaves_crate(run, declarations, kind, &all[child as usize])
}

// Whether one of the declarations at these indices is of this kind and asks for no feature that is enabled in
// the crate, or none is of this kind.
fn leaves_crate(
    run: &[ResolvedAt],
    declarations: &[Dependency],
    kind: DepKind,
    krate: &Krate,
) -> bool
    requires { IsStrictlySortedBy (slice_cmp nat_cmp) krate.now.enabled }
    ensures { result ≡ (any_there (map dependency_view declarations.now) kind
        (asks_in_vain (crate_view 0 krate.now)) run.now
        || not (list_any (passes_there (map dependency_view declarations.now) (is_of_kind kind)) run.now)) }
{
    any_asks_in_vain(run, declarations, kind, krate) || !is_declared(run, declarations, kind)
}

// Appends the sources of the edges from one crate and its features to a feature of another.
fn add_feature_edges(
    krates: &Krates,
    child: u32,
    feature: &str,
    parent: u32,
    parents: &mut List<Parent>,
) -> Result<(), NoMemory>
    requires child { child < length krates.now.crates }
    requires parent { parent < length krates.now.crates }
    ensures { OnOk result ((c p : Crate) → slice_get krates.now.crates child ≡ Some c
        → slice_get krates.now.crates parent ≡ Some p → parents.new ≡ parents.old
        ++ map (parent_of krates.now) (flat_map (sources_of_feature krates.now c feature.now p) all_kinds)) }
{
    add_feature_edges_of_kind(krates, child, feature, parent, DepKind::Normal, parents)?;
    add_feature_edges_of_kind(krates, child, feature, parent, DepKind::Dev, parents)?;
    add_feature_edges_of_kind(krates, child, feature, parent, DepKind::Build, parents)?;
    Ok(())
}

// Appends the sources of the edges from one crate and its features to a feature of another, by declarations
// of this kind.
fn add_feature_edges_of_kind(
    krates: &Krates,
    child: u32,
    feature: &str,
    parent: u32,
    kind: DepKind,
    parents: &mut List<Parent>,
) -> Result<(), NoMemory>
    requires child { child < length krates.now.crates }
    requires parent { parent < length krates.now.crates }
    ensures { OnOk result ((c p : Crate) → slice_get krates.now.crates child ≡ Some c
        → slice_get krates.now.crates parent ≡ Some p → parents.new ≡ parents.old
        ++ map (parent_of krates.now) (sources_of_feature krates.now c feature.now p kind)) }
{
    let _placed = krates.krates();
    add_asking(krates, child, feature, parent, kind, parents)?;
    add_features(krates, child, feature, parent, kind, parents)?;
    Ok(())
}

// Appends a crate if a declaration of this kind asks for a feature of another.
fn add_asking(
    krates: &Krates,
    child: u32,
    feature: &str,
    parent: u32,
    kind: DepKind,
    parents: &mut List<Parent>,
) -> Result<(), NoMemory>
    requires child { child < length krates.now.crates }
    requires parent { parent < length krates.now.crates }
    ensures { OnOk result ((c p : Crate) → slice_get krates.now.crates child ≡ Some c
        → slice_get krates.now.crates parent ≡ Some p → parents.new ≡ parents.old
        ++ (if leads_by_asking krates.now c feature.now p kind then parent_in p (Some kind) None ∷ [] else [])) }
{
    if leads_by_asking(krates, child, feature, parent, kind) {
        push_crate(krates, parent, kind, parents)?;
    }
    Ok(())
}

fn leads_by_asking(krates: &Krates, child: u32, feature: &str, parent: u32, kind: DepKind) -> bool
    requires child { child < length krates.now.crates }
    requires parent { parent < length krates.now.crates }
    ensures { (c p : Crate) → slice_get krates.now.crates child ≡ Some c → slice_get krates.now.crates parent ≡ Some p
        → result ≡ leads_by_asking krates.now c feature.now p kind }
{
    let all = krates.krates();
    if !krates.has_edge(parent, child, kind) {
        return false;
    }
    let run = krates.resolved_between(child, parent);
    let declarations = all[parent as usize].deps.as_slice();
    any_asks_for(run, declarations, kind, feature)
}

// Appends the enabled features of a crate whose lists lead over a declaration of this kind to a feature of
// another.
fn add_features(
    krates: &Krates,
    child: u32,
    feature: &str,
    parent: u32,
    kind: DepKind,
    parents: &mut List<Parent>,
) -> Result<(), NoMemory>
    requires child { child < length krates.now.crates }
    requires parent { parent < length krates.now.crates }
    ensures { OnOk result ((c p : Crate) → slice_get krates.now.crates child ≡ Some c
        → slice_get krates.now.crates parent ≡ Some p → parents.new ≡ parents.old
        ++ map (λ f. parent_in p (Some kind) (Some f))
        (filter (feature_leads krates.now c feature.now p kind) p.enabled)) }
{
    let run = krates.resolved_between(child, parent);
    let krate = &krates.krates()[parent as usize];
    add_led_over(run, krate, parent, feature, kind, parents)?;
    Ok(())
}

// Appends the enabled features of a crate whose lists lead over one of the declarations at these indices.
fn add_led_over(
    run: &[ResolvedAt],
    krate: &Krate,
    place: u32,
    feature: &str,
    kind: DepKind,
    parents: &mut List<Parent>,
) -> Result<(), NoMemory>
    ensures { OnOk result (parents.new ≡ parents.old
        ++ map (λ f. parent_in (crate_view place krate.now) (Some kind) (Some f))
        (filter (is_led_over krate.now run.now kind feature.now) krate.now.enabled)) }
{
    let enabled = krate.enabled.as_slice();
    for from in enabled {
        if any_led_over(run, krate, kind, feature, from) {
            push_feature(krate, place, from, Some(kind), parents)?;
        }
    }
    Ok(())
}
