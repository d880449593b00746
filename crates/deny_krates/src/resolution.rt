ghost use Rattle.std.specs.Prelude.{◌≡◌, ◌&&◌, ◌≤◌, ◌<◌, ◌^◌, true, false, not};
ghost use Rattle.std.specs.Prelude.{filter, find, length, option_map, slice_get};
ghost use Rattle.std.specs.Cmp.Lexicographic.{slice_cmp};
ghost use Rattle.std.specs.Option.{option_and_then};
ghost use Rattle.std.specs.List.Sorted.{IsPartitionPoint, IsSortedByKey, IsStrictlySortedBy};
ghost use Rattle.std.specs.Ordering.{nat_cmp};
ghost use Rattle.deny_krates_graph.specs.Crates.{crate_view, crates_from, dependency_view};
ghost use Rattle.deny_krates.specs.private.Resolved.{is_before};
ghost use Rattle.deny_spec.specs.Graph.{Graph};
ghost use Rattle.deny_spec.specs.Groups.{has_name};
ghost use Rattle.deny_spec.specs.Resolution.{is_wanted, passes_at, resolution, suits};
ghost use Rattle.deny_spec.specs.TargetEdge.{target_edge_cmp};

use crate::names::run_of;
use deny_base_lists::Text;
use deny_krates_graph::{Dependency, Krate};
use deny_spec::TargetEdge;

/// The place of the crate that a declaration of the crate at `parent` resolves to, given the target edges in
/// ascending order.
pub fn resolution(
    krates: &[Krate],
    edges: &[TargetEdge],
    parent: u32,
    declaration: &Dependency,
) -> Option<u32>
    requires few { length krates.now < 2 ^ 28 }
    requires names { IsSortedByKey (λ k. k.name) (slice_cmp nat_cmp) krates.now }
    requires edges { IsStrictlySortedBy target_edge_cmp edges.now }
    ensures { (g : Graph) → g.crates ≡ crates_from 0 krates.now → g.target_edges ≡ edges.now
        → result ≡ resolution g parent (dependency_view declaration.now) }
{
    let named = run_of(krates, declaration.name.as_str());
    let own = edges_between(edges, parent, named.start, named.end);
    match first_wanted(krates, own, declaration) {
        Some(place) => Some(place),
        None => first_suiting(krates, own, declaration),
    }
}

// The edges from a place to the crates between two places, given the edges in ascending order.
fn edges_between(edges: &[TargetEdge], parent: u32, start: u32, end: u32) -> &[TargetEdge]
    requires ascending { IsStrictlySortedBy target_edge_cmp edges.now }
    requires upward { start ≤ end }
    ensures { result.now ≡ filter (λ e. not (is_before e.parent e.child parent start)
        && is_before e.parent e.child parent end) edges.now }
{
    let first = first_from(edges, parent, start);
    let last = first_from(edges, parent, end);
    &edges[first..last]
}

// The index of the first edge that is not before a parent and a child.
fn first_from(edges: &[TargetEdge], parent: u32, child: u32) -> usize
    requires { IsStrictlySortedBy target_edge_cmp edges.now }
    ensures within { result ≤ length edges.now }
    ensures point { IsPartitionPoint (λ e. is_before e.parent e.child parent child ≡ true)
        (λ e. is_before e.parent e.child parent child ≡ false) edges.now result }
{
    edges.partition_point(|edge| is_before(edge.parent, edge.child, parent, child))
}

/// Whether a pair of numbers is before another, in the order of the first numbers and then of the second.
#[tactic(auto, unfolding(crate::specs::private::Resolved::is_before))]
pub fn is_before(first: u32, second: u32, other_first: u32, other_second: u32) -> bool
    ensures { result ≡ is_before first second other_first other_second }
{
    first < other_first || (first == other_first && second < other_second)
}

// The child of the first edge that suits a declaration and whose version it wants.
fn first_wanted(krates: &[Krate], edges: &[TargetEdge], declaration: &Dependency) -> Option<u32>
    ensures { result ≡ option_map (λ e. e.child) (find (λ e.
        is_wanted (crates_from 0 krates.now) (dependency_view declaration.now) e.child
        && suits (crates_from 0 krates.now) (dependency_view declaration.now) e) edges.now) }
{
    for edge in edges {
        if wants(krates, declaration, edge.child) && suits(krates, declaration, edge) {
            return Some(edge.child);
        }
    }
    None
}

// The child of the first edge that suits a declaration.
fn first_suiting(krates: &[Krate], edges: &[TargetEdge], declaration: &Dependency) -> Option<u32>
    ensures { result ≡ option_map (λ e. e.child)
        (find (suits (crates_from 0 krates.now) (dependency_view declaration.now)) edges.now) }
{
    for edge in edges {
        if suits(krates, declaration, edge) {
            return Some(edge.child);
        }
    }
    None
}

// Whether an edge is of a declaration's kind, for its target, and leads to a crate of its name.
#[tactic(auto, unfolding(deny_spec::specs::Resolution::suits))]
fn suits(krates: &[Krate], declaration: &Dependency, edge: &TargetEdge) -> bool
    ensures { result ≡ suits (crates_from 0 krates.now) (dependency_view declaration.now) edge.now }
{
    edge.kind == declaration.kind
        && edge.target == declaration.target
        && is_named(krates, edge.child, &declaration.name)
}

// Whether the crate at a place has this name.
#[tactic(auto, unfolding(deny_spec::specs::Groups::has_name))]
fn is_named(krates: &[Krate], place: u32, name: &Text) -> bool
    ensures { result ≡ passes_at (has_name name.now) (crates_from 0 krates.now) place }
{
    match placed_krate(krates, place) {
        Some(krate) => krate.name == *name,
        None => false,
    }
}

// Whether a declaration's requirement matches the version of the crate at a place.
fn wants(krates: &[Krate], declaration: &Dependency, place: u32) -> bool
    ensures { result ≡ is_wanted (crates_from 0 krates.now) (dependency_view declaration.now) place }
{
    match placed_krate(krates, place) {
        Some(krate) => declaration.req.matches(&krate.version),
        None => false,
    }
}

/// The declaration at an index of the crate at a place.
pub fn declared(krates: &[Krate], place: u32, index: usize) -> Option<&Dependency>
    ensures { option_map (λ d. dependency_view d.now) result
        ≡ option_and_then (λ c. slice_get c.deps index) (slice_get (crates_from 0 krates.now) place) }
{
    let krate = placed_krate(krates, place)?;
    krate.deps.as_slice().get(index)
}

/// The crate at a place of a list.
pub fn placed_krate(krates: &[Krate], place: u32) -> Option<&Krate>
    ensures { option_map (λ k. crate_view place k.now) result ≡ slice_get (crates_from 0 krates.now) place }
{
    krates.get(place as usize)
}
