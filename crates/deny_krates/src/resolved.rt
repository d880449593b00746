//! The declarations that resolve to a crate of the graph.
ghost use Rattle.std.specs.Prelude.{◌≡◌, ◌++◌, ◌&&◌, ◌<◌, ◌≤◌, ◌^◌, ◌+◌};
ghost use Rattle.std.specs.Prelude.{true, false, not, IfOk, OnOk, filter, length, map};
ghost use Rattle.std.specs.Cmp.{IsTotalOrder};
ghost use Rattle.std.specs.Cmp.Lexicographic.{slice_cmp};
ghost use Rattle.std.specs.FinMap.{IsAntisymmetric};
ghost use Rattle.std.specs.List.Sorted.{IsPartitionPoint, IsSortedByKey, IsStrictlySortedBy};
ghost use Rattle.std.specs.Ordering.{nat_cmp};
ghost use Rattle.deny_krates_graph.specs.Crates.{crates_from, dependency_view};
ghost use Rattle.deny_krates.specs.private.Resolved.{AreResolved, is_before};
ghost use Rattle.deny_krates.specs.private.Resolved.{resolved_cmp, resolved_from, resolved_in};
ghost use Rattle.deny_krates.specs.declared.resolved.ResolvedAt.{ResolvedAt};
ghost use Rattle.deny_spec.specs.Graph.{Graph};
ghost use Rattle.deny_spec.specs.TargetEdge.{target_edge_cmp};

use crate::resolution::{is_before, resolution};
use deny_base_lists::{List, NoMemory, put_in_order};
use deny_krates_graph::{Dependency, Krate};
use deny_spec::TargetEdge;
use std::alloc::Global;

/// A declaration that resolves: the place of the crate that it resolves to, and that of the crate that
/// declares it, with its index there.
#[derive(PartialEq, Eq, PartialOrd, Ord, Drop)]
pub struct ResolvedAt {
    pub child: u32,
    pub parent: u32,
    pub index: usize,
}

/// The declarations that resolve, ascending by the crate that they resolve to.
pub fn resolved_of(
    alloc: Global,
    krates: &[Krate],
    edges: &[TargetEdge],
) -> Result<List<ResolvedAt>, NoMemory>
    requires few { length krates.now < 2 ^ 28 }
    requires names { IsSortedByKey (λ k. k.name) (slice_cmp nat_cmp) krates.now }
    requires edges { IsStrictlySortedBy target_edge_cmp edges.now }
    ensures { IfOk result (λ rs. (g : Graph) → g.crates ≡ crates_from 0 krates.now → g.target_edges ≡ edges.now
        → AreResolved g rs) }
{
    let mut resolved = gather(alloc, krates, edges)?;
    resolved_order();
    put_in_order(&mut resolved)?;
    Ok(resolved)
}

fn gather(
    alloc: Global,
    krates: &[Krate],
    edges: &[TargetEdge],
) -> Result<List<ResolvedAt>, NoMemory>
    requires few { length krates.now < 2 ^ 28 }
    requires names { IsSortedByKey (λ k. k.name) (slice_cmp nat_cmp) krates.now }
    requires edges { IsStrictlySortedBy target_edge_cmp edges.now }
    ensures { IfOk result (λ rs. (g : Graph) → g.crates ≡ crates_from 0 krates.now → g.target_edges ≡ edges.now
        → rs ≡ resolved_in g (crates_from 0 krates.now)) }
{
    let mut resolved = List::new(alloc);
    for (parent, krate) in krates.iter().enumerate() {
        let declarations = krate.deps.as_slice();
        add_resolved(krates, edges, parent as u32, declarations, &mut resolved)?;
    }
    Ok(resolved)
}

// Appends the declarations of one crate that resolve.
fn add_resolved(
    krates: &[Krate],
    edges: &[TargetEdge],
    parent: u32,
    declarations: &[Dependency],
    resolved: &mut List<ResolvedAt>,
) -> Result<(), NoMemory>
    requires few { length krates.now < 2 ^ 28 }
    requires names { IsSortedByKey (λ k. k.name) (slice_cmp nat_cmp) krates.now }
    requires edges { IsStrictlySortedBy target_edge_cmp edges.now }
    ensures { OnOk result ((g : Graph) → g.crates ≡ crates_from 0 krates.now → g.target_edges ≡ edges.now
        → resolved.new ≡ resolved.old ++ resolved_from g parent 0 (map dependency_view declarations.now)) }
{
    for (index, declaration) in declarations.iter().enumerate() {
        if let Some(child) = resolution(krates, edges, parent, declaration) {
            resolved.push(ResolvedAt {
                child,
                parent,
                index,
            })?;
        }
    }
    Ok(())
}

// The order of resolved declarations is by child, parent and index, it is total, and only equal ones tie.
fn resolved_order()
    ensures fields { (a b : ResolvedAt) → ⟦<ResolvedAt as Ord>⟧.cmp a b ≡ resolved_cmp a b }
    ensures total { IsTotalOrder resolved_cmp }
    ensures equal { IsAntisymmetric resolved_cmp }
{}

/// The declarations of one parent that resolve to one child, given all in ascending order.
pub fn resolved_between(resolved: &[ResolvedAt], child: u32, parent: u32) -> &[ResolvedAt]
    requires few { parent < 2 ^ 28 }
    requires ascending { IsStrictlySortedBy resolved_cmp resolved.now }
    ensures { result.now ≡ filter (λ r. not (is_before r.child r.parent child parent)
        && is_before r.child r.parent child (parent + 1)) resolved.now }
{
    let first = first_from(resolved, child, parent);
    let last = first_from(resolved, child, parent + 1);
    &resolved[first..last]
}

// The index of the first declaration that is not before a child and a parent.
fn first_from(resolved: &[ResolvedAt], child: u32, parent: u32) -> usize
    requires { IsStrictlySortedBy resolved_cmp resolved.now }
    ensures within { result ≤ length resolved.now }
    ensures point { IsPartitionPoint (λ r. is_before r.child r.parent child parent ≡ true)
        (λ r. is_before r.child r.parent child parent ≡ false) resolved.now result }
{
    resolved.partition_point(|at| is_before(at.child, at.parent, child, parent))
}
