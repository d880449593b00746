//! The crates that the members reach by edges of all kinds but one.
ghost use Rattle.std.specs.Prelude.{◌≡◌, ◌<◌, ◌^◌, ℕ, IfOk, All, [], length};
ghost use Rattle.deny_krates_graph.specs.Filtered.{AreMarks};
ghost use Rattle.deny_krates_graph.specs.private.OtherLinks.{AreOtherLinks};
ghost use Rattle.deny_krates_graph.specs.private.Reach.{links_at};
ghost use Rattle.deny_spec.specs.Graph.{Graph};

use crate::reach::reach;
use deny_base::{DepKind, Edge};
use deny_base_lists::{List, NoMemory};
use deny_krates_metadata::NeededAs;
use deny_krates_sources::{Link, ResolvedNode};
use std::alloc::Global;

/// Marks for the crates that a member reaches by edges of other kinds than `kind`.
pub fn reached_without(
    alloc: Global,
    members: &[u32],
    edges: &[Edge],
    crates: usize,
    kind: DepKind,
) -> Result<List<bool>, NoMemory>
    requires few { crates < 2 ^ 28 }
    requires members { All (λ place. place < crates) members.now }
    requires parents { All (λ e. e.parent < crates) edges.now }
    requires children { All (λ e. e.child < crates) edges.now }
    ensures { IfOk result (λ marks. (g : Graph) → g.members ≡ members.now → g.edges ≡ edges.now
        → length g.crates ≡ crates → AreMarks kind g marks) }
{
    let rows = other_links(alloc, edges, crates, kind)?;
    reach(alloc, rows.as_slice(), members)
}

// For each crate, by its place, links to the crates that its edges of other kinds than `kind` lead to.
fn other_links(
    alloc: Global,
    edges: &[Edge],
    crates: usize,
    kind: DepKind,
) -> Result<List<ResolvedNode>, NoMemory>
    requires few { crates < 2 ^ 28 }
    requires parents { All (λ e. e.parent < crates) edges.now }
    ensures { IfOk result (AreOtherLinks kind edges.now crates) }
{
    let mut rows = no_links(alloc, crates)?;
    for edge in edges {
        if edge.kind != kind {
            let row = &mut rows[edge.parent as usize];
            row.links.push(Link {
                node: edge.child,
                needed_as: NeededAs {
                    kind: edge.kind,
                    target: None,
                },
            })?;
        }
    }
    Ok(List::from_vec(rows))
}

fn no_links(alloc: Global, crates: usize) -> Result<Vec<ResolvedNode>, NoMemory>
    requires { crates < 2 ^ 28 }
    ensures long { IfOk result (λ rows. length rows.items ≡ crates) }
    ensures empty { IfOk result (λ rows. (place : ℕ) → links_at rows.items place ≡ []) }
{
    let mut rows = Vec::new(alloc);
    'rows: while rows.as_slice().len() < crates {
        let owner = rows.as_slice().len() as u32;
        rows.push(ResolvedNode {
            owner,
            links: List::new(alloc),
        })?;
    }
    Ok(rows)
}
