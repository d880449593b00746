//! The numbers of nodes: the number of a crate is its place, and the numbers of enabled features follow, crate
//! by crate.
ghost use Rattle.std.specs.Prelude.{◌≡◌, ◌<◌, ◌≤◌, ◌^◌, ℕ, List, IfOk, true, false, length, nat_le, slice_index_or};
ghost use Rattle.std.specs.List.Sorted.{IsPartitionPoint};
ghost use Rattle.deny_krates_graph.specs.Bounds.{node_count};
ghost use Rattle.deny_krates_graph.specs.Crates.{crates_from};
ghost use Rattle.deny_krates.specs.private.NodeNumbers.{IsLastUpTo, features_from};
ghost use Rattle.deny_spec.specs.Graph.{Crate};

use deny_base_lists::{List, NoMemory};
use deny_krates_graph::Krate;
use std::alloc::Global;

/// For each crate the number of the node of its first enabled feature.
pub fn first_features(alloc: Global, krates: &[Krate]) -> Result<List<u32>, NoMemory>
    requires { node_count (crates_from 0 krates.now) < 2 ^ 32 }
    ensures { IfOk result (λ starts. starts ≡ features_from (length krates.now) (crates_from 0 krates.now)) }
{
    let mut starts = List::new(alloc);
    let mut next = krates.len();
    for krate in krates {
        starts.push(next as u32)?;
        next += krate.enabled.len();
    }
    Ok(starts)
}

/// The place of the crate of a feature's node.
pub fn owner_of(starts: &[u32], number: u32) -> u32
    requires few { length starts.now < 2 ^ 28 }
    requires some { 0 < length starts.now }
    requires first { slice_index_or starts.now 0 0 ≤ number }
    requires ascending { (crates : List Crate) × (first : ℕ) × (starts.now ≡ features_from first crates) }
    ensures { IsLastUpTo starts.now number result }
{
    (above(starts, number) - 1) as u32
}

// The index of the first of ascending numbers that is above another.
fn above(starts: &[u32], number: u32) -> usize
    requires { (crates : List Crate) × (first : ℕ) × (starts.now ≡ features_from first crates) }
    ensures within { result ≤ length starts.now }
    ensures point { IsPartitionPoint (λ n. nat_le n number ≡ true) (λ n. nat_le n number ≡ false) starts.now result }
{
    starts.partition_point(|start| *start <= number)
}
