//! The crates from which dependents lead to build time.
ghost use Rattle.std.specs.Prelude.{◌≤◌, ◌+◌, IfOk, length};
ghost use Rattle.deny_krates_reach.specs.Reached.{AreReached, pair_count};

use crate::executing::places_executing;
use deny_base_lists::{NoMemory, Steps, marks_of, no_distances, reach_from};
use deny_krates::{Dependencies, Krates};
use std::alloc::Global;
use std::sync::ledger::Ledger;

/// For each crate, by its place, whether a chain of dependents, of length 0 or more, leads from it to a
/// crate that executes at build time, because it has a build script or is a procedural macro.
///
/// The counter counts a step for each crate that is taken from the queue, and one for each pair of a parent
/// and a child that is followed: at most one for each crate and for each pair of the graph.
pub fn build_reach<L: Ledger>(
    alloc: Global,
    krates: &Krates,
    steps: &mut Steps<L>,
) -> Result<Vec<bool>, NoMemory>
    ensures marks { IfOk result (λ marks. AreReached krates.now marks.items) }
    ensures steps { steps.new ≤ steps.old + length krates.now.crates + pair_count krates.now }
{
    let list = krates.krates();
    let roots = places_executing(alloc, list)?;
    let mut distances = no_distances(alloc, list.len())?;
    reach_from(
        alloc,
        &Dependencies { krates },
        roots.as_slice(),
        &mut distances,
        steps,
    )?;
    let marks = marks_of(alloc, distances.as_slice())?;
    Ok(marks.vec)
}
