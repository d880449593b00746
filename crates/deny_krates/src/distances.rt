//! How far crates are from roots, and how far they are above targets.
ghost use Rattle.std.specs.Prelude.{◌<◌, All, IfOk, length};
ghost use Rattle.deny_krates.specs.Distances.{AreCrateDistances, AreDependentDistances};

use crate::krates::Krates;
use crate::neighbours::{Dependencies, Dependents};
use deny_base_lists::{List, NoMemory, breadth_first};
use std::alloc::Global;

/// The distance of each crate from the roots: the least number of edges, of whatever kinds, that lead to it
/// from one of them. A crate that no root leads to has none. Roots are named by their places.
pub fn distances_from(
    alloc: Global,
    krates: &Krates,
    roots: &[u32],
) -> Result<List<Option<u32>>, NoMemory>
    requires { All (λ root. root < length krates.now.crates) roots.now }
    ensures { IfOk result (AreCrateDistances krates.now roots.now) }
{
    let _few = krates.krates();
    let distances = breadth_first(alloc, &Dependencies { krates }, roots)?;
    Ok(distances)
}

/// How far each crate is above the targets: the least number of edges, of whatever kinds, that lead from it
/// to one of them. A crate that leads to no target has no distance. Targets are named by their places.
pub fn dependent_distances(
    alloc: Global,
    krates: &Krates,
    targets: &[u32],
) -> Result<List<Option<u32>>, NoMemory>
    requires { All (λ target. target < length krates.now.crates) targets.now }
    ensures { IfOk result (AreDependentDistances krates.now targets.now) }
{
    let _few = krates.krates();
    let distances = breadth_first(alloc, &Dependents { krates }, targets)?;
    Ok(distances)
}
