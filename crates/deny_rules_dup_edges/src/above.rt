//! The crates that lead to others.
ghost use Rattle.std.specs.Prelude.{◌≡◌, ◌<◌, IfOk, OnOk, All, filter, length, nat_lt};
ghost use Rattle.deny_base_lists.specs.Walk.{AreDistances, AreThose, AreUnset};
ghost use Rattle.deny_krates.specs.Steps.{HasEdgeFrom};
ghost use Rattle.deny_rules_dup_edges.specs.private.Above.{AreAbove};

use deny_base_lists::{List, NoMemory, Steps, no_distances, reach_from};
use deny_krates::{Dependents, Krates};
use std::alloc::Global;
use std::marker::Brand;
use std::sync::ledger::{Blank, Ledger};

/// Distances for the crates of a graph, all of them unset.
pub fn unset_distances(alloc: Global, krates: &Krates) -> Result<List<Option<u32>>, NoMemory>
    ensures { IfOk result (AreUnset (length krates.now.crates)) }
{
    no_distances(alloc, krates.krates().len())
}

/// The crates from which a chain of edges, of whatever kinds and however long, leads to one of `places`. Each
/// of these leads to itself; a place that is not in the graph is skipped. They get distances and no others
/// do, so that the steps are as many as they and their edges, however large the graph is. `take_back` makes
/// the distances fit for the next call.
pub fn reach_above(
    alloc: Global,
    krates: &Krates,
    places: &[u32],
    distances: &mut List<Option<u32>>,
) -> Result<List<u32>, NoMemory>
    requires { AreUnset (length krates.now.crates) distances.old }
    ensures { IfOk result (AreAbove krates.now places.now distances.new) }
{
    let known = places_below(alloc, krates.krates().len(), places)?;
    uncounted::<Brand>(alloc, krates, known.as_slice(), distances, Blank::new(1))
}

// The places that are below `end`.
fn places_below(alloc: Global, end: usize, places: &[u32]) -> Result<List<u32>, NoMemory>
    ensures below { IfOk result (λ known. All (λ place. place < end) known) }
    ensures are { IfOk result (λ known. known ≡ filter (λ place. nat_lt place end) places.now) }
{
    let mut known = List::new(alloc);
    for place in places {
        if (*place as usize) < end {
            known.push(*place)?;
        }
    }
    Ok(known)
}

// Sets the distance of each crate to the targets, the least number of edges that lead from it to one of them,
// and lists the crates that have one.
fn uncounted<L: Ledger>(
    alloc: Global,
    krates: &Krates,
    targets: &[u32],
    distances: &mut List<Option<u32>>,
    blank: Blank,
) -> Result<List<u32>, NoMemory>
    requires targets { All (λ target. target < length krates.now.crates) targets.now }
    requires unset { AreUnset (length krates.now.crates) distances.old }
    requires name { blank.name ≡ L.name }
    requires parts { blank.parts ≡ L.parts }
    requires whole { 0 < L.parts }
    ensures least { OnOk result (AreDistances (HasEdgeFrom krates.now)
        (length krates.now.crates) targets.now distances.new) }
    ensures those { IfOk result (AreThose distances.new) }
{
    let _few = krates.krates();
    let mut steps = Steps::<L>::new(blank);
    let reached = reach_from(
        alloc,
        &Dependents { krates },
        targets,
        distances,
        &mut steps,
    )?;
    Ok(reached)
}
