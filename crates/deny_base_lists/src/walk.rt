//! Breadth-first search.
ghost use Rattle.std.specs.Prelude.{◌≡◌, ◌<◌, ◌≤◌, ◌+◌, ◌^◌, All, IfOk, OnOk, fold};
ghost use Rattle.std.specs.Prelude.{is_some, length, map, slice_index_or, unwrap_or};
ghost use Rattle.deny_base_lists.specs.Walk.{AreDistances, AreMarks, AreThose, AreUnset, StaysBelow};
ghost use Rattle.deny_base_lists.specs.Walk.{TakesInStep, TakesInStepWithReached, distance_at, has_distance};
ghost use Rattle.deny_base_lists.specs.private.Reaching.{reached};

use crate::list::List;
use crate::memory::NoMemory;
use crate::steps::Steps;
use std::alloc::Global;
use std::marker::Brand;
use std::sync::ledger::{Blank, Ledger};

/// A graph: places from 0 up, each with the row of its neighbours. An impl repeats the clause of
/// `place_of` for its own type of neighbours.
pub trait Neighbours {
    ghost use Rattle.std.specs.Prelude.{◌≡◌, ◌<◌, ◌≤◌, ◌↔◌, ℕ, Contains, length, map};

    type Neighbour;

    /// How many places there are.
    ghost count: { Self → ℕ };

    /// An edge leads from the first place to the second.
    ghost leads: { Self → ℕ → ℕ → Type 0 };

    /// How long the row of a place is at most.
    ghost degree: { Self → ℕ → ℕ };

    /// The place of a neighbour.
    ghost place_of: { Self.Neighbour → ℕ };

    /// How many places there are.
    fn count(&self) -> usize
        ensures { result ≡ count self.now };

    /// The row of a place: exactly the places to which an edge leads from it, in any order. A place may be
    /// there several times.
    fn neighbours(&self, place: u32) -> &[Self::Neighbour]
        requires { place < count self.now }
        ensures each { (n : ℕ) → leads self.now place n ↔ Contains (map Self.place_of result.now) n }
        ensures few { length result.now ≤ degree self.now place };

    /// The place of a neighbour.
    fn place_of(neighbour: &Self::Neighbour) -> u32
        ensures { result ≡ place_of neighbour.now };
}

/// The distance of each place from the roots: the least number of edges of a path to it from one
/// of them, none where there is no path.
pub fn breadth_first<G: Neighbours>(
    alloc: Global,
    graph: &G,
    roots: &[u32],
) -> Result<List<Option<u32>>, NoMemory>
    requires few { G.count graph.now < 2 ^ 32 }
    requires inside { StaysBelow (G.leads graph.now) (G.count graph.now) }
    requires roots { All (λ root. root < G.count graph.now) roots.now }
    ensures { IfOk result (AreDistances (G.leads graph.now) (G.count graph.now) roots.now) }
{
    let mut distances = no_distances(alloc, graph.count())?;
    uncounted::<G, Brand>(alloc, graph, roots, &mut distances, Blank::new(1))?;
    Ok(distances)
}

/// Whether each place is reached from one of the roots, by any number of edges.
pub fn reach<G: Neighbours>(alloc: Global, graph: &G, roots: &[u32]) -> Result<List<bool>, NoMemory>
    requires few { G.count graph.now < 2 ^ 32 }
    requires inside { StaysBelow (G.leads graph.now) (G.count graph.now) }
    requires roots { All (λ root. root < G.count graph.now) roots.now }
    ensures { IfOk result (AreMarks (G.leads graph.now) (G.count graph.now) roots.now) }
{
    let distances = breadth_first(alloc, graph, roots)?;
    marks_of(alloc, distances.as_slice())
}

/// Whether each place has a distance.
pub fn marks_of(alloc: Global, distances: &[Option<u32>]) -> Result<List<bool>, NoMemory>
    ensures { IfOk result (λ marks. marks ≡ map is_some distances.now) }
{
    let mut marks = List::new(alloc);
    for distance in distances {
        marks.push(distance.is_some())?;
    }
    Ok(marks)
}

/// Distances for `count` places, none of which has one yet.
pub fn no_distances(alloc: Global, count: usize) -> Result<List<Option<u32>>, NoMemory>
    ensures { IfOk result (AreUnset count) }
{
    Ok(List::from_vec(vec![in alloc; None; count]?))
}

fn uncounted<G: Neighbours, L: Ledger>(
    alloc: Global,
    graph: &G,
    roots: &[u32],
    distances: &mut List<Option<u32>>,
    blank: Blank,
) -> Result<(), NoMemory>
    requires few { G.count graph.now < 2 ^ 32 }
    requires inside { StaysBelow (G.leads graph.now) (G.count graph.now) }
    requires roots { All (λ root. root < G.count graph.now) roots.now }
    requires unset { AreUnset (G.count graph.now) distances.old }
    requires name { blank.name ≡ L.name }
    requires parts { blank.parts ≡ L.parts }
    requires whole { 0 < L.parts }
    ensures { OnOk result (AreDistances (G.leads graph.now) (G.count graph.now) roots.now distances.new) }
{
    let mut steps = Steps::<L>::new(blank);
    reach_from(alloc, graph, roots, distances, &mut steps)?;
    Ok(())
}

/// Sets the distance of each place that is reached from the roots, and lists these places, nearer
/// ones first. No other place is touched: the number of steps is bounded by the places that are
/// reached and their neighbours, however many places there are. A step is a place taken or a
/// neighbour visited. `take_back` clears the distances for the next call.
pub fn reach_from<G: Neighbours, L: Ledger>(
    alloc: Global,
    graph: &G,
    roots: &[u32],
    distances: &mut List<Option<u32>>,
    steps: &mut Steps<L>,
) -> Result<List<u32>, NoMemory>
    requires few { G.count graph.now < 2 ^ 32 }
    requires inside { StaysBelow (G.leads graph.now) (G.count graph.now) }
    requires roots { All (λ root. root < G.count graph.now) roots.now }
    requires unset { AreUnset (G.count graph.now) distances.old }
    ensures distances { OnOk result (AreDistances (G.leads graph.now) (G.count graph.now) roots.now distances.new) }
    ensures those { IfOk result (AreThose distances.new) }
    ensures steps { IfOk result (λ places. TakesInStep (G.degree graph.now) places steps.old steps.new) }
    ensures err { TakesInStepWithReached (G.leads graph.now) roots.now (G.degree graph.now) steps.old steps.new }
{
    let mut order = List::new(alloc);
    reach_roots(distances, &mut order, roots)?;
    let mut next = 0;
    while next < order.len() {
        steps.tick();
        let place = nth_place(&order, next);
        let distance = distance_of(distances, place) + 1;
        reach_row::<G, L>(
            graph.neighbours(place),
            distance,
            distances,
            &mut order,
            steps,
        )?;
        next += 1;
    }
    Ok(order)
}

/// Whether a place has a distance.
pub fn has_distance(distances: &[Option<u32>], place: u32) -> bool
    ensures { result ≡ has_distance distances.now place }
{
    matches!(distances.get(place as usize), Some(Some(_)))
}

/// Clears the distances of the places that have one.
pub fn take_back(distances: &mut List<Option<u32>>, places: &[u32])
    requires { AreThose distances.old places.now }
    ensures { AreUnset (length distances.old) distances.new }
{
    for place in places {
        distances.vec[*place as usize] = None;
    }
}

fn nth_place(order: &List<u32>, index: usize) -> u32
    requires { index < length order.now }
    ensures { result ≡ slice_index_or order.now index 0 }
{
    order.as_slice()[index]
}

fn distance_of(distances: &List<Option<u32>>, place: u32) -> u32
    requires { place < length distances.now }
    ensures { result ≡ unwrap_or (distance_at distances.now place) 0 }
{
    distances.as_slice()[place as usize].unwrap_or(0)
}

fn reach_roots(
    distances: &mut List<Option<u32>>,
    order: &mut List<u32>,
    roots: &[u32],
) -> Result<(), NoMemory>
    requires { All (λ root. root < length distances.old) roots.now }
    ensures { OnOk result ((distances.new, order.new) ≡ fold (reached 0) (distances.old, order.old) roots.now) }
{
    for root in roots {
        reach_place(distances, order, 0, *root)?;
    }
    Ok(())
}

// Sets the distances of those places of a row that have none.
fn reach_row<G: Neighbours, L: Ledger>(
    row: &[G::Neighbour],
    distance: u32,
    distances: &mut List<Option<u32>>,
    order: &mut List<u32>,
    steps: &mut Steps<L>,
) -> Result<(), NoMemory>
    requires { All (λ n. n < length distances.old) (map G.place_of row.now) }
    ensures reached { OnOk result ((distances.new, order.new)
        ≡ fold (reached distance) (distances.old, order.old) (map G.place_of row.now)) }
    ensures steps { steps.new ≤ steps.old + length row.now }
{
    for neighbour in row {
        steps.tick();
        reach_place(distances, order, distance, G::place_of(neighbour))?;
    }
    Ok(())
}

// Sets the distance of a place, and puts it at the end of the order, if it had none.
fn reach_place(
    distances: &mut List<Option<u32>>,
    order: &mut List<u32>,
    distance: u32,
    place: u32,
) -> Result<(), NoMemory>
    requires { place < length distances.old }
    ensures reached { OnOk result ((distances.new, order.new) ≡ reached distance (distances.old, order.old) place) }
    ensures long { length distances.new ≡ length distances.old }
{
    if distances.vec[place as usize].is_none() {
        order.push(place)?;
        distances.vec[place as usize] = Some(distance);
    }
    Ok(())
}
