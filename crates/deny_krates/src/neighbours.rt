//! The two ways along the edges of a graph, as a search sees them.
ghost use Rattle.std.specs.Prelude.{◌≡◌};

use crate::krates::Krates;
use deny_base_lists::Neighbours;
use deny_krates_graph::DirectDependent;

/// Steps along edges: from each crate to those on which it depends.
#[derive(Drop)]
pub struct Dependencies<'k> {
    pub krates: &'k Krates,
}

/// Steps against edges: from each crate to those that depend on it.
#[derive(Drop)]
pub struct Dependents<'k> {
    pub krates: &'k Krates,
}

impl<'k> Neighbours for Dependencies<'k> {
    ghost use Rattle.std.specs.Prelude.{length};
    ghost use Rattle.deny_spec.specs.Graph.{dependencies};
    ghost use Rattle.deny_krates.specs.Steps.{HasEdge};

    type Neighbour = DirectDependent;

    ghost count = { λ d. length d.krates.now.crates };

    ghost leads = { λ d. HasEdge d.krates.now };

    ghost degree = { λ d place. length (dependencies d.krates.now place) };

    ghost place_of = { λ d. d.place };

    fn count(&self) -> usize {
        self.krates.krates().len()
    }

    fn neighbours(&self, place: u32) -> &[DirectDependent] {
        let _orderly = self.krates.krates();
        self.krates.direct_dependencies(place)
    }

    /// The place of the dependency.
    fn place_of(neighbour: &DirectDependent) -> u32
        ensures { result ≡ neighbour.now.place }
    {
        neighbour.place
    }
}

impl<'k> Neighbours for Dependents<'k> {
    ghost use Rattle.std.specs.Prelude.{length};
    ghost use Rattle.deny_spec.specs.Graph.{dependents};
    ghost use Rattle.deny_krates.specs.Steps.{HasEdgeFrom};

    type Neighbour = DirectDependent;

    ghost count = { λ d. length d.krates.now.crates };

    ghost leads = { λ d. HasEdgeFrom d.krates.now };

    ghost degree = { λ d place. length (dependents d.krates.now place) };

    ghost place_of = { λ d. d.place };

    fn count(&self) -> usize {
        self.krates.krates().len()
    }

    fn neighbours(&self, place: u32) -> &[DirectDependent] {
        let _orderly = self.krates.krates();
        self.krates.direct_dependents(place)
    }

    /// The place of the dependent.
    fn place_of(neighbour: &DirectDependent) -> u32
        ensures { result ≡ neighbour.now.place }
    {
        neighbour.place
    }
}
