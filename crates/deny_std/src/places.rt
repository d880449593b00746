//! The places of the crates of a graph.
ghost use Rattle.deny_krates.specs.Placed.{ArePlaced};

use deny_krates::Krates;

/// Each crate of a graph is at the index that is its place.
pub fn are_placed(krates: &Krates)
    ensures { ArePlaced krates.now.crates }
{
    krates.krates();
}
