//! The crates of a graph at their places.
ghost use Rattle.deny_rules_match.specs.Placed.{ArePlaced};

use deny_krates::Krates;

/// Proves that each crate of a graph is at its place.
pub fn are_placed(krates: &Krates)
    ensures { ArePlaced krates.now.crates }
{
    krates.krates();
}
