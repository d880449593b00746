//! The crates that execute at build time: they have a build script, or are procedural macros.
ghost use Rattle.std.specs.Prelude.{◌≡◌, ◌<◌, ◌^◌, ℕ, IfOk, length};
ghost use Rattle.std.specs.List.{list_any};
ghost use Rattle.deny_krates.specs.Crates.{crate_view, crates_from, target_view};
ghost use Rattle.deny_krates_reach.specs.Reached.{executes_at_build_time, is_executed_kind};
ghost use Rattle.deny_krates_reach.specs.private.Executing.{has_executed_kind, places_executing};

use deny_base_lists::{List, NoMemory, Text};
use deny_krates::{Krate, Target};
use std::alloc::Global;

/// The places of the crates that execute at build time.
pub fn places_executing(alloc: Global, krates: &[Krate]) -> Result<List<u32>, NoMemory>
    requires { length krates.now < 2 ^ 28 }
    ensures { IfOk result (λ places. places ≡ places_executing (crates_from 0 krates.now)) }
{
    let mut places = List::new(alloc);
    let mut place = 0;
    for krate in krates {
        if executes_at_build_time(krate) {
            places.push(place)?;
        }
        place += 1;
    }
    Ok(places)
}

/// Whether a crate executes at build time: it has a build script, or is a procedural macro.
pub fn executes_at_build_time(krate: &Krate) -> bool
    ensures { (place : ℕ) → result ≡ executes_at_build_time (crate_view place krate.now) }
{
    has_executed_target(krate.targets.as_slice())
}

// Whether one of the targets is of a kind that executes at build time.
fn has_executed_target(targets: &[Target]) -> bool
    ensures { result ≡ list_any (λ t. has_executed_kind (target_view t)) targets.now }
{
    targets
        .iter()
        .any(|target| has_executed_kind(target.kind.as_slice()))
}

fn has_executed_kind(kinds: &[Text]) -> bool
    ensures { result ≡ list_any is_executed_kind kinds.now }
{
    kinds.iter().any(|kind| is_executed_kind(kind.as_str()))
}

#[tactic(auto, unfolding(crate::specs::Reached::is_executed_kind))]
fn is_executed_kind(kind: &str) -> bool
    ensures { result ≡ is_executed_kind kind.now }
{
    kind == "custom-build" || kind == "proc-macro"
}
