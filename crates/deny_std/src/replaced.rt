//! Which crates the standard library replaces.
ghost use Rattle.std.specs.Prelude.{◌≡◌, ◌<◌, ◌++◌, ◌∷◌, [], IfOk, OnOk, filter, if◌then◌else◌};
ghost use Rattle.std.specs.Prelude.{length, map};
ghost use Rattle.deny_cfg.specs.PolicyView.{replacing_view};
ghost use Rattle.deny_spec_report.specs.Saying.{said_in};
ghost use Rattle.deny_spec_report.specs.StdReplacements.{is_replaced};
ghost use Rattle.deny_std.specs.private.Replaced.{is_replaced_at};

use crate::dependents::ScopedGraph;
use crate::places::are_placed;
use crate::stable_since::least_minor;
use deny_base_lists::{List, NoMemory};
use deny_krates::krate_at;
use deny_std_table::ReplacementData;
use std::alloc::Global;

/// The places of the crates that are replaced, ascending.
pub fn replaced_places(
    alloc: Global,
    scoped: &ScopedGraph<'_>,
    table: &ReplacementData<'_>,
) -> Result<List<u32>, NoMemory>
    ensures { IfOk result (λ places. places ≡ map (λ c. c.place)
        (filter (is_replaced (replacing_view scoped.now.cfg.now) scoped.now.krates.now
        (said_in table.now))
        scoped.now.krates.now.crates)) }
{
    are_placed(scoped.krates);
    let size = scoped.krates.krates().len() as u32;
    let mut places = List::new(alloc);
    for place in 0..size {
        add_replaced(scoped, table, place, &mut places)?;
    }
    Ok(places)
}

/// Appends the place of a crate where the crate is replaced.
fn add_replaced(
    scoped: &ScopedGraph<'_>,
    table: &ReplacementData<'_>,
    place: u32,
    places: &mut List<u32>,
) -> Result<(), NoMemory>
    requires { place < length scoped.now.krates.now.crates }
    ensures { OnOk result (places.new ≡ places.old ++ (if is_replaced_at
        (replacing_view scoped.now.cfg.now)
        scoped.now.krates.now (said_in table.now) place then place ∷ [] else [])) }
{
    if is_replaced(scoped, table, place) {
        places.push(place)?;
    }
    Ok(())
}

#[tactic(auto, unfolding(deny_spec_report::specs::StdReplacements::is_replaced, deny_spec_report::specs::Saying::said_in))]
fn is_replaced(scoped: &ScopedGraph<'_>, table: &ReplacementData<'_>, place: u32) -> bool
    requires { place < length scoped.now.krates.now.crates }
    ensures { result ≡ is_replaced_at (replacing_view scoped.now.cfg.now) scoped.now.krates.now
        (said_in table.now) place }
{
    let Some(krate) = krate_at(scoped.krates, place) else {
        return false;
    };
    if !krate.is_crates_io() {
        return false;
    }
    match table.entry(krate.name.as_str()) {
        Some(replacement) => scoped.has_replacing(least_minor(&replacement), place),
        None => false,
    }
}
