//! The crates that an entry matches, by its name and its requirement.
ghost use Rattle.std.specs.Prelude.{◌≡◌, ◌≤◌, ◌-◌, IfOk, drop, filter, length, map, option_map, take};
ghost use Rattle.semver.specs.Identifiers.{parts_of};
ghost use Rattle.deny_cfg.specs.Requirement.{held_in};
ghost use Rattle.deny_cfg.specs.SpecView.{spec_view};
ghost use Rattle.deny_krates.specs.Crates.{crates_from};
ghost use Rattle.deny_spec.specs.Match.{matches, meets};
ghost use Rattle.deny_rules_match.specs.private.Matching.{is_met_by};

use deny_base_lists::{List, NoMemory};
use deny_cfg::PackageSpec;
use deny_krates::{Krate, Krates};
use semver::Version;
use std::alloc::Global;
use std::ops::Range;

/// The places of the crates that a spec matches, ascending.
pub fn matched(alloc: Global, krates: &Krates, spec: &PackageSpec) -> Result<List<u32>, NoMemory>
    ensures { IfOk result (λ places. places ≡ map (λ c. c.place)
        (filter (matches (spec_view spec.now)) krates.now.crates)) }
{
    let all = krates.krates();
    let named = krates.places_by_name(spec.name.value.as_str());
    meeting(alloc, all, spec, named)
}

/// Those of a run of places whose crates have a version that meets a spec's requirement.
fn meeting(
    alloc: Global,
    all: &[Krate],
    spec: &PackageSpec,
    run: Range<u32>,
) -> Result<List<u32>, NoMemory>
    requires upward { run.start ≤ run.end }
    requires within { run.end ≤ length all.now }
    ensures { IfOk result (λ places. places
        ≡ map (λ c. c.place) (filter (is_met_by (spec_view spec.now))
        (take (run.end - run.start) (drop run.start (crates_from 0 all.now))))) }
{
    let mut places = List::new(alloc);
    for place in run.start..run.end {
        if meets(spec, &all[place as usize].version) {
            places.push(place)?;
        }
    }
    Ok(places)
}

fn meets(spec: &PackageSpec, version: &Version) -> bool
    ensures { result ≡ meets (option_map held_in spec.now.version_req) (parts_of version.now) }
{
    match &spec.version_req {
        Some(requirement) => requirement.matches(version),
        None => true,
    }
}
