//! The places of the crates that count.
ghost use Rattle.std.specs.Prelude.{◌≡◌, ◌++◌, IfOk, OnOk, length};
ghost use Rattle.std.specs.List.{flat_map, range_with_len};
ghost use Rattle.deny_gate_licenses.specs.private.Counted.{AreCountedPlaces, place_if};

use deny_base_lists::{List, NoMemory};
use deny_krates::Krates;
use deny_rules_match::{are_placed, counts_of, mark_at};
use std::alloc::Global;

/// The places of the crates that count, ascending.
pub fn counted_places(
    alloc: Global,
    include_dev: bool,
    krates: &Krates,
) -> Result<List<u32>, NoMemory>
    ensures { IfOk result (AreCountedPlaces include_dev krates.now) }
{
    are_placed(krates);
    let marks = counts_of(alloc, include_dev, krates)?;
    places_of(alloc, krates, marks.as_slice())
}

/// The places of the crates that are marked.
fn places_of(alloc: Global, krates: &Krates, marks: &[bool]) -> Result<List<u32>, NoMemory>
    ensures { IfOk result (λ places. places ≡ flat_map (place_if marks.now)
        (range_with_len 0 (length krates.now.crates))) }
{
    let size = krates.krates().len() as u32;
    let mut places = List::new(alloc);
    for place in 0..size {
        add_marked(marks, place, &mut places)?;
    }
    Ok(places)
}

fn add_marked(marks: &[bool], place: u32, places: &mut List<u32>) -> Result<(), NoMemory>
    ensures { OnOk result (places.new ≡ places.old ++ place_if marks.now place) }
{
    if mark_at(marks, place) {
        places.push(place)?;
    }
    Ok(())
}
