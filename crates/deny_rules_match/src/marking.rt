//! Marks: a bool for each crate, at its place.
ghost use Rattle.std.specs.Prelude.{◌≡◌, ◌<◌, ◌==◌, All, IfOk, false, filter, length, map, not};
ghost use Rattle.std.specs.List.{list_any};
ghost use Rattle.deny_rules_match.specs.Marks.{HaveBesides, mark_at};

use deny_base_lists::{List, NoMemory};
use deny_krates::Krates;
use std::alloc::Global;

/// The mark at a place; `false` where there is none.
pub fn mark_at(marks: &[bool], place: u32) -> bool
    ensures { result ≡ mark_at marks.now place }
{
    marks.get(place as usize).copied().unwrap_or(false)
}

/// A mark for each crate, none of them set.
pub fn no_marks(alloc: Global, krates: &Krates) -> Result<List<bool>, NoMemory>
    ensures { IfOk result (λ marks. marks ≡ map (λ c. false) krates.now.crates) }
{
    Ok(List::from_vec(vec![in alloc; false; krates.krates().len()]?))
}

/// Sets the marks at some places.
pub fn mark_each(marks: &mut List<bool>, places: &[u32])
    requires { All (λ place. place < length marks.old) places.now }
    ensures { HaveBesides (λ n. list_any (λ place. place == n) places.now) marks.old marks.new }
{
    for place in places {
        marks.vec[*place as usize] = true;
    }
}

/// Those of some places that are marked.
pub fn marked(alloc: Global, places: &[u32], marks: &[bool]) -> Result<List<u32>, NoMemory>
    ensures { IfOk result (λ kept. kept ≡ filter (mark_at marks.now) places.now) }
{
    let mut kept = List::new(alloc);
    for place in places {
        if mark_at(marks, *place) {
            kept.push(*place)?;
        }
    }
    Ok(kept)
}

/// Those of some places that are not marked.
pub fn unmarked(alloc: Global, places: &[u32], marks: &[bool]) -> Result<List<u32>, NoMemory>
    ensures { IfOk result (λ rest. rest ≡ filter (λ place. not (mark_at marks.now place)) places.now) }
{
    let mut rest = List::new(alloc);
    for place in places {
        if !mark_at(marks, *place) {
            rest.push(*place)?;
        }
    }
    Ok(rest)
}
