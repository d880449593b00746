ghost use Rattle.std.specs.Prelude.{◌≡◌, ◌+◌, ◌<◌, ◌^◌, IfOk, OnOk, length};
ghost use Rattle.deny_krates_graph.specs.Bounds.{lock_length, lock_line_length, node_count};
ghost use Rattle.deny_krates_graph.specs.Crates.{crate_view, crates_from};

use crate::krate::Krate;
use deny_base_lists::NoMemory;
use std::alloc::Global;

// How many bytes a lock text has at most.
const LOCK_ROOM: usize = (1 << 29) - 1;

// How many nodes a graph has at most.
const NODE_ROOM: usize = (1 << 32) - 1;

/// Checks that the lock text of the crates and the number of their nodes are within bounds; beyond them
/// memory counts as run out.
pub fn check_bounds(alloc: Global, krates: &[Krate]) -> Result<(), NoMemory>
    ensures lock { OnOk result (lock_length (crates_from 0 krates.now) < 2 ^ 29) }
    ensures nodes { OnOk result (node_count (crates_from 0 krates.now) < 2 ^ 32) }
{
    check_lock(alloc, krates)?;
    check_nodes(krates)
}

fn check_lock(alloc: Global, krates: &[Krate]) -> Result<(), NoMemory>
    ensures { OnOk result (lock_length (crates_from 0 krates.now) < 2 ^ 29) }
{
    let mut left = LOCK_ROOM;
    for krate in krates {
        left = without_line(alloc, left, krate)?;
    }
    Ok(())
}

fn check_nodes(krates: &[Krate]) -> Result<(), NoMemory>
    ensures { OnOk result (node_count (crates_from 0 krates.now) < 2 ^ 32) }
{
    let mut left = NODE_ROOM;
    for krate in krates {
        let room = without(left, 1)?;
        left = without(room, krate.enabled.len())?;
    }
    Ok(())
}

// The room that is left after the line of a crate in the lock text.
fn without_line(alloc: Global, room: usize, krate: &Krate) -> Result<usize, NoMemory>
    ensures { IfOk result (λ left. left + lock_line_length (crate_view 0 krate.now) ≡ room) }
{
    let version = krate.version_text(alloc)?;
    let after_name = without_text(room, krate.name.as_str())?;
    let after_version = without_text(after_name, version.as_str())?;
    let after_source = without_text(after_version, krate.source_or_folder())?;
    without(after_source, 3)
}

fn without_text(room: usize, text: &str) -> Result<usize, NoMemory>
    ensures { IfOk result (λ left. left + length text.now ≡ room) }
{
    without(room, text.len())
}

// The room that is left after some is taken; out of memory where there is too little.
fn without(room: usize, taken: usize) -> Result<usize, NoMemory>
    ensures { IfOk result (λ left. left + taken ≡ room) }
{
    if taken > room {
        return Err(NoMemory);
    }
    Ok(room - taken)
}
