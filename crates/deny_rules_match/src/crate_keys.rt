//! The keys of the crates that an entry matches.
ghost use Rattle.std.specs.Prelude.{◌≡◌, ◌++◌, OnOk, map};
ghost use Rattle.deny_spec.specs.Keys.{crate_key};

use deny_base::{Code, Key, Span};
use deny_base_lists::{List, NoMemory};
use deny_spec::crate_key;
use std::alloc::Global;

/// Adds the key of each of the crates that an entry matches, by their places.
pub fn add_crate_keys(
    alloc: Global,
    code: Code,
    places: &[u32],
    entry: Span,
    keys: &mut List<Key>,
) -> Result<(), NoMemory>
    ensures { OnOk result (keys.new ≡ keys.old ++ map (λ place. crate_key code place entry) places.now) }
{
    for place in places {
        keys.push(crate_key(alloc, code, *place, entry))?;
    }
    Ok(())
}
