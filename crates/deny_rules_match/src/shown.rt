//! The name of the crate at a place.
ghost use Rattle.std.specs.Prelude.{◌≡◌, IfOk};
ghost use Rattle.deny_spec.specs.DiagParts.{crate_name_at};

use deny_base_lists::{NoMemory, Text};
use deny_krates::{Krates, krate_at};
use std::alloc::Global;

/// The name of the crate at a place; the empty text where no crate has that place.
pub fn krate_name(alloc: Global, krates: &Krates, place: u32) -> Result<Text, NoMemory>
    ensures { IfOk result (λ text. text ≡ crate_name_at krates.now place) }
{
    match krate_at(krates, place) {
        Some(krate) => Ok(krate.name.clone()?),
        None => Ok(Text::new(alloc)),
    }
}
