//! The crate at a place, and how it is shown.
ghost use Rattle.std.specs.Prelude.{◌≡◌, IfOk, option_map};
ghost use Rattle.deny_krates_graph.specs.Crates.{crate_view};
ghost use Rattle.deny_spec.specs.DiagParts.{crate_at, crate_text_at};
ghost use Rattle.deny_spec.specs.Graph.{kid_of};

use crate::krates::Krates;
use crate::resolution::placed_krate;
use deny_base::Kid;
use deny_base_lists::{NoMemory, Text};
use deny_krates_graph::Krate;
use std::alloc::Global;

/// The crate at a place; none where no crate has that place.
pub fn krate_at(krates: &Krates, place: u32) -> Option<&Krate>
    ensures { option_map (λ k. crate_view place k.now) result ≡ crate_at krates.now place }
{
    placed_krate(krates.krates(), place)
}

/// How the crate at a place is shown: `name = version`; the empty text where no crate has that place.
pub fn krate_text(alloc: Global, krates: &Krates, place: u32) -> Result<Text, NoMemory>
    ensures { IfOk result (λ text. text ≡ crate_text_at krates.now place) }
{
    match krate_at(krates, place) {
        Some(krate) => Ok(Text::from_string(format!(in alloc; "{krate}")?)),
        None => Ok(Text::new(alloc)),
    }
}

/// The id of the crate at a place; none where no crate has that place.
pub fn kid_at(krates: &Krates, place: u32) -> Result<Option<Kid>, NoMemory>
    ensures { IfOk result (λ kid. kid ≡ option_map kid_of (crate_at krates.now place)) }
{
    match krate_at(krates, place) {
        Some(krate) => Ok(Some(krate.id.clone()?)),
        None => Ok(None),
    }
}
