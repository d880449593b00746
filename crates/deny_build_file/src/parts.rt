//! Texts split into parts.
ghost use Rattle.std.specs.Prelude.{◌≡◌, ◌==◌, ◌<◌, map, IfOk};
ghost use Rattle.std.specs.List.{slice_split};

use std::alloc::{AllocError, Global};

/// The parts of a text between the occurrences of a character.
pub fn split_parts<'t>(alloc: Global, text: &'t str, cut: char) -> Result<Vec<&'t str>, AllocError>
    requires { cut < 128 }
    ensures { IfOk result (λ parts. map (λ part. part.now) parts.items ≡ slice_split (λ b. b == cut) text.now) }
{
    text.split(cut).collect(alloc)
}
