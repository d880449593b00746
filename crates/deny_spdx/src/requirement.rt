ghost use Rattle.std.specs.Prelude.{◌≡◌, ℕ, IfOk, Ok, Err};
ghost use Rattle.deny_spdx.specs.Grammar.{IsRequirement};
ghost use Rattle.deny_base_lists.specs.Reader.{Answers};
ghost use Rattle.deny_spdx.specs.Bad.{Spells, IsBadAt};
ghost use Rattle.deny_spdx.specs.Meaning.{IsMeaning};

use crate::error::SpdxError;
use crate::parse::read_requirement;
use deny_base_lists::Text;
use std::alloc::Global;

/// A licence that an expression asks for, with its exception where one is named. A `+` after either
/// is dropped. Two are equal where both parts are, byte for byte.
#[derive(Drop)]
pub struct Requirement {
    pub id: Text,
    pub exception: Option<Text>,
}

impl Requirement {
    /// The one requirement that the text spells: a word, or word `WITH` word. `Bad` comes exactly
    /// for any other text, at the offset where it goes wrong first, and `Memory` where memory runs
    /// out.
    pub fn parse(alloc: Global, text: &str) -> Result<Requirement, SpdxError>
        ensures read { IfOk result (Spells IsRequirement text.now) }
        ensures spelled { (r : Requirement) → Spells IsRequirement text.now r → Answers SpdxError.Memory (Ok r) result }

        ensures refused { (offset : ℕ) → result ≡ Err (SpdxError.Bad offset) → IsBadAt IsRequirement text.now offset }
        ensures bad { (offset : ℕ) → IsBadAt IsRequirement text.now offset
            → Answers SpdxError.Memory (Err (SpdxError.Bad offset)) result }
        ensures meaning { IsMeaning text.now result }
    {
        read_requirement(alloc, text)
    }
}
