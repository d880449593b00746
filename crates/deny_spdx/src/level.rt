ghost use Rattle.std.specs.Prelude.{◌≡◌, IfOk};
ghost use Rattle.deny_spdx.specs.Reader.{empty_level, with_part, all_alternatives};

use crate::expression::{Tree, all_of};
use deny_base_lists::{List, NoMemory};
use std::alloc::Global;

/// The tokens between an open parenthesis, or the start of the text, and the offset that is read:
/// the alternatives that are whole, and the parts of the one that is not.
#[derive(Drop)]
pub struct ParenLevel {
    pub alternatives: List<Tree>,
    pub parts: List<Tree>,
}

impl ParenLevel {
    /// An empty level.
    pub fn new(alloc: Global) -> ParenLevel
        ensures { result ≡ empty_level }
    {
        ParenLevel {
            alternatives: List::new(alloc),
            parts: List::new(alloc),
        }
    }

    /// The level with one more part.
    pub fn with_part(self, part: Tree) -> Result<ParenLevel, NoMemory>
        ensures { IfOk result (λ after. after ≡ with_part self part) }
    {
        let ParenLevel {
            alternatives,
            mut parts,
        } = self;
        parts.push(part)?;
        Ok(ParenLevel {
            alternatives,
            parts,
        })
    }

    /// All alternatives, where nothing follows the last part.
    pub fn into_alternatives(self) -> Result<List<Tree>, NoMemory>
        ensures { IfOk result (λ all. all ≡ all_alternatives self) }
    {
        let ParenLevel {
            mut alternatives,
            parts,
        } = self;
        alternatives.push(all_of(parts))?;
        Ok(alternatives)
    }
}
