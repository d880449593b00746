ghost use Rattle.std.specs.Prelude.{◌≡◌};
ghost use Rattle.deny_spdx.specs.private.RequirementReader.{requirement_step, whole_requirement};

use crate::requirement::Requirement;
use crate::token::SpdxToken;
use crate::token_reader::TokenReader;
use deny_base_lists::{NoMemory, Text};
use std::alloc::Global;

/// A reader of the tokens of one requirement, after some of them.
#[derive(Drop)]
pub enum RequirementReader {
    /// No token.
    Start,
    /// A word.
    Named(Text),
    /// A word and `WITH`.
    Excepted(Text),
    /// A requirement with its exception.
    Whole(Requirement),
}

impl RequirementReader {
    /// The requirement of the tokens, or none where they are not a whole one.
    pub fn whole(self) -> Option<Requirement>
        ensures { result ≡ whole_requirement self }
    {
        match self {
            RequirementReader::Named(id) => Some(Requirement {
                id,
                exception: None,
            }),
            RequirementReader::Whole(requirement) => Some(requirement),
            _ => None,
        }
    }
}

impl TokenReader for RequirementReader {
    ghost step = { requirement_step };

    fn take(self, _alloc: Global, token: SpdxToken) -> Result<Option<RequirementReader>, NoMemory> {
        match (self, token) {
            (RequirementReader::Start, SpdxToken::Word(id)) => Ok(Some(RequirementReader::Named(
                id,
            ))),
            (RequirementReader::Named(id), SpdxToken::With) => Ok(Some(RequirementReader::Excepted(
                id,
            ))),
            (RequirementReader::Excepted(id), SpdxToken::Word(exception)) => Ok(Some(
                RequirementReader::Whole(Requirement {
                    id,
                    exception: Some(exception),
                }),
            )),
            _ => Ok(None),
        }
    }
}
