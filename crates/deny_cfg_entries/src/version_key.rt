ghost use Rattle.std.specs.Prelude.{◌≡◌, IfOk, option_map};
ghost use Rattle.deny_cfg_entries.specs.Requirement.{requirement_text};
ghost use Rattle.deny_cfg_entries.specs.Words.{faults_as, ReadsAs};

use crate::requirement::requirement_in;
use crate::written_requirement::WrittenRequirement;
use deny_base_lists::{NoMemory, Text};
use deny_toml::{DeserError, Deserialize, Value};
use std::alloc::Global;

impl Deserialize for WrittenRequirement {
    ghost reads = { λ v read. ReadsAs requirement_text v read.text };

    ghost faults_of = { faults_as requirement_text };

    fn deserialize(alloc: Global, value: &mut Value<'_>) -> Result<WrittenRequirement, DeserError> {
        let span = value.span;
        let Some(text) = value.as_str() else {
            return Err(DeserError::wrong_kind(alloc, span));
        };
        match written_requirement(alloc, text)? {
            Some(written) => Ok(written),
            None => Err(DeserError::unreadable(alloc, span)),
        }
    }
}

#[tactic(auto, unfolding(crate::specs::Requirement::requirement_text))]
fn written_requirement(alloc: Global, text: &str) -> Result<Option<WrittenRequirement>, NoMemory>
    ensures { IfOk result (λ read. option_map (λ written. written.text) read ≡ requirement_text text.now) }
{
    match requirement_in(alloc, text)? {
        Some(requirement) => Ok(Some(WrittenRequirement {
            requirement,
            text: Text::from_str(alloc, text)?,
        })),
        None => Ok(None),
    }
}
