ghost use Rattle.std.specs.Prelude.{◌≡◌, IfOk, Some, IsTrue, option_map};
ghost use Rattle.semver.specs.Parse.{memory_error};
ghost use Rattle.deny_cfg_entries.specs.Requirement.{held_in, requirement_in};

use deny_base_lists::NoMemory;
use semver::{Error, VersionReq};
use std::alloc::{AllocError, Global};

/// The requirement that a text writes; None where the text is no requirement.
#[tactic(auto, unfolding(crate::specs::Requirement::requirement_in))]
pub(crate) fn requirement_in(alloc: Global, text: &str) -> Result<Option<VersionReq>, NoMemory>
    ensures { IfOk result (λ read. option_map held_in read ≡ requirement_in text.now) }
{
    match VersionReq::parse(alloc, text) {
        Ok(requirement) => Ok(Some(requirement)),
        Err(error) => if is_memory(&error) {
            Err(NoMemory)
        } else {
            Ok(None)
        },
    }
}

fn is_memory(error: &Error) -> bool
    ensures { error.now ≡ memory_error → IsTrue result }
{
    *error == Error::from(AllocError)
}
