ghost use Rattle.std.specs.Prelude.{◌≡◌, Option, IfOk};
ghost use Rattle.deny_spdx.specs.declared.token.SpdxToken.{SpdxToken};

use crate::token::SpdxToken;
use deny_base_lists::NoMemory;
use std::alloc::Global;

/// A reader of tokens.
pub trait TokenReader: Sized + Drop {
    ghost step: { Self → SpdxToken → Option Self };

    /// The reader after the token, or none where the token may not come.
    fn take(self, alloc: Global, token: SpdxToken) -> Result<Option<Self>, NoMemory>
        ensures { IfOk result (λ after. after ≡ step self token) };
}
