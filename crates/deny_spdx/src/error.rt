use deny_base_lists::NoMemory;
use thiserror::Error;

/// Why a text is not read.
#[derive(Debug, Clone, Copy, Error)]
pub enum SpdxError {
    /// The text is outside the grammar. The offset is that of the first byte that begins no token,
    /// or of the first token that may not come there. The end of the text counts as a token at the
    /// text's length.
    #[error("the licence expression goes wrong at byte {0}")]
    Bad(usize),
    /// Memory ran out.
    #[error("out of memory")]
    Memory,
}

impl From<NoMemory> for SpdxError {
    ghost use Rattle.std.specs.Prelude.{◌≡◌};
    ghost use Rattle.deny_spdx.specs.declared.error.SpdxError.TheVariants.{Memory};

    ghost from_gives = { λ _ e. e ≡ Memory };

    fn from(_error: NoMemory) -> SpdxError {
        SpdxError::Memory
    }
}
