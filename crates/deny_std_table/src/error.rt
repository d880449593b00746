use deny_base_lists::NoMemory;
use std::alloc::AllocError;
use thiserror::Error;

/// Why replacement bytes were refused.
#[derive(Clone, Copy, Debug, Error)]
pub enum ReplacementError {
    /// The bytes are no table: the byte offset of the first break.
    #[error("the replacement table breaks at byte {0}")]
    Bad(usize),
    /// Memory ran out.
    #[error("out of memory")]
    Memory,
}

impl From<NoMemory> for ReplacementError {
    ghost use Rattle.std.specs.Prelude.{◌≡◌};
    ghost use Rattle.deny_std_table.specs.declared.error.ReplacementError.TheVariants.{Memory};

    ghost from_gives = { λ _ e. e ≡ Memory };

    fn from(_e: NoMemory) -> ReplacementError {
        ReplacementError::Memory
    }
}

/// Why a table could not be written in the second version.
#[derive(Clone, Copy, Debug, Error)]
pub enum UpgradeError {
    /// Its bytes would be 2^28 or more.
    #[error("the replacement table has 2^28 bytes or more in version 2")]
    Long,
    /// Memory ran out.
    #[error("out of memory")]
    Memory,
}

impl From<AllocError> for UpgradeError {
    ghost use Rattle.std.specs.Prelude.{◌≡◌};
    ghost use Rattle.deny_std_table.specs.declared.error.UpgradeError.TheVariants.{Memory};

    ghost from_gives = { λ _ e. e ≡ Memory };

    fn from(_e: AllocError) -> UpgradeError {
        UpgradeError::Memory
    }
}
