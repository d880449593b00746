use deny_base_lists::NoMemory;
use thiserror::Error;

/// Why a text is no glob.
#[derive(Debug, Clone, Copy, Error)]
pub enum GlobError {
    /// The text is no glob, and its first bad character begins at this byte.
    #[error("the text is no glob: the character at byte {0} is bad")]
    Bad(usize),
    #[error("memory ran out")]
    Memory,
}

impl From<NoMemory> for GlobError {
    ghost use Rattle.std.specs.Prelude.{◌≡◌};
    ghost use Rattle.deny_globs.specs.declared.error.GlobError.TheVariants.{Memory};

    ghost from_gives = { λ _ e. e ≡ Memory };

    fn from(_error: NoMemory) -> GlobError {
        GlobError::Memory
    }
}
