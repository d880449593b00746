use deny_base_disk::DiskError;
use deny_base_lists::NoMemory;
use std::alloc::{AllocError, AllocFailed};
use thiserror::Error;

/// Why a file was not checked.
#[derive(Debug, Clone, Copy, Error)]
pub enum CheckEnd {
    /// The disk failed.
    #[error("the disk failed")]
    Fault,
    /// The file has 2^40 bytes or more.
    #[error("the file has 2^40 bytes or more")]
    Long,
    /// Memory ran out.
    #[error("memory ran out")]
    Memory,
}

impl From<DiskError> for CheckEnd {
    ghost use Rattle.std.specs.Prelude.{◌≡◌};
    ghost use Rattle.deny_build_file.specs.CheckEnd.{check_end_of};

    ghost from_gives = { λ error end. end ≡ check_end_of error };

    fn from(error: DiskError) -> CheckEnd {
        match error {
            DiskError::Failed => CheckEnd::Fault,
            DiskError::Memory => CheckEnd::Memory,
        }
    }
}

impl From<NoMemory> for CheckEnd {
    ghost use Rattle.std.specs.Prelude.{◌≡◌};
    ghost use Rattle.deny_build_file.specs.declared.check_end.CheckEnd.TheVariants.{Memory};

    ghost from_gives = { λ _ e. e ≡ Memory };

    fn from(_error: NoMemory) -> CheckEnd {
        CheckEnd::Memory
    }
}

impl From<AllocError> for CheckEnd {
    ghost use Rattle.std.specs.Prelude.{◌≡◌};
    ghost use Rattle.deny_build_file.specs.declared.check_end.CheckEnd.TheVariants.{Memory};

    ghost from_gives = { λ _ e. e ≡ Memory };

    fn from(_error: AllocError) -> CheckEnd {
        CheckEnd::Memory
    }
}

impl<T> From<AllocFailed<T>> for CheckEnd
where
    T: Drop,
{
    ghost use Rattle.std.specs.Prelude.{◌≡◌};
    ghost use Rattle.deny_build_file.specs.declared.check_end.CheckEnd.TheVariants.{Memory};

    ghost from_gives = { λ _ e. e ≡ Memory };

    fn from(_error: AllocFailed<T>) -> CheckEnd {
        CheckEnd::Memory
    }
}
