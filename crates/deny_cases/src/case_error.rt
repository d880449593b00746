use deny_base_lists::NoMemory;
use std::alloc::{AllocError, AllocFailed};
use std::io;
use thiserror::Error;

/// Why the cases stopped.
#[derive(Debug, Drop, Error)]
pub(crate) enum CaseError {
    /// A line is no JSON.
    #[error("a case is no JSON: {0}")]
    Json(serde_json::Error),
    /// This member of a case is missing, or of another kind.
    #[error("the member `{0}` of a case is missing, or of another kind")]
    Member(&'static str),
    /// Standard input or output failed.
    #[error("{0}")]
    Io(io::Error),
    /// An allocation failed.
    #[error("memory ran out")]
    Memory,
}

impl From<NoMemory> for CaseError {
    fn from(_error: NoMemory) -> CaseError {
        CaseError::Memory
    }
}

impl From<AllocError> for CaseError {
    fn from(_error: AllocError) -> CaseError {
        CaseError::Memory
    }
}

impl<T> From<AllocFailed<T>> for CaseError
where
    T: Drop,
{
    fn from(_error: AllocFailed<T>) -> CaseError {
        CaseError::Memory
    }
}
