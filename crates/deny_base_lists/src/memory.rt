use std::alloc::{AllocError, AllocFailed};
use thiserror::Error;

/// An allocation failed. It can come at any point of a call whose answer names it.
#[derive(Debug, Clone, Copy, Error)]
#[error("memory ran out")]
pub struct NoMemory;

impl From<AllocError> for NoMemory {
    fn from(_error: AllocError) -> NoMemory {
        NoMemory
    }
}

impl<T> From<AllocFailed<T>> for NoMemory
where
    T: Drop,
{
    fn from(_error: AllocFailed<T>) -> NoMemory {
        NoMemory
    }
}
