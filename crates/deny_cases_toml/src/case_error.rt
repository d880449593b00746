use std::alloc::AllocError;
use std::io;

/// Why the cases stopped.
#[derive(Debug, Drop)]
pub(crate) enum CaseError {
    /// A line is no JSON.
    Json(serde_json::Error),
    /// A line is no string, or a longer one than is read.
    NoText,
    /// The cases cannot be read, or their answers cannot be written.
    Io(io::Error),
    Memory(AllocError),
}
