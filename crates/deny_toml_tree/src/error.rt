ghost use Rattle.std.specs.Prelude.{◌≡◌};
ghost use Rattle.deny_toml_tree.specs.Faults.{fault_at};

use deny_base::Span;
use deny_base_lists::{List, NoMemory, Text};
use std::alloc::{AllocError, AllocFailed};
use thiserror::Error;

/// What is wrong with a value, or with the text that should have it.
#[derive(Debug, Clone, Copy)]
pub enum FaultKind {
    /// The text is not UTF-8.
    NotUtf8,
    /// The text is not in the grammar of TOML.
    Grammar,
    /// A key or a header defines something a second time.
    Clash,
    /// A key that nothing reads.
    Unknown,
    /// A required key is missing.
    Missing,
    /// A value of another kind than the one that is read.
    WrongKind,
    /// A value of the right kind that cannot be read.
    Unreadable,
    /// A day until which something counts, where it is not told which day it is.
    NoToday,
}

/// One fault of a value.
#[derive(Debug, PartialEq, Eq, PartialOrd, Ord, Drop)]
pub struct ConfigFault {
    /// The span of the table for a missing key, of the key for an unknown one, else of the value.
    pub span: Span,
    pub kind: FaultKind,
    /// The path from the value that was read, its parts divided by dots; empty for that value
    /// itself.
    pub key: Text,
    /// Whether it is of a value whose own name is empty. Its path is then not that of the value
    /// that has it, even where both are empty.
    pub is_nameless: bool,
}

impl ConfigFault {
    /// A fault of the value that was read, or of a key of it, which an unknown or a missing one names.
    pub fn new(kind: FaultKind, key: Text, span: Span) -> ConfigFault
        ensures { result ≡ fault_at kind key span }
    {
        ConfigFault {
            span,
            kind,
            key,
            is_nameless: false,
        }
    }
}

/// Why a value was not read.
#[derive(Debug, Drop, Error)]
pub enum DeserError {
    /// All faults of the value, in ascending order of span, kind and key. There is at least one.
    #[error("the value has {} faults", .0.len())]
    Faults(List<ConfigFault>),
    /// Memory ran out.
    #[error("the memory did not suffice")]
    Memory,
}

impl From<NoMemory> for DeserError {
    ghost use Rattle.std.specs.Prelude.{◌≡◌};
    ghost use Rattle.deny_toml_tree.specs.declared.error.DeserError.TheVariants.{Memory};

    ghost from_gives = { λ _ e. e ≡ Memory };

    fn from(_error: NoMemory) -> DeserError {
        DeserError::Memory
    }
}

impl From<AllocError> for DeserError {
    ghost use Rattle.std.specs.Prelude.{◌≡◌};
    ghost use Rattle.deny_toml_tree.specs.declared.error.DeserError.TheVariants.{Memory};

    ghost from_gives = { λ _ e. e ≡ Memory };

    fn from(_error: AllocError) -> DeserError {
        DeserError::Memory
    }
}

impl<T: Drop> From<AllocFailed<T>> for DeserError {
    ghost use Rattle.std.specs.Prelude.{◌≡◌};
    ghost use Rattle.deny_toml_tree.specs.declared.error.DeserError.TheVariants.{Memory};

    ghost from_gives = { λ _ e. e ≡ Memory };

    fn from(_error: AllocFailed<T>) -> DeserError {
        DeserError::Memory
    }
}
