use deny_base_lists::{NoMemory, Text};
use std::alloc::{AllocError, AllocFailed};
use thiserror::Error;

/// Why a text gives no graph: the first fault, in the order of the variants.
#[derive(Debug, Drop, Error)]
pub enum MetadataFault {
    /// The text is no JSON.
    #[error("the metadata is no JSON")]
    Json,
    /// A number is not whole, or not within 64 bits.
    #[error("the metadata has a number that is not whole, or not within 64 bits")]
    Float,
    /// The root is an object whose `resolve` is missing or null.
    #[error("the metadata has no resolved dependencies")]
    NoResolve,
    /// A member is missing or of another kind. Its path joins names and indices by dots; the root has the
    /// empty text.
    #[error("the member `{0}` of the metadata is missing or of another kind")]
    Shape(Text),
    /// An id that two packages have, or two nodes.
    #[error("the id `{0}` stands twice in the metadata")]
    DuplicateId(Text),
    /// The id of a member, a node or a dependency that no package has, or of a member or a dependency that no
    /// node has.
    #[error("the id `{0}` has no package or no node in the metadata")]
    DanglingId(Text),
    /// The id of a package whose version, or version of Rust, is no version.
    #[error("a version of the package `{0}` is none")]
    Version(Text),
    /// The id of a package that declares a requirement which is none.
    #[error("a requirement of the package `{0}` is none")]
    Requirement(Text),
    /// The id of a package whose source is none.
    #[error("the source of the package `{0}` is none")]
    Source(Text),
    /// The id of a package whose manifest's path has no `/`.
    #[error("the path of the manifest of the package `{0}` has no `/`")]
    ManifestPath(Text),
    /// An allocation failed. It can come at any point.
    #[error("out of memory")]
    Memory,
}

impl From<NoMemory> for MetadataFault {
    ghost use Rattle.std.specs.Prelude.{◌≡◌};
    ghost use Rattle.deny_krates_metadata.specs.declared.fault.MetadataFault.TheVariants.{Memory};

    ghost from_gives = { λ _ e. e ≡ Memory };

    fn from(_error: NoMemory) -> MetadataFault {
        MetadataFault::Memory
    }
}

impl From<AllocError> for MetadataFault {
    ghost use Rattle.std.specs.Prelude.{◌≡◌};
    ghost use Rattle.deny_krates_metadata.specs.declared.fault.MetadataFault.TheVariants.{Memory};

    ghost from_gives = { λ _ e. e ≡ Memory };

    fn from(_error: AllocError) -> MetadataFault {
        MetadataFault::Memory
    }
}

impl<T> From<AllocFailed<T>> for MetadataFault
where
    T: Drop,
{
    ghost use Rattle.std.specs.Prelude.{◌≡◌};
    ghost use Rattle.deny_krates_metadata.specs.declared.fault.MetadataFault.TheVariants.{Memory};

    ghost from_gives = { λ _ e. e ≡ Memory };

    fn from(_error: AllocFailed<T>) -> MetadataFault {
        MetadataFault::Memory
    }
}
