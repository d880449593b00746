use deny_base_lists::NoMemory;
use deny_toml::TomlError;
use thiserror::Error;

/// Why a text gives no manifest.
#[derive(Debug, Clone, Copy, Error)]
pub enum ManifestFault {
    /// The text is no TOML, or goes past the limits.
    #[error("the manifest is no TOML")]
    Toml,
    /// The crate is none of the graph.
    #[error("the crate is not in the graph")]
    NoNode,
    /// An allocation failed.
    #[error("memory ran out")]
    Memory,
}

impl From<NoMemory> for ManifestFault {
    ghost use Rattle.std.specs.Prelude.{◌≡◌};
    ghost use Rattle.deny_spans_manifest.specs.declared.fault.ManifestFault.TheVariants.{Memory};

    ghost from_gives = { λ _ e. e ≡ Memory };

    fn from(_error: NoMemory) -> ManifestFault {
        ManifestFault::Memory
    }
}

impl From<TomlError> for ManifestFault {
    ghost use Rattle.std.specs.Prelude.{◌≡◌};
    ghost use Rattle.deny_spans_manifest.specs.Fault.{fault_of};

    ghost from_gives = { λ error fault. fault ≡ fault_of error };

    fn from(error: TomlError) -> ManifestFault {
        match error {
            TomlError::Fault { .. } => ManifestFault::Toml,
            TomlError::Memory => ManifestFault::Memory,
        }
    }
}
