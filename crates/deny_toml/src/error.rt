use deny_base::Span;
use deny_base_lists::NoMemory;
use thiserror::Error;

/// Why a text is no TOML.
#[derive(Debug, Clone, Copy)]
pub enum TomlKind {
    /// The text is not in the grammar, or nests deeper than the limits.
    Grammar,
    /// The text is in the grammar, and a key or a header defines something a second time.
    Clash,
}

impl TomlKind {
    /// The cause as text.
    fn text(self) -> &'static str {
        match self {
            TomlKind::Grammar => "outside the grammar of TOML",
            TomlKind::Clash => "defined before",
        }
    }
}

/// Why `parse` gives no tree.
#[derive(Debug, Drop, Error)]
pub enum TomlError {
    /// The text is not TOML. The span of a clash is that of the first clashing key.
    #[error("{} at bytes {}..{}", .kind.text(), .span.start, .span.end)]
    Fault { kind: TomlKind, span: Span },
    /// Memory ran out.
    #[error("the memory did not suffice")]
    Memory,
}

impl From<NoMemory> for TomlError {
    ghost use Rattle.std.specs.Prelude.{◌≡◌};
    ghost use Rattle.deny_toml.specs.declared.error.TomlError.TheVariants.{Memory};

    ghost from_gives = { λ _ e. e ≡ Memory };

    fn from(_error: NoMemory) -> TomlError {
        TomlError::Memory
    }
}
