use deny_base_lists::NoMemory;
use thiserror::Error;

/// Why a text is not an expression.
#[derive(Debug, Clone, Copy, Error)]
pub enum CfgError {
    /// The text is outside the grammar.
    #[error("not a cfg expression")]
    Bad,
    /// Memory ran out.
    #[error("out of memory")]
    Memory,
}

impl From<NoMemory> for CfgError {
    ghost use Rattle.std.specs.Prelude.{◌≡◌};
    ghost use Rattle.deny_spans_cfg_expr.specs.declared.error.CfgError.TheVariants.{Memory};

    ghost from_gives = { λ _ e. e ≡ Memory };

    fn from(_error: NoMemory) -> CfgError {
        CfgError::Memory
    }
}
