ghost use Rattle.std.specs.Prelude.{◌≡◌, ◌↔◌, not, filter, IfOk, IsTrue, MatchOption, Err};
ghost use Rattle.deny_spans_cfg_expr.specs.Grammar.{Agree};
ghost use Rattle.deny_spans_cfg_expr.specs.Expression.{IsCfgOf, IsNone};
ghost use Rattle.deny_spans_cfg_expr.specs.private.Tokens.{is_comma};

use crate::error::CfgError;
use crate::reader::accepts;
use crate::token::{CfgToken, read_tokens};
use deny_base_lists::{List, NoMemory};
use std::alloc::Global;

/// An expression `cfg(..)`. Two are equal where their trees are.
#[derive(Drop)]
pub struct CfgExpr {
    /// The tokens in order, without the commas.
    pub tokens: List<CfgToken>,
}

impl CfgExpr {
    /// The expression that the text spells. `Bad` comes exactly where it spells none, and `Memory`
    /// where memory runs out.
    pub fn parse(alloc: Global, text: &str) -> Result<CfgExpr, CfgError>
        ensures read { IfOk result (IsCfgOf text.now) }
        ensures bad { result ≡ Err CfgError.Bad → IsNone text.now }
    {
        match read_expression(alloc, text)? {
            Some(expression) => Ok(expression),
            None => Err(CfgError::Bad),
        }
    }
}

/// Whether two keys of targets agree: the texts are equal, or both are read as `cfg(..)` with equal
/// trees.
pub fn agree(alloc: Global, one: &str, other: &str) -> Result<bool, NoMemory>
    ensures { IfOk result (λ yes. IsTrue yes ↔ Agree one.now other.now) }
{
    if one == other {
        return Ok(true);
    }
    let Some(first) = read_expression(alloc, one)? else {
        return Ok(false);
    };
    let Some(second) = read_expression(alloc, other)? else {
        return Ok(false);
    };
    Ok(is_same(&first, &second))
}

/// Whether two expressions are equal.
fn is_same(one: &CfgExpr, other: &CfgExpr) -> bool
    ensures { IsTrue result ↔ (one.now.tokens ≡ other.now.tokens) }
{
    one.tokens == other.tokens
}

/// The expression that the text spells, or none where it spells none.
fn read_expression(alloc: Global, text: &str) -> Result<Option<CfgExpr>, NoMemory>
    ensures { IfOk result (λ read. MatchOption read (IsNone text.now) (IsCfgOf text.now)) }
{
    let Some(tokens) = read_tokens(alloc, text)? else {
        return Ok(None);
    };
    let spelled = accepts(alloc, tokens.as_slice())?;
    if spelled {
        Ok(Some(CfgExpr {
            tokens: without_commas(tokens),
        }))
    } else {
        Ok(None)
    }
}

/// The tokens without the commas.
fn without_commas(tokens: List<CfgToken>) -> List<CfgToken>
    ensures { result ≡ filter (λ token. not (is_comma token)) tokens }
{
    let mut vec = tokens.vec;
    vec.retain(|token| !token.is_comma());
    List { vec }
}
