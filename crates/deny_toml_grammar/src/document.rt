ghost use Rattle.std.specs.Prelude.{◌≡◌, ◌^◌, ◌<◌, List, length, IfOk, IfErr};
ghost use Rattle.deny_base_lists.specs.Reader.{Fails};
ghost use Rattle.deny_toml_grammar.specs.declared.expression.TomlExpression.{TomlExpression};
ghost use Rattle.deny_toml_grammar.specs.Grammar.{IsDocument};
ghost use Rattle.deny_toml_grammar.specs.Spans.{AllOccur};

use crate::expression::TomlExpression;
use crate::lines::expressions;
use crate::read_error::ReadError;
use deny_base_lists::List;
use std::alloc::Global;

/// The headers and assignments that the text writes, in its order.
pub fn read_document<'t>(
    alloc: Global,
    text: &'t str,
) -> Result<List<TomlExpression<'t>>, ReadError>
    requires small { length text.now < 2 ^ 28 }
    ensures found { IfOk result (λ es. IsDocument text.now es) }
    ensures only { IfOk result (λ es. (others : List TomlExpression) → IsDocument text.now others → others ≡ es) }
    ensures hold { IfOk result (AllOccur text.now) }
    ensures refused { IfErr result
        (Fails ReadError.Memory (λ _. (es : List TomlExpression) → IsDocument text.now es → ⊥)) }
{
    expressions(alloc, text)
}
