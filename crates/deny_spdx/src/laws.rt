ghost use Rattle.std.specs.Prelude.{◌≡◌, ℕ, List};
ghost use Rattle.deny_spdx.specs.Bad.{IsBadAt, Spells};
ghost use Rattle.deny_spdx.specs.Grammar.{IsExpression};
ghost use Rattle.deny_spdx.specs.Reads.{BadAt, Read, reading_in};
ghost use Rattle.deny_spdx.specs.declared.expression.Expression.{Expression};

/// The reading of a text, as a function of the text, is the expression that it spells by the
/// grammar, or the offset where it goes wrong first.
pub fn one_reading()
    ensures read { (text : List ℕ) → (e : Expression) → reading_in text ≡ Read e → Spells IsExpression text e }
    ensures bad { (text : List ℕ) → (offset : ℕ) → reading_in text ≡ BadAt offset → IsBadAt IsExpression text offset }
{}
