ghost use Rattle.std.specs.Prelude.{◌≡◌, ◌≢◌, ◌∷◌, [], ℕ, length, false, slice_get};
ghost use Rattle.std.specs.Prelude.{unwrap_or, IfOk, MatchResult, Ok, Err};
ghost use Rattle.std.specs.List.{list_any, list_all};
ghost use Rattle.deny_spdx.specs.Truth.{truth};
ghost use Rattle.deny_spdx.specs.Grammar.{IsExpression, all_of, any_of};
ghost use Rattle.deny_base_lists.specs.Reader.{Answers};
ghost use Rattle.deny_spdx.specs.Bad.{Spells, IsBadAt};
ghost use Rattle.deny_spdx.specs.Reads.{IsReading};

use crate::error::SpdxError;
use crate::parse::read_expression;
use crate::requirement::Requirement;
use deny_base_lists::List;
use std::alloc::Global;

/// The tree of an expression. Requirements are given by their numbers, which count from 0 in text
/// order.
#[derive(Drop)]
pub enum Tree {
    /// The requirement with this number holds.
    Requirement(usize),
    /// Each of the parts holds.
    All(List<Tree>),
    /// One of the parts holds.
    Any(List<Tree>),
}

/// A licence expression.
#[derive(Drop)]
pub struct Expression {
    pub requirements: List<Requirement>,
    pub tree: Tree,
}

impl Expression {
    /// The expression that the text spells. `Bad` comes exactly where it spells none, at the offset
    /// where it goes wrong first, and `Memory` where memory runs out.
    pub fn parse(alloc: Global, text: &str) -> Result<Expression, SpdxError>
        ensures read { IfOk result (Spells IsExpression text.now) }
        ensures spelled { (e : Expression) → Spells IsExpression text.now e → Answers SpdxError.Memory (Ok e) result }

        ensures refused { (offset : ℕ) → result ≡ Err (SpdxError.Bad offset) → IsBadAt IsExpression text.now offset }
        ensures bad { (offset : ℕ) → IsBadAt IsExpression text.now offset
            → Answers SpdxError.Memory (Err (SpdxError.Bad offset)) result }
        ensures meaning { IsReading text.now result }
    {
        read_expression(alloc, text)
    }

    /// The requirements in text order, equal ones repeated.
    pub fn requirements(&self) -> &[Requirement]
        ensures { result.now ≡ self.now.requirements }
    {
        self.requirements.as_slice()
    }

    /// Whether the expression holds, where the requirement with each number holds as `allowed`
    /// says.
    pub fn evaluate(&self, allowed: &[bool]) -> bool
        requires { length allowed.now ≡ length self.now.requirements }
        ensures { result ≡ truth allowed.now self.now.tree }
    {
        holds(&self.tree, allowed)
    }
}

/// The tree of these parts, all of which must hold. A single part is the tree itself.
pub(crate) fn all_of(parts: List<Tree>) -> Tree
    ensures { result ≡ all_of parts }
{
    match alone(parts) {
        Ok(part) => part,
        Err(parts) => Tree::All(parts),
    }
}

/// The tree of these parts, one of which must hold. A single part is the tree itself.
pub(crate) fn any_of(parts: List<Tree>) -> Tree
    ensures { result ≡ any_of parts }
{
    match alone(parts) {
        Ok(part) => part,
        Err(parts) => Tree::Any(parts),
    }
}

/// The only part, or the parts unchanged where there is not exactly one.
fn alone(parts: List<Tree>) -> Result<Tree, List<Tree>>
    ensures { MatchResult result (λ part. parts ≡ part ∷ []) (λ others. (others ≡ parts) × (length parts ≢ 1)) }
{
    let mut parts = parts;
    if parts.len() != 1 {
        return Err(parts);
    }
    match parts.vec.pop() {
        Some(part) => Ok(part),
        None => Err(parts),
    }
}

/// Whether the tree holds.
#[cycle(truth)]
fn holds(tree: &Tree, allowed: &[bool]) -> bool
    ensures { result ≡ truth allowed.now tree.now }
{
    match tree {
        Tree::Requirement(number) => value_of(allowed, *number),
        Tree::All(parts) => all_hold(parts.as_slice(), allowed),
        Tree::Any(parts) => any_holds(parts.as_slice(), allowed),
    }
}

/// Whether each of the parts holds.
#[cycle(truth)]
fn all_hold(parts: &[Tree], allowed: &[bool]) -> bool
    ensures { result ≡ list_all (truth allowed.now) parts.now }
{
    for part in parts {
        if !holds(part, allowed) {
            return false;
        }
    }
    true
}

/// Whether one of the parts holds.
#[cycle(truth)]
fn any_holds(parts: &[Tree], allowed: &[bool]) -> bool
    ensures { result ≡ list_any (truth allowed.now) parts.now }
{
    for part in parts {
        if holds(part, allowed) {
            return true;
        }
    }
    false
}

/// The value with this number, and false past the end.
fn value_of(values: &[bool], number: usize) -> bool
    ensures { result ≡ unwrap_or (slice_get values.now number) false }
{
    values.get(number).copied().unwrap_or(false)
}
