ghost use Rattle.std.specs.Prelude.{◌≡◌, ◌∷◌, [], IfOk, MatchOption, slice_get};
ghost use Rattle.deny_spans_cfg_expr.specs.private.Reader.{start, at_key, inside, at_head, at_expression};
ghost use Rattle.deny_spans_cfg_expr.specs.private.Reader.{closed, at_argument, next_argument, at_whole};
ghost use Rattle.deny_spans_cfg_expr.specs.private.Reader.{at_name, at_value, step, is_done, is_empty, accepts};

use crate::token::CfgToken;
use deny_base_lists::NoMemory;
use std::alloc::Global;
use std::marker::Model;

/// The content of an open parenthesis.
#[derive(Clone, Copy, Drop)]
enum Holder {
    /// One expression.
    One,
    /// Expressions, or none, with a comma between them or after each.
    Several,
}

/// The token that comes next.
#[derive(Drop)]
enum CfgPhase {
    /// The word `cfg`.
    Key,
    /// The parenthesis after a word.
    Head(Holder),
    /// An expression.
    Expression,
    /// An expression, or the end of the arguments.
    Argument,
    /// A token that may follow a name: `=`, or one that may follow an expression.
    Name,
    /// A text in quotes.
    Value,
    /// A token that may follow an expression.
    Whole,
}

/// The open parentheses, the innermost one first.
#[derive(Drop)]
struct Brackets {
    vec: Vec<Holder>,
}

impl Model for Brackets {
    ghost use Rattle.std.specs.Prelude.{List, reverse};
    ghost use Rattle.deny_spans_cfg_expr.specs.declared.reader.Holder.{Holder};

    ghost Value = { List Holder };

    ghost view = { λ o. reverse o.vec.items };
}

impl Brackets {
    /// No open parentheses.
    fn new(alloc: Global) -> Brackets
        ensures { result ≡ [] }
    {
        Brackets {
            vec: Vec::new(alloc),
        }
    }

    /// The parentheses with one more open.
    fn with(self, holder: Holder) -> Result<Brackets, NoMemory>
        ensures { IfOk result (λ after. after ≡ holder ∷ self) }
    {
        let mut vec = self.vec;
        vec.push(holder)?;
        Ok(Brackets { vec })
    }

    /// The parentheses after the innermost one is closed, or none where none is open.
    fn closed(self) -> Option<Brackets>
        ensures { MatchOption result (self ≡ []) (λ outer. (holder : _) × (self ≡ holder ∷ outer)) }
    {
        let mut vec = self.vec;
        match vec.pop() {
            Some(_holder) => Some(Brackets { vec }),
            None => None,
        }
    }

    /// The innermost open parenthesis.
    fn innermost(&self) -> Option<Holder>
        ensures { result ≡ slice_get self.now 0 }
    {
        self.vec.last().copied()
    }

    /// Whether no parenthesis is open.
    fn is_empty(&self) -> bool
        ensures { result ≡ is_empty self.now }
    {
        self.vec.is_empty()
    }
}

/// A reader of the tokens of an expression, after some of them.
#[derive(Drop)]
struct CfgReader {
    brackets: Brackets,
    phase: CfgPhase,
}

/// Whether the tokens are `cfg(..)` around an expression.
pub fn accepts(alloc: Global, tokens: &[CfgToken]) -> Result<bool, NoMemory>
    ensures { IfOk result (λ yes. yes ≡ accepts start tokens.now) }
{
    let mut reader = CfgReader {
        brackets: Brackets::new(alloc),
        phase: CfgPhase::Key,
    };
    for token in tokens {
        match reader.take(token)? {
            Some(after) => reader = after,
            None => return Ok(false),
        }
    }
    Ok(reader.is_done())
}

impl CfgReader {
    /// The reader after one more token, or none where the token may not come.
    #[tactic(auto, unfolding(crate::specs::private::Reader::step))]
    fn take(self, token: &CfgToken) -> Result<Option<CfgReader>, NoMemory>
        ensures { IfOk result (λ after. after ≡ step self token.now) }
    {
        let CfgReader { brackets, phase } = self;
        match phase {
            CfgPhase::Key => Ok(at_key(brackets, token)),
            CfgPhase::Head(holder) => at_head(brackets, holder, token),
            CfgPhase::Expression => Ok(at_expression(brackets, token)),
            CfgPhase::Argument => Ok(at_argument(brackets, token)),
            CfgPhase::Name => Ok(at_name(brackets, token)),
            CfgPhase::Value => Ok(at_value(brackets, token)),
            CfgPhase::Whole => Ok(at_whole(brackets, token)),
        }
    }

    /// Whether an expression has come, and no parenthesis is open.
    fn is_done(&self) -> bool
        ensures { result ≡ is_done self.now }
    {
        matches!(self.phase, CfgPhase::Whole) && self.brackets.is_empty()
    }
}

#[tactic(auto, unfolding(crate::specs::private::Reader::at_key))]
fn at_key(brackets: Brackets, token: &CfgToken) -> Option<CfgReader>
    ensures { result ≡ at_key brackets token.now }
{
    match token {
        CfgToken::Name(word) if word.as_str() == "cfg" => Some(CfgReader {
            brackets,
            phase: CfgPhase::Head(Holder::One),
        }),
        _ => None,
    }
}

#[tactic(auto, unfolding(crate::specs::private::Reader::at_head))]
fn at_head(
    brackets: Brackets,
    holder: Holder,
    token: &CfgToken,
) -> Result<Option<CfgReader>, NoMemory>
    ensures { IfOk result (λ after. after ≡ at_head brackets holder token.now) }
{
    match token {
        CfgToken::Open => Ok(Some(CfgReader {
            brackets: brackets.with(holder)?,
            phase: inside(holder),
        })),
        _ => Ok(None),
    }
}

/// The phase after an open parenthesis.
fn inside(holder: Holder) -> CfgPhase
    ensures { result ≡ inside holder }
{
    match holder {
        Holder::One => CfgPhase::Expression,
        Holder::Several => CfgPhase::Argument,
    }
}

#[tactic(auto, unfolding(crate::specs::private::Reader::at_expression))]
fn at_expression(brackets: Brackets, token: &CfgToken) -> Option<CfgReader>
    ensures { result ≡ at_expression brackets token.now }
{
    match token {
        CfgToken::Name(_) => Some(CfgReader {
            brackets,
            phase: CfgPhase::Name,
        }),
        CfgToken::All | CfgToken::Any => Some(CfgReader {
            brackets,
            phase: CfgPhase::Head(Holder::Several),
        }),
        CfgToken::Not => Some(CfgReader {
            brackets,
            phase: CfgPhase::Head(Holder::One),
        }),
        _ => None,
    }
}

#[tactic(auto, unfolding(crate::specs::private::Reader::at_argument, crate::specs::private::Reader::at_expression))]
fn at_argument(brackets: Brackets, token: &CfgToken) -> Option<CfgReader>
    ensures { result ≡ at_argument brackets token.now }
{
    match token {
        CfgToken::Close => closed(brackets),
        _ => at_expression(brackets, token),
    }
}

#[tactic(auto, unfolding(crate::specs::private::Reader::at_name))]
fn at_name(brackets: Brackets, token: &CfgToken) -> Option<CfgReader>
    ensures { result ≡ at_name brackets token.now }
{
    match token {
        CfgToken::Equals => Some(CfgReader {
            brackets,
            phase: CfgPhase::Value,
        }),
        CfgToken::Comma => next_argument(brackets),
        CfgToken::Close => closed(brackets),
        _ => None,
    }
}

#[tactic(auto, unfolding(crate::specs::private::Reader::at_value))]
fn at_value(brackets: Brackets, token: &CfgToken) -> Option<CfgReader>
    ensures { result ≡ at_value brackets token.now }
{
    match token {
        CfgToken::Quoted(_) => Some(CfgReader {
            brackets,
            phase: CfgPhase::Whole,
        }),
        _ => None,
    }
}

#[tactic(auto, unfolding(crate::specs::private::Reader::at_whole))]
fn at_whole(brackets: Brackets, token: &CfgToken) -> Option<CfgReader>
    ensures { result ≡ at_whole brackets token.now }
{
    match token {
        CfgToken::Comma => next_argument(brackets),
        CfgToken::Close => closed(brackets),
        _ => None,
    }
}

/// The reader after a comma, which may come only between arguments.
#[tactic(auto, unfolding(crate::specs::private::Reader::next_argument))]
fn next_argument(brackets: Brackets) -> Option<CfgReader>
    ensures { result ≡ next_argument brackets }
{
    match brackets.innermost() {
        Some(Holder::Several) => Some(CfgReader {
            brackets,
            phase: CfgPhase::Argument,
        }),
        _ => None,
    }
}

/// The reader after the innermost parenthesis is closed.
#[tactic(auto, unfolding(crate::specs::private::Reader::closed))]
fn closed(brackets: Brackets) -> Option<CfgReader>
    ensures { result ≡ closed brackets }
{
    match brackets.closed() {
        Some(outer) => Some(CfgReader {
            brackets: outer,
            phase: CfgPhase::Whole,
        }),
        None => None,
    }
}
