ghost use Rattle.std.specs.Prelude.{◌≡◌, ◌<◌, ◌∷◌, [], length, IfOk, OnErr};
ghost use Rattle.deny_globs.specs.Characters.{slash};
ghost use Rattle.deny_globs.specs.Compiled.{IsProgram};
ghost use Rattle.deny_globs.specs.private.Compiled.{Grows, IsBuilt, IsBuiltOver, IsBuiltBeside, IsPushed};
ghost use Rattle.deny_globs.specs.declared.token.Token.TheVariants.{Character as CharacterToken, LeadingFolders};
ghost use Rattle.deny_globs.specs.declared.token.Token.TheVariants.{TrailingPath, MiddleFolders, OneOf};

use crate::state::GlobState;
use crate::token::{CharacterClass, Token};
use deny_base_lists::{List, NoMemory};
use std::alloc::Global;

/// Adds a state, and returns its number.
pub fn push_state(states: &mut Vec<GlobState>, state: GlobState) -> Result<usize, NoMemory>
    ensures ok { IfOk result (IsPushed state states.old.items states.new.items) }
    ensures err { OnErr result (states.new.items ≡ states.old.items) }
{
    let number = states.len();
    states.push(state)?;
    Ok(number)
}

/// Compiles a `/` before the next state.
fn push_slash(states: &mut Vec<GlobState>, next: usize) -> Result<usize, NoMemory>
    requires program { IsProgram states.old.items }
    requires next { next < length states.old.items }
    ensures ok { IfOk result (IsBuilt (CharacterToken slash ∷ []) next states.old.items states.new.items) }
    ensures err { OnErr result (Grows states.old.items states.new.items) }
{
    push_state(states, GlobState::Character('/', next))
}

/// Compiles nothing, or any characters that end in `/`, before the next state.
fn push_leading(states: &mut Vec<GlobState>, next: usize) -> Result<usize, NoMemory>
    requires program { IsProgram states.old.items }
    requires next { next < length states.old.items }
    ensures ok { IfOk result (IsBuilt (LeadingFolders ∷ []) next states.old.items states.new.items) }
    ensures err { OnErr result (Grows states.old.items states.new.items) }
{
    let slash = push_slash(states, next)?;
    let folders = push_state(states, GlobState::AnyText(slash))?;
    push_state(states, GlobState::Either(next, folders))
}

/// Compiles `/` and any characters before the next state.
fn push_trailing(states: &mut Vec<GlobState>, next: usize) -> Result<usize, NoMemory>
    requires program { IsProgram states.old.items }
    requires next { next < length states.old.items }
    ensures ok { IfOk result (IsBuilt (TrailingPath ∷ []) next states.old.items states.new.items) }
    ensures err { OnErr result (Grows states.old.items states.new.items) }
{
    let below = push_state(states, GlobState::AnyText(next))?;
    push_slash(states, below)
}

/// Compiles a `/`, or any characters between two of them, before the next state.
fn push_middle(states: &mut Vec<GlobState>, next: usize) -> Result<usize, NoMemory>
    requires program { IsProgram states.old.items }
    requires next { next < length states.old.items }
    ensures ok { IfOk result (IsBuilt (MiddleFolders ∷ []) next states.old.items states.new.items) }
    ensures err { OnErr result (Grows states.old.items states.new.items) }
{
    let folders = push_leading(states, next)?;
    push_slash(states, folders)
}

/// A copy of the class.
fn copy_of(alloc: Global, class: &CharacterClass) -> Result<CharacterClass, NoMemory>
    ensures { IfOk result (λ copy. copy ≡ class.now) }
{
    let ranges = List::from_vec(Vec::from_slice(alloc, class.ranges.as_slice())?);
    Ok(CharacterClass {
        negated: class.negated,
        ranges,
    })
}

/// Compiles a character of the class before the next state.
fn push_class(
    alloc: Global,
    states: &mut Vec<GlobState>,
    class: &CharacterClass,
    next: usize,
) -> Result<usize, NoMemory>
    requires program { IsProgram states.old.items }
    requires next { next < length states.old.items }
    ensures ok { IfOk result (IsBuilt (OneOf class.now ∷ []) next states.old.items states.new.items) }
    ensures err { OnErr result (Grows states.old.items states.new.items) }
{
    let own = copy_of(alloc, class)?;
    push_state(states, GlobState::OneOf(own, next))
}

/// Compiles the token before the next state.
#[cycle(compile)]
fn compile_token(
    alloc: Global,
    states: &mut Vec<GlobState>,
    token: &Token,
    next: usize,
) -> Result<usize, NoMemory>
    requires program { IsProgram states.old.items }
    requires next { next < length states.old.items }
    ensures ok { IfOk result (IsBuilt (token.now ∷ []) next states.old.items states.new.items) }
    ensures err { OnErr result (Grows states.old.items states.new.items) }
{
    match token {
        Token::Character(own) => push_state(states, GlobState::Character(*own, next)),
        Token::AnyCharacter => push_state(states, GlobState::AnyCharacter(next)),
        Token::OneOf(class) => push_class(alloc, states, class, next),
        Token::AnyText => push_state(states, GlobState::AnyText(next)),
        Token::LeadingFolders => push_leading(states, next),
        Token::TrailingPath => push_trailing(states, next),
        Token::MiddleFolders => push_middle(states, next),
        Token::Alternatives(alternatives) => compile_one(
            alloc,
            states,
            alternatives.as_slice(),
            next,
        ),
    }
}

/// Compiles one of the alternatives before the next state.
#[cycle(compile)]
fn compile_one(
    alloc: Global,
    states: &mut Vec<GlobState>,
    alternatives: &[List<Token>],
    next: usize,
) -> Result<usize, NoMemory>
    requires program { IsProgram states.old.items }
    requires next { next < length states.old.items }
    ensures ok { IfOk result (IsBuiltOver alternatives.now next states.old.items states.new.items) }
    ensures err { OnErr result (Grows states.old.items states.new.items) }
{
    let mut start = push_state(states, GlobState::Never)?;
    for alternative in alternatives {
        start = compile_alternative(alloc, states, alternative, next, start)?;
    }
    Ok(start)
}

/// Compiles the tokens before the state `next`, or the state `others`.
#[cycle(compile)]
fn compile_alternative(
    alloc: Global,
    states: &mut Vec<GlobState>,
    tokens: &List<Token>,
    next: usize,
    others: usize,
) -> Result<usize, NoMemory>
    requires program { IsProgram states.old.items }
    requires next { next < length states.old.items }
    requires others { others < length states.old.items }
    ensures ok { IfOk result (IsBuiltBeside tokens.now next others states.old.items states.new.items) }
    ensures err { OnErr result (Grows states.old.items states.new.items) }
{
    let own = compile(alloc, states, tokens, next)?;
    push_state(states, GlobState::Either(others, own))
}

/// Compiles the tokens before the next state, from the last one on.
#[cycle(compile)]
pub fn compile(
    alloc: Global,
    states: &mut Vec<GlobState>,
    tokens: &List<Token>,
    next: usize,
) -> Result<usize, NoMemory>
    requires program { IsProgram states.old.items }
    requires next { next < length states.old.items }
    ensures ok { IfOk result (IsBuilt tokens.now next states.old.items states.new.items) }
    ensures err { OnErr result (Grows states.old.items states.new.items) }
{
    let mut start = next;
    for token in tokens.as_slice().iter().rev() {
        start = compile_token(alloc, states, token, start)?;
    }
    Ok(start)
}
