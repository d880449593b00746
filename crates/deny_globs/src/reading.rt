ghost use Rattle.std.specs.Prelude.{◌≡◌, ◌≤◌, [], ◌∷◌, ◌++◌, length, Some, OnOk, IfOk, OnErr, IfErr, MatchOption};
ghost use Rattle.deny_globs.specs.private.Reading.{inner_first, after_piece, StopsReading, outermost_of};
ghost use Rattle.deny_globs.specs.private.Reading.{middle_of, StopsAt, OpensAt, Parts, Closes, StopsEnd};
ghost use Rattle.deny_globs.specs.Tree.{most_braces};

use crate::piece::Piece;
use crate::stop::Stop;
use crate::token::Token;
use deny_base_lists::List;
use std::alloc::Global;
use std::mem;

/// The largest number of braces that may be open at once.
const MOST_BRACES: usize = 16;

/// A `{` that is not closed yet.
#[derive(Drop)]
pub struct OpenBrace {
    /// The number of its character.
    pub at: usize,
    /// The tokens before it, back to the `{` or `,` around it.
    pub before: List<Token>,
    /// Its alternatives that a `,` has ended.
    pub alternatives: List<List<Token>>,
}

/// The part of a pattern that was read.
#[derive(Drop)]
pub struct GlobReading {
    /// The braces that are open, the outermost first.
    pub opened: List<OpenBrace>,
    /// The tokens since the last `{` or `,` that is not closed, or since the start.
    pub tokens: List<Token>,
}

/// The number of the outermost open `{`, or this number where none is open.
pub fn outermost(opened: &List<OpenBrace>, at: usize) -> usize
    ensures { result ≡ outermost_of opened.now at }
{
    match opened.as_slice() {
        [first, ..] => first.at,
        [] => at,
    }
}

/// Adds a piece to the reading.
pub fn read_on(alloc: Global, reading: &mut GlobReading, piece: Piece) -> Result<(), Stop>
    ensures ok { OnOk result (after_piece (inner_first reading.old) piece ≡ Some (inner_first reading.new)) }
    ensures stop { IfErr result (StopsReading (inner_first reading.old) piece) }
{
    match piece {
        Piece::Token(token) => add_token(reading, token),
        Piece::Middle => add_middle(reading),
        Piece::Open(at) => open(alloc, reading, at),
        Piece::Comma => part(alloc, reading),
        Piece::Close(at) => close(reading, at),
    }
}

fn add_token(reading: &mut GlobReading, token: Token) -> Result<(), Stop>
    ensures ok { OnOk result (reading.new ≡ record reading.old { tokens = reading.old.tokens ++ token ∷ [] }) }
    ensures stop { OnErr result (result ≡ Err Stop.Memory) }
{
    reading.tokens.push(token)?;
    Ok(())
}

/// Adds a `/**/`, which is three tokens inside braces.
fn add_middle(reading: &mut GlobReading) -> Result<(), Stop>
    ensures ok { let tokens = reading.old.tokens ++ middle_of reading.old.opened in
        OnOk result (reading.new ≡ record reading.old { tokens = tokens }) }
    ensures stop { OnErr result (result ≡ Err Stop.Memory) }
{
    if reading.opened.as_slice().is_empty() {
        return add_token(reading, Token::MiddleFolders);
    }
    add_token(reading, Token::Character('/'))?;
    add_token(reading, Token::AnyText)?;
    add_token(reading, Token::Character('/'))
}

/// Opens a brace at a `{`.
fn open(alloc: Global, reading: &mut GlobReading, at: usize) -> Result<(), Stop>
    ensures ok { OnOk result (OpensAt at reading.old reading.new) }
    ensures stop { IfErr result (λ stop. StopsAt at (most_braces ≤ length reading.old.opened) stop) }
{
    if reading.opened.len() >= MOST_BRACES {
        return Err(Stop::Fault(at));
    }
    let before = mem::replace(&mut reading.tokens, List::new(alloc));
    reading.opened.push(OpenBrace {
        at,
        before,
        alternatives: List::new(alloc),
    })?;
    Ok(())
}

/// Takes out the innermost open brace.
fn take_innermost(opened: &mut List<OpenBrace>) -> Option<OpenBrace>
    ensures { MatchOption result ((opened.old ≡ []) × (opened.new ≡ []))
        (λ innermost. opened.old ≡ opened.new ++ innermost ∷ []) }
{
    opened.vec.pop()
}

/// Ends an alternative at a `,` inside braces.
fn part(alloc: Global, reading: &mut GlobReading) -> Result<(), Stop>
    ensures ok { OnOk result (Parts reading.old reading.new) }
    ensures stop { OnErr result (result ≡ Err Stop.Memory) }
{
    match take_innermost(&mut reading.opened) {
        None => add_token(reading, Token::Character(',')),
        Some(mut opened) => {
            let tokens = mem::replace(&mut reading.tokens, List::new(alloc));
            opened.alternatives.push(tokens)?;
            reading.opened.push(opened)?;
            Ok(())
        }
    }
}

/// Closes the innermost brace at a `}`.
fn close(reading: &mut GlobReading, at: usize) -> Result<(), Stop>
    ensures ok { OnOk result (Closes reading.old reading.new) }
    ensures stop { IfErr result (λ stop. StopsAt at (reading.old.opened ≡ []) stop) }
{
    match take_innermost(&mut reading.opened) {
        None => Err(Stop::Fault(at)),
        Some(opened) => {
            let OpenBrace {
                at: _,
                before,
                mut alternatives,
            } = opened;
            let tokens = mem::replace(&mut reading.tokens, before);
            alternatives.push(tokens)?;
            add_token(reading, Token::Alternatives(alternatives))
        }
    }
}

/// The tokens of the pattern at its end, where no brace is open.
pub fn finish(reading: GlobReading) -> Result<List<Token>, Stop>
    ensures ok { IfOk result (λ tokens. (reading.opened ≡ []) × (tokens ≡ reading.tokens)) }
    ensures stop { IfErr result (StopsEnd reading.opened) }
{
    let GlobReading { opened, tokens } = reading;
    match opened.as_slice() {
        [first, ..] => Err(Stop::Fault(first.at)),
        [] => Ok(tokens),
    }
}
