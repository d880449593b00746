ghost use Rattle.std.specs.Prelude.{◌≡◌, ◌<◌, ◌+◌, ◌^◌, length, drop, IfOk, IfErr, IsTrue, take_while, ◌==◌, ◌≤◌};
ghost use Rattle.deny_globs.specs.Characters.{slash, star, backslash, begins};
ghost use Rattle.deny_globs.specs.Pieces.{is_leading, is_trailing, is_middle};
ghost use Rattle.deny_globs.specs.private.Reading.{ReadsOn, StopsNext, StopsGlob};
ghost use Rattle.deny_globs.specs.private.Steps.{IsPieceOf, StopsPiece};
ghost use Rattle.deny_globs.specs.Tree.{IsGlob};

use crate::class::read_class;
use crate::piece::Piece;
use crate::reading::{GlobReading, finish, outermost, read_on};
use crate::stop::Stop;
use crate::token::Token;
use deny_base_lists::List;
use std::alloc::Global;

/// The number of `*` at the start.
fn count_stars(rest: &[char]) -> usize
    ensures { result ≡ length (take_while (λ c. c == star) rest.now) }
{
    rest.iter()
        .take_while(|character| **character == '*')
        .count()
}

/// Whether a `/` comes first.
fn begins_slash(rest: &[char]) -> bool
    ensures { result ≡ begins slash rest.now }
{
    match rest {
        [first, ..] => *first == '/',
        [] => false,
    }
}

/// Whether this many `*` at this index are part of `**/` at the start.
fn is_leading(rest: &[char], at: usize, count: usize) -> bool
    requires { count ≤ length rest.now }
    ensures { result ≡ is_leading at count (drop count rest.now) }
{
    at == 0 && count == 2 && begins_slash(&rest[count..])
}

/// Reads a run of `*`, with the `/` after it where the run is part of `**/` at the start.
fn read_stars(rest: &[char], at: usize) -> (Piece, usize)
    requires { IsTrue (begins star rest.now) }
    ensures { IsPieceOf at rest.now result.1 result.0 }
{
    let count = count_stars(rest);
    if is_leading(rest, at, count) {
        return (Piece::Token(Token::LeadingFolders), 3);
    }
    (Piece::Token(Token::AnyText), count)
}

/// Whether only `**` follows the first character.
fn is_trailing(rest: &[char]) -> bool
    ensures { result ≡ is_trailing (drop 1 rest.now) }
{
    match rest {
        [_, first, second] => *first == '*' && *second == '*',
        _ => false,
    }
}

/// Whether `**/` follows the first character.
fn is_middle(rest: &[char]) -> bool
    ensures { result ≡ is_middle (drop 1 rest.now) }
{
    match rest {
        [_, first, second, third, ..] => *first == '*' && *second == '*' && *third == '/',
        _ => false,
    }
}

/// Reads a `/`, with the characters after it where it begins `/**/`, or `/**` at the end.
fn read_slash(rest: &[char], at: usize) -> (Piece, usize)
    requires { IsTrue (begins slash rest.now) }
    ensures { IsPieceOf at rest.now result.1 result.0 }
{
    if is_trailing(rest) {
        return (Piece::Token(Token::TrailingPath), 3);
    }
    if is_middle(rest) {
        return (Piece::Middle, 4);
    }
    (Piece::Token(Token::Character('/')), 1)
}

/// Reads the character after a `\`, which stands for itself.
fn read_escaped(rest: &[char], at: usize, unclosed: usize) -> Result<(Piece, usize), Stop>
    requires { IsTrue (begins backslash rest.now) }
    ensures ok { IfOk result (λ read. IsPieceOf at rest.now read.1 read.0) }
    ensures stop { IfErr result (StopsPiece at unclosed rest.now) }
{
    match rest {
        [_, escaped, ..] => Ok((Piece::Token(Token::Character(*escaped)), 2)),
        _ => Err(Stop::Fault(at)),
    }
}

/// Reads the next piece of the pattern, and returns how many characters it has; `at` is the number
/// of the first, and the fault of a class that is not closed is at `unclosed`.
pub fn read_piece(
    alloc: Global,
    rest: &[char],
    at: usize,
    unclosed: usize,
) -> Result<(Piece, usize), Stop>
    requires some { 0 < length rest.now }
    requires room { at + length rest.now < 2 ^ 63 }
    ensures ok { IfOk result (λ read. IsPieceOf at rest.now read.1 read.0) }
    ensures stop { IfErr result (StopsPiece at unclosed rest.now) }
{
    match rest[0] {
        '?' => Ok((Piece::Token(Token::AnyCharacter), 1)),
        '*' => Ok(read_stars(rest, at)),
        '/' => Ok(read_slash(rest, at)),
        '\\' => read_escaped(rest, at, unclosed),
        '[' => read_class(alloc, rest, at, unclosed),
        '{' => Ok((Piece::Open(at), 1)),
        ',' => Ok((Piece::Comma, 1)),
        '}' => Ok((Piece::Close(at), 1)),
        plain => Ok((Piece::Token(Token::Character(plain)), 1)),
    }
}

/// Reads the next piece into the reading, and returns how many characters it has.
fn read_next(
    alloc: Global,
    characters: &[char],
    next: usize,
    reading: &mut GlobReading,
) -> Result<usize, Stop>
    requires some { next < length characters.now }
    requires room { length characters.now < 2 ^ 63 }
    ensures ok { IfOk result (λ size. ReadsOn characters.now next size reading.old reading.new) }
    ensures stop { IfErr result (StopsNext characters.now next reading.old) }
{
    let unclosed = outermost(&reading.opened, next);
    let (piece, size) = read_piece(alloc, &characters[next..], next, unclosed)?;
    read_on(alloc, reading, piece)?;
    Ok(size)
}

/// Reads a whole pattern. A fault is the number of the first bad character.
pub fn read_glob(alloc: Global, characters: &[char]) -> Result<List<Token>, Stop>
    requires { length characters.now < 2 ^ 63 }
    ensures ok { IfOk result (IsGlob characters.now) }
    ensures stop { IfErr result (StopsGlob characters.now) }
{
    let mut reading = GlobReading {
        opened: List::new(alloc),
        tokens: List::new(alloc),
    };
    let mut next = 0;
    while next < characters.len() {
        next += read_next(alloc, characters, next, &mut reading)?;
    }
    finish(reading)
}
