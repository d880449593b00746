ghost use Rattle.std.specs.Prelude.{◌≡◌, ◌<◌, ◌+◌, ◌^◌, length, drop, IfOk, IfErr, IsTrue};
ghost use Rattle.std.specs.Bool.{MatchBool};
ghost use Rattle.deny_globs.specs.Characters.{open_bracket, begins, begins_mark};
ghost use Rattle.deny_globs.specs.Pieces.{begins_range};
ghost use Rattle.deny_globs.specs.private.Steps.{AddsMember, StopsMember, ClosesAt, GoesOnAt, IsClosedClass};
ghost use Rattle.deny_globs.specs.private.Steps.{piece_of_class, StopsMembers, IsPieceOf, StopsPiece};

use crate::piece::Piece;
use crate::stop::Stop;
use crate::token::{CharacterClass, CharacterRange, Token};
use deny_base_lists::List;
use std::alloc::Global;

/// Whether the first character begins a range.
fn is_range(rest: &[char]) -> bool
    ensures { result ≡ begins_range (drop 1 rest.now) }
{
    match rest {
        [_, between, last, ..] => *between == '-' && *last != ']',
        _ => false,
    }
}

/// Reads one member of a class, a character or a range, and returns how many characters it has.
fn read_member(rest: &[char], at: usize, ranges: &mut List<CharacterRange>) -> Result<usize, Stop>
    requires { 0 < length rest.now }
    ensures ok { IfOk result (λ size. AddsMember rest.now size ranges.old ranges.new) }
    ensures stop { IfErr result (StopsMember at rest.now) }
{
    let first = rest[0];
    if !is_range(rest) {
        ranges.push(CharacterRange { first, last: first })?;
        return Ok(1);
    }
    let last = rest[2];
    if last < first {
        return Err(Stop::Fault(at));
    }
    ranges.push(CharacterRange { first, last })?;
    Ok(3)
}

/// Whether the class closes after this many characters of its members.
fn is_closed(body: &[char], next: usize) -> bool
    requires { next < length body.now }
    ensures { MatchBool result (ClosesAt body.now next) (GoesOnAt body.now next) }
{
    next > 0 && body[next] == ']'
}

/// Reads the members of a class up to the `]` that closes it, and returns how many characters they
/// have. The fault of a class that is not closed is at `unclosed`.
fn read_members(
    alloc: Global,
    body: &[char],
    at: usize,
    unclosed: usize,
) -> Result<(List<CharacterRange>, usize), Stop>
    requires { at + length body.now < 2 ^ 63 }
    ensures ok { IfOk result (λ members. IsClosedClass body.now members.1 members.0) }
    ensures stop { IfErr result (StopsMembers at unclosed body.now) }
{
    let mut ranges = List::new(alloc);
    let mut next = 0;
    while next < body.len() {
        if is_closed(body, next) {
            return Ok((ranges, next));
        }
        next += read_member(&body[next..], at + next, &mut ranges)?;
    }
    Err(Stop::Fault(unclosed))
}

/// Whether the members begin with a mark that negates.
fn is_negated(body: &[char]) -> bool
    ensures { result ≡ begins_mark body.now }
{
    match body {
        [first, ..] => *first == '!' || *first == '^',
        [] => false,
    }
}

/// Reads a class from its `[` on, and returns how many characters it has.
pub fn read_class(
    alloc: Global,
    rest: &[char],
    at: usize,
    unclosed: usize,
) -> Result<(Piece, usize), Stop>
    requires room { at + length rest.now < 2 ^ 63 }
    requires bracket { IsTrue (begins open_bracket rest.now) }
    ensures ok { IfOk result (λ read. IsPieceOf at rest.now read.1 read.0) }
    ensures stop { IfErr result (StopsPiece at unclosed rest.now) }
{
    if is_negated(&rest[1..]) {
        let (ranges, size) = read_members(alloc, &rest[2..], at + 2, unclosed)?;
        return Ok((class_piece(true, ranges), size + 3));
    }
    let (ranges, size) = read_members(alloc, &rest[1..], at + 1, unclosed)?;
    Ok((class_piece(false, ranges), size + 2))
}

fn class_piece(negated: bool, ranges: List<CharacterRange>) -> Piece
    ensures { result ≡ piece_of_class negated ranges }
{
    Piece::Token(Token::OneOf(CharacterClass { negated, ranges }))
}
