ghost use Rattle.std.specs.Prelude.{MatchResult, IfOk};
ghost use Rattle.deny_spdx.specs.private.Reading.{IsTurn, IsRead, Stops};

use crate::error::SpdxError;
use crate::token::{Prefix, read_prefix, skip_blanks, split};
use crate::token_reader::TokenReader;
use deny_base_lists::NoMemory;
use std::alloc::Global;

/// The reader after the next token, if there is one.
#[derive(Drop)]
enum TokenStep<R> {
    /// The reader after a token, and the number of bytes of the token.
    On(R, usize),
    /// A byte begins no token, or the token may not come there.
    Wrong,
    /// The reader unchanged, since the text is at its end.
    End(R),
}

/// Reads the text to its end, and returns the reader after it.
pub fn read_tokens<R: TokenReader>(alloc: Global, text: &str, start: R) -> Result<R, SpdxError>
    ensures { MatchResult result (IsRead R.step start text.now) (Stops R.step start text.now) }
{
    let mut reader = start;
    let mut rest = skip_blanks(text);
    loop {
        match take_token(alloc, reader, rest)? {
            TokenStep::On(after, length) => {
                reader = after;
                rest = skip_blanks(split(rest, length).1);
            },
            TokenStep::Wrong => return Err(SpdxError::Bad(text.len() - rest.len())),
            TokenStep::End(last) => return Ok(last),
        }
    }
}

/// Takes the token at the start of the rest into the reader.
fn take_token<R: TokenReader>(
    alloc: Global,
    reader: R,
    rest: &str,
) -> Result<TokenStep<R>, NoMemory>
    ensures { IfOk result (IsTurn R.step reader rest.now) }
{
    match read_prefix(alloc, rest)? {
        Prefix::End => Ok(TokenStep::End(reader)),
        Prefix::NoToken => Ok(TokenStep::Wrong),
        Prefix::Token(token, length) => match reader.take(alloc, token)? {
            Some(after) => Ok(TokenStep::On(after, length)),
            None => Ok(TokenStep::Wrong),
        },
    }
}
