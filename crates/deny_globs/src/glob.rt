ghost use Rattle.std.specs.Prelude.{ℕ, ◌≡◌, List};
ghost use Rattle.std.specs.Prelude.{IfOk, Err, length, take, encode_utf8_all, ◌+◌, ◌<◌, ◌^◌};
ghost use Rattle.std.specs.Str.{chars};
ghost use Rattle.deny_globs.specs.Faults.{IsBadAt};
ghost use Rattle.deny_globs.specs.Patterns.{characters_of, tokens_of};
ghost use Rattle.deny_globs.specs.Tree.{IsGlob};

use crate::error::GlobError;
use crate::reader::read_glob;
use crate::stop::Stop;
use crate::token::Token;
use deny_base_lists::{List, NoMemory};
use std::alloc::Global;
use std::marker::Model;

/// A pattern for paths: its characters, and their tokens.
#[derive(Drop)]
pub struct Glob {
    characters: List<char>,
    tokens: List<Token>,
}

/// Contracts see the characters and the tokens.
impl Model for Glob {
    ghost use Rattle.std.specs.Prelude.{ℕ, List};
    ghost use Rattle.std.specs.Coded.{codes};
    ghost use Rattle.deny_globs.specs.Patterns.{Pattern};
    ghost use Rattle.deny_globs.specs.Tree.{IsGlob};
    ghost use Rattle.deny_globs.specs.contracts.token.Token as token;

    ghost Value = { Pattern };

    ghost coded = { Prim.hlevel (codes, token.the_row.coded) };

    ghost view = { λ g. (g.characters, g.tokens) };

    ghost invariant = { λ g. IsGlob g.characters g.tokens };
}

impl Glob {
    ghost use Rattle.deny_globs.specs.declared.token.Token.{Token};

    /// Reads a text as a glob. `Bad` comes exactly where the text is no glob, with the byte offset
    /// of the first bad character: a `}` with no `{` open, a `{` in sixteen open ones, a `\` at the
    /// end, the first character of a range whose ends fall; and where there is none of these, the
    /// first `{` or `[` that is not closed.
    pub fn parse(alloc: Global, text: &str) -> Result<Glob, GlobError>
        ensures ok { IfOk result (λ glob. IsGlob (chars text.now) (tokens_of glob)) }
        ensures only { IfOk result (λ glob. (other : List Token) → IsGlob (chars text.now) other
            → other ≡ tokens_of glob) }
        ensures characters { IfOk result (λ glob. characters_of glob ≡ chars text.now) }
        ensures bad { (byte : ℕ) → result ≡ Err (GlobError.Bad byte) → IsBadAt text.now byte }
        ensures first { (byte : ℕ) → result ≡ Err (GlobError.Bad byte) →
            (other : ℕ) → IsBadAt text.now other → other ≡ byte }
        ensures no_glob { (byte : ℕ) → result ≡ Err (GlobError.Bad byte) →
            (other : List Token) → IsGlob (chars text.now) other → ⊥ }
    {
        let characters = characters_of(alloc, text)?;
        match read_glob(alloc, &characters) {
            Ok(tokens) => Ok(Glob {
                characters: List::from_vec(characters),
                tokens,
            }),
            Err(Stop::Fault(character)) => Err(GlobError::Bad(byte_of(
                text,
                &characters,
                character,
            ))),
            Err(Stop::Memory) => Err(GlobError::Memory),
        }
    }

    /// The characters.
    pub(crate) fn characters(&self) -> &[char]
        ensures value { result.now ≡ characters_of self.now }
        ensures is_glob { IsGlob (characters_of self.now) (tokens_of self.now) }
    {
        self.characters.as_slice()
    }

    /// The tokens that the characters spell.
    pub(crate) fn tokens(&self) -> &List<Token>
        ensures value { result.now ≡ tokens_of self.now }
        ensures is_glob { IsGlob (characters_of self.now) (tokens_of self.now) }
    {
        &self.tokens
    }
}

/// The number of bytes of the characters as UTF-8.
fn bytes_in(characters: &[char]) -> usize
    requires { length (encode_utf8_all characters.now) < 2 ^ 64 }
    ensures { result ≡ length (encode_utf8_all characters.now) }
{
    let mut bytes = 0;
    for character in characters {
        bytes += character.len_utf8();
    }
    bytes
}

/// The byte offset at which the character of the text with this number begins.
fn byte_of(text: &str, characters: &[char], number: usize) -> usize
    requires { characters.now ≡ chars text.now }
    ensures { result ≡ length (encode_utf8_all (take number (chars text.now))) }
{
    let end = text.len();
    if number < characters.len() {
        return bytes_in(&characters[..number]);
    }
    end
}

/// The characters of a text.
pub fn characters_of(alloc: Global, text: &str) -> Result<Vec<char>, NoMemory>
    ensures { IfOk result (λ v. v.items ≡ chars text.now) }
{
    Ok(text.chars().collect(alloc)?)
}
