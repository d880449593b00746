ghost use Rattle.std.specs.Prelude.{◌≡◌, ◌<◌, ◌≤◌, ℕ, take, drop, length, slice_index, slice_get, IfOk};
ghost use Rattle.std.specs.List.{prefix_len};
ghost use Rattle.deny_spdx.specs.Tokens.{is_blank, is_word_byte, token_of};
ghost use Rattle.deny_spdx.specs.private.Prefix.{HasPrefix, is_plus, mark_of};

use deny_base_lists::{NoMemory, Text};
use std::alloc::Global;

/// A token of a licence expression.
#[derive(Drop)]
pub enum SpdxToken {
    /// A word that is no operator, without the `+` that may end it.
    Word(Text),
    /// `AND`
    And,
    /// `OR` or `/`
    Or,
    /// `WITH`
    With,
    /// `(`
    Open,
    /// `)`
    Close,
}

/// The start of a text.
#[derive(Drop)]
pub enum Prefix {
    /// The text is empty.
    End,
    /// A byte that begins no token.
    NoToken,
    /// A token of this many bytes.
    Token(SpdxToken, usize),
}

/// The token at the start of the text, if there is one.
pub fn read_prefix(alloc: Global, text: &str) -> Result<Prefix, NoMemory>
    ensures { IfOk result (HasPrefix text.now) }
{
    match first_byte(text) {
        None => Ok(Prefix::End),
        Some(byte) if is_word_byte(byte) => word(alloc, text),
        Some(byte) => Ok(mark(byte)),
    }
}

/// The word at the start of the text.
fn word(alloc: Global, text: &str) -> Result<Prefix, NoMemory>
    requires { 0 < prefix_len is_word_byte text.now }
    ensures { IfOk result (HasPrefix text.now) }
{
    let length = word_length(text.as_bytes());
    let (word, after) = split(text, length);
    if has_plus(after) {
        let id = Text::from_str(alloc, word)?;
        Ok(Prefix::Token(SpdxToken::Word(id), length + 1))
    } else {
        Ok(Prefix::Token(token_of(alloc, word)?, length))
    }
}

/// The start of a text whose first byte is in no word.
#[tactic(auto, unfolding(crate::specs::private::Prefix::mark_of))]
fn mark(byte: u8) -> Prefix
    ensures { result ≡ mark_of byte }
{
    match byte {
        b'(' => Prefix::Token(SpdxToken::Open, 1),
        b')' => Prefix::Token(SpdxToken::Close, 1),
        b'/' => Prefix::Token(SpdxToken::Or, 1),
        _ => Prefix::NoToken,
    }
}

/// The token of a word without `+`.
#[tactic(auto, unfolding(crate::specs::Tokens::token_of))]
fn token_of(alloc: Global, word: &str) -> Result<SpdxToken, NoMemory>
    ensures { IfOk result (λ token. token ≡ token_of word.now) }
{
    if word == "AND" {
        Ok(SpdxToken::And)
    } else if word == "OR" {
        Ok(SpdxToken::Or)
    } else if word == "WITH" {
        Ok(SpdxToken::With)
    } else {
        Ok(SpdxToken::Word(Text::from_str(alloc, word)?))
    }
}

/// The text without the blanks at its start.
pub fn skip_blanks(text: &str) -> &str
    ensures { result.now ≡ drop (prefix_len is_blank text.now) text.now }
{
    split(text, blank_length(text.as_bytes())).1
}

/// The text before and after this many bytes, which are ASCII.
pub fn split(text: &str, count: usize) -> (&str, &str)
    requires within { count ≤ length text.now }
    requires ascii { (k : ℕ) → k < count → slice_index text.now k < 128 }
    ensures prefix { result.0.now ≡ take count text.now }
    ensures rest { result.1.now ≡ drop count text.now }
{
    text.split_at(count)
}

/// The first byte, if there is one.
fn first_byte(text: &str) -> Option<u8>
    ensures { result ≡ slice_get text.now 0 }
{
    text.as_bytes().first().copied()
}

/// Whether `+` comes first.
fn has_plus(text: &str) -> bool
    ensures { result ≡ is_plus (slice_get text.now 0) }
{
    matches!(first_byte(text), Some(b'+'))
}

/// The number of bytes of a word at the start.
fn word_length(bytes: &[u8]) -> usize
    ensures { result ≡ prefix_len is_word_byte bytes.now }
{
    bytes.iter().take_while(|byte| is_word_byte(**byte)).count()
}

/// The number of blanks at the start.
fn blank_length(bytes: &[u8]) -> usize
    ensures { result ≡ prefix_len is_blank bytes.now }
{
    bytes.iter().take_while(|byte| is_blank(**byte)).count()
}

#[tactic(auto, unfolding(crate::specs::Tokens::is_word_byte))]
fn is_word_byte(byte: u8) -> bool
    ensures { result ≡ is_word_byte byte }
{
    matches!(byte, b'a'..=b'z' | b'A'..=b'Z' | b'0'..=b'9' | b'-' | b'.')
}

#[tactic(auto, unfolding(crate::specs::Tokens::is_blank))]
fn is_blank(byte: u8) -> bool
    ensures { result ≡ is_blank byte }
{
    byte == b' ' || byte == b'\t'
}
