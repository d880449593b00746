ghost use Rattle.std.specs.Prelude.{◌≡◌, ◌<◌, ◌≤◌, ℕ, IfOk, IfSome, option_map};
ghost use Rattle.std.specs.Prelude.{take, drop, length, slice_index, slice_get, Some};
ghost use Rattle.std.specs.List.{prefix_len};
ghost use Rattle.deny_spans_cfg_expr.specs.Tokens.{is_blank, is_name_start, is_name_byte, word_token};
ghost use Rattle.deny_spans_cfg_expr.specs.Tokens.{word_first, quoted_first, mark_token, mark_first, first_token};
ghost use Rattle.deny_spans_cfg_expr.specs.private.Tokens.{AreAll, is_comma};

use deny_base_lists::{List, NoMemory, Text};
use std::alloc::Global;

/// A token of an expression.
#[derive(PartialEq, Eq, Drop)]
pub enum CfgToken {
    /// A word other than `all`, `any` and `not`.
    Name(Text),
    /// `all`
    All,
    /// `any`
    Any,
    /// `not`
    Not,
    /// A text between quotes, without them.
    Quoted(Text),
    /// `=`
    Equals,
    /// `,`
    Comma,
    /// `(`
    Open,
    /// `)`
    Close,
}

impl CfgToken {
    /// Whether this is a comma.
    pub(crate) fn is_comma(&self) -> bool
        ensures { result ≡ is_comma self.now }
    {
        matches!(self, CfgToken::Comma)
    }
}

/// The tokens of the text, or none where a byte begins no token.
pub(crate) fn read_tokens(alloc: Global, text: &str) -> Result<Option<List<CfgToken>>, NoMemory>
    ensures { IfOk result (AreAll text.now) }
{
    let mut tokens = List::new(alloc);
    let mut rest = text;
    loop {
        let here = skip_blanks(rest);
        if here.is_empty() {
            return Ok(Some(tokens));
        }
        let Some((token, after)) = first_token(alloc, here)? else {
            return Ok(None);
        };
        tokens.push(token)?;
        rest = after;
    }
}

/// The token at the start of the text, and the text after it.
#[tactic(auto, unfolding(crate::specs::Tokens::first_token))]
fn first_token(alloc: Global, text: &str) -> Result<Option<(CfgToken, &str)>, NoMemory>
    ensures read { IfOk result (λ found. option_map (λ parts. (parts.0, parts.1.now)) found ≡ first_token text.now) }
    ensures shorter { IfOk result (λ found. IfSome found (λ parts. length parts.1.now < length text.now)) }
{
    match first_byte(text) {
        None => Ok(None),
        Some(byte) if is_name_start(byte) => word(alloc, text),
        Some(b'"') => quoted(alloc, behind_first(text)),
        Some(byte) => Ok(mark(byte, text)),
    }
}

/// The word at the start of the text.
#[tactic(auto, unfolding(crate::specs::Tokens::word_first))]
fn word(alloc: Global, text: &str) -> Result<Option<(CfgToken, &str)>, NoMemory>
    requires { 0 < prefix_len is_name_byte text.now }
    ensures read { IfOk result (λ found. option_map (λ parts. (parts.0, parts.1.now)) found ≡ word_first text.now) }
    ensures shorter { IfOk result (λ found. IfSome found (λ parts. length parts.1.now < length text.now)) }
{
    let (word, rest) = split(text, name_length(text.as_bytes()));
    Ok(Some((word_token(alloc, word)?, rest)))
}

/// The token of a word.
#[tactic(auto, unfolding(crate::specs::Tokens::word_token))]
fn word_token(alloc: Global, word: &str) -> Result<CfgToken, NoMemory>
    ensures { IfOk result (λ token. token ≡ word_token word.now) }
{
    if word == "all" {
        Ok(CfgToken::All)
    } else if word == "any" {
        Ok(CfgToken::Any)
    } else if word == "not" {
        Ok(CfgToken::Not)
    } else {
        Ok(CfgToken::Name(Text::from_str(alloc, word)?))
    }
}

/// The text up to the first quote, and the text after it.
#[tactic(auto, unfolding(crate::specs::Tokens::quoted_first))]
fn quoted(alloc: Global, text: &str) -> Result<Option<(CfgToken, &str)>, NoMemory>
    ensures read { IfOk result (λ found. option_map (λ parts. (parts.0, parts.1.now)) found ≡ quoted_first text.now) }
    ensures shorter { IfOk result (λ found. IfSome found (λ parts. length parts.1.now < length text.now)) }
{
    match text.split_once('"') {
        Some((inside, rest)) => Ok(Some((CfgToken::Quoted(Text::from_str(alloc, inside)?), rest))),
        None => Ok(None),
    }
}

/// The mark that the first byte is, and the text after it.
#[tactic(auto, unfolding(crate::specs::Tokens::mark_first))]
fn mark(byte: u8, text: &str) -> Option<(CfgToken, &str)>
    requires { slice_get text.now 0 ≡ Some byte }
    ensures read { option_map (λ parts. (parts.0, parts.1.now)) result ≡ mark_first byte (drop 1 text.now) }
    ensures shorter { IfSome result (λ parts. length parts.1.now < length text.now) }
{
    match mark_token(byte) {
        Some(token) => Some((token, behind_first(text))),
        None => None,
    }
}

/// The token of a mark.
#[tactic(auto, unfolding(crate::specs::Tokens::mark_token))]
fn mark_token(byte: u8) -> Option<CfgToken>
    ensures token { result ≡ mark_token byte }
    ensures ascii { IfSome result (λ _. byte < 128) }
{
    match byte {
        b'=' => Some(CfgToken::Equals),
        b',' => Some(CfgToken::Comma),
        b'(' => Some(CfgToken::Open),
        b')' => Some(CfgToken::Close),
        _ => None,
    }
}

/// The text without the blanks at its start.
fn skip_blanks(text: &str) -> &str
    ensures { result.now ≡ drop (prefix_len is_blank text.now) text.now }
{
    split(text, blank_length(text.as_bytes())).1
}

/// The text after its first byte, which is ASCII.
fn behind_first(text: &str) -> &str
    requires within { 0 < length text.now }
    requires ascii { slice_index text.now 0 < 128 }
    ensures { result.now ≡ drop 1 text.now }
{
    split(text, 1).1
}

/// The text before and after this many bytes, which are ASCII.
fn split(text: &str, count: usize) -> (&str, &str)
    requires within { count ≤ length text.now }
    requires ascii { (k : ℕ) → k < count → slice_index text.now k < 128 }
    ensures prefix { result.0.now ≡ take count text.now }
    ensures rest { result.1.now ≡ drop count text.now }
{
    text.split_at(count)
}

/// The first byte, if there is one.
fn first_byte(text: &str) -> Option<u8>
    ensures { result ≡ slice_get text.now 0 }
{
    text.as_bytes().first().copied()
}

/// The number of bytes of a word at the start.
fn name_length(bytes: &[u8]) -> usize
    ensures { result ≡ prefix_len is_name_byte bytes.now }
{
    bytes.iter().take_while(|byte| is_name_byte(**byte)).count()
}

/// The number of blanks at the start.
fn blank_length(bytes: &[u8]) -> usize
    ensures { result ≡ prefix_len is_blank bytes.now }
{
    bytes.iter().take_while(|byte| is_blank(**byte)).count()
}

#[tactic(auto, unfolding(crate::specs::Tokens::is_name_start))]
fn is_name_start(byte: u8) -> bool
    ensures { result ≡ is_name_start byte }
{
    matches!(byte, b'a'..=b'z' | b'A'..=b'Z' | b'_')
}

#[tactic(auto, unfolding(crate::specs::Tokens::is_name_byte))]
fn is_name_byte(byte: u8) -> bool
    ensures { result ≡ is_name_byte byte }
{
    is_name_start(byte) || byte.is_ascii_digit()
}

#[tactic(auto, unfolding(crate::specs::Tokens::is_blank))]
fn is_blank(byte: u8) -> bool
    ensures { result ≡ is_blank byte }
{
    byte == b' ' || byte == b'\t'
}
