use crate::token::Token;

/// A piece of a pattern, from left to right, before its braces are matched.
#[derive(Drop)]
pub enum Piece {
    /// A token that is the same inside braces and outside.
    Token(Token),
    /// `/**/`, which is one token outside braces only.
    Middle,
    /// A `{`, the character with this number.
    Open(usize),
    /// A `,`, which divides alternatives inside braces.
    Comma,
    /// A `}`, the character with this number.
    Close(usize),
}
