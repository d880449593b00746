ghost use Rattle.std.specs.Prelude.{◌≡◌, IfOk, reverse};
ghost use Rattle.deny_globs.specs.private.Literals.{BeginsAll, EndsAll};

use crate::token::Token;
use deny_base_lists::NoMemory;
use std::alloc::Global;

/// The literal that the tokens begin with, and so does each path that fits them.
pub fn literal_beginning(alloc: Global, tokens: &[Token]) -> Result<Vec<char>, NoMemory>
    ensures { IfOk result (λ literal. BeginsAll tokens.now literal.items) }
{
    let mut literal = Vec::new(alloc);
    for token in tokens {
        match token {
            Token::Character(own) => literal.push(*own)?,
            _ => return Ok(literal),
        }
    }
    Ok(literal)
}

/// The literal that the tokens end with, and so does each path that fits them; its last character
/// comes first.
pub fn literal_ending(alloc: Global, tokens: &[Token]) -> Result<Vec<char>, NoMemory>
    ensures { IfOk result (λ literal. EndsAll tokens.now literal.items) }
{
    let mut literal = Vec::new(alloc);
    for token in tokens.iter().rev() {
        match token {
            Token::Character(own) => literal.push(*own)?,
            _ => return Ok(literal),
        }
    }
    Ok(literal)
}

/// The characters in reverse order.
pub fn backward(alloc: Global, characters: &[char]) -> Result<Vec<char>, NoMemory>
    ensures { IfOk result (λ back. back.items ≡ reverse characters.now) }
{
    let mut back = Vec::from_slice(alloc, characters)?;
    back.reverse();
    Ok(back)
}
