use crate::token::CharacterClass;

/// A state of a walk over a path: the rest of a glob. The numbers are those of the states that
/// follow, and at the end that of the glob.
#[derive(Drop)]
pub enum GlobState {
    /// Nothing is left: the glob fits a path that ends here.
    End(usize),
    /// This character follows.
    Character(char, usize),
    /// Any one character follows.
    AnyCharacter(usize),
    /// One character of the class follows.
    OneOf(CharacterClass, usize),
    /// Any characters follow.
    AnyText(usize),
    /// Either of the two states.
    Either(usize, usize),
    /// Nothing fits.
    Never,
}
