use deny_base_lists::List;

/// The characters from `first` to `last`, both included.
#[derive(Clone, Copy)]
pub struct CharacterRange {
    pub first: char,
    pub last: char,
}

/// A class `[..]`: the characters of its ranges, or all others where it is negated.
#[derive(Drop)]
pub struct CharacterClass {
    pub negated: bool,
    pub ranges: List<CharacterRange>,
}

/// A part of a glob.
#[derive(Drop)]
pub enum Token {
    /// This character.
    Character(char),
    /// `?`: one character, a `/` too.
    AnyCharacter,
    /// `[..]`: one character of the class.
    OneOf(CharacterClass),
    /// `*`: any characters, `/` too.
    AnyText,
    /// `**/` at the start: nothing, or any characters that end in `/`.
    LeadingFolders,
    /// `/**` at the end: `/` and any characters.
    TrailingPath,
    /// `/**/`: a `/`, or any characters between two of them.
    MiddleFolders,
    /// `{a,b}`: a text of one of the alternatives.
    Alternatives(List<List<Token>>),
}
