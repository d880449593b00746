ghost use Rattle.std.specs.Prelude.{ℕ, List, nat_eq, slice_index, ◌-◌, ◌≡◌, ◌<◌, ◌≤◌, ◌+◌, ◌^◌, ◌∷◌, []};
ghost use Rattle.std.specs.Prelude.{length, drop, insert, OnOk, OnErr, IfOk, IfErr, IfSome, IfNone, None, Some};
ghost use Rattle.std.specs.List.{list_all};
ghost use Rattle.std.specs.Char.{is_ascii_alphanumeric};
ghost use Rattle.deny_globs.specs.Index.{Ascend, IsNamedAt};
ghost use Rattle.deny_globs.specs.private.Index.{behind_last_dot, IsGap, IsNumbered, IsExtended};
ghost use Rattle.deny_globs.specs.Characters.{dot};
ghost use Rattle.deny_globs.specs.Sets.{is_simple};

use deny_base_lists::{List, NoMemory, Steps, Wanted, binary_search, binary_search_uncounted};
use std::cmp::Ordering;
use std::sync::ledger::Ledger;

/// Whether all characters are ASCII letters or digits.
fn are_letters_or_digits(characters: &[char]) -> bool
    ensures { result ≡ list_all is_ascii_alphanumeric characters.now }
{
    characters
        .iter()
        .all(|character| character.is_ascii_alphanumeric())
}

/// Whether the characters are `*.` and letters or digits, at least one, and nothing else.
pub fn is_simple(characters: &[char]) -> bool
    ensures { result ≡ is_simple characters.now }
{
    match characters {
        [first, second, _, ..] => *first == '*'
            && *second == '.'
            && are_letters_or_digits(&characters[2..]),
        _ => false,
    }
}

/// Whether the character before this index is a `.`.
fn is_dot_before(path: &[char], index: usize) -> bool
    requires some { 0 < index }
    requires inside { index ≤ length path.now }
    ensures { result ≡ nat_eq (slice_index path.now (index - 1)) dot }
{
    path[index - 1] == '.'
}

/// The index after the last `.` of the path, if it has one.
pub fn last_extension(path: &[char]) -> Option<usize>
    ensures inside { IfSome result (λ index. index ≤ length path.now) }
    ensures found { IfSome result (λ index. behind_last_dot path.now ≡ Some (drop index path.now)) }
    ensures none { IfNone result (behind_last_dot path.now ≡ None) }
{
    let mut index = path.len();
    while 0 < index {
        if is_dot_before(path, index) {
            return Some(index);
        }
        index -= 1;
    }
    None
}

/// An extension, and the numbers of the simple globs that ask for it.
#[derive(Drop)]
pub struct GlobExtension {
    pub name: List<char>,
    pub globs: List<usize>,
}

/// The extension to search for, by its name.
#[derive(Drop)]
struct WantedExtension<'n> {
    name: &'n [char],
}

impl<'n> Wanted for WantedExtension<'n> {
    ghost use Rattle.std.specs.Prelude.{◌≡◌};
    ghost use Rattle.std.specs.Ordering.{nat_cmp};
    ghost use Rattle.std.specs.Cmp.Lexicographic.{slice_cmp};
    ghost use Rattle.deny_globs.specs.Index.{name_of};

    type Record = GlobExtension;

    ghost name_of = { name_of };

    ghost name = { λ wanted. wanted.name.now };

    fn compare(&self, item: &GlobExtension) -> Ordering
        ensures { result ≡ slice_cmp nat_cmp item.now.name self.now.name.now }
    {
        item.name.as_slice().cmp(self.name)
    }
}

/// The index of the extension, or the one at which to insert it.
pub fn find_extension<L: Ledger>(
    extensions: &[GlobExtension],
    name: &[char],
    steps: &mut Steps<L>,
) -> Result<usize, usize>
    requires { Ascend extensions.now }
    ensures found { IfOk result (IsNamedAt extensions.now name.now) }
    ensures absent { IfErr result (IsGap extensions.now name.now) }
    ensures steps { (d : ℕ) → length extensions.now < 2 ^ d → steps.new ≤ steps.old + d }
{
    binary_search(extensions, &WantedExtension { name }, steps)
}

/// Adds a number to the extension at this index.
fn push_number(
    extensions: &mut Vec<GlobExtension>,
    index: usize,
    number: usize,
) -> Result<(), NoMemory>
    requires { index < length extensions.old.items }
    ensures ok { OnOk result (IsNumbered extensions.old.items index number extensions.new.items) }
    ensures err { OnErr result (extensions.new.items ≡ extensions.old.items) }
{
    extensions[index].globs.push(number)
}

/// Inserts a new extension at this index, which one glob asks for.
fn insert_extension(
    extensions: &mut Vec<GlobExtension>,
    index: usize,
    name: &[char],
    number: usize,
) -> Result<(), NoMemory>
    requires { index ≤ length extensions.old.items }
    ensures ok { OnOk result (extensions.new.items
        ≡ insert extensions.old.items index (record { name = name.now; globs = number ∷ [] })) }
    ensures err { OnErr result (extensions.new.items ≡ extensions.old.items) }
{
    let alloc = *extensions.allocator();
    let name = List::from_vec(Vec::from_slice(alloc, name)?);
    let mut globs = List::new(alloc);
    globs.push(number)?;
    extensions.insert(index, GlobExtension { name, globs })?;
    Ok(())
}

/// Adds the number of a glob to the extension that it asks for.
pub fn add_extension(
    extensions: &mut Vec<GlobExtension>,
    name: &[char],
    number: usize,
) -> Result<(), NoMemory>
    requires { Ascend extensions.old.items }
    ensures ok { OnOk result (IsExtended extensions.old.items name.now number extensions.new.items) }
    ensures err { OnErr result (extensions.new.items ≡ extensions.old.items) }
{
    match binary_search_uncounted(extensions, &WantedExtension { name }) {
        Ok(index) => push_number(extensions, index, number),
        Err(index) => insert_extension(extensions, index, name, number),
    }
}
