ghost use Rattle.std.specs.Prelude.{ℕ, ◌↔◌, Contains, OnOk, OnErr, IfOk};
ghost use Rattle.deny_globs.specs.Starts.{AreStarts, Starting};
ghost use Rattle.deny_globs.specs.private.Starts.{AddsStart, KeepsStarts};

use crate::literals::{backward, literal_beginning, literal_ending};
use crate::token::Token;
use crate::trie::{TrieNode, add_literal, find_prefixes};
use deny_base_lists::NoMemory;
use std::alloc::Global;

/// The states at which globs start, by a literal that each path begins or ends with that the glob
/// fits.
#[derive(Drop)]
pub struct Starts {
    /// The starts by the literals that the paths begin with.
    pub beginnings: Vec<TrieNode>,
    /// The starts by the literals that the paths end with, the last character first.
    pub endings: Vec<TrieNode>,
}

/// Puts the start of a glob with these tokens under the longer of its two literals.
pub fn add_start(
    alloc: Global,
    starts: &mut Starts,
    tokens: &[Token],
    number: usize,
) -> Result<(), NoMemory>
    requires { AreStarts starts.old }
    ensures ok { OnOk result (AddsStart tokens.now number starts.old starts.new) }
    ensures err { OnErr result (KeepsStarts starts.old starts.new) }
{
    let beginning = literal_beginning(alloc, tokens)?;
    let ending = literal_ending(alloc, tokens)?;
    if ending.len() < beginning.len() {
        return add_literal(&mut starts.beginnings, &beginning, number);
    }
    add_literal(&mut starts.endings, &ending, number)
}

/// The states at which the globs start that can fit the path.
pub fn starts_for(alloc: Global, starts: &Starts, path: &[char]) -> Result<Vec<usize>, NoMemory>
    ensures { IfOk result (λ found. (number : ℕ) → Contains found.items number ↔
        Starting starts.now path.now number) }
{
    let mut found = Vec::new(alloc);
    find_prefixes(&starts.beginnings, path, &mut found)?;
    let back = backward(alloc, path)?;
    find_prefixes(&starts.endings, &back, &mut found)?;
    Ok(found)
}
