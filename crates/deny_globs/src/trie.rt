ghost use Rattle.std.specs.Prelude.{ℕ, ◌≡◌, ◌<◌, ◌↔◌, ◌⊎◌, length, Contains, OnOk, OnErr, IfOk};
ghost use Rattle.std.specs.BTreeMap.{get};
ghost use Rattle.std.specs.Ordering.{nat_cmp};
ghost use Rattle.deny_globs.specs.Trie.{IsTrie, IsEdge};
ghost use Rattle.deny_globs.specs.private.Trie.{HasNoEdge, AddsBare, PutsEdge};
ghost use Rattle.deny_globs.specs.Trie.{Finds};
ghost use Rattle.deny_globs.specs.private.Trie.{PutsNoEdge, PutsNumber, Keeps, AddsLiteral, next_of};

use deny_base_lists::{List, NoMemory};
use std::alloc::Global;
use std::collections::BTreeMap;

/// A node of a trie: the numbers of the literals that end here, and the nodes to which characters
/// lead. Each literal begins at the first node.
#[derive(Drop)]
pub struct TrieNode {
    pub numbers: List<usize>,
    pub edges: BTreeMap<char, usize>,
}

/// Adds a node at which no literal ends.
fn push_node(nodes: &mut Vec<TrieNode>) -> Result<(), NoMemory>
    requires { IsTrie nodes.old.items }
    ensures ok { OnOk result (AddsBare nodes.old.items nodes.new.items) }
    ensures keeps { Keeps nodes.old.items nodes.new.items }
{
    let alloc = *nodes.allocator();
    nodes.push(TrieNode {
        numbers: List::new(alloc),
        edges: BTreeMap::new(alloc),
    })?;
    Ok(())
}

/// The node to which a character leads.
fn next_node(node: &TrieNode, character: char) -> Option<usize>
    ensures { result ≡ get nat_cmp node.now.edges character }
{
    node.edges.get(&character).copied()
}

/// Adds an edge for a character from a node to another.
fn add_edge(
    nodes: &mut Vec<TrieNode>,
    node: usize,
    character: char,
    next: usize,
) -> Result<(), NoMemory>
    requires { node < length nodes.old.items }
    ensures ok { OnOk result (PutsEdge nodes.old.items node character next nodes.new.items) }
    ensures err { OnErr result (PutsNoEdge nodes.old.items node nodes.new.items) }
{
    nodes[node].edges.insert(character, next)?;
    Ok(())
}

/// Adds a node with an edge to it for a character that has none.
fn add_node(nodes: &mut Vec<TrieNode>, node: usize, character: char) -> Result<usize, NoMemory>
    requires trie { IsTrie nodes.old.items }
    requires inside { node < length nodes.old.items }
    requires fresh { HasNoEdge nodes.old.items node character }
    ensures ok { IfOk result (IsEdge nodes.new.items node character) }
    ensures keeps { Keeps nodes.old.items nodes.new.items }
{
    let next = nodes.len();
    push_node(nodes)?;
    add_edge(nodes, node, character, next)?;
    Ok(next)
}

/// The node to which the character leads, which is added where there is none.
fn descend(nodes: &mut Vec<TrieNode>, node: usize, character: char) -> Result<usize, NoMemory>
    requires trie { IsTrie nodes.old.items }
    requires inside { node < length nodes.old.items }
    ensures ok { IfOk result (IsEdge nodes.new.items node character) }
    ensures keeps { Keeps nodes.old.items nodes.new.items }
{
    match next_node(&nodes[node], character) {
        Some(next) => Ok(next),
        None => add_node(nodes, node, character),
    }
}

/// Adds the first node, where there is none.
fn push_root(nodes: &mut Vec<TrieNode>) -> Result<(), NoMemory>
    requires { IsTrie nodes.old.items }
    ensures ok { OnOk result (0 < length nodes.new.items) }
    ensures keeps { Keeps nodes.old.items nodes.new.items }
{
    if nodes.is_empty() {
        return push_node(nodes);
    }
    Ok(())
}

/// Adds a number to the node.
fn push_number(nodes: &mut Vec<TrieNode>, node: usize, number: usize) -> Result<(), NoMemory>
    requires { node < length nodes.old.items }
    ensures ok { OnOk result (PutsNumber nodes.old.items node number nodes.new.items) }
    ensures err { OnErr result (nodes.new.items ≡ nodes.old.items) }
{
    nodes[node].numbers.push(number)
}

/// Adds a literal with its number.
pub fn add_literal(
    nodes: &mut Vec<TrieNode>,
    literal: &[char],
    number: usize,
) -> Result<(), NoMemory>
    requires { IsTrie nodes.old.items }
    ensures ok { OnOk result (AddsLiteral literal.now number nodes.old.items nodes.new.items) }
    ensures err { OnErr result (Keeps nodes.old.items nodes.new.items) }
{
    push_root(nodes)?;
    let mut node = 0;
    for character in literal {
        node = descend(nodes, node, *character)?;
    }
    push_number(nodes, node, number)
}

/// The node to which the first of the characters leads.
fn next_of(node: &TrieNode, rest: &[char]) -> Option<usize>
    ensures { result ≡ next_of node.now rest.now }
{
    match rest {
        [first, ..] => next_node(node, *first),
        [] => None,
    }
}

/// Adds the numbers of all literals that the path begins with.
pub fn find_prefixes(
    nodes: &[TrieNode],
    path: &[char],
    found: &mut Vec<usize>,
) -> Result<(), NoMemory>
    ensures { OnOk result ((number : ℕ) → Contains found.new.items number ↔
        (Contains found.old.items number ⊎ Finds nodes.now 0 path.now number)) }
{
    let mut node = 0;
    let mut index = 0;
    while node < nodes.len() {
        found.extend_from_slice(nodes[node].numbers.as_slice())?;
        match next_of(&nodes[node], &path[index..]) {
            Some(next) => {
                node = next;
                index += 1;
            }
            None => return Ok(()),
        }
    }
    Ok(())
}
