ghost use Rattle.std.specs.Prelude.{◌≡◌, ◌++◌, ◌∷◌, ◌<◌, [], IfOk, OnOk, length};
ghost use Rattle.deny_krates_trees.specs.Text.{branch, inner_text, is_last, kind_text, line_text, tree_text, trunk};
ghost use Rattle.deny_krates_trees.specs.private.Levels.{before_in, nodes_left, rest_text, to_come};
ghost use Rattle.deny_krates_trees.specs.declared.node.GraphNode.{out-GraphNode};

use crate::node::{GraphNode, NodeInner};
use deny_base::DepKind;
use deny_base_lists::{NoMemory, Text};
use std::alloc::Global;

// The parents of a node, with the index of the next one to be written.
#[derive(Drop)]
struct LevelCursor<'a> {
    parents: &'a [GraphNode],
    next: usize,
}

/// A tree as text, with a line for each node: a crate by its name and version, with `(dev)` or `(build)` in
/// front, a feature by its crate and its name, and `(*)` behind a node that was met before. Branches join a
/// node to those above it.
pub fn write_graph_as_text(alloc: Global, root: &GraphNode) -> Result<Text, NoMemory>
    ensures { IfOk result (λ text. text ≡ tree_text root.now) }
{
    let mut text = Text::new(alloc);
    write_line(&mut text, root)?;
    let mut levels = Vec::new(alloc);
    levels.push(LevelCursor {
        parents: root.parents.as_slice(),
        next: 0,
    })?;
    while let Some(level) = levels.pop() {
        if level.next < level.parents.len() {
            write_next(&mut text, &mut levels, level)?;
        }
    }
    Ok(text)
}

// Writes the next parent of a level, puts the level back, and the level of the parent's own parents above it.
fn write_next<'a>(
    text: &mut Text,
    levels: &mut Vec<LevelCursor<'a>>,
    level: LevelCursor<'a>,
) -> Result<(), NoMemory>
    requires { level.next < length level.parents.now }
    ensures text { OnOk result (text.new ++ rest_text [] levels.new.items
        ≡ text.old ++ rest_text [] (levels.old.items ++ level.entry ∷ [])) }
    ensures less { OnOk result (nodes_left levels.new.items < nodes_left (levels.old.items ++ level.entry ∷ [])) }
{
    let node = &level.parents[level.next];
    let below = LevelCursor {
        parents: level.parents,
        next: level.next + 1,
    };
    write_before(text, levels.as_slice())?;
    text.push_str(branch(is_last(&below)))?;
    write_line(text, node)?;
    levels.push(below)?;
    levels.push(LevelCursor {
        parents: node.parents.as_slice(),
        next: 0,
    })?;
    Ok(())
}

// Writes the trunks that lead past the levels to the lines above them.
fn write_before(text: &mut Text, levels: &[LevelCursor<'_>]) -> Result<(), NoMemory>
    ensures { OnOk result (text.new ≡ text.old ++ before_in levels.now) }
{
    for level in levels {
        text.push_str(trunk(is_last(level)))?;
    }
    Ok(())
}

fn is_last(level: &LevelCursor<'_>) -> bool
    ensures { result ≡ is_last (to_come level.now) }
{
    level.next >= level.parents.len()
}

// The branch that leads to a parent, the last one or another.
fn branch(is_last: bool) -> &'static str
    ensures { result.now ≡ branch is_last }
{
    if is_last { "└── " } else { "├── " }
}

// The trunk that leads past a parent to the lines above it.
fn trunk(is_last: bool) -> &'static str
    ensures { result.now ≡ trunk is_last }
{
    if is_last { "    " } else { "│   " }
}

// Writes the line of a node.
fn write_line(text: &mut Text, node: &GraphNode) -> Result<(), NoMemory>
    ensures { OnOk result (text.new
        ≡ text.old ++ line_text (out-GraphNode node.now).inner (out-GraphNode node.now).repeat) }
{
    write_inner(text, &node.inner)?;
    if node.repeat {
        text.push_str(" (*)")?;
    }
    text.push_str("\n")
}

fn write_inner(text: &mut Text, inner: &NodeInner) -> Result<(), NoMemory>
    ensures { OnOk result (text.new ≡ text.old ++ inner_text inner.now) }
{
    match inner {
        NodeInner::Krate {
            name,
            version,
            kind,
        } => {
            text.push_str(kind_text(*kind))?;
            text.push_str(name.as_str())?;
            text.push_str(" v")?;
            text.push_str(version.as_str())
        },
        NodeInner::Feature { crate_name, name } => {
            text.push_str(crate_name.as_str())?;
            text.push_str(" feature '")?;
            text.push_str(name.as_str())?;
            text.push_str("' ")
        },
    }
}

fn kind_text(kind: Option<DepKind>) -> &'static str
    ensures { result.now ≡ kind_text kind }
{
    match kind {
        None | Some(DepKind::Normal) => "",
        Some(DepKind::Dev) => "(dev) ",
        Some(DepKind::Build) => "(build) ",
    }
}
