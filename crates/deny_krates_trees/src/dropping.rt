//! Trees are dropped node by node: the derived drop of a tree would nest a call for each of its levels.
ghost use Rattle.std.specs.Prelude.{◌≡◌, ◌<◌, ◌++◌, ◌∷◌, [], OnOk, Some, vec_capacity, vec_len};
ghost use Rattle.deny_krates_trees.specs.private.Weights.{turns_left, weights};

use crate::node::GraphNode;
use deny_base_lists::{List, NoMemory};
use std::mem;

/// Drops trees of any height without recursion and without allocating. It consumes its argument and gives
/// nothing back, so that there is nothing to ensure; that it ends is proved.
pub fn drop_trees(trees: List<GraphNode>) {
    let mut left = trees.vec;
    let mut next = left.pop();
    while let Some(tree) = next {
        next = drop_root(&mut left, tree);
    }
}

/// Appends a tree. Where there is no memory for it, it is dropped here.
pub fn push_tree(trees: &mut List<GraphNode>, tree: GraphNode) -> Result<(), NoMemory>
    ensures { OnOk result (trees.new ≡ trees.old ++ tree ∷ []) }
{
    match trees.vec.push(tree) {
        Ok(()) => Ok(()),
        Err(refused) => {
            drop_trees(refused.value.parents);
            Err(NoMemory)
        },
    }
}

// Drops the root of a tree, and gives the next tree to drop. If the root has parents, the last of them is the
// next, and the others are left; the trees that were left before are put behind these, under a node that takes
// the place of the root.
fn drop_root(left: &mut Vec<GraphNode>, tree: GraphNode) -> Option<GraphNode>
    ensures { turns_left left.new.items result < turns_left left.old.items (Some tree) }
{
    let GraphNode {
        inner,
        repeat,
        parents,
    } = tree;
    let mut behind = parents.vec;
    let Some(next) = behind.pop() else {
        return left.pop();
    };
    mem::swap(left, &mut behind);
    if !behind.is_empty() {
        let back = GraphNode {
            inner,
            repeat,
            parents: List::from_vec(behind),
        };
        put_last(left, back);
    }
    Some(next)
}

// Puts a tree first, so that all others are taken before it.
fn put_last(left: &mut Vec<GraphNode>, back: GraphNode)
    requires { vec_len left.old < vec_capacity left.old }
    ensures { weights left.new.items ≡ weights (back ∷ left.old.items) }
{
    left.push_reserved(back);
    let last = left.len() - 1;
    left.swap(0, last);
}
