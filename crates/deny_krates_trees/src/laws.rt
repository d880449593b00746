//! A law on trees, with an empty body.
ghost use Rattle.std.specs.Prelude.{◌≡◌, ◌≤◌, ℕ, Option};
ghost use Rattle.deny_krates.specs.Nodes.{Node};
ghost use Rattle.deny_spec.specs.Graph.{Graph};
ghost use Rattle.deny_krates_trees.specs.Tree.{all_levels, tree_of, tree_to};

/// A tree that is grown at least one level higher than the graph has nodes is whole: higher ones are equal.
pub fn levels_are_enough()
    ensures { (g : Graph) → (most : Option ℕ) → (node : Node) → (levels : ℕ) → all_levels g ≤ levels
        → tree_to g most levels node ≡ tree_of g most node }
{}
