use deny_base::DepKind;
use deny_base_lists::{List, Text};

/// What a node of a tree is: a crate, or one of its features.
#[derive(Drop)]
pub enum NodeInner {
    Krate {
        name: Text,
        version: Text,
        /// The kind of the dependency on the node below it; none for a normal one, and for the root of a tree.
        kind: Option<DepKind>,
    },
    Feature {
        crate_name: Text,
        name: Text,
    },
}

/// A node of a tree, with the trees of the nodes that lead to it.
#[derive(Drop)]
pub struct GraphNode {
    pub inner: NodeInner,
    /// Whether it was met before; the nodes that lead to it are not shown again.
    pub repeat: bool,
    pub parents: List<GraphNode>,
}
