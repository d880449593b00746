//! The nodes of the resolved dependencies.
ghost use Rattle.std.specs.Prelude.{◌≡◌, IfOk};
ghost use Rattle.deny_krates_metadata.specs.Document.{kinds_of, needed_as_at, node_at, node_dependency_at};

use crate::elements::{
    Element, each_given, each_text_given, object, optional_text_in, required_text,
};
use crate::fault::MetadataFault;
use crate::kind::dependency_kind;
use crate::member::MetadataMember;
use deny_base::DepKind;
use deny_base_lists::{List, NoMemory, Text};
use json::Value;
use std::alloc::Global;

/// The kind and the target for which a dependency is needed; without a target it is needed for all targets.
#[derive(Clone, Drop)]
pub struct NeededAs {
    pub kind: DepKind,
    pub target: Option<Text>,
}

impl Element for NeededAs {
    ghost read_at = { needed_as_at };

    #[tactic(auto, unfolding(crate::specs::Document::needed_as_at))]
    fn from_value(alloc: Global, path: &str, value: &Value<'_>) -> Result<NeededAs, MetadataFault> {
        object(alloc, path, value)?;
        let kind = dependency_kind(alloc, path, value)?;
        let target = optional_text_in(alloc, path, value, MetadataMember::Target)?;
        Ok(NeededAs { kind, target })
    }
}

/// A dependency that cargo resolved: the id of the package, and the kinds and targets for which it is
/// needed.
#[derive(Drop)]
pub struct NodeDependency {
    pub pkg: Text,
    pub kinds: List<NeededAs>,
}

impl Element for NodeDependency {
    ghost read_at = { node_dependency_at };

    #[tactic(auto, unfolding(crate::specs::Document::node_dependency_at))]
    fn from_value(
        alloc: Global,
        path: &str,
        value: &Value<'_>,
    ) -> Result<NodeDependency, MetadataFault> {
        object(alloc, path, value)?;
        let pkg = required_text(alloc, path, value, MetadataMember::Pkg)?;
        let written = each_given(alloc, path, value, MetadataMember::DepKinds)?;
        let kinds = kinds_in(written)?;
        Ok(NodeDependency { pkg, kinds })
    }
}

// The kinds of a dependency. One that writes no kinds is normal, for all targets.
#[tactic(auto, unfolding(crate::specs::Document::kinds_of))]
fn kinds_in(mut written: List<NeededAs>) -> Result<List<NeededAs>, NoMemory>
    ensures { IfOk result (λ kinds. kinds ≡ kinds_of written) }
{
    if written.len() == 0 {
        written.push(NeededAs {
            kind: DepKind::Normal,
            target: None,
        })?;
    }
    Ok(written)
}

/// What cargo resolved for a package: the features that are enabled, and its dependencies.
#[derive(Drop)]
pub struct MetadataNode {
    pub id: Text,
    pub features: List<Text>,
    pub deps: List<NodeDependency>,
}

impl Element for MetadataNode {
    ghost read_at = { node_at };

    #[tactic(auto, unfolding(crate::specs::Document::node_at))]
    fn from_value(
        alloc: Global,
        path: &str,
        value: &Value<'_>,
    ) -> Result<MetadataNode, MetadataFault> {
        object(alloc, path, value)?;
        let id = required_text(alloc, path, value, MetadataMember::Id)?;
        let features = each_text_given(alloc, path, value, MetadataMember::Features)?;
        let deps = each_given(alloc, path, value, MetadataMember::Deps)?;
        Ok(MetadataNode { id, features, deps })
    }
}
