//! How a node is shown.
ghost use Rattle.std.specs.Prelude.{◌≡◌, ◌<◌, IfOk, None, Option, length};
ghost use Rattle.deny_krates.specs.Nodes.{incoming_at};
ghost use Rattle.deny_spec.specs.DiagParts.{crate_name_at};
ghost use Rattle.deny_krates_trees.specs.Tree.{inner_at, inner_of, shown_kind, version_text_at};
ghost use Rattle.deny_krates_trees.specs.private.Growing.{IsInside};

use crate::node::NodeInner;
use deny_base::DepKind;
use deny_base_lists::{NoMemory, Text};
use deny_krates::{InEdge, Krates};
use std::alloc::Global;

/// How the source of an edge is shown: a crate with the kind of the dependency, or a feature.
pub fn inner_of(alloc: Global, krates: &Krates, edge: InEdge) -> Result<NodeInner, NoMemory>
    requires { IsInside krates.now edge }
    ensures { IfOk result (λ inner. inner ≡ inner_of krates.now (incoming_at krates.now edge)) }
{
    let place = krates.node_place(edge.node);
    match krates.node_feature(edge.node) {
        Some(feature) => Ok(NodeInner::Feature {
            crate_name: name_of(krates, place)?,
            name: Text::from_str(alloc, feature)?,
        }),
        None => krate_inner(alloc, krates, place, edge.kind),
    }
}

/// How a crate with a dependency of this kind is shown.
pub fn krate_inner(
    alloc: Global,
    krates: &Krates,
    place: u32,
    kind: Option<DepKind>,
) -> Result<NodeInner, NoMemory>
    requires { place < length krates.now.crates }
    ensures { IfOk result (λ inner. inner ≡ inner_at krates.now place None kind) }
{
    Ok(NodeInner::Krate {
        name: name_of(krates, place)?,
        version: version_of(alloc, krates, place)?,
        kind: shown_kind(kind),
    })
}

fn name_of(krates: &Krates, place: u32) -> Result<Text, NoMemory>
    requires { place < length krates.now.crates }
    ensures { IfOk result (λ name. name ≡ crate_name_at krates.now place) }
{
    Ok(krates.krates()[place as usize].name.clone()?)
}

fn version_of(alloc: Global, krates: &Krates, place: u32) -> Result<Text, NoMemory>
    requires { place < length krates.now.crates }
    ensures { IfOk result (λ version. version ≡ version_text_at krates.now place) }
{
    let krate = &krates.krates()[place as usize];
    krate.version_text(alloc)
}

// The kind that is shown: a normal one is not.
fn shown_kind(kind: Option<DepKind>) -> Option<DepKind>
    ensures { result ≡ shown_kind kind }
{
    match kind {
        None | Some(DepKind::Normal) => None,
        Some(DepKind::Dev) => Some(DepKind::Dev),
        Some(DepKind::Build) => Some(DepKind::Build),
    }
}
