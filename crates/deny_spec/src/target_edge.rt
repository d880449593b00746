ghost use Rattle.std.specs.Prelude.{◌≡◌};
ghost use Rattle.std.specs.Cmp.{IsTotalOrder};
ghost use Rattle.std.specs.FinMap.{IsAntisymmetric};
ghost use Rattle.deny_spec.specs.TargetEdge.{target_edge_cmp};
ghost use Rattle.deny_spec.specs.declared.target_edge.TargetEdge.{TargetEdge};

use deny_base::DepKind;
use deny_base_lists::Text;

/// A dependency between two crates as cargo resolved it: the crates by their places in graph order, its kind, and the
/// target that it is for; none for all targets.
#[derive(PartialEq, Eq, PartialOrd, Ord, Drop)]
pub struct TargetEdge {
    pub parent: u32,
    pub child: u32,
    pub kind: DepKind,
    pub target: Option<Text>,
}

/// The order of target edges is by parent, child, kind and target (none first), it is total, and
/// only equal ones tie.
pub fn target_edge_order()
    ensures fields { (a b : TargetEdge) → ⟦<TargetEdge as Ord>⟧.cmp a b ≡ target_edge_cmp a b }
    ensures total { IsTotalOrder target_edge_cmp }
    ensures equal { IsAntisymmetric target_edge_cmp }
{}
