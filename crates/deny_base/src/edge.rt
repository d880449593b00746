ghost use Rattle.std.specs.Prelude.{◌≡◌, ◌==◌, Some, refl};
ghost use Rattle.std.specs.Cmp.{IsTotalOrder, nat_cmp_total, on_total, on_per};
ghost use Rattle.std.specs.Cmp.{on_equiv, nat_eq_equiv, partial_equiv_from_equiv};
ghost use Rattle.std.specs.Cmp.{partial_order_from_own_ties, partial_order_from_total, unsigned_ties};
ghost use Rattle.std.specs.FinMap.{IsAntisymmetric};
ghost use Rattle.deny_base.specs.Edge.{kind_number, kind_cmp, edge_cmp};
ghost use Rattle.deny_base.specs.declared.edge.Edge.{Edge};

use std::cmp::Ordering;

/// The part of a crate that needs a dependency: the crate itself, its tests and examples, or its build script.
#[derive(Clone, Copy)]
pub enum DepKind {
    Normal,
    Dev,
    Build,
}

impl DepKind {
    /// The number of the kind in the order of declaration.
    #[tactic(auto, unfolding(crate::specs::Edge::kind_number))]
    fn number(self) -> u32
        ensures { result ≡ kind_number self }
    {
        match self {
            DepKind::Normal => 0,
            DepKind::Dev => 1,
            DepKind::Build => 2,
        }
    }
}

impl PartialEq for DepKind {
    ghost eq = { λ a b. kind_number a == kind_number b };

    ghost laws = { on_per kind_number (partial_equiv_from_equiv nat_eq_equiv) };

    fn eq(&self, other: &Self) -> bool {
        self.number() == other.number()
    }
}

impl Eq for DepKind {
    ghost laws = { on_equiv kind_number nat_eq_equiv };
}

impl PartialOrd for DepKind {
    ghost partial_cmp = { λ a b. Some (kind_cmp a b) };

    ghost laws = { partial_order_from_own_ties (partial_order_from_total (on_total kind_number nat_cmp_total))
        (λ a b. unsigned_ties (kind_number a) (kind_number b)) };

    fn partial_cmp(&self, other: &Self) -> Option<Ordering> {
        Some(self.cmp(other))
    }
}

impl Ord for DepKind {
    ghost cmp = { kind_cmp };

    ghost total = { on_total kind_number nat_cmp_total };

    ghost matches_partial_cmp = { λ a b. refl };

    ghost matches_eq = { λ a b. unsigned_ties (kind_number a) (kind_number b) };

    fn cmp(&self, other: &Self) -> Ordering {
        self.number().cmp(&other.number())
    }
}

/// A dependency between two crates, named by their places in graph order.
#[derive(Clone, Copy, PartialEq, Eq, PartialOrd, Ord)]
pub struct Edge {
    pub parent: u32,
    pub child: u32,
    pub kind: DepKind,
}

/// The order of edges is by parent, child and kind, it is total, and only equal edges tie.
pub fn edge_order()
    ensures fields { (a b : Edge) → ⟦<Edge as Ord>⟧.cmp a b ≡ edge_cmp a b }
    ensures total { IsTotalOrder edge_cmp }
    ensures equal { IsAntisymmetric edge_cmp }
{}
