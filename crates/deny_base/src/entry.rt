ghost use Rattle.std.specs.Prelude.{◌≡◌, ◌==◌, Some, refl};
ghost use Rattle.std.specs.Ordering.{eq_by_cmp};
ghost use Rattle.std.specs.Cmp.{IsTotalOrder, nat_cmp_total, on_total, on_per};
ghost use Rattle.std.specs.Cmp.{on_equiv, nat_eq_equiv, partial_equiv_from_equiv};
ghost use Rattle.std.specs.Cmp.{partial_order_from_own_ties, partial_order_from_total, unsigned_ties};
ghost use Rattle.std.specs.FinMap.{IsAntisymmetric};
ghost use Rattle.std.proofs.lemmas.Cmp.{eq_by_cmp_equiv};
ghost use Rattle.std.specs.Cmp.Rules.{comparing};
ghost use Rattle.deny_base.specs.Entry.{entry_kind_number, entry_kind_cmp, entry_cmp};
ghost use Rattle.deny_base.specs.declared.entry.EntryId.{EntryId};

use crate::span::{Kid, Span};
use deny_base_lists::Text;
use std::cmp::Ordering;

/// The kinds of entry of a policy that allow something, and are unused where there is no hit.
#[derive(Clone, Copy)]
pub enum EntryKind {
    Skip,
    SkipRoot,
    Wrapper,
    Bypass,
    BypassPath,
    BypassGlob,
    ReplacementIgnore,
    LicenseAllow,
    LicenseException,
}

impl EntryKind {
    /// The number of the kind in the order of declaration.
    #[tactic(auto, unfolding(crate::specs::Entry::entry_kind_number))]
    fn number(self) -> u8
        ensures { result ≡ entry_kind_number self }
    {
        self as u8
    }
}

impl PartialEq for EntryKind {
    ghost eq = { λ a b. entry_kind_number a == entry_kind_number b };

    ghost laws = { on_per entry_kind_number (partial_equiv_from_equiv nat_eq_equiv) };

    fn eq(&self, other: &Self) -> bool {
        self.number() == other.number()
    }
}

impl Eq for EntryKind {
    ghost laws = { on_equiv entry_kind_number nat_eq_equiv };
}

impl PartialOrd for EntryKind {
    ghost partial_cmp = { λ a b. Some (entry_kind_cmp a b) };

    ghost laws = { partial_order_from_own_ties (partial_order_from_total (on_total entry_kind_number nat_cmp_total))
        (λ a b. unsigned_ties (entry_kind_number a) (entry_kind_number b)) };

    fn partial_cmp(&self, other: &Self) -> Option<Ordering> {
        Some(self.cmp(other))
    }
}

impl Ord for EntryKind {
    ghost cmp = { entry_kind_cmp };

    ghost total = { on_total entry_kind_number nat_cmp_total };

    ghost matches_partial_cmp = { λ a b. refl };

    ghost matches_eq = { λ a b. unsigned_ties (entry_kind_number a) (entry_kind_number b) };

    fn cmp(&self, other: &Self) -> Ordering {
        self.number().cmp(&other.number())
    }
}

/// An entry of a policy: its kind and its span.
#[derive(Clone, Copy)]
pub struct EntryId {
    pub kind: EntryKind,
    pub range: Span,
}

impl PartialEq for EntryId {
    ghost eq = { eq_by_cmp entry_cmp };

    ghost laws = { partial_equiv_from_equiv (eq_by_cmp_equiv {R = entry_cmp} (Prim.search comparing)) };

    fn eq(&self, other: &Self) -> bool {
        self.cmp(other) == Ordering::Equal
    }
}

impl Eq for EntryId {
    ghost laws = { eq_by_cmp_equiv {R = entry_cmp} (Prim.search comparing) };
}

impl PartialOrd for EntryId {
    ghost partial_cmp = { λ a b. Some (entry_cmp a b) };

    ghost laws = { partial_order_from_total {R = entry_cmp} (Prim.search comparing) };

    fn partial_cmp(&self, other: &Self) -> Option<Ordering> {
        Some(self.cmp(other))
    }
}

impl Ord for EntryId {
    ghost cmp = { entry_cmp };

    ghost total = { Prim.search comparing };

    ghost matches_partial_cmp = { λ a b. refl };

    ghost matches_eq = { λ a b. refl };

    fn cmp(&self, other: &Self) -> Ordering {
        self.range
            .cmp(&other.range)
            .then(self.kind.cmp(&other.kind))
    }
}

/// What a hit rests on: a crate, a crate with a direct parent, or a file of a crate.
#[derive(Clone, Drop)]
pub enum Witness {
    Krate(Kid),
    Parent { krate: Kid, parent: Kid },
    File { krate: Kid, path: Text },
}

/// An entry that was of use, and its witness.
#[derive(Clone, Drop)]
pub struct Hit {
    pub entry: EntryId,
    pub witness: Witness,
}

/// The order of entries is by span and then by kind, it is total, and only equal entries tie.
pub fn entry_order()
    ensures fields { (a b : EntryId) → ⟦<EntryId as Ord>⟧.cmp a b ≡ entry_cmp a b }
    ensures total { IsTotalOrder entry_cmp }
    ensures equal { IsAntisymmetric entry_cmp }
{}
