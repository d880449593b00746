ghost use Rattle.std.specs.Prelude.{◌≡◌, ◌==◌, Some, refl};
ghost use Rattle.std.specs.Cmp.{nat_cmp_total, on_total, on_per, on_equiv, nat_eq_equiv, partial_equiv_from_equiv};
ghost use Rattle.std.specs.Cmp.{partial_order_from_own_ties, partial_order_from_total, unsigned_ties};
ghost use Rattle.deny_base.specs.Purpose.{purpose_number, purpose_cmp};

use std::cmp::Ordering;

/// What a file or a folder of a crate is read for.
#[derive(Clone, Copy)]
pub enum Purpose {
    /// The crate's manifest, all of it.
    Manifest,
    /// The crate's build script, whose sum is compared.
    Script,
    /// What a folder of the crate holds.
    List,
    /// The first bytes of a file, which say whether it is executable.
    Header,
    /// A file whose sum is compared.
    Sum,
}

impl Purpose {
    /// The number of the purpose in the order of declaration.
    #[tactic(auto, unfolding(crate::specs::Purpose::purpose_number))]
    fn number(self) -> u32
        ensures { result ≡ purpose_number self }
    {
        match self {
            Purpose::Manifest => 0,
            Purpose::Script => 1,
            Purpose::List => 2,
            Purpose::Header => 3,
            Purpose::Sum => 4,
        }
    }
}

impl PartialEq for Purpose {
    ghost eq = { λ a b. purpose_number a == purpose_number b };

    ghost laws = { on_per purpose_number (partial_equiv_from_equiv nat_eq_equiv) };

    fn eq(&self, other: &Self) -> bool {
        self.number() == other.number()
    }
}

impl Eq for Purpose {
    ghost laws = { on_equiv purpose_number nat_eq_equiv };
}

impl PartialOrd for Purpose {
    ghost partial_cmp = { λ a b. Some (purpose_cmp a b) };

    ghost laws = { partial_order_from_own_ties (partial_order_from_total (on_total purpose_number nat_cmp_total))
        (λ a b. unsigned_ties (purpose_number a) (purpose_number b)) };

    fn partial_cmp(&self, other: &Self) -> Option<Ordering> {
        Some(self.cmp(other))
    }
}

impl Ord for Purpose {
    ghost cmp = { purpose_cmp };

    ghost total = { on_total purpose_number nat_cmp_total };

    ghost matches_partial_cmp = { λ a b. refl };

    ghost matches_eq = { λ a b. unsigned_ties (purpose_number a) (purpose_number b) };

    fn cmp(&self, other: &Self) -> Ordering {
        self.number().cmp(&other.number())
    }
}
