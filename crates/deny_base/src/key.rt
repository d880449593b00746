ghost use Rattle.std.specs.Prelude.{◌≡◌, ◌==◌, Some, refl};
ghost use Rattle.std.specs.Cmp.{IsTotalOrder, nat_cmp_total, on_total, on_per};
ghost use Rattle.std.specs.Cmp.{on_equiv, nat_eq_equiv, partial_equiv_from_equiv};
ghost use Rattle.std.specs.Cmp.{partial_order_from_own_ties, partial_order_from_total, unsigned_ties};
ghost use Rattle.std.specs.FinMap.{IsAntisymmetric};
ghost use Rattle.deny_base.specs.Code.{section_number, section_cmp};
ghost use Rattle.deny_base.specs.KeyOrder.{key_cmp};
ghost use Rattle.deny_base.specs.declared.key.Key.{Key};

use crate::code::DiagnosticCode;
use crate::span::Span;
use deny_base_lists::{List, Text};
use std::cmp::Ordering;

/// The part of a report that a finding stands in; reports show sections in this order.
#[derive(Clone, Copy)]
pub enum Section {
    Deprecated,
    Crates,
    Groups,
    Workspace,
    Unused,
    Std,
    Licenses,
    LicensesUnused,
}

impl Section {
    /// The number of the section in the order of declaration.
    #[tactic(auto, unfolding(crate::specs::Code::section_number))]
    fn number(self) -> u32
        ensures { result ≡ section_number self }
    {
        match self {
            Section::Deprecated => 0,
            Section::Crates => 1,
            Section::Groups => 2,
            Section::Workspace => 3,
            Section::Unused => 4,
            Section::Std => 5,
            Section::Licenses => 6,
            Section::LicensesUnused => 7,
        }
    }
}

impl PartialEq for Section {
    ghost eq = { λ a b. section_number a == section_number b };

    ghost laws = { on_per section_number (partial_equiv_from_equiv nat_eq_equiv) };

    fn eq(&self, other: &Self) -> bool {
        self.number() == other.number()
    }
}

impl Eq for Section {
    ghost laws = { on_equiv section_number nat_eq_equiv };
}

impl PartialOrd for Section {
    ghost partial_cmp = { λ a b. Some (section_cmp a b) };

    ghost laws = { partial_order_from_own_ties (partial_order_from_total (on_total section_number nat_cmp_total))
        (λ a b. unsigned_ties (section_number a) (section_number b)) };

    fn partial_cmp(&self, other: &Self) -> Option<Ordering> {
        Some(self.cmp(other))
    }
}

impl Ord for Section {
    ghost cmp = { section_cmp };

    ghost total = { on_total section_number nat_cmp_total };

    ghost matches_partial_cmp = { λ a b. refl };

    ghost matches_eq = { λ a b. unsigned_ties (section_number a) (section_number b) };

    fn cmp(&self, other: &Self) -> Ordering {
        self.number().cmp(&other.number())
    }
}

/// The identity of a finding in a report: no report holds a key twice, and
/// findings ascend by their keys, compared field by field. Fields that a code does not use are 0
/// or empty.
#[derive(Clone, PartialEq, Eq, PartialOrd, Ord, Drop)]
pub struct Key {
    pub section: Section,
    /// The place of a crate in graph order, from 0.
    pub place: u32,
    pub code: DiagnosticCode,
    /// The span of the policy's entry.
    pub entry: Span,
    pub text: Text,
    /// The place of another crate.
    pub other: u32,
    /// The places of several crates.
    pub places: List<u32>,
}

/// The order of keys is by their fields in order, it is total, and only equal keys tie.
pub fn key_order()
    ensures fields { (a b : Key) → ⟦<Key as Ord>⟧.cmp a b ≡ key_cmp a b }
    ensures total { IsTotalOrder key_cmp }
    ensures equal { IsAntisymmetric key_cmp }
{}
