//! The entries of a policy that grant licences.
ghost use Rattle.std.proofs.lemmas.Cmp.{eq_by_cmp_equiv};
ghost use Rattle.std.specs.Cmp.{partial_equiv_from_equiv, partial_order_from_total};
ghost use Rattle.std.specs.Cmp.Rules.{comparing};
ghost use Rattle.std.specs.FinMap.{IsAntisymmetric};
ghost use Rattle.std.specs.Ordering.{eq_by_cmp};
ghost use Rattle.std.specs.Prelude.{◌≡◌, Some, refl};
ghost use Rattle.deny_gate_licenses.specs.private.Granters.{granter_cmp, granter_kind, granter_number, granter_span};
ghost use Rattle.deny_gate_licenses.specs.private.Granters.{unused_code};

use deny_base::{EntryKind, LicenseCode, Span};
use std::cmp::Ordering;

/// An entry of a policy that grants licences, by its span.
#[derive(Clone, Copy)]
pub enum Granter {
    /// A licence that is allowed for every crate.
    Allowance(Span),
    /// Licences that are allowed for the crates of a spec; the span is that of the spec's name.
    Exception(Span),
}

impl Granter {
    fn number(self) -> u8
        ensures { result ≡ granter_number self }
    {
        match self {
            Granter::Allowance(_) => 0,
            Granter::Exception(_) => 1,
        }
    }

    /// The span of the entry in the text of the policy.
    pub fn span(self) -> Span
        ensures { result ≡ granter_span self }
    {
        match self {
            Granter::Allowance(span) | Granter::Exception(span) => span,
        }
    }

    /// The kind of the entry.
    pub fn kind(self) -> EntryKind
        ensures { result ≡ granter_kind self }
    {
        match self {
            Granter::Allowance(_) => EntryKind::LicenseAllow,
            Granter::Exception(_) => EntryKind::LicenseException,
        }
    }

    /// The code that reports the entry as unused.
    pub fn unused_code(self) -> LicenseCode
        ensures { result ≡ unused_code self }
    {
        match self {
            Granter::Allowance(_) => LicenseCode::LicenseNotEncountered,
            Granter::Exception(_) => LicenseCode::LicenseExceptionNotEncountered,
        }
    }
}

impl PartialEq for Granter {
    ghost eq = { eq_by_cmp granter_cmp };

    ghost laws = { partial_equiv_from_equiv (eq_by_cmp_equiv {R = granter_cmp} (Prim.search comparing)) };

    fn eq(&self, other: &Self) -> bool {
        self.cmp(other) == Ordering::Equal
    }
}

impl Eq for Granter {
    ghost laws = { eq_by_cmp_equiv {R = granter_cmp} (Prim.search comparing) };
}

impl PartialOrd for Granter {
    ghost partial_cmp = { λ a b. Some (granter_cmp a b) };

    ghost laws = { partial_order_from_total {R = granter_cmp} (Prim.search comparing) };

    fn partial_cmp(&self, other: &Self) -> Option<Ordering> {
        Some(self.cmp(other))
    }
}

impl Ord for Granter {
    ghost cmp = { granter_cmp };

    ghost total = { Prim.search comparing };

    ghost matches_partial_cmp = { λ a b. refl };

    ghost matches_eq = { λ a b. refl };

    fn cmp(&self, other: &Self) -> Ordering {
        self.number()
            .cmp(&other.number())
            .then(self.span().cmp(&other.span()))
    }
}

/// Only equal granters compare as equal.
pub fn granters_differ()
    ensures { IsAntisymmetric ⟦<Granter as Ord>⟧.cmp }
{}
