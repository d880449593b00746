//! Clashes between entries of a policy, and faults of its table `build`.
ghost use Rattle.std.specs.Prelude.{◌≡◌, ◌==◌, Some, refl};
ghost use Rattle.std.specs.Cmp.{nat_cmp_total, on_total, on_per, on_equiv, nat_eq_equiv, partial_equiv_from_equiv};
ghost use Rattle.std.specs.Cmp.{partial_order_from_own_ties, partial_order_from_total, unsigned_ties};
ghost use Rattle.std.specs.FinMap.{IsAntisymmetric};
ghost use Rattle.deny_cfg.specs.Clashes.{build_clash, clash_cmp, kind_cmp, kind_number, two_spans};
ghost use Rattle.deny_cfg.specs.declared.clash.Clash.{Clash};

use deny_base::Span;
use deny_cfg_build::BuildFault;
use std::cmp::Ordering;

/// The span of a label that is not there.
const NO_SPAN: Span = Span { start: 0, end: 0 };

/// The kind of a clash or fault.
#[derive(Clone, Copy)]
pub enum ClashKind {
    /// An entry of `deny` has wrappers, and denies only several versions.
    WrappersOfMultiple,
    /// A ban and an entry of `allow` have equal specs.
    DenyAndAllow,
    /// A ban and an entry of `skip` have equal specs.
    DenyAndSkip,
    /// An entry of `allow` and an entry of `skip` have equal specs.
    AllowAndSkip,
    /// An entry of `features` allows and denies a feature.
    FeatureTwice,
    /// An extension of `script-extensions` has a character that is neither an ASCII letter nor a digit.
    Extension,
    /// An entry of `allow-globs` is no glob.
    Glob,
    /// An entry of `allow` in `bypass` has an absolute path.
    Path,
}

impl ClashKind {
    /// The number of the kind in the order of declaration.
    #[tactic(auto, unfolding(crate::specs::Clashes::kind_number))]
    fn number(self) -> u32
        ensures { result ≡ kind_number self }
    {
        match self {
            ClashKind::WrappersOfMultiple => 0,
            ClashKind::DenyAndAllow => 1,
            ClashKind::DenyAndSkip => 2,
            ClashKind::AllowAndSkip => 3,
            ClashKind::FeatureTwice => 4,
            ClashKind::Extension => 5,
            ClashKind::Glob => 6,
            ClashKind::Path => 7,
        }
    }
}

impl PartialEq for ClashKind {
    ghost eq = { λ a b. kind_number a == kind_number b };

    ghost laws = { on_per kind_number (partial_equiv_from_equiv nat_eq_equiv) };

    fn eq(&self, other: &Self) -> bool {
        self.number() == other.number()
    }
}

impl Eq for ClashKind {
    ghost laws = { on_equiv kind_number nat_eq_equiv };
}

impl PartialOrd for ClashKind {
    ghost partial_cmp = { λ a b. Some (kind_cmp a b) };

    ghost laws = { partial_order_from_own_ties (partial_order_from_total (on_total kind_number nat_cmp_total))
        (λ a b. unsigned_ties (kind_number a) (kind_number b)) };

    fn partial_cmp(&self, other: &Self) -> Option<Ordering> {
        Some(self.cmp(other))
    }
}

impl Ord for ClashKind {
    ghost cmp = { kind_cmp };

    ghost total = { on_total kind_number nat_cmp_total };

    ghost matches_partial_cmp = { λ a b. refl };

    ghost matches_eq = { λ a b. unsigned_ties (kind_number a) (kind_number b) };

    fn cmp(&self, other: &Self) -> Ordering {
        self.number().cmp(&other.number())
    }
}

/// A clash between two places of a policy, or a fault at one place. Clashes are ordered by kind, and then by the spans
/// of their labels.
#[derive(Clone, Copy, PartialEq, Eq, PartialOrd, Ord)]
pub struct Clash {
    pub kind: ClashKind,
    /// The span of the first label.
    pub first: Span,
    /// The span of the second label; 0..0 where there is none.
    pub second: Span,
    /// The span of the third label of a `FeatureTwice`, else 0..0.
    pub third: Span,
    /// The number of wrappers of a `WrappersOfMultiple`; the byte offset of the fault of a `Glob`; else 0.
    pub number: u64,
    /// Whether all characters of an `Extension` are ASCII, so that its second label is at a character; else false.
    pub ascii: bool,
}

impl Clash {
    /// A clash between two spans.
    pub fn of(kind: ClashKind, first: Span, second: Span) -> Clash
        ensures { result ≡ two_spans kind first second }
    {
        Clash {
            kind,
            first,
            second,
            third: NO_SPAN,
            number: 0,
            ascii: false,
        }
    }

    /// The clash for a fault of a table `build`.
    pub fn of_build(fault: BuildFault) -> Clash
        ensures { result ≡ build_clash fault }
    {
        match fault {
            BuildFault::NonAscii(span) => Clash::of(ClashKind::Extension, span, NO_SPAN),
            BuildFault::NoLetter(span, byte) => Clash {
                ascii: true,
                ..Clash::of(ClashKind::Extension, span, byte)
            },
            BuildFault::Glob(span, byte) => Clash {
                number: byte,
                ..Clash::of(ClashKind::Glob, span, NO_SPAN)
            },
            BuildFault::Absolute(span) => Clash::of(ClashKind::Path, span, NO_SPAN),
        }
    }
}

/// Clashes are ordered by their kinds and spans, and only equal clashes tie.
pub fn clash_order()
    ensures fields { (a b : Clash) → ⟦<Clash as Ord>⟧.cmp a b ≡ clash_cmp a b }
    ensures equal { IsAntisymmetric clash_cmp }
{}
