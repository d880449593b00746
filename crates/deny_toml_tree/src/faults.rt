//! The order of faults, their paths, and the errors that list them.
ghost use Rattle.std.specs.Prelude.{◌≡◌, ◌==◌, ◌∷◌, ◌++◌, [], IfOk, OnOk, Some, refl};
ghost use Rattle.std.specs.Cmp.{nat_cmp_total, on_total, on_per};
ghost use Rattle.std.specs.Cmp.{on_equiv, nat_eq_equiv, partial_equiv_from_equiv};
ghost use Rattle.std.specs.Cmp.{partial_order_from_own_ties, partial_order_from_total, unsigned_ties};
ghost use Rattle.deny_toml_tree.specs.Faults.{kind_number, kind_cmp, in_order};
ghost use Rattle.deny_toml_tree.specs.Faults.{is_of_itself, names_key, path_under, under, Reports};
ghost use Rattle.deny_toml_tree.specs.Faults as spec;
ghost use Rattle.deny_toml_tree.specs.declared.error.ConfigFault.{ConfigFault};

use crate::error::{ConfigFault, DeserError, FaultKind};
use deny_base::Span;
use deny_base_lists::{List, NoMemory, Text, put_in_order};
use std::alloc::Global;
use std::cmp::Ordering;

impl FaultKind {
    /// The index of the kind in the order of declaration.
    #[tactic(auto, unfolding(crate::specs::Faults::kind_number))]
    fn number(self) -> u32
        ensures { result ≡ kind_number self }
    {
        match self {
            FaultKind::NotUtf8 => 0,
            FaultKind::Grammar => 1,
            FaultKind::Clash => 2,
            FaultKind::Unknown => 3,
            FaultKind::Missing => 4,
            FaultKind::WrongKind => 5,
            FaultKind::Unreadable => 6,
            FaultKind::NoToday => 7,
        }
    }

    /// Whether a fault of this kind names a key.
    fn names_key(self) -> bool
        ensures { result ≡ names_key self }
    {
        matches!(self, FaultKind::Unknown | FaultKind::Missing)
    }
}

impl PartialEq for FaultKind {
    ghost eq = { λ a b. kind_number a == kind_number b };

    ghost laws = { on_per kind_number (partial_equiv_from_equiv nat_eq_equiv) };

    fn eq(&self, other: &Self) -> bool {
        self.number() == other.number()
    }
}

impl Eq for FaultKind {
    ghost laws = { on_equiv kind_number nat_eq_equiv };
}

impl PartialOrd for FaultKind {
    ghost partial_cmp = { λ a b. Some (kind_cmp a b) };

    ghost laws = { partial_order_from_own_ties (partial_order_from_total (on_total kind_number nat_cmp_total))
        (λ a b. unsigned_ties (kind_number a) (kind_number b)) };

    fn partial_cmp(&self, other: &Self) -> Option<Ordering> {
        Some(self.cmp(other))
    }
}

impl Ord for FaultKind {
    ghost cmp = { kind_cmp };

    ghost total = { on_total kind_number nat_cmp_total };

    ghost matches_partial_cmp = { λ a b. refl };

    ghost matches_eq = { λ a b. unsigned_ties (kind_number a) (kind_number b) };

    fn cmp(&self, other: &Self) -> Ordering {
        self.number().cmp(&other.number())
    }
}

impl ConfigFault {
    /// Whether it is a fault of the value itself that was read.
    fn is_of_itself(&self) -> bool
        ensures { result ≡ is_of_itself self.now }
    {
        self.key.as_str().is_empty() && !self.kind.names_key() && !self.is_nameless
    }
}

/// Puts faults in ascending order of span, kind and key, each once.
pub fn put_faults_in_order(faults: &mut List<ConfigFault>) -> Result<(), NoMemory>
    ensures { OnOk result (faults.new ≡ in_order faults.old) }
{
    put_in_order(faults)
}

impl DeserError {
    /// The error of a value with one fault.
    #[tactic(auto, using(crate::proofs::FaultLaws::single_ascends))]
    pub fn of(alloc: Global, fault: ConfigFault) -> DeserError
        ensures { Reports (fault ∷ []) result }
    {
        let mut faults = List::new(alloc);
        match faults.push(fault) {
            Ok(()) => DeserError::Faults(faults),
            Err(_) => DeserError::Memory,
        }
    }

    /// The error of a value at `span` that is of another kind than the one that is read.
    pub fn wrong_kind(alloc: Global, span: Span) -> DeserError
        ensures { Reports (spec.wrong_kind span) result }
    {
        DeserError::of(
            alloc,
            ConfigFault::new(FaultKind::WrongKind, Text::new(alloc), span),
        )
    }

    /// The error of a value at `span` that cannot be read.
    pub fn unreadable(alloc: Global, span: Span) -> DeserError
        ensures { Reports (spec.unreadable span) result }
    {
        DeserError::of(
            alloc,
            ConfigFault::new(FaultKind::Unreadable, Text::new(alloc), span),
        )
    }
}

/// The faults of a value as those of the value that has it under `name`.
pub fn put_under(
    alloc: Global,
    name: &str,
    faults: List<ConfigFault>,
) -> Result<List<ConfigFault>, NoMemory>
    ensures { IfOk result (λ all. all ≡ under name.now faults) }
{
    let mut all = List::new(alloc);
    'faults: for fault in faults.vec {
        all.push(fault_under(alloc, name, &fault)?)?;
    }
    Ok(all)
}

fn fault_under(alloc: Global, name: &str, fault: &ConfigFault) -> Result<ConfigFault, NoMemory>
    ensures { IfOk result (λ named. named ≡ spec.fault_under name.now fault.now) }
{
    let key = path_under(alloc, name, fault)?;
    let is_nameless = fault.is_nameless || (fault.is_of_itself() && name.is_empty());
    Ok(ConfigFault {
        span: fault.span,
        kind: fault.kind,
        key,
        is_nameless,
    })
}

fn path_under(alloc: Global, name: &str, fault: &ConfigFault) -> Result<Text, NoMemory>
    ensures { IfOk result (λ path. path ≡ spec.path_under name.now fault.now) }
{
    let mut path = Text::from_str(alloc, name)?;
    if !fault.is_of_itself() {
        path.push_str(".")?;
        path.push_str(fault.key.as_str())?;
    }
    Ok(path)
}

/// Appends further faults to those that are kept.
pub fn keep_faults(kept: &mut List<ConfigFault>, more: List<ConfigFault>) -> Result<(), NoMemory>
    ensures { OnOk result (kept.new ≡ kept.old ++ more) }
{
    'more: for fault in more.vec {
        kept.push(fault)?;
    }
    Ok(())
}
