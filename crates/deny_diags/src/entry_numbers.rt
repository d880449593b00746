//! The numbers of the policy's entries in their lists, by the spans of their names.
ghost use Rattle.std.specs.Prelude.{◌≡◌, ◌==◌, IfOk, IsTrue, None, OnOk, Some, is_some, refl};
ghost use Rattle.std.specs.Cmp.{nat_cmp_total, nat_eq_equiv, on_equiv, on_per, on_total, partial_equiv_from_equiv};
ghost use Rattle.std.specs.Cmp.{partial_order_from_own_ties, partial_order_from_total, unsigned_ties};
ghost use Rattle.deny_base.specs.declared.span.Span.{Span};
ghost use Rattle.deny_diags.specs.declared.entry_numbers.EntryList.{EntryList};
ghost use Rattle.deny_diags.specs.private.EntryNumbers.{AreNumbered, NumbersBefore, NumbersEntries};
ghost use Rattle.deny_diags.specs.private.EntryNumbers.{list_cmp, list_number, number_at, number_or};
ghost use Rattle.deny_diags_parts.specs.BySpan.{first_of};

use deny_base::Span;
use deny_base_lists::NoMemory;
use deny_cfg::bans::cfg::ValidConfig;
use deny_diags_parts::HasSpan;
use deny_rules_match::BanMatch;
use std::alloc::Global;
use std::cmp::Ordering;
use std::collections::BTreeMap;

/// A list of the policy whose entries messages are about.
#[derive(Clone, Copy)]
pub enum EntryList {
    Deny,
    Allow,
    Skip,
    SkipTree,
    Features,
}

impl EntryList {
    /// The number of the list, in the order of declaration.
    #[tactic(auto, unfolding(crate::specs::private::EntryNumbers::list_number))]
    fn number(self) -> u8
        ensures { result ≡ list_number self }
    {
        match self {
            EntryList::Deny => 0,
            EntryList::Allow => 1,
            EntryList::Skip => 2,
            EntryList::SkipTree => 3,
            EntryList::Features => 4,
        }
    }
}

impl PartialEq for EntryList {
    ghost eq = { λ a b. list_number a == list_number b };

    ghost laws = { on_per list_number (partial_equiv_from_equiv nat_eq_equiv) };

    fn eq(&self, other: &Self) -> bool {
        self.number() == other.number()
    }
}

impl Eq for EntryList {
    ghost laws = { on_equiv list_number nat_eq_equiv };
}

impl PartialOrd for EntryList {
    ghost partial_cmp = { λ a b. Some (list_cmp a b) };

    ghost laws = { partial_order_from_own_ties (partial_order_from_total (on_total list_number nat_cmp_total))
        (λ a b. unsigned_ties (list_number a) (list_number b)) };

    fn partial_cmp(&self, other: &Self) -> Option<Ordering> {
        Some(self.cmp(other))
    }
}

impl Ord for EntryList {
    ghost cmp = { list_cmp };

    ghost total = { on_total list_number nat_cmp_total };

    ghost matches_partial_cmp = { λ a b. refl };

    ghost matches_eq = { λ a b. unsigned_ties (list_number a) (list_number b) };

    fn cmp(&self, other: &Self) -> Ordering {
        self.number().cmp(&other.number())
    }
}

/// Where an entry is looked up: its list, and the span of its name.
#[derive(Clone, Copy, PartialEq, Eq, PartialOrd, Ord)]
pub struct EntrySpan {
    pub list: EntryList,
    pub span: Span,
}

/// The numbers of entries in their lists, by the spans of their names: that of the first entry of each span.
#[derive(Drop)]
pub struct EntryNumbers {
    pub numbers: BTreeMap<EntrySpan, usize>,
}

impl EntryNumbers {
    /// Numbers the entries of a policy; its bans are those that were matched for the check.
    pub fn of_policy(
        alloc: Global,
        cfg: &ValidConfig,
        bans: &[BanMatch<'_>],
    ) -> Result<EntryNumbers, NoMemory>
        ensures { IfOk result (NumbersEntries cfg.now bans.now) }
    {
        let mut numbers = EntryNumbers::none(alloc);
        numbers.put_list(EntryList::Deny, bans)?;
        numbers.put_list(EntryList::Allow, cfg.allowed.as_slice())?;
        numbers.put_list(EntryList::Skip, cfg.skipped.as_slice())?;
        numbers.put_list(EntryList::SkipTree, cfg.tree_skipped.as_slice())?;
        numbers.put_list(EntryList::Features, cfg.features.as_slice())?;
        Ok(numbers)
    }

    // No numbers.
    fn none(alloc: Global) -> EntryNumbers
        ensures { (list : EntryList) (span : Span) → number_at result list span ≡ None }
    {
        EntryNumbers {
            numbers: BTreeMap::new(alloc),
        }
    }

    // Puts the numbers of the entries of a list from last to first, so that the first of each span is kept.
    fn put_list<T: HasSpan>(&mut self, list: EntryList, entries: &[T]) -> Result<(), NoMemory>
        ensures { OnOk result (NumbersBefore T.span list 0 entries.now self.old self.new) }
    {
        for number in (0..entries.len()).rev() {
            self.put(list, entries[number].span(), number)?;
        }
        Ok(())
    }

    // Puts a number in the place of the one with its list and span.
    fn put(&mut self, list: EntryList, span: Span, number: usize) -> Result<(), NoMemory>
        ensures { OnOk result ((l : EntryList) (r : Span) → number_at self.new l r
            ≡ number_or list span number l r (number_at self.old l r)) }
    {
        self.numbers.insert(EntrySpan { list, span }, number)?;
        Ok(())
    }

    /// The first entry with this span, of a list whose entries are numbered.
    pub fn first<'e, T: HasSpan>(&self, list: EntryList, entries: &'e [T], span: Span) -> &'e T
        requires numbered { AreNumbered T.span list entries.now self.now }
        requires there { IsTrue (is_some (first_of T.span span entries.now)) }
        ensures { first_of T.span span entries.now ≡ Some result.now }
    {
        match self.number(list, span) {
            Some(number) => &entries[number],
            None => unreachable!(),
        }
    }

    // The number of the first entry with this span.
    fn number(&self, list: EntryList, span: Span) -> Option<usize>
        ensures { result ≡ number_at self.now list span }
    {
        self.numbers.get(&EntrySpan { list, span }).copied()
    }
}
