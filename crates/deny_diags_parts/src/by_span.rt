//! Entries of the policy and of the workspace, and texts in them, by their spans.
ghost use Rattle.std.specs.Prelude.{◌≡◌, [], IfOk, OnOk, option_map, if◌then◌else◌};
ghost use Rattle.deny_base.specs.declared.span.Span.{Span};
ghost use Rattle.deny_spec.specs.Wrappers.{same_span};
ghost use Rattle.deny_diags_parts.specs.BySpan.{IsBySpan, PutsBefore, found_at};

use deny_base::{Span, Spanned};
use deny_base_lists::NoMemory;
use deny_cfg::PackageSpecOrExtended;
use deny_cfg::bans::cfg::ValidKrateFeatures;
use deny_rules_match::BanMatch;
use deny_spans::UnusedWorkspaceDep;
use std::alloc::Global;
use std::collections::BTreeMap;

/// An item of the policy's text or the workspace's that is found by its span: an entry by that of its name or
/// key, a text by its own.
pub trait HasSpan {
    ghost use Rattle.std.specs.Prelude.{◌≡◌};
    ghost use Rattle.deny_base.specs.declared.span.Span.{Span};

    ghost span: { Self → Span };

    /// The span by which the item is found.
    fn span(&self) -> Span
        ensures { result ≡ span self.now };
}

impl<T> HasSpan for PackageSpecOrExtended<T> {
    ghost span = { λ e. e.spec.name.span };

    fn span(&self) -> Span {
        self.spec.name.span
    }
}

impl<'c> HasSpan for BanMatch<'c> {
    ghost span = { λ m. m.ban.now.spec.name.span };

    fn span(&self) -> Span {
        self.ban.spec.name.span
    }
}

impl HasSpan for ValidKrateFeatures {
    ghost span = { λ e. e.spec.name.span };

    fn span(&self) -> Span {
        self.spec.name.span
    }
}

impl<T> HasSpan for Spanned<T> {
    ghost span = { λ w. w.span };

    fn span(&self) -> Span {
        self.span
    }
}

impl HasSpan for UnusedWorkspaceDep {
    ghost span = { λ e. e.key };

    fn span(&self) -> Span {
        self.key
    }
}

/// Finds items by their spans: the first of each span.
#[derive(Drop)]
pub struct BySpan<'c, T> {
    pub tree: BTreeMap<Span, &'c T>,
}

impl<'c, T: HasSpan> BySpan<'c, T> {
    /// Finds the items of a list.
    pub fn new(alloc: Global, items: &'c [T]) -> Result<BySpan<'c, T>, NoMemory>
        ensures { IfOk result (IsBySpan T.span items.now) }
    {
        let mut found = BySpan::of_none(alloc);
        found.put_before(items)?;
        Ok(found)
    }

    /// Finds no items.
    pub fn of_none(alloc: Global) -> BySpan<'c, T>
        ensures { IsBySpan T.span [] result }
    {
        BySpan {
            tree: BTreeMap::new(alloc),
        }
    }

    /// Puts items before those that are found.
    pub fn put_before(&mut self, items: &'c [T]) -> Result<(), NoMemory>
        ensures { OnOk result (PutsBefore T.span items.now self.old self.new) }
    {
        for number in (0..items.len()).rev() {
            self.put(&items[number])?;
        }
        Ok(())
    }

    /// Puts an item in the place of the one with its span.
    pub fn put(&mut self, item: &'c T) -> Result<(), NoMemory>
        ensures { OnOk result ((span : Span) → found_at self.new span ≡
            (if same_span (T.span item.entry.now) span then Some item.entry.now else found_at self.old span)) }
    {
        self.tree.insert(item.span(), item)?;
        Ok(())
    }

    /// The item with this span.
    pub fn at(&self, span: Span) -> Option<&'c T>
        ensures { option_map (λ e. e.now) result ≡ found_at self.now span }
    {
        self.tree.get(&span).copied()
    }
}
