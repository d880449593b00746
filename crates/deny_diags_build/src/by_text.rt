//! Files and folders by their shown paths, and globs by their texts.
ghost use Rattle.std.specs.Prelude.{◌≡◌, ℕ, List, [], IfOk, OnOk, option_map, if◌then◌else◌};
ghost use Rattle.deny_diags_build.specs.ByText.{IsByText, found_at};
ghost use Rattle.deny_diags_build.specs.private.ByText.{PutsBefore};
ghost use Rattle.deny_spec.specs.Text.{same_text};

use deny_base_lists::{NoMemory, Text};
use deny_spec::{PackageFile, Seen};
use std::alloc::Global;
use std::collections::BTreeMap;

/// An item that is found by a text.
pub trait Shown {
    ghost use Rattle.std.specs.Prelude.{◌≡◌, ℕ, List};

    ghost shown: { Self → List ℕ };

    fn shown(&self) -> &str
        ensures { result.now ≡ shown self.now };
}

impl Shown for PackageFile {
    ghost shown = { λ file. file.seen.shown };

    fn shown(&self) -> &str {
        self.seen.shown.as_str()
    }
}

impl Shown for Seen {
    ghost shown = { λ seen. seen.shown };

    fn shown(&self) -> &str {
        self.shown.as_str()
    }
}

impl Shown for Text {
    ghost shown = { λ text. text };

    fn shown(&self) -> &str {
        self.as_str()
    }
}

/// Finds items by their texts: the first of each text.
#[derive(Drop)]
pub struct ByText<'c, T> {
    pub tree: BTreeMap<&'c str, &'c T>,
}

impl<'c, T: Shown> ByText<'c, T> {
    /// Finds the items of a list.
    pub fn new(alloc: Global, items: &'c [T]) -> Result<ByText<'c, T>, NoMemory>
        ensures { IfOk result (IsByText T.shown items.now) }
    {
        let mut found = ByText::of_none(alloc);
        found.put_before(items)?;
        Ok(found)
    }

    /// Finds no items.
    pub fn of_none(alloc: Global) -> ByText<'c, T>
        ensures { IsByText T.shown [] result }
    {
        ByText {
            tree: BTreeMap::new(alloc),
        }
    }

    // Puts items before those that are found.
    fn put_before(&mut self, items: &'c [T]) -> Result<(), NoMemory>
        ensures { OnOk result (PutsBefore T.shown items.now self.old self.new) }
    {
        for number in (0..items.len()).rev() {
            self.put(&items[number])?;
        }
        Ok(())
    }

    // Puts an item in the place of the one with its text.
    fn put(&mut self, item: &'c T) -> Result<(), NoMemory>
        ensures { OnOk result ((text : List ℕ) → found_at self.new text ≡
            (if same_text (T.shown item.entry.now) text then Some item.entry.now else found_at self.old text)) }
    {
        self.tree.insert(item.shown(), item)?;
        Ok(())
    }

    /// The item with this text.
    pub fn at(&self, text: &str) -> Option<&'c T>
        ensures { option_map (λ item. item.now) result ≡ found_at self.now text.now }
    {
        self.tree.get(text).copied()
    }
}
