ghost use Rattle.std.specs.Prelude.{◌≡◌, OnOk, OnErr, is_some};
ghost use Rattle.std.specs.Option.{option_copied};
ghost use Rattle.std.specs.FinMap as finite;

use crate::memory::NoMemory;
use crate::text::Text;
use std::alloc::Global;
use std::collections::BTreeMap;
use std::marker::Model;

/// A map from texts in their byte order, which contracts see as a finite map: equal maps are equal
/// values.
#[derive(Drop)]
pub struct TextMap<V> {
    pub tree: BTreeMap<String, V>,
}

impl<V> Model for TextMap<V> {
    ghost use Rattle.std.specs.FinMap as finite;
    ghost use Rattle.std.specs.Coded.{coded_ℕ, coded_list};
    ghost use Rattle.deny_base_lists.specs.TextMap.{TextFinMap, map_of};

    ghost Value = { TextFinMap V };

    ghost coded = { finite.code (coded_list coded_ℕ) V.code };

    ghost view = { λ m. map_of m.tree.entries };
}

impl<V> TextMap<V> {
    /// The empty map.
    pub fn new(alloc: Global) -> TextMap<V>
        ensures { result ≡ finite.empty }
    {
        TextMap {
            tree: BTreeMap::new(alloc),
        }
    }

    /// The value at `key`.
    pub fn get(&self, key: &str) -> Option<&V>
        ensures { option_copied result ≡ finite.get self.now key.now }
    {
        self.tree.get(key)
    }

    /// Whether there is a value at `key`.
    pub fn contains_key(&self, key: &str) -> bool
        ensures { result ≡ is_some (finite.get self.now key.now) }
    {
        self.get(key).is_some()
    }

    /// Puts `value` at `key`, in place of what was there.
    pub fn insert(&mut self, key: Text, value: V) -> Result<(), NoMemory>
    where
        V: Drop,
        ensures ok { OnOk result (self.new ≡ finite.insert self.old key value) }
        ensures err { OnErr result (self.new ≡ self.old) }
    {
        self.tree.insert(key.string, value)?;
        Ok(())
    }

    /// Removes the value at `key`, and returns it if there was one.
    pub fn remove(&mut self, key: &str) -> Option<V>
        ensures value { result ≡ finite.get self.old key.now }
        ensures after { self.new ≡ finite.remove self.old key.now }
    {
        self.tree.remove(key)
    }
}
