//! The first value under each key.
ghost use Rattle.std.specs.Prelude.{◌≡◌, [], OnOk};
ghost use Rattle.std.specs.Ordering.{eq_by_cmp};
ghost use Rattle.deny_base_lists.specs.First.{FindsFirst, GainsEntry};
ghost use Rattle.deny_spans_manifest.specs.private.Firsts.{first_at};

use deny_base_lists::NoMemory;
use std::alloc::Global;
use std::collections::BTreeMap;

/// A map that keeps the first value of each key.
#[derive(Drop)]
pub struct Firsts<K: Ord, V> {
    tree: BTreeMap<K, V>,
}

impl<K: Ord + Drop, V: Copy + Drop> Firsts<K, V> {
    /// No values.
    pub fn new(alloc: Global) -> Firsts<K, V>
        ensures { FindsFirst (eq_by_cmp K.cmp) [] (first_at K.cmp result) }
    {
        Firsts {
            tree: BTreeMap::new(alloc),
        }
    }

    /// Puts a value behind the others.
    pub fn add(&mut self, key: K, value: V) -> Result<(), NoMemory>
        ensures { OnOk result (GainsEntry (eq_by_cmp K.cmp) key value (first_at K.cmp self.old)
            (first_at K.cmp self.new)) }
    {
        if !self.tree.contains_key(&key) {
            self.tree.insert(key, value)?;
        }
        Ok(())
    }

    /// The first value of a key.
    pub fn find(&self, key: &K) -> Option<V>
        ensures { result ≡ first_at K.cmp self.now key.now }
    {
        self.tree.get(key).copied()
    }
}
