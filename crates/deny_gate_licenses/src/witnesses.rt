//! The first crate to which each entry grants a licence.
ghost use Rattle.std.specs.Prelude.{◌≡◌, ◌++◌, ℕ, [], List, OnOk};
ghost use Rattle.deny_base_lists.specs.First.{FindsFirst, GainsEntry};
ghost use Rattle.deny_gate_licenses.specs.declared.granter.Granter.{Granter};
ghost use Rattle.deny_gate_licenses.specs.private.Witnesses.{place_in, same_granter, witnessed};

use crate::granter::Granter;
use deny_base_lists::NoMemory;
use std::alloc::Global;
use std::collections::BTreeMap;

/// The place of the first crate to which each entry grants a licence.
#[derive(Drop)]
pub struct Witnesses {
    places: BTreeMap<Granter, u32>,
}

impl Witnesses {
    /// Starts without a witness.
    pub fn new(alloc: Global) -> Witnesses
        ensures { FindsFirst same_granter [] (place_in result) }
    {
        Witnesses {
            places: BTreeMap::new(alloc),
        }
    }

    /// The first crate to which an entry grants a licence.
    pub fn find(&self, by: Granter) -> Option<u32>
        ensures { result ≡ place_in self.now by }
    {
        self.places.get(&by).copied()
    }

    /// Adds a crate to which an entry grants a licence.
    fn add(&mut self, by: Granter, place: u32) -> Result<(), NoMemory>
        ensures { OnOk result (GainsEntry same_granter by place (place_in self.old) (place_in self.new)) }
    {
        if !self.places.contains_key(&by) {
            self.places.insert(by, place)?;
        }
        Ok(())
    }

    /// Adds a crate to which these entries grant a licence.
    pub fn add_each(&mut self, granters: &[Granter], place: u32) -> Result<(), NoMemory>
        ensures { OnOk result ((entries : List (Granter × ℕ))
            → FindsFirst same_granter entries (place_in self.old)
            → FindsFirst same_granter (entries ++ witnessed granters.now place) (place_in self.new)) }
    {
        for by in granters {
            self.add(*by, place)?;
        }
        Ok(())
    }
}
