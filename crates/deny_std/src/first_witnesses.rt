//! The first crate that hits each ignore.
ghost use Rattle.std.specs.Prelude.{◌≡◌, OnOk};
ghost use Rattle.deny_base_lists.specs.First.{FindsFirst, GainsEntry};
ghost use Rattle.std.specs.Prelude.{[]};
ghost use Rattle.deny_std.specs.private.FirstWitnesses.{place_in, is_same_span};

use deny_base::Span;
use deny_base_lists::NoMemory;
use std::alloc::Global;
use std::collections::BTreeMap;

/// The place of the first crate that hits an ignore, by the span of the ignore.
#[derive(Drop)]
pub struct FirstWitnesses {
    places: BTreeMap<Span, u32>,
}

impl FirstWitnesses {
    /// Starts without a witness.
    pub fn new(alloc: Global) -> FirstWitnesses
        ensures { FindsFirst is_same_span [] (place_in result) }
    {
        FirstWitnesses {
            places: BTreeMap::new(alloc),
        }
    }

    /// Adds a crate that hits the ignore of a span.
    pub fn add(&mut self, span: Span, place: u32) -> Result<(), NoMemory>
        ensures { OnOk result (GainsEntry is_same_span span place (place_in self.old)
            (place_in self.new)) }
    {
        if !self.places.contains_key(&span) {
            self.places.insert(span, place)?;
        }
        Ok(())
    }

    /// The first crate that hits the ignore of a span.
    pub fn find(&self, span: Span) -> Option<u32>
        ensures { result ≡ place_in self.now span }
    {
        self.places.get(&span).copied()
    }
}
