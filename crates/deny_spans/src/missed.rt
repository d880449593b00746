//! What was not read of manifests, and what was read and is malformed.
ghost use Rattle.std.specs.Prelude.{◌≡◌, [], OnOk, Contains};
ghost use Rattle.std.specs.Cmp.Lexicographic.{slice_cmp};
ghost use Rattle.std.specs.Ordering.{nat_cmp};
ghost use Rattle.deny_base_lists.specs.Ascending.{Lists};
ghost use Rattle.deny_base.specs.Unread.{unread_cmp};

use deny_base_lists::{List, NoMemory, Text, put_in_order};
use deny_base_unread::{Unread, unread_order};
use std::alloc::Global;

/// What is missing of manifests.
#[derive(Drop)]
pub struct Missed {
    /// What was not read.
    pub unread: List<Unread>,
    /// The paths of those that were read and have no tree.
    pub malformed: List<Text>,
}

impl Missed {
    /// Nothing is missing.
    pub fn none(alloc: Global) -> Missed
        ensures unread { result.unread ≡ [] }
        ensures malformed { result.malformed ≡ [] }
    {
        Missed {
            unread: List::new(alloc),
            malformed: List::new(alloc),
        }
    }

    /// Puts both lists in order, each item once.
    pub fn put_in_order(&mut self) -> Result<(), NoMemory>
        ensures unread { OnOk result (Lists unread_cmp (Contains self.old.unread) self.new.unread) }
        ensures malformed { OnOk result (Lists (slice_cmp nat_cmp) (Contains self.old.malformed) self.new.malformed) }
    {
        unread_order();
        put_in_order(&mut self.unread)?;
        put_in_order(&mut self.malformed)
    }
}
