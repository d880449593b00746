//! Licences and the entries that grant them; the first entry that lists a licence counts.
ghost use Rattle.std.specs.Prelude.{◌≡◌, ◌++◌, [], IfOk, List, OnOk, is_some, map};
ghost use Rattle.deny_base_lists.specs.First.{FindsFirst, GainsEntry};
ghost use Rattle.deny_gate_licenses.specs.declared.granter.Granter.{Granter};
ghost use Rattle.deny_gate_licenses.specs.declared.grants.WantedLicence.{WantedLicence};
ghost use Rattle.deny_gate_licenses.specs.private.Grants.{allowance_grant, grant_by, granter_in, same_wanted};
ghost use Rattle.deny_gate_licenses.specs.private.Grants.{wanted_of};

use crate::granter::Granter;
use deny_base::Spanned;
use deny_base_lists::{NoMemory, Text};
use deny_spdx::Requirement;
use std::alloc::Global;
use std::collections::BTreeMap;

/// A licence that a requirement names, with its exception.
#[derive(PartialEq, Eq, PartialOrd, Ord, Drop)]
pub struct WantedLicence {
    pub id: Text,
    pub exception: Option<Text>,
}

impl WantedLicence {
    /// The licence that a requirement names.
    pub fn of(requirement: &Requirement) -> Result<WantedLicence, NoMemory>
        ensures { IfOk result (λ wanted. wanted ≡ wanted_of requirement.now) }
    {
        Ok(WantedLicence {
            id: requirement.id.clone()?,
            exception: requirement.exception.clone()?,
        })
    }
}

/// Licences, each with the entry that grants it.
#[derive(Drop)]
pub struct Grants {
    granters: BTreeMap<WantedLicence, Granter>,
}

impl Grants {
    /// Starts with no licence granted.
    pub fn new(alloc: Global) -> Grants
        ensures { FindsFirst same_wanted [] (granter_in result) }
    {
        Grants {
            granters: BTreeMap::new(alloc),
        }
    }

    fn has(&self, wanted: &WantedLicence) -> bool
        ensures { result ≡ is_some (granter_in self.now wanted.now) }
    {
        self.granters.contains_key(wanted)
    }

    /// The entry that grants a licence.
    pub fn find(&self, wanted: &WantedLicence) -> Option<Granter>
        ensures { result ≡ granter_in self.now wanted.now }
    {
        self.granters.get(wanted).copied()
    }

    /// Adds a licence with the entry that grants it, if no earlier one does.
    fn add(&mut self, wanted: WantedLicence, by: Granter) -> Result<(), NoMemory>
        ensures { OnOk result (GainsEntry same_wanted wanted by (granter_in self.old) (granter_in self.new)) }
    {
        if self.has(&wanted) {
            return Ok(());
        }
        self.granters.insert(wanted, by)?;
        Ok(())
    }

    /// Adds the licences that one entry grants.
    pub fn add_each(
        &mut self,
        licences: &[Spanned<Requirement>],
        by: Granter,
    ) -> Result<(), NoMemory>
        ensures { OnOk result ((entries : List (WantedLicence × Granter))
            → FindsFirst same_wanted entries (granter_in self.old)
            → FindsFirst same_wanted (entries ++ map (grant_by by) licences.now) (granter_in self.new)) }
    {
        for licence in licences {
            self.add(WantedLicence::of(&licence.value)?, by)?;
        }
        Ok(())
    }

    /// The allowed licences, each granted by its own entry.
    pub fn of_allowances(
        alloc: Global,
        licences: &[Spanned<Requirement>],
    ) -> Result<Grants, NoMemory>
        ensures { IfOk result (λ grants. FindsFirst same_wanted (map allowance_grant licences.now)
            (granter_in grants)) }
    {
        let mut grants = Grants::new(alloc);
        for licence in licences {
            grants.add(
                WantedLicence::of(&licence.value)?,
                Granter::Allowance(licence.span),
            )?;
        }
        Ok(grants)
    }
}
