//! What a policy grants: allowed licences, and exceptions, which are found by the names in their
//! specs.
ghost use Rattle.std.specs.Prelude.{◌≡◌, ◌++◌, IfOk, List, OnOk, map, option_map};
ghost use Rattle.std.specs.List.{flat_map};
ghost use Rattle.std.specs.Option.{option_or};
ghost use Rattle.deny_spdx.specs.declared.requirement.Requirement.{Requirement};
ghost use Rattle.deny_base_lists.specs.First.{FindsFirst};
ghost use Rattle.deny_krates.specs.Crates.{crate_view};
ghost use Rattle.deny_spec_report.specs.Licences.{asked_of, exception_of};
ghost use Rattle.deny_cfg.specs.LicensingView.{licensing_view};
ghost use Rattle.deny_gate_licenses.specs.declared.granter.Granter.{Granter};
ghost use Rattle.deny_gate_licenses.specs.declared.grants.WantedLicence.{WantedLicence};
ghost use Rattle.deny_gate_licenses.specs.private.Granters.{exception_granter};
ghost use Rattle.deny_gate_licenses.specs.private.Granting.{exception_name, grants_at, grants_to};
ghost use Rattle.deny_gate_licenses.specs.private.Grants.{allowance_grant, granter_in, same_wanted, wanted_of};

use crate::granter::Granter;
use crate::grants::{Grants, WantedLicence};
use deny_base_lists::NoMemory;
use deny_cfg::licenses::{Exception, ValidConfig};
use deny_cfg::{SpecIndex, match_krate};
use deny_krates::Krate;
use deny_spdx::Requirement;
use std::alloc::Global;

/// A configuration, with an index of its allowed licences and of the names in the specs of its
/// exceptions.
#[derive(Drop)]
pub struct Granting<'c> {
    pub cfg: &'c ValidConfig,
    allowed: Grants,
    names: SpecIndex,
    ghost found: { FindsFirst same_wanted (map allowance_grant cfg.now.allow) (granter_in allowed) },
    ghost named: { names ≡ map exception_name cfg.now.exceptions },
}

impl<'c> Granting<'c> {
    /// Indexes the allowed licences of a configuration and the names of its exceptions.
    pub fn new(alloc: Global, cfg: &'c ValidConfig) -> Result<Granting<'c>, NoMemory>
        ensures { IfOk result (λ granting. granting.cfg.now ≡ cfg.entry.now) }
    {
        let allowed = Grants::of_allowances(alloc, cfg.allow.as_slice())?;
        let names = names_of(alloc, cfg.exceptions.as_slice())?;
        Ok(Granting {
            cfg,
            allowed,
            names,
        })
    }

    /// The licences that the exceptions matching a crate grant.
    pub fn excepted(&self, alloc: Global, krate: &Krate) -> Result<Grants, NoMemory>
        ensures { IfOk result (λ grants. (r : Requirement) → granter_in grants (wanted_of r)
            ≡ option_map exception_granter (exception_of (licensing_view self.now.cfg.now)
            (asked_of (crate_view 0 krate.now) r))) }
    {
        let mut numbers = Vec::new(alloc);
        self.names.numbers_of(krate.name.as_str(), &mut numbers)?;
        excepted_at(
            alloc,
            self.cfg.exceptions.as_slice(),
            numbers.as_slice(),
            krate,
        )
    }

    /// The entry that grants a requirement: an exception, or else an allowance.
    pub fn granter_of(
        &self,
        excepted: &Grants,
        requirement: &Requirement,
    ) -> Result<Option<Granter>, NoMemory>
        ensures { IfOk result (λ by. by ≡ option_or (granter_in excepted.now (wanted_of requirement.now))
            (granter_in self.now.allowed (wanted_of requirement.now))) }
    {
        let wanted = WantedLicence::of(requirement)?;
        Ok(excepted.find(&wanted).or(self.allowed.find(&wanted)))
    }
}

fn names_of(alloc: Global, exceptions: &[Exception]) -> Result<SpecIndex, NoMemory>
    ensures { IfOk result (λ names. names ≡ map exception_name exceptions.now) }
{
    let mut names = SpecIndex::new(alloc);
    for exception in exceptions {
        names.add(exception.spec.name.value.as_str())?;
    }
    Ok(names)
}

/// The licences that those of the exceptions at these indices grant that match a crate.
fn excepted_at(
    alloc: Global,
    exceptions: &[Exception],
    numbers: &[usize],
    krate: &Krate,
) -> Result<Grants, NoMemory>
    ensures { IfOk result (λ grants. FindsFirst same_wanted
        (flat_map (grants_at exceptions.now krate.now) numbers.now) (granter_in grants)) }
{
    let mut grants = Grants::new(alloc);
    for number in numbers {
        add_excepted(exceptions, *number, krate, &mut grants)?;
    }
    Ok(grants)
}

/// Adds the licences that the exception at an index grants, if it matches a crate.
fn add_excepted(
    exceptions: &[Exception],
    number: usize,
    krate: &Krate,
    grants: &mut Grants,
) -> Result<(), NoMemory>
    ensures { OnOk result ((entries : List (WantedLicence × Granter))
        → FindsFirst same_wanted entries (granter_in grants.old)
        → FindsFirst same_wanted (entries ++ grants_at exceptions.now krate.now number) (granter_in grants.new)) }
{
    match exceptions.get(number) {
        Some(exception) => add_matching(exception, krate, grants),
        None => Ok(()),
    }
}

fn add_matching(exception: &Exception, krate: &Krate, grants: &mut Grants) -> Result<(), NoMemory>
    ensures { OnOk result ((entries : List (WantedLicence × Granter))
        → FindsFirst same_wanted entries (granter_in grants.old)
        → FindsFirst same_wanted (entries ++ grants_to krate.now exception.now) (granter_in grants.new)) }
{
    if !match_krate(krate, &exception.spec) {
        return Ok(());
    }
    let by = Granter::Exception(exception.spec.name.span);
    grants.add_each(exception.allow.as_slice(), by)
}
