//! A policy's answers to the requirements of a crate's licence expression.
ghost use Rattle.std.specs.Prelude.{◌≡◌, ◌++◌, ◌∷◌, [], IfOk, OnOk, codes, is_some, map};
ghost use Rattle.std.specs.List.{flat_map};
ghost use Rattle.deny_spec_report.specs.Licences.{requirement_text};
ghost use Rattle.deny_krates.specs.Crates.{crate_view};
ghost use Rattle.deny_cfg.specs.LicensingView.{licensing_view};
ghost use Rattle.deny_gate_licenses.specs.private.Answers.{AreAnswers, granter_from, granters_by, notes_by};
ghost use Rattle.deny_gate_licenses.specs.private.Answers.{rejected_note};

use crate::granter::Granter;
use crate::granting::Granting;
use crate::grants::Grants;
use deny_base_lists::{List, NoMemory, Text};
use deny_krates::Krate;
use deny_spdx::Requirement;
use std::alloc::Global;

/// The answers to requirements, in their order.
#[derive(Drop)]
pub struct Answers {
    /// Whether each requirement is granted.
    pub allowed: List<bool>,
    /// The granters of those that are granted.
    pub granters: List<Granter>,
    /// The notes of those that are not.
    pub notes: List<Text>,
}

impl Answers {
    fn new(alloc: Global) -> Answers
        ensures allowed { result.allowed ≡ [] }
        ensures granters { result.granters ≡ [] }
        ensures notes { result.notes ≡ [] }
    {
        Answers {
            allowed: List::new(alloc),
            granters: List::new(alloc),
            notes: List::new(alloc),
        }
    }

    /// Adds the answer to a requirement.
    fn add(
        &mut self,
        alloc: Global,
        requirement: &Requirement,
        by: Option<Granter>,
    ) -> Result<(), NoMemory>
        ensures allowed { OnOk result (self.new.allowed ≡ self.old.allowed ++ is_some by ∷ []) }
        ensures granters { OnOk result (self.new.granters ≡ self.old.granters ++ granters_by by) }
        ensures notes { OnOk result (self.new.notes ≡ self.old.notes ++ notes_by by requirement.now) }
    {
        self.allowed.push(by.is_some())?;
        match by {
            Some(granter) => self.granters.push(granter),
            None => self.notes.push(rejected_note(alloc, requirement)?),
        }
    }
}

/// The answers to the requirements of a crate.
pub fn answers_to(
    alloc: Global,
    granting: &Granting<'_>,
    krate: &Krate,
    requirements: &[Requirement],
) -> Result<Answers, NoMemory>
    ensures { IfOk result (AreAnswers (licensing_view granting.now.cfg.now) (crate_view 0 krate.now)
        requirements.now) }
{
    let excepted = granting.excepted(alloc, krate)?;
    answers_by_grants(alloc, granting, &excepted, requirements)
}

/// The answers to requirements, where `excepted` is what the exceptions that match the crate grant.
fn answers_by_grants(
    alloc: Global,
    granting: &Granting<'_>,
    excepted: &Grants,
    requirements: &[Requirement],
) -> Result<Answers, NoMemory>
    ensures allowed { IfOk result (λ answers. answers.allowed
        ≡ map (λ r. is_some (granter_from excepted.now granting.now r)) requirements.now) }
    ensures granters { IfOk result (λ answers. answers.granters
        ≡ flat_map (λ r. granters_by (granter_from excepted.now granting.now r)) requirements.now) }
    ensures notes { IfOk result (λ answers. answers.notes
        ≡ flat_map (λ r. notes_by (granter_from excepted.now granting.now r) r) requirements.now) }
{
    let mut answers = Answers::new(alloc);
    for requirement in requirements {
        let by = granting.granter_of(excepted, requirement)?;
        answers.add(alloc, requirement, by)?;
    }
    Ok(answers)
}

/// The note of a requirement that nothing grants.
fn rejected_note(alloc: Global, requirement: &Requirement) -> Result<Text, NoMemory>
    ensures { IfOk result (λ note. note ≡ rejected_note requirement.now) }
{
    let text = requirement_text(alloc, requirement)?;
    Ok(Text::from_string(format!(in alloc; "rejected = '{text}'")?))
}

/// The text of a requirement: its licence, and its exception if it has one.
#[tactic(auto, unfolding(deny_spec_report::specs::Licences::requirement_text))]
fn requirement_text(alloc: Global, requirement: &Requirement) -> Result<Text, NoMemory>
    ensures { IfOk result (λ text. text ≡ requirement_text requirement.now) }
{
    match &requirement.exception {
        Some(exception) => with_exception(alloc, &requirement.id, exception),
        None => Ok(requirement.id.clone()?),
    }
}

fn with_exception(alloc: Global, id: &Text, exception: &Text) -> Result<Text, NoMemory>
    ensures { IfOk result (λ text. text ≡ id.now ++ (codes " WITH " ++ exception.now)) }
{
    Ok(Text::from_string(format!(in alloc; "{id} WITH {exception}")?))
}
