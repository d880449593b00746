//! Licence requirements in a policy.
ghost use Rattle.std.specs.Prelude.{◌≡◌, [], map, IfOk, OnOk, IsSomeAnd};
ghost use Rattle.deny_spdx.specs.Meaning.{requirement_in};
ghost use Rattle.deny_cfg_entries.specs.Licence.{ReadsLicences, faults_of_licences, licence_requirement};
ghost use Rattle.deny_cfg_entries.specs.Table.{ReadAt, ReadsOr, ReadsThere, after, state_of};
ghost use Rattle.deny_cfg_entries.specs.Table as spec;
ghost use Rattle.deny_cfg_entries.specs.Words.{faults_as, ReadsAs};

use crate::policy_key::PolicyKey;
use crate::table;
use deny_base::Spanned;
use deny_base_lists::{List, NoMemory};
use deny_spdx::{Requirement, SpdxError};
use deny_toml::{DeserError, Deserialize, TableHelper, Value};
use std::alloc::Global;

/// A licence requirement, as a value of the policy writes it. A text that is not exactly one requirement,
/// such as an expression of several, is `Unreadable`.
#[derive(Drop)]
struct Licence(Requirement);

impl Deserialize for Licence {
    ghost reads = { λ v read. ReadsAs requirement_in v read.0 };

    ghost faults_of = { faults_as requirement_in };

    fn deserialize(alloc: Global, value: &mut Value<'_>) -> Result<Licence, DeserError> {
        let Some(text) = value.as_str() else {
            return Err(DeserError::wrong_kind(alloc, value.span));
        };
        match Requirement::parse(alloc, text) {
            Ok(requirement) => Ok(Licence(requirement)),
            Err(SpdxError::Bad(_)) => Err(DeserError::unreadable(alloc, value.span)),
            Err(SpdxError::Memory) => Err(DeserError::Memory),
        }
    }
}

fn licence_requirement(licence: Spanned<Licence>) -> Spanned<Requirement>
    ensures { result ≡ licence_requirement licence }
{
    Spanned {
        value: licence.value.0,
        span: licence.span,
    }
}

fn requirements_of(
    alloc: Global,
    licences: List<Spanned<Licence>>,
) -> Result<List<Spanned<Requirement>>, NoMemory>
    ensures { IfOk result (λ all. all ≡ map licence_requirement licences) }
{
    let mut all = List::new(alloc);
    'licences: for licence in licences.vec {
        all.push(licence_requirement(licence))?;
    }
    Ok(all)
}

/// Reads a key that may hold an array of licences; a key that is left out reads as an empty array.
pub fn licences_if_there(
    alloc: Global,
    helper: &mut TableHelper<'_>,
    key: PolicyKey,
) -> Result<List<Spanned<Requirement>>, NoMemory>
    ensures next { OnOk result (state_of helper.new
        ≡ after (spec.optional key faults_of_licences) (state_of helper.old)) }
    ensures read { IfOk result (λ x. ReadAt (spec.optional key faults_of_licences) (state_of helper.old)
        (λ v. ReadsOr [] ReadsLicences v x)) }
{
    let licences = table::optional_list(alloc, helper, key)?;
    let requirements = requirements_of(alloc, licences)?;
    Ok(requirements)
}

/// Reads a key that has to hold an array of licences. Answers None where the key is missing, and where
/// its value has faults; the helper keeps the faults.
pub fn licences(
    alloc: Global,
    helper: &mut TableHelper<'_>,
    key: PolicyKey,
) -> Result<Option<List<Spanned<Requirement>>>, NoMemory>
    ensures next { OnOk result (state_of helper.new
        ≡ after (spec.required key faults_of_licences) (state_of helper.old)) }
    ensures read { IfOk result (λ x. ReadAt (spec.required key faults_of_licences) (state_of helper.old)
        (λ v. IsSomeAnd x (ReadsThere ReadsLicences v))) }
{
    let Some(licences) = table::required(helper, key)? else {
        return Ok(None);
    };
    let requirements = requirements_of(alloc, licences)?;
    Ok(Some(requirements))
}
