//! Tables read key by key. A helper takes each key out of the table and keeps the faults that it finds.
ghost use Rattle.std.specs.Prelude.{◌≡◌, [], List, IfOk, OnOk, Option, IsSomeAnd};
ghost use Rattle.deny_cfg_entries.specs.Table.{ReadsIfThere, ReadsOr, ReadsThere, state_of, after, ReadAt};
ghost use Rattle.deny_cfg_entries.specs.Table as spec;
ghost use Rattle.deny_cfg_entries.specs.Words.{faults_of_list, ReadsList};

use crate::policy_key::PolicyKey;
use deny_base_lists::{List, NoMemory};
use deny_toml::{DeserError, Deserialize, TableHelper};
use std::alloc::Global;

/// Reads a key that may be left out. Answers None where the key is left out, and where its value has
/// faults.
pub fn optional<T: Deserialize>(
    helper: &mut TableHelper<'_>,
    key: PolicyKey,
) -> Result<Option<T>, NoMemory>
    ensures next { OnOk result (state_of helper.new ≡ after (spec.optional key T.faults_of) (state_of helper.old)) }
    ensures read { IfOk result (λ x. ReadAt (spec.optional key T.faults_of) (state_of helper.old)
        (λ v. ReadsIfThere T.reads v x)) }
{
    helper.optional(key.name())
}

/// Reads a key that may be left out; the default stands for a key that is left out.
pub fn optional_or<T: Deserialize + Drop>(
    helper: &mut TableHelper<'_>,
    key: PolicyKey,
    default: T,
) -> Result<T, NoMemory>
    ensures next { OnOk result (state_of helper.new ≡ after (spec.optional key T.faults_of) (state_of helper.old)) }
    ensures read { IfOk result (λ x. ReadAt (spec.optional key T.faults_of) (state_of helper.old)
        (λ v. ReadsOr default T.reads v x)) }
{
    match optional(helper, key)? {
        Some(read) => Ok(read),
        None => Ok(default),
    }
}

/// Reads a key that has to be there. Answers None where the key is missing, and where its value has
/// faults.
pub fn required<T: Deserialize>(
    helper: &mut TableHelper<'_>,
    key: PolicyKey,
) -> Result<Option<T>, NoMemory>
    ensures next { OnOk result (state_of helper.new ≡ after (spec.required key T.faults_of) (state_of helper.old)) }
    ensures read { IfOk result (λ x. ReadAt (spec.required key T.faults_of) (state_of helper.old)
        (λ v. IsSomeAnd x (ReadsThere T.reads v))) }
{
    match helper.required(key.name()) {
        Ok(read) => Ok(Some(read)),
        Err(DeserError::Faults(faults)) => {
            helper.keep(faults)?;
            Ok(None)
        }
        Err(DeserError::Memory) => Err(NoMemory),
    }
}

/// Reads a key that may hold an array; a key that is left out reads as an empty array.
pub fn optional_list<T: Deserialize + Drop>(
    alloc: Global,
    helper: &mut TableHelper<'_>,
    key: PolicyKey,
) -> Result<List<T>, NoMemory>
    ensures next { OnOk result (state_of helper.new
        ≡ after (spec.optional key (faults_of_list T.faults_of)) (state_of helper.old)) }
    ensures read { IfOk result (λ x. ReadAt (spec.optional key (faults_of_list T.faults_of)) (state_of helper.old)
        (λ v. ReadsOr [] (ReadsList T.reads) v x)) }
{
    match optional::<List<T>>(helper, key)? {
        Some(read) => Ok(read),
        None => Ok(List::new(alloc)),
    }
}
