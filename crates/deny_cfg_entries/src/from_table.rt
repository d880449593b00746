//! Types that are read from the keys of a table.
ghost use Rattle.std.specs.Prelude.{◌≡◌, [], true, List, IfOk, IfErr, OnOk, IsSomeAnd};
ghost use Rattle.deny_toml.specs.Faults.{Reports};
ghost use Rattle.deny_cfg_entries.specs.Table.{Entries, Field, ReadsTable, are_apart};
ghost use Rattle.deny_cfg_entries.specs.Table.{after_all, faults_of_fields, faults_of_table, state_of};

use deny_base_lists::NoMemory;
use deny_toml::{DeserError, TableHelper, Value};
use std::alloc::Global;

/// A type that is read from the keys of a table. `fields` are these keys, and `reads_in` says what
/// is read from a table where none of them has a fault.
pub trait FromTable: Sized + Drop {
    ghost fields: { List Field };

    ghost reads_in: { Entries → Self → Type 0 };

    /// Takes the keys out of the table and reads them. The helper keeps their faults; the answer is None
    /// only where one of them has a fault.
    fn read_keys(alloc: Global, helper: &mut TableHelper<'_>) -> Result<Option<Self>, NoMemory>
        ensures next { OnOk result (state_of helper.new ≡ after_all fields (state_of helper.old)) }
        ensures read { IfOk result (λ x. faults_of_fields fields helper.old.span helper.old.entries ≡ []
            → IsSomeAnd x (reads_in helper.old.entries)) };

    ghost apart: { are_apart fields ≡ true };
}

/// Reads a table that has the keys of `T` and no others.
pub fn read_table<T: FromTable>(alloc: Global, value: &mut Value<'_>) -> Result<T, DeserError>
    ensures ok { IfOk result (λ x. (faults_of_table (λ entries. T.fields) value.old ≡ [])
        × ReadsTable T.reads_in value.old x) }
    ensures faults { IfErr result (Reports (faults_of_table (λ entries. T.fields) value.old)) }
{
    let mut helper = TableHelper::new(alloc, value)?;
    let read = T::read_keys(alloc, &mut helper)?;
    helper.finalize()?;
    match read {
        Some(read) => Ok(read),
        None => unreachable!(),
    }
}
