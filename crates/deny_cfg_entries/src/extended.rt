//! The keys that an entry's table may have beside those of its spec.
ghost use Rattle.std.specs.Prelude.{◌≡◌, [], true, List, Option, IfOk, IfErr, OnOk};
ghost use Rattle.deny_toml.specs.Faults.{Reports};
ghost use Rattle.deny_cfg_entries.specs.Entry.{ReadsPair, entry_fields};
ghost use Rattle.deny_cfg_entries.specs.Table.{DependsOn, Entries, Field, ReadsTable, are_apart};
ghost use Rattle.deny_cfg_entries.specs.Table.{after_all, faults_of_fields, faults_of_table, state_of};

use crate::package_spec::PackageSpec;
use crate::spec::read_spec;
use deny_base_lists::NoMemory;
use deny_toml::{DeserError, TableHelper, Value};
use std::alloc::Global;

/// What the table of an entry may give beside its spec. `fields` are its keys, and `reads_in` says
/// what is read from a table where none of these keys has a fault: it depends on these keys alone.
pub trait Extended: Sized + Drop {
    ghost fields: { List Field };

    ghost reads_in: { Entries → Option Self → Type 0 };

    /// Takes the keys out of the table and reads them. The helper keeps their faults.
    fn read_keys(alloc: Global, helper: &mut TableHelper<'_>) -> Result<Option<Self>, NoMemory>
        ensures next { OnOk result (state_of helper.new ≡ after_all fields (state_of helper.old)) }
        ensures read { IfOk result (λ x. faults_of_fields fields helper.old.span helper.old.entries ≡ []
            → reads_in helper.old.entries x) };

    ghost apart: { (entries : Entries) → are_apart (entry_fields fields entries) ≡ true };

    ghost depends: { DependsOn fields reads_in };
}

/// Reads a table that has the keys of a spec, the keys of `T` and no others.
pub fn read_entry<T: Extended>(
    alloc: Global,
    value: &mut Value<'_>,
) -> Result<(PackageSpec, Option<T>), DeserError>
    ensures ok { IfOk result (λ x. (faults_of_table (entry_fields T.fields) value.old ≡ [])
        × ReadsTable (ReadsPair T.reads_in) value.old x) }
    ensures faults { IfErr result (Reports (faults_of_table (entry_fields T.fields) value.old)) }
{
    let mut helper = TableHelper::new(alloc, value)?;
    let spec = read_spec(&mut helper)?;
    let said = T::read_keys(alloc, &mut helper)?;
    helper.finalize()?;
    match spec {
        Some(spec) => Ok((spec, said)),
        None => unreachable!(),
    }
}
