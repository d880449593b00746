ghost use Rattle.std.specs.Prelude.{◌≡◌};
ghost use Rattle.deny_cfg_entries.specs.Table.{ReadsTable};
ghost use Rattle.deny_cfg_tables.specs.Apart.{private-apart};
ghost use Rattle.deny_cfg_tables.specs.Licenses.{ReadsPrivate, faults_of_private, none_private, private_fields};

use deny_base_lists::{List, NoMemory, Text};
use deny_cfg_entries::{FromTable, PolicyKey, is_set, read_table, table};
use deny_toml::{DeserError, Deserialize, TableHelper, Value};
use std::alloc::Global;

/// The table `private`: which crates are private, and whether they are ignored.
#[derive(Drop)]
pub(crate) struct Private {
    /// The key `ignore`; default false.
    pub ignore: bool,
    /// The key `registries`; default none.
    pub registries: List<Text>,
}

impl Private {
    /// The default of the table.
    pub fn none(alloc: Global) -> Private
        ensures { result ≡ none_private }
    {
        Private {
            ignore: false,
            registries: List::new(alloc),
        }
    }
}

impl FromTable for Private {
    ghost fields = { private_fields };

    ghost reads_in = { ReadsPrivate };

    fn read_keys(alloc: Global, helper: &mut TableHelper<'_>) -> Result<Option<Private>, NoMemory> {
        let ignore = is_set(helper, PolicyKey::Ignore)?;
        let registries = table::optional_list(alloc, helper, PolicyKey::Registries)?;
        Ok(Some(Private { ignore, registries }))
    }

    ghost apart = { private-apart };
}

impl Deserialize for Private {
    ghost reads = { ReadsTable ReadsPrivate };

    ghost faults_of = { faults_of_private };

    fn deserialize(alloc: Global, value: &mut Value<'_>) -> Result<Private, DeserError> {
        read_table(alloc, value)
    }
}
