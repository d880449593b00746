ghost use Rattle.deny_cfg_entries.specs.Table.{ReadsTable};
ghost use Rattle.deny_cfg_tables.specs.Apart.{licenses-apart};
ghost use Rattle.deny_cfg_tables.specs.Licenses.{ReadsLicenses, faults_of_licenses, licenses_fields};

use crate::licenses::exception::Exception;
use crate::licenses::private::Private;
use deny_base::{LintLevel, Spanned};
use deny_base_lists::{List, NoMemory, Text};
use deny_cfg_entries::{
    FromTable, PolicyKey, is_set, level_or, licences_if_there, pass_unread, read_table, table,
};
use deny_spdx::Requirement;
use deny_toml::{DeserError, Deserialize, TableHelper, Value};
use std::alloc::Global;

/// The table `licenses`: the licences that crates may ask for. The values of its keys `version` and
/// `confidence-threshold` are not read.
#[derive(Drop)]
pub struct Config {
    /// The licences that every crate may ask for; default none.
    pub allow: List<Spanned<Requirement>>,
    /// The licences that some crates may ask for besides; default none.
    pub exceptions: List<Exception>,
    /// Whether private crates are ignored: the key `ignore` of the table `private`; default
    /// false.
    pub private_ignore: bool,
    /// The registries whose crates are private: the key `registries` of the table `private`; default none.
    pub private_registries: List<Text>,
    /// Whether crates that only dev dependencies lead to count too; default false.
    pub include_dev: bool,
    /// The level of an entry of `allow` that no crate asks for: the key `unused-allowed-license`;
    /// default `warn`.
    pub unused_allowed: LintLevel,
}

impl FromTable for Config {
    ghost fields = { licenses_fields };

    ghost reads_in = { ReadsLicenses };

    fn read_keys(alloc: Global, helper: &mut TableHelper<'_>) -> Result<Option<Config>, NoMemory> {
        pass_unread(helper, PolicyKey::Version);
        pass_unread(helper, PolicyKey::ConfidenceThreshold);
        let allow = licences_if_there(alloc, helper, PolicyKey::Allow)?;
        let exceptions = table::optional_list(alloc, helper, PolicyKey::Exceptions)?;
        let private = table::optional_or(helper, PolicyKey::Private, Private::none(alloc))?;
        let include_dev = is_set(helper, PolicyKey::IncludeDev)?;
        let unused_allowed = level_or(helper, PolicyKey::UnusedAllowedLicense, LintLevel::Warn)?;
        Ok(Some(Config {
            allow,
            exceptions,
            private_ignore: private.ignore,
            private_registries: private.registries,
            include_dev,
            unused_allowed,
        }))
    }

    ghost apart = { licenses-apart };
}

impl Deserialize for Config {
    ghost reads = { ReadsTable ReadsLicenses };

    ghost faults_of = { faults_of_licenses };

    fn deserialize(alloc: Global, value: &mut Value<'_>) -> Result<Config, DeserError> {
        read_table(alloc, value)
    }
}
