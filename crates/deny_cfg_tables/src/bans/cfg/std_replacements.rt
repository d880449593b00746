ghost use Rattle.std.specs.Prelude.{◌≡◌, IfOk, OnOk};
ghost use Rattle.deny_cfg_tables.specs.Apart.{std-apart};
ghost use Rattle.deny_cfg_entries.specs.RustVersion.{rust_version_in};
ghost use Rattle.deny_cfg_tables.specs.StdReplacements.{std_fields, ReadsRustVersion, ReadsStd, faults_of_std};
ghost use Rattle.deny_cfg_entries.specs.Table.{ReadAt, ReadsIfThere, ReadsTable, after, state_of};
ghost use Rattle.deny_cfg_entries.specs.Table as spec;
ghost use Rattle.deny_cfg_entries.specs.Words.{faults_as};
ghost use Rattle.deny_cfg_entries.specs.declared.policy_key.PolicyKey.TheVariants as key;

use crate::bans::cfg::CrateSkip;
use deny_base::LintLevel;
use deny_base_lists::{List, NoMemory};
use deny_cfg_entries::{FromTable, PolicyKey, RustVersion, Scope, level_or, read_table, table};
use deny_toml::{DeserError, Deserialize, TableHelper, Value};
use semver::Version;
use std::alloc::Global;

/// The table `std-replacements`: how crates that the standard library replaces are checked.
#[derive(Drop)]
pub struct StdReplacementConfig {
    /// The crates whose direct dependencies are checked; default `workspace`.
    pub scope: Scope,
    /// The level of a crate that is replaced; default `deny`.
    pub level: LintLevel,
    /// The version of Rust of crates that name none: replacements of later versions do not count for
    /// them.
    pub rust_version: Option<Version>,
    /// The crates that may stay in use; default none.
    pub ignore: List<CrateSkip>,
    /// The crates whose own version of Rust is ignored; default `none`.
    pub ignore_rust_version: Scope,
}

/// Reads the key `rust-version`.
fn rust_version(helper: &mut TableHelper<'_>) -> Result<Option<Version>, NoMemory>
    ensures next { OnOk result (state_of helper.new
        ≡ after (spec.optional key.RustVersion (faults_as rust_version_in)) (state_of helper.old)) }
    ensures read { IfOk result (λ x. ReadAt (spec.optional key.RustVersion (faults_as rust_version_in))
        (state_of helper.old) (λ v. ReadsIfThere ReadsRustVersion v x)) }
{
    match table::optional::<RustVersion>(helper, PolicyKey::RustVersion)? {
        Some(version) => Ok(Some(version.0)),
        None => Ok(None),
    }
}

impl FromTable for StdReplacementConfig {
    ghost fields = { std_fields };

    ghost reads_in = { ReadsStd };

    fn read_keys(
        alloc: Global,
        helper: &mut TableHelper<'_>,
    ) -> Result<Option<StdReplacementConfig>, NoMemory> {
        let scope = table::optional_or(helper, PolicyKey::Scope, Scope::Workspace)?;
        let level = level_or(helper, PolicyKey::Level, LintLevel::Deny)?;
        let rust_version = rust_version(helper)?;
        let ignore = table::optional_list(alloc, helper, PolicyKey::Ignore)?;
        let ignore_rust_version = table::optional_or(
            helper,
            PolicyKey::IgnoreRustVersion,
            Scope::None,
        )?;
        Ok(Some(StdReplacementConfig {
            scope,
            level,
            rust_version,
            ignore,
            ignore_rust_version,
        }))
    }

    ghost apart = { std-apart };
}

impl Deserialize for StdReplacementConfig {
    ghost reads = { ReadsTable ReadsStd };

    ghost faults_of = { faults_of_std };

    fn deserialize(
        alloc: Global,
        value: &mut Value<'_>,
    ) -> Result<StdReplacementConfig, DeserError> {
        read_table(alloc, value)
    }
}
