ghost use Rattle.deny_cfg_tables.specs.Apart.{build-apart};
ghost use Rattle.deny_cfg_tables.specs.Build.{build_fields, ReadsBuild, faults_of_build};
ghost use Rattle.deny_cfg_entries.specs.Table.{ReadsTable};

use crate::bans::cfg::bypass::Bypass;
use deny_base::{LintLevel, Spanned};
use deny_base_lists::{List, NoMemory, Text};
use deny_cfg_entries::{FromTable, PackageSpec, PolicyKey, is_set, level_or, read_table, table};
use deny_toml::{DeserError, Deserialize, TableHelper, Value};
use std::alloc::Global;

/// The table `build`: how build scripts and the files of packages are checked.
#[derive(Drop)]
pub struct BuildConfig {
    /// The crates that may have a build script; without it, all may.
    pub allow_build_scripts: Option<List<PackageSpec>>,
    /// The level of executables in packages: at `allow` the files of packages are not checked; default
    /// `deny`.
    pub executables: LintLevel,
    /// The level of a file whose first line names an interpreter; default `allow`.
    pub interpreted: LintLevel,
    /// The extensions of files that count as scripts, without the dot.
    pub script_extensions: Option<List<Spanned<Text>>>,
    /// What single crates are allowed; of several entries that match one crate the first applies.
    pub bypass: Option<List<Bypass>>,
    /// Whether files with built-in extensions count as scripts too; default false.
    pub enable_builtin_globs: bool,
    /// Whether the dependencies of crates that run during a build are checked too; default
    /// false.
    pub include_dependencies: bool,
    /// Whether members of the workspace are checked too; default false.
    pub include_workspace: bool,
    /// Whether archives count as executables; default false.
    pub include_archives: bool,
}

impl FromTable for BuildConfig {
    ghost fields = { build_fields };

    ghost reads_in = { ReadsBuild };

    fn read_keys(
        _alloc: Global,
        helper: &mut TableHelper<'_>,
    ) -> Result<Option<BuildConfig>, NoMemory> {
        let allow_build_scripts = table::optional(helper, PolicyKey::AllowBuildScripts)?;
        let executables = level_or(helper, PolicyKey::Executables, LintLevel::Deny)?;
        let interpreted = level_or(helper, PolicyKey::Interpreted, LintLevel::Allow)?;
        let script_extensions = table::optional(helper, PolicyKey::ScriptExtensions)?;
        let bypass = table::optional(helper, PolicyKey::Bypass)?;
        let enable_builtin_globs = is_set(helper, PolicyKey::EnableBuiltinGlobs)?;
        let include_dependencies = is_set(helper, PolicyKey::IncludeDependencies)?;
        let include_workspace = is_set(helper, PolicyKey::IncludeWorkspace)?;
        let include_archives = is_set(helper, PolicyKey::IncludeArchives)?;
        Ok(Some(BuildConfig {
            allow_build_scripts,
            executables,
            interpreted,
            script_extensions,
            bypass,
            enable_builtin_globs,
            include_dependencies,
            include_workspace,
            include_archives,
        }))
    }

    ghost apart = { build-apart };
}

impl Deserialize for BuildConfig {
    ghost reads = { ReadsTable ReadsBuild };

    ghost faults_of = { faults_of_build };

    fn deserialize(alloc: Global, value: &mut Value<'_>) -> Result<BuildConfig, DeserError> {
        read_table(alloc, value)
    }
}
