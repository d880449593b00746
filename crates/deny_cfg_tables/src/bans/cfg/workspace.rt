ghost use Rattle.deny_cfg_entries.specs.Table.{faults_of_table, ReadsTable};
ghost use Rattle.deny_cfg_tables.specs.Workspace.{workspace_fields, ReadsWorkspace};

use deny_base::LintLevel;
use deny_base_lists::NoMemory;
use deny_cfg_entries::{FromTable, PolicyKey, level_or, read_table, table};
use deny_toml::{DeserError, Deserialize, TableHelper, Value};
use std::alloc::Global;

/// The table `workspace-dependencies`: how dependencies that the members of a workspace share are checked.
#[derive(Drop)]
pub struct WorkspaceDepsConfig {
    /// The level of a dependency that is declared twice or more, also by one member, and at least once without
    /// the shared entry; default `deny`.
    pub duplicates: LintLevel,
    /// Whether dependencies that name a path count too; default true.
    pub include_path_dependencies: bool,
    /// The level of a shared dependency that no member uses; default `deny`.
    pub unused: LintLevel,
}

impl FromTable for WorkspaceDepsConfig {
    ghost fields = { workspace_fields };

    ghost reads_in = { ReadsWorkspace };

    fn read_keys(
        _alloc: Global,
        helper: &mut TableHelper<'_>,
    ) -> Result<Option<WorkspaceDepsConfig>, NoMemory> {
        let duplicates = level_or(helper, PolicyKey::Duplicates, LintLevel::Deny)?;
        let include_path_dependencies = table::optional_or(
            helper,
            PolicyKey::IncludePathDependencies,
            true,
        )?;
        let unused = level_or(helper, PolicyKey::Unused, LintLevel::Deny)?;
        Ok(Some(WorkspaceDepsConfig {
            duplicates,
            include_path_dependencies,
            unused,
        }))
    }

    ghost use Rattle.deny_cfg_tables.specs.Apart.{workspace-apart};

    ghost apart = { workspace-apart };
}

impl Deserialize for WorkspaceDepsConfig {
    ghost reads = { ReadsTable ReadsWorkspace };

    ghost faults_of = { faults_of_table (λ entries. workspace_fields) };

    fn deserialize(
        alloc: Global,
        value: &mut Value<'_>,
    ) -> Result<WorkspaceDepsConfig, DeserError> {
        read_table(alloc, value)
    }
}
