ghost use Rattle.std.specs.Prelude.{[]};
ghost use Rattle.deny_cfg_tables.specs.Apart.{bans-apart};
ghost use Rattle.deny_cfg_tables.specs.Config.{bans_fields, ReadsConfig, faults_of_config};
ghost use Rattle.deny_cfg_entries.specs.Table.{ReadsTable};

use crate::bans::cfg::build::BuildConfig;
use crate::bans::cfg::features::CrateFeatures;
use crate::bans::cfg::highlight::GraphHighlight;
use crate::bans::cfg::std_replacements::StdReplacementConfig;
use crate::bans::cfg::workspace::WorkspaceDepsConfig;
use crate::bans::cfg::{CrateAllow, CrateBan, CrateSkip, TreeSkip};
use deny_base::{LintLevel, Spanned};
use deny_base_lists::{List, NoMemory};
use deny_cfg_entries::{
    FromTable, PackageSpec, PolicyKey, is_set, level_if_set, level_or, read_table, table,
};
use deny_toml::{DeserError, Deserialize, TableHelper, Value};
use std::alloc::Global;

/// The table `[bans]` of a `deny.toml`, as it is written. A key that is left out has the default
/// that its comment names, or is None.
#[derive(Drop)]
pub struct Config {
    /// The level of crates that are there in several versions; default `warn`.
    pub multiple_versions: LintLevel,
    /// Whether crates that only dev dependencies lead to count too; default false.
    pub multiple_versions_include_dev: bool,
    /// Which paths to the crates of a duplicate are shown; default `all`.
    pub highlight: GraphHighlight,
    /// The crates that are banned, and those of which several versions are denied.
    pub deny: List<CrateBan>,
    /// The crates that are allowed; an empty list allows all crates.
    pub allow: List<CrateAllow>,
    /// Whether members of the workspace need no entry of `allow` and are exempt from the bans; default
    /// false.
    pub allow_workspace: bool,
    /// The level of the feature `default` where it is enabled for a crate outside the workspace.
    pub external_default_features: Option<Spanned<LintLevel>>,
    /// The level of the feature `default` where it is enabled for a member of the workspace.
    pub workspace_default_features: Option<Spanned<LintLevel>>,
    /// The features that crates may have enabled.
    pub features: List<CrateFeatures>,
    /// The crates that do not count among several versions.
    pub skip: List<CrateSkip>,
    /// The crates that do not count among several versions, and neither do their dependencies.
    pub skip_tree: List<TreeSkip>,
    /// The level of a dependency whose requirement is `*`; default `allow`.
    pub wildcards: LintLevel,
    /// Whether `*` is allowed for a dependency without a registry, where the dependent crate is private or the
    /// dependency is a dev dependency; default false.
    pub allow_wildcard_paths: bool,
    /// An older place of the key of this name in `build`; it is ignored beside the table `build`.
    pub allow_build_scripts: Option<Spanned<List<PackageSpec>>>,
    /// How build scripts and the files of packages are checked; without it they are not.
    pub build: Option<BuildConfig>,
    /// How dependencies that members of the workspace share are checked; without it they are not.
    pub workspace_dependencies: Option<WorkspaceDepsConfig>,
    /// How crates that the standard library replaces are checked; without it they are not.
    pub std_replacements: Option<StdReplacementConfig>,
}

impl Config {
    /// The configuration of a policy without the table `[bans]`: every key is left out.
    pub fn new(alloc: Global) -> Config
        ensures { ReadsConfig [] result }
    {
        Config {
            multiple_versions: LintLevel::Warn,
            multiple_versions_include_dev: false,
            highlight: GraphHighlight::All,
            deny: List::new(alloc),
            allow: List::new(alloc),
            allow_workspace: false,
            external_default_features: None,
            workspace_default_features: None,
            features: List::new(alloc),
            skip: List::new(alloc),
            skip_tree: List::new(alloc),
            wildcards: LintLevel::Allow,
            allow_wildcard_paths: false,
            allow_build_scripts: None,
            build: None,
            workspace_dependencies: None,
            std_replacements: None,
        }
    }
}

impl FromTable for Config {
    ghost fields = { bans_fields };

    ghost reads_in = { ReadsConfig };

    fn read_keys(alloc: Global, helper: &mut TableHelper<'_>) -> Result<Option<Config>, NoMemory> {
        let multiple_versions = level_or(helper, PolicyKey::MultipleVersions, LintLevel::Warn)?;
        let multiple_versions_include_dev = is_set(helper, PolicyKey::MultipleVersionsIncludeDev)?;
        let highlight = table::optional_or(helper, PolicyKey::Highlight, GraphHighlight::All)?;
        let deny = table::optional_list(alloc, helper, PolicyKey::Deny)?;
        let allow = table::optional_list(alloc, helper, PolicyKey::Allow)?;
        let allow_workspace = is_set(helper, PolicyKey::AllowWorkspace)?;
        let external_default_features = level_if_set(helper, PolicyKey::ExternalDefaultFeatures)?;
        let workspace_default_features = level_if_set(helper, PolicyKey::WorkspaceDefaultFeatures)?;
        let features = table::optional_list(alloc, helper, PolicyKey::Features)?;
        let skip = table::optional_list(alloc, helper, PolicyKey::Skip)?;
        let skip_tree = table::optional_list(alloc, helper, PolicyKey::SkipTree)?;
        let wildcards = level_or(helper, PolicyKey::Wildcards, LintLevel::Allow)?;
        let allow_wildcard_paths = is_set(helper, PolicyKey::AllowWildcardPaths)?;
        let allow_build_scripts = table::optional(helper, PolicyKey::AllowBuildScripts)?;
        let build = table::optional(helper, PolicyKey::Build)?;
        let workspace_dependencies = table::optional(helper, PolicyKey::WorkspaceDependencies)?;
        let std_replacements = table::optional(helper, PolicyKey::StdReplacements)?;
        Ok(Some(Config {
            multiple_versions,
            multiple_versions_include_dev,
            highlight,
            deny,
            allow,
            allow_workspace,
            external_default_features,
            workspace_default_features,
            features,
            skip,
            skip_tree,
            wildcards,
            allow_wildcard_paths,
            allow_build_scripts,
            build,
            workspace_dependencies,
            std_replacements,
        }))
    }

    ghost apart = { bans-apart };
}

impl Deserialize for Config {
    ghost reads = { ReadsTable ReadsConfig };

    ghost faults_of = { faults_of_config };

    fn deserialize(alloc: Global, value: &mut Value<'_>) -> Result<Config, DeserError> {
        read_table(alloc, value)
    }
}
