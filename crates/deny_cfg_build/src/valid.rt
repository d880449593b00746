//! The table `build`, and its entries of `bypass`, as the rules take them.
ghost use Rattle.std.specs.Prelude.{IfSome};
ghost use Rattle.std.proofs.Props.{props};
ghost use Rattle.deny_cfg_build.specs.Globs.{AreWritten, AreWritten-prop, extension_text, own_text};

use crate::glob_set::ValidGlobSet;
use deny_base::{LintLevel, Span, Spanned};
use deny_base_lists::{List, Text};
use deny_cfg_entries::{Expiry, PackageSpec};
use deny_cfg_tables::bans::cfg::{BypassPath, Checksum};

/// An entry of `bypass`: what the build check allows a crate.
#[derive(Drop)]
pub struct ValidBypass {
    /// The crates that the entry matches.
    pub spec: PackageSpec,
    /// The digest of a build script; where the crate's build script has it, the whole package passes.
    pub build_script: Option<Spanned<Checksum>>,
    /// Features of the crate: where one of them is enabled, the files are checked all the same.
    pub required_features: List<Spanned<Text>>,
    /// The globs of paths that are allowed.
    pub allow_globs: Option<ValidGlobSet>,
    /// The single files that are allowed.
    pub allow: List<BypassPath>,
    /// The last day on which the entry counts; without it, it counts on every day.
    pub expires: Option<Spanned<Expiry>>,
    pub ghost globs_written: { IfSome allow_globs (AreWritten own_text) } by { Prim.hlevel (props, AreWritten-prop) },
}

/// How build scripts and the files of packages are checked. A field that `BuildConfig` has too means the same.
#[derive(Drop)]
pub struct ValidBuildConfig {
    /// The crates that may have a build script; without it, all may.
    pub allow_build_scripts: Option<List<PackageSpec>>,
    /// The level of executables in packages: at `allow` the files of packages are not checked.
    pub executables: LintLevel,
    /// The level of a file whose first line names an interpreter.
    pub interpreted: LintLevel,
    /// The globs of files that count as scripts: those of the policy's extensions, and behind them the built-in globs,
    /// where the policy asks for them.
    pub script_extensions: ValidGlobSet,
    /// What single crates are allowed; of several entries that match one crate the first applies.
    pub bypass: List<ValidBypass>,
    /// Whether the dependencies of crates that run during a build are checked too.
    pub include_dependencies: bool,
    /// Whether members of the workspace are checked too.
    pub include_workspace: bool,
    /// Whether archives count as executables.
    pub include_archives: bool,
    /// The span of the list `allow-build-scripts` beside the table, where that older key stands for the table.
    pub older_key: Option<Span>,
    pub ghost extensions_written: { AreWritten extension_text script_extensions },
}
