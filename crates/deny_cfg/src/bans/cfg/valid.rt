//! The valid configuration of `[bans]`, as the rules take it.
ghost use Rattle.std.specs.Prelude.{◌≡◌, ◌∷◌, ◌++◌, ◌<◌, ◌^◌, [], IfOk, OnErr, OnOk, filter, length, map};
ghost use Rattle.std.specs.Option.{option_map_or};
ghost use Rattle.deny_cfg_build.specs.Build.{HasFiles, IsBuildOf, files_of};
ghost use Rattle.deny_cfg_build.specs.Globs.{OfBoth};
ghost use Rattle.deny_base_lists.specs.Prefix.{Gains, GainsPrefixOf};
ghost use Rattle.deny_cfg.specs.Clashes.{is_ban};
ghost use Rattle.deny_cfg.specs.private.Warnings.{AreReported};
ghost use Rattle.deny_cfg.specs.Valid.{IsValidOf, ban_of, features_of, files_asked, is_multiple, krate_ban};
ghost use Rattle.deny_cfg.specs.Validating.{source_in};

use crate::bans::cfg::ValidTreeSkip;
use crate::clash_diag::report_clashes;
use crate::clashes::{is_ban, ordered_clashes};
use crate::validate::{UnvalidatedConfig, ValidationContext};
use crate::warnings::report_deprecated;
use deny_base::{Diagnostic, FileId, Files, LintLevel, Span, Spanned};
use deny_base_lists::{List, NoMemory, Text};
use deny_cfg_build::{ValidBuildConfig, build_by, older_key_by, valid_build};
use deny_cfg_entries::{PackageSpec, PackageSpecOrExtended, Reason};
use deny_cfg_tables::bans::cfg::{
    BuildConfig, Config, CrateBan, CrateBanExtended, CrateFeatures, CrateSkip, GraphHighlight,
    SpecAndReason, StdReplacementConfig, WorkspaceDepsConfig,
};
use std::alloc::Global;

/// What an entry that bans crates gives beside its spec.
#[derive(Drop)]
pub struct KrateBan {
    /// The crates that may depend on the banned crate; an empty list counts as none.
    pub wrappers: Option<List<Spanned<Text>>>,
    /// Why the crate is banned.
    pub reason: Option<Reason>,
    /// What to use in its place: a crate, or an address.
    pub use_instead: Option<Spanned<Text>>,
}

/// The features of a crate that may be enabled.
#[derive(Drop)]
pub struct Features {
    /// The features that may be enabled. An empty list allows all features, but none where `exact` is set.
    pub allow: Spanned<List<Spanned<Text>>>,
    /// The features that may not be enabled.
    pub deny: List<Spanned<Text>>,
    /// Whether exactly the features of `allow` have to be enabled.
    pub exact: Spanned<bool>,
}

/// An entry of `features`.
#[derive(Drop)]
pub struct ValidKrateFeatures {
    /// The crates that the entry matches.
    pub spec: PackageSpec,
    /// The features of these crates that may be enabled.
    pub features: Features,
    /// Why other features may not be enabled.
    pub reason: Option<Reason>,
}

/// The table `[bans]` as the rules take it. A field that `Config` has too means the same.
#[derive(Drop)]
pub struct ValidConfig {
    /// The file in which all spans are.
    pub file_id: FileId,
    /// The level of crates that are there in several versions.
    pub multiple_versions: LintLevel,
    /// Whether crates that only dev dependencies lead to count too.
    pub multiple_versions_include_dev: bool,
    /// Which paths to the crates of a duplicate are shown.
    pub highlight: GraphHighlight,
    /// The entries of `deny` that ban crates.
    pub denied: List<PackageSpecOrExtended<KrateBan>>,
    /// The specs of the entries of `deny` that deny only several versions, by `deny-multiple-versions`.
    pub denied_multiple_versions: List<PackageSpec>,
    /// The entries of `allow`: the crates that are allowed; an empty list allows all crates.
    pub allowed: List<SpecAndReason>,
    /// Whether members of the workspace need no entry of `allow` and are exempt from the bans.
    pub allow_workspace: bool,
    /// The level of the feature `default` where it is enabled for a crate outside the workspace.
    pub external_default_features: Option<Spanned<LintLevel>>,
    /// The level of the feature `default` where it is enabled for a member of the workspace.
    pub workspace_default_features: Option<Spanned<LintLevel>>,
    /// The features that crates may have enabled.
    pub features: List<ValidKrateFeatures>,
    /// The entries of `skip`: the crates that do not count among several versions.
    pub skipped: List<CrateSkip>,
    /// The entries of `skip-tree`: the crates that, with their dependencies, do not count among several versions.
    pub tree_skipped: List<ValidTreeSkip>,
    /// The level of a dependency whose requirement is `*`.
    pub wildcards: LintLevel,
    /// Whether `*` is allowed for a dependency without a registry, where the dependent crate is private or the
    /// dependency is a dev dependency.
    pub allow_wildcard_paths: bool,
    /// How dependencies that members of the workspace share are checked; without it they are not.
    pub workspace_dependencies: Option<WorkspaceDepsConfig>,
    /// How crates that the standard library replaces are checked; without it they are not.
    pub std_replacements: Option<StdReplacementConfig>,
    /// How build scripts and the files of packages are checked: by the table `build`, or by the older key
    /// `allow-build-scripts` that stands for it; without both they are not.
    pub build: Option<ValidBuildConfig>,
}

/// What an entry that bans gives beside its spec, without its flag.
fn krate_ban(said: CrateBanExtended) -> KrateBan
    ensures { result ≡ krate_ban said }
{
    KrateBan {
        wrappers: said.wrappers.map(|wrappers| wrappers.value),
        reason: said.reason,
        use_instead: said.use_instead,
    }
}

fn ban_of(entry: CrateBan) -> PackageSpecOrExtended<KrateBan>
    ensures { result ≡ ban_of entry }
{
    PackageSpecOrExtended {
        spec: entry.spec,
        inner: entry.inner.map(krate_ban),
    }
}

/// The entries of `deny` by their kind.
#[derive(Drop)]
struct Denied {
    /// The entries that ban.
    bans: List<PackageSpecOrExtended<KrateBan>>,
    /// The specs of the entries that deny only several versions.
    others: List<PackageSpec>,
}

impl Denied {
    /// Puts an entry behind those of its kind.
    fn add(&mut self, entry: CrateBan) -> Result<(), NoMemory>
        ensures bans { OnOk result (self.new.bans ≡ self.old.bans ++ map ban_of (filter is_ban (entry ∷ []))) }
        ensures others { OnOk result
            (self.new.others ≡ self.old.others ++ map (λ e. e.spec) (filter is_multiple (entry ∷ []))) }
    {
        if is_ban(&entry) {
            self.bans.push(ban_of(entry))
        } else {
            self.others.push(entry.spec)
        }
    }
}

/// Divides the entries of `deny` into those that ban and those that deny only several versions.
fn divided(alloc: Global, deny: List<CrateBan>) -> Result<Denied, NoMemory>
    ensures bans { IfOk result (λ parts. parts.bans ≡ map ban_of (filter is_ban deny)) }
    ensures others { IfOk result (λ parts. parts.others ≡ map (λ e. e.spec) (filter is_multiple deny)) }
{
    let mut parts = Denied {
        bans: List::new(alloc),
        others: List::new(alloc),
    };
    'deny: for entry in deny.vec {
        parts.add(entry)?;
    }
    Ok(parts)
}

fn features_of(entry: CrateFeatures) -> ValidKrateFeatures
    ensures { result ≡ features_of entry }
{
    ValidKrateFeatures {
        spec: entry.spec,
        features: Features {
            allow: entry.allow,
            deny: entry.deny,
            exact: entry.exact,
        },
        reason: entry.reason,
    }
}

fn all_features(
    alloc: Global,
    entries: List<CrateFeatures>,
) -> Result<List<ValidKrateFeatures>, NoMemory>
    ensures { IfOk result (λ all. all ≡ map features_of entries) }
{
    let mut all = List::new(alloc);
    'entries: for entry in entries.vec {
        all.push(features_of(entry))?;
    }
    Ok(all)
}

/// The table `build` as the rules take it, if there is one.
fn valid_build_of(
    alloc: Global,
    build: Option<BuildConfig>,
    older_key: Option<Span>,
    files: &mut Files,
) -> Result<Option<ValidBuildConfig>, NoMemory>
    requires few { length files.old < 2 ^ 31 }
    ensures valid { IfOk result (OfBoth (λ build. IsBuildOf build (length files.old) older_key) build) }
    ensures files { OnOk result (files.new
        ≡ files.old ++ option_map_or (λ build. files_of build.enable_builtin_globs) build []) }
    ensures files_too { OnErr result (HasFiles
        (option_map_or (λ build. files_of build.enable_builtin_globs) build []) files.old files.new) }
{
    match build {
        Some(build) => Ok(Some(valid_build(alloc, build, older_key, files)?)),
        None => Ok(None),
    }
}

/// The parts of a configuration that the rules take in another form than they are written in.
struct Remade {
    denied: Denied,
    features: List<ValidKrateFeatures>,
    build: Option<ValidBuildConfig>,
}

/// The parts made of these entries and of the table `build`. When out of memory, the files are unchanged, or have
/// those that the table asks for.
fn remade_of(
    alloc: Global,
    deny: List<CrateBan>,
    features: List<CrateFeatures>,
    build: Option<BuildConfig>,
    older_key: Option<Span>,
    files: &mut Files,
) -> Result<Remade, NoMemory>
    requires few { length files.old < 2 ^ 31 }
    ensures bans { IfOk result (λ all. all.denied.bans ≡ map ban_of (filter is_ban deny)) }
    ensures others { IfOk result (λ all. all.denied.others ≡ map (λ e. e.spec) (filter is_multiple deny)) }
    ensures features { IfOk result (λ all. all.features ≡ map features_of features) }
    ensures build { IfOk result
        (λ all. OfBoth (λ build. IsBuildOf build (length files.old) older_key) build all.build) }
    ensures files { OnOk result (files.new
        ≡ files.old ++ option_map_or (λ build. files_of build.enable_builtin_globs) build []) }
    ensures files_too { OnErr result (HasFiles
        (option_map_or (λ build. files_of build.enable_builtin_globs) build []) files.old files.new) }
{
    Ok(Remade {
        denied: divided(alloc, deny)?,
        features: all_features(alloc, features)?,
        build: valid_build_of(alloc, build, older_key, files)?,
    })
}

/// The configuration as the rules take it. When out of memory, the files are unchanged, or have those that the
/// configuration asks for.
fn valid_of(
    alloc: Global,
    file_id: FileId,
    files: &mut Files,
    config: Config,
) -> Result<ValidConfig, NoMemory>
    requires few { length files.old < 2 ^ 31 }
    ensures valid { IfOk result (IsValidOf config file_id (length files.old)) }
    ensures files { OnOk result (files.new ≡ files.old ++ files_asked config) }
    ensures files_too { OnErr result (HasFiles (files_asked config) files.old files.new) }
{
    let older_key = older_key_by(&config.build, &config.allow_build_scripts);
    let build = build_by(config.build, config.allow_build_scripts);
    let Remade {
        denied,
        features,
        build,
    } = remade_of(alloc, config.deny, config.features, build, older_key, files)?;
    Ok(ValidConfig {
        file_id,
        multiple_versions: config.multiple_versions,
        multiple_versions_include_dev: config.multiple_versions_include_dev,
        highlight: config.highlight,
        denied: denied.bans,
        denied_multiple_versions: denied.others,
        allowed: config.allow,
        allow_workspace: config.allow_workspace,
        external_default_features: config.external_default_features,
        workspace_default_features: config.workspace_default_features,
        features,
        skipped: config.skip,
        tree_skipped: config.skip_tree,
        wildcards: config.wildcards,
        allow_wildcard_paths: config.allow_wildcard_paths,
        workspace_dependencies: config.workspace_dependencies,
        std_replacements: config.std_replacements,
        build,
    })
}

/// The text of the file of a number; empty where there is no such file.
fn source_in(files: &Files, id: FileId) -> &str
    ensures { result.now ≡ source_in files.now id }
{
    match files.source(id) {
        Some(source) => source,
        None => "",
    }
}

/// Reports the clashes of a configuration that is read from the text, and behind them what is deprecated. When out
/// of memory, a prefix of these diagnostics is reported.
fn report(
    alloc: Global,
    file: FileId,
    source: &str,
    config: &Config,
    reported: &mut List<Diagnostic>,
) -> Result<(), NoMemory>
    ensures ok { OnOk result (Gains (AreReported source.now config.now file) reported.old reported.new) }
    ensures err { OnErr result (GainsPrefixOf (AreReported source.now config.now file) reported.old reported.new) }
{
    let clashes = ordered_clashes(alloc, source, config)?;
    report_clashes(alloc, file, clashes.as_slice(), reported)?;
    report_deprecated(
        alloc,
        file,
        older_key_by(&config.build, &config.allow_build_scripts),
        reported,
    )
}

impl UnvalidatedConfig for Config {
    type ValidCfg = ValidConfig;

    ghost is_valid_of = { IsValidOf };

    ghost are_reported = { λ config source file reported. AreReported source config file reported };

    ghost files_asked = { files_asked };

    fn validate(self, ctx: ValidationContext<'_>) -> Result<ValidConfig, NoMemory> {
        let ValidationContext {
            alloc,
            cfg_id,
            files,
            diagnostics,
        } = ctx;
        report(alloc, cfg_id, source_in(files, cfg_id), &self, diagnostics)?;
        valid_of(alloc, cfg_id, files, self)
    }
}
