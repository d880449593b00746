//! Policies read from texts.
ghost use Rattle.std.specs.Prelude.{◌≡◌, ℕ, ◌+◌, ◌++◌, ◌<◌, ◌^◌, ◌∷◌, [], All, IfOk, IfErr, IfSome, None};
ghost use Rattle.std.specs.Prelude.{OnOk, Option, length, take};
ghost use Rattle.deny_toml.specs.Apart.{AreApart};
ghost use Rattle.deny_toml.specs.Calls.{below_name, value_at, without};
ghost use Rattle.deny_toml.specs.Faults.{Reports, fault_at, in_order};
ghost use Rattle.deny_toml.specs.Parser.{IsTreeOf};
ghost use Rattle.deny_toml.specs.Spans.{OccursIn};
ghost use Rattle.deny_toml.specs.TableHelper.{optional_faults};
ghost use Rattle.deny_cfg_entries.specs.declared.day.Day as day;
ghost use Rattle.deny_cfg_tables.specs.Config.{faults_of_config};
ghost use Rattle.deny_cfg_tables.specs.Licenses.{faults_of_licenses};
ghost use Rattle.deny_cfg.specs.Current.{AreInOrder, IsCurrent};
ghost use Rattle.deny_cfg.specs.Warnings.{expired_warnings, warnings_of};
ghost use Rattle.deny_cfg.specs.LabelSpans.{AreLabels, expired_spans, licence_spans};
ghost use Rattle.deny_cfg.specs.private.LabelSpans.{config_labels};
ghost use Rattle.deny_cfg.specs.LabelSpans.{older_span, word_labels};
ghost use Rattle.deny_cfg.specs.private.LabelSpans.{list_spans};
ghost use Rattle.deny_cfg.specs.Marks.{IsPolicySpan};
ghost use Rattle.deny_cfg.specs.Lawful.{IsLawful, IsLawfulLicensing};
ghost use Rattle.deny_cfg.specs.PolicyText.{IsNoPolicy, IsPolicyOf, KeepsOnError, ListsFaults};
ghost use Rattle.deny_cfg.specs.private.PolicyText.{AddsOnError, IsConfig};
ghost use Rattle.deny_cfg.specs.PolicyText.{ReadsBans, ReadsLicensing, Says, bans_name, faults_of_tree, globs_files};
ghost use Rattle.deny_cfg.specs.PolicyText.{kind_of, licenses_name, policy_files};
ghost use Rattle.deny_cfg.specs.PolicyView.{builtin_file_of, past_waivers_of};
ghost use Rattle.deny_cfg.specs.Validating.{source_in};
ghost use Rattle.deny_cfg.specs.Waiting.{no_today};

use crate::bans::cfg::ValidConfig;
use crate::expired::{ExpiredWaiver, ids_of, take_from_bans, take_from_licenses};
use crate::licenses;
use crate::validate::{UnvalidatedConfig, ValidationContext};
use crate::waiting::no_today;
use crate::warnings::report_expired;
use deny_base::{Diagnostic, EntryId, FileId, Files, Span};
use deny_base_lists::{List, NoMemory, Text, put_records_in_order};
use deny_cfg_build::older_key_by;
use deny_cfg_entries::Day;
use deny_cfg_tables::bans::cfg::Config;
use deny_toml::{
    ConfigFault, DeserError, FaultKind, TableHelper, TomlError, TomlKind, Value, parse,
    put_faults_in_order,
};
use std::alloc::Global;
use thiserror::Error;

/// The policy of a day that was read from a text: entries whose last day has passed are not among its entries.
#[derive(Drop)]
pub struct Policy {
    /// The table `bans`, with its defaults where the text has no such table.
    pub bans: ValidConfig,
    /// The table `licenses`; None exactly where the text has no such table.
    pub licenses: Option<licenses::ValidConfig>,
    /// The entries whose last day has passed, by range.
    pub expired: List<EntryId>,
    /// What these entries say, in the same order.
    pub expired_waivers: List<ExpiredWaiver>,
    /// Warnings about the policy itself: that `allow-build-scripts` stands for the table `build`, and then one for
    /// each entry whose last day has passed.
    pub warnings: List<Diagnostic>,
}

/// Why a text is no policy.
#[derive(Debug, Drop, Error)]
pub enum PolicyError {
    /// All faults of the text, in ascending order of span, kind and key.
    #[error("the policy has faults")]
    Config(List<ConfigFault>),
    /// The clashes of the text, by kind and then by the spans of the labels.
    #[error("entries of the policy contradict each other")]
    Invalid(List<Diagnostic>),
    /// Out of memory.
    #[error("the memory did not suffice")]
    Memory,
}

impl From<NoMemory> for PolicyError {
    ghost use Rattle.std.specs.Prelude.{◌≡◌};
    ghost use Rattle.deny_cfg.specs.declared.policy.PolicyError.TheVariants.{Memory};

    ghost from_gives = { λ _ e. e ≡ Memory };

    fn from(_error: NoMemory) -> PolicyError {
        PolicyError::Memory
    }
}

impl PolicyError {
    /// The error of a text with a single fault, which is not at a key.
    fn of_text(alloc: Global, kind: FaultKind, span: Span) -> PolicyError
        ensures { IsConfig (λ faults. faults ≡ fault_at kind [] span ∷ []) result }
    {
        let mut faults = List::new(alloc);
        let fault = ConfigFault::new(kind, Text::new(alloc), span);
        match faults.push(fault) {
            Ok(()) => PolicyError::Config(faults),
            Err(_) => PolicyError::Memory,
        }
    }
}

/// The tree of a text.
fn tree_of<'t>(alloc: Global, text: &'t str) -> Result<Value<'t>, PolicyError>
    requires small { length text.now < 2 ^ 28 }
    ensures tree { IfOk result (IsTreeOf text.now) }
    ensures holds { IfOk result (OccursIn text.now) }
    ensures apart { IfOk result AreApart }
    ensures faults { IfErr result (IsConfig (λ faults. (today : Option day.Day) → ListsFaults today text.now faults)) }
{
    match parse(alloc, text) {
        Ok(tree) => Ok(tree),
        Err(TomlError::Fault { kind, span }) => Err(PolicyError::of_text(
            alloc,
            fault_kind(kind),
            span,
        )),
        Err(TomlError::Memory) => Err(PolicyError::Memory),
    }
}

fn fault_kind(kind: TomlKind) -> FaultKind
    ensures { result ≡ kind_of kind }
{
    match kind {
        TomlKind::Grammar => FaultKind::Grammar,
        TomlKind::Clash => FaultKind::Clash,
    }
}

/// The tables of a policy, whose entries may still clash.
#[derive(Drop)]
struct Tables {
    /// The table `bans`, with its defaults where the text has no such table.
    bans: Config,
    /// The table `licenses`, if the text has one.
    licenses: Option<licenses::Config>,
}

impl Tables {
    /// The tables of a policy that has neither.
    fn none(alloc: Global) -> Tables
        ensures bans { ReadsBans None result.bans }
        ensures licenses { result.licenses ≡ None }
    {
        Tables {
            bans: Config::new(alloc),
            licenses: None,
        }
    }
}

/// Reads the tables of a tree; other keys of the root are not read.
fn read_tables(
    alloc: Global,
    today: Option<Day>,
    tree: &mut Value<'_>,
) -> Result<Tables, DeserError>
    ensures faultless { IfOk result (λ tables. faults_of_tree today tree.old ≡ []) }
    ensures bans { IfOk result (λ tables. ReadsBans (below_name bans_name tree.old) tables.bans) }
    ensures licenses { IfOk result (λ tables. ReadsLicensing (below_name licenses_name tree.old) tables.licenses) }
    ensures faults { IfErr result (Reports (faults_of_tree today tree.old)) }
{
    let waiting = no_today(alloc, today, tree)?;
    if tree.as_table().is_none() {
        return tables_or_faults(Tables::none(alloc), waiting);
    }
    let mut root = TableHelper::new(alloc, tree)?;
    root.keep(waiting)?;
    let tables = tables_in_root(alloc, &mut root)?;
    tables_or_faults(tables, root.faults)
}

/// Reads the tables in a root. The helper keeps their faults.
fn tables_in_root(alloc: Global, root: &mut TableHelper<'_>) -> Result<Tables, NoMemory>
    ensures bans { IfOk result (λ tables.
        optional_faults faults_of_config bans_name (value_at bans_name root.old.entries) ≡ []
        → ReadsBans (value_at bans_name root.old.entries) tables.bans) }
    ensures licenses { IfOk result (λ tables.
        optional_faults faults_of_licenses licenses_name (value_at licenses_name root.old.entries) ≡ []
        → ReadsLicensing (value_at licenses_name root.old.entries) tables.licenses) }
    ensures kept { OnOk result (root.new.faults ≡ root.old.faults
        ++ (optional_faults faults_of_config bans_name (value_at bans_name root.old.entries)
        ++ optional_faults faults_of_licenses licenses_name (value_at licenses_name root.old.entries))) }
{
    let bans = bans_in(alloc, root)?;
    let licenses = root.optional::<licenses::Config>("licenses")?;
    Ok(Tables { bans, licenses })
}

/// Reads the table `bans` in a root, with its defaults where the root has no such table, or a table with faults. The
/// helper keeps the faults.
fn bans_in(alloc: Global, root: &mut TableHelper<'_>) -> Result<Config, NoMemory>
    ensures reads { IfOk result (λ bans.
        optional_faults faults_of_config bans_name (value_at bans_name root.old.entries) ≡ []
        → ReadsBans (value_at bans_name root.old.entries) bans) }
    ensures kept { OnOk result (root.new ≡ record root.old {
      entries = without bans_name root.old.entries;
      faults = root.old.faults ++ optional_faults faults_of_config bans_name (value_at bans_name root.old.entries);
    }) }
{
    let bans = root.optional::<Config>("bans")?;
    Ok(bans.unwrap_or(Config::new(alloc)))
}

/// The tables, where there are no faults; else the faults in order.
fn tables_or_faults(tables: Tables, faults: List<ConfigFault>) -> Result<Tables, DeserError>
    ensures faultless { IfOk result (λ given. in_order faults ≡ []) }
    ensures same { IfOk result (λ given. given ≡ tables) }
    ensures faults { IfErr result (Reports (in_order faults)) }
{
    faultless(faults)?;
    Ok(tables)
}

/// An error with the faults in order, where there are some.
#[tactic(auto, using(deny_toml_tree::proofs::FaultLaws::in_order_ascends))]
fn faultless(faults: List<ConfigFault>) -> Result<(), DeserError>
    ensures none { OnOk result (in_order faults ≡ []) }
    ensures some { IfErr result (Reports (in_order faults)) }
{
    let mut faults = faults;
    put_faults_in_order(&mut faults)?;
    if faults.len() == 0 {
        Ok(())
    } else {
        Err(DeserError::Faults(faults))
    }
}

/// The tables of a text, whose entries may still clash.
fn tables_of(alloc: Global, today: Option<Day>, text: &str) -> Result<Tables, PolicyError>
    requires small { length text.now < 2 ^ 28 }
    ensures says { IfOk result (λ tables. Says today text.now tables.bans tables.licenses) }
    ensures labels { IfOk result (λ tables. AreLabels text.now (config_labels tables.bans)) }
    ensures lists { IfOk result (λ tables. All (IsPolicySpan text.now) (list_spans tables.bans)) }
    ensures licence_labels { IfOk result (λ tables. AreLabels text.now (licence_spans tables.licenses)) }
    ensures faults { IfErr result (IsConfig (ListsFaults today text.now)) }
{
    let mut tree = tree_of(alloc, text)?;
    match read_tables(alloc, today, &mut tree) {
        Ok(tables) => Ok(tables),
        Err(DeserError::Faults(faults)) => Err(PolicyError::Config(faults)),
        Err(DeserError::Memory) => Err(PolicyError::Memory),
    }
}

/// How many warnings a configuration has.
fn warnings_len(bans: &Config) -> usize
    ensures { (file : ℕ) → result ≡ length (warnings_of file bans.now) }
{
    match older_key_by(&bans.build, &bans.allow_build_scripts) {
        Some(_) => 1,
        None => 0,
    }
}

/// The first diagnostics of a list.
fn first_reported(reported: List<Diagnostic>, count: usize) -> List<Diagnostic>
    ensures { result ≡ take count reported }
{
    let mut reported = reported;
    reported.vec.truncate(count);
    reported
}

/// The expired entries in ascending order, and which they are.
fn put_expired_in_order(expired: &mut List<ExpiredWaiver>) -> Result<(), NoMemory>
    ensures { OnOk result (AreInOrder expired.old expired.new) }
{
    put_records_in_order(expired)
}

/// The policy of a day, of one that is written in this file and has these warnings.
fn current_policy(
    alloc: Global,
    today: Option<Day>,
    file: FileId,
    bans: ValidConfig,
    licenses: Option<licenses::ValidConfig>,
    warnings: List<Diagnostic>,
) -> Result<Policy, NoMemory>
    ensures current { IfOk result (IsCurrent today bans licenses) }
    ensures warnings { IfOk result (λ policy.
        policy.warnings ≡ warnings ++ expired_warnings file (past_waivers_of policy)) }
{
    let mut bans = bans;
    let mut licenses = licenses;
    let mut expired = List::new(alloc);
    take_from_bans(alloc, today, &mut bans, &mut expired)?;
    take_from_licenses(alloc, today, &mut licenses, &mut expired)?;
    put_expired_in_order(&mut expired)?;
    let waivers = expired.as_slice();
    let ids = ids_of(alloc, waivers)?;
    let mut warnings = warnings;
    report_expired(alloc, file, waivers, &mut warnings)?;
    Ok(Policy {
        bans,
        licenses,
        expired: ids,
        expired_waivers: expired,
        warnings,
    })
}

/// The policy of a text that is the last file and has this number.
fn policy_of(
    alloc: Global,
    today: Option<Day>,
    text: &str,
    file: FileId,
    files: &mut Files,
) -> Result<Policy, PolicyError>
    requires small { length text.now < 2 ^ 28 }
    requires few { length files.old < 2 ^ 31 }
    requires source { text.now ≡ source_in files.old file }
    requires last { length files.old ≡ file + 1 }
    ensures policy { IfOk result (IsPolicyOf today text.now file) }
    ensures labels { IfOk result (λ policy. AreLabels text.now (word_labels policy.bans)) }
    ensures older_key { IfOk result (λ policy. All (IsPolicySpan text.now) (older_span policy.bans)) }
    ensures expired_labels { IfOk result (λ policy. All (IsPolicySpan text.now) (expired_spans policy.expired_waivers)) }
    ensures lawful { IfOk result (λ policy. IsLawful policy.bans) }
    ensures licence_labels { IfOk result (λ policy. AreLabels text.now (licence_spans policy.licenses)) }
    ensures lawful_licences { IfOk result (λ policy. IfSome policy.licenses IsLawfulLicensing) }
    ensures cause { IfErr result (IsNoPolicy today text.now file) }
    ensures files { IfOk result (λ policy. files.new ≡ files.old ++ globs_files (builtin_file_of policy.bans)) }
    ensures files_too { IfErr result (λ e. AddsOnError today e text.now files.old files.new) }
{
    let tables = tables_of(alloc, today, text)?;
    let warnings = warnings_len(&tables.bans);
    let mut reported = List::new(alloc);
    let bans = tables.bans.validate(ValidationContext {
        alloc,
        cfg_id: file,
        files,
        diagnostics: &mut reported,
    })?;
    if reported.len() == warnings {
        Ok(current_policy(alloc, today, file, bans, tables.licenses, reported)?)
    } else {
        let clashes = reported.len() - warnings;
        Err(PolicyError::Invalid(first_reported(reported, clashes)))
    }
}

/// Reads a policy from a text of under 2^28 bytes. Adds the text, if it is UTF-8, behind the other files as
/// `deny.toml`, and behind that the file of the built-in globs, if the policy asks for them. There have to
/// be fewer than 2^30 other files.
///
/// The error is `Config` exactly where the text has faults, and `Invalid` exactly where it has none and some
/// entries clash. `Memory` may come in place of each of these, and in place of a policy; then both files may
/// have been added, or the first of them, or none.
///
/// An entry that has a last day counts through that day. Where it is not told which day it is, each such day is a
/// fault.
pub fn read_policy(
    alloc: Global,
    bytes: &[u8],
    files: &mut Files,
    today: Option<Day>,
) -> Result<Policy, PolicyError>
    requires small { length bytes.now < 2 ^ 28 }
    requires few { length files.old < 2 ^ 30 }
    ensures policy { IfOk result (IsPolicyOf today bytes.now (length files.old)) }
    ensures labels { IfOk result (λ policy. AreLabels bytes.now (word_labels policy.bans)) }
    ensures older_key { IfOk result (λ policy. All (IsPolicySpan bytes.now) (older_span policy.bans)) }
    ensures expired_labels { IfOk result (λ policy. All (IsPolicySpan bytes.now) (expired_spans policy.expired_waivers)) }
    ensures lawful { IfOk result (λ policy. IsLawful policy.bans) }
    ensures licence_labels { IfOk result (λ policy. AreLabels bytes.now (licence_spans policy.licenses)) }
    ensures lawful_licences { IfOk result (λ policy. IfSome policy.licenses IsLawfulLicensing) }
    ensures cause { IfErr result (IsNoPolicy today bytes.now (length files.old)) }
    ensures kept { IfOk result (λ policy. files.new ≡ files.old ++ policy_files bytes.now policy.bans) }
    ensures kept_too { IfErr result (λ e. KeepsOnError today e bytes.now files.old files.new) }
{
    match str::from_utf8(bytes) {
        Ok(text) => {
            let file = files.add("deny.toml", text)?;
            policy_of(alloc, today, text, file, files)
        }
        Err(_) => Err(PolicyError::of_text(alloc, FaultKind::NotUtf8, Span { start: 0, end: 0 })),
    }
}
