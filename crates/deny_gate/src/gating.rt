ghost use Rattle.std.specs.Prelude.{◌≡◌, ◌≢◌, ◌<◌, ◌^◌, ◌++◌, [], ◌∷◌, All, length, IfOk, IfErr, OnOk};
ghost use Rattle.std.specs.Prelude.{is_some, option_copied};
ghost use Rattle.deny_cfg.specs.LabelSpans.{AreLabels, expired_spans, licence_spans, older_span, word_labels};
ghost use Rattle.deny_cfg.specs.Marks.{IsPolicySpan};
ghost use Rattle.deny_cfg.specs.PolicyText.{IsPolicyOf, policy_files};
ghost use Rattle.deny_cfg.specs.PolicyView.{AreGlobsRead, builtin_file_of, policy_view};
ghost use Rattle.deny_krates.specs.Read.{IsGraphOf};
ghost use Rattle.deny_base_disk.specs.Disk.{IsLater};
ghost use Rattle.deny_spec_report.specs.Saying.{HasTable};
ghost use Rattle.deny_spec_report.specs.StdReplacements.{asks_for_table};
ghost use Rattle.deny_build_scan.specs.Why.{AreFoldersOf};
ghost use Rattle.deny_spans.specs.Seen.{lock_file};
ghost use Rattle.deny_spans.specs.Wanted.{AreWanted};
ghost use Rattle.deny_base_unread.specs.Bound.{Folders};
ghost use Rattle.deny_base_unread.specs.Causes.{AreCaused};
ghost use Rattle.deny_gate.specs.Gating.{AreShort, IsCause, IsCausedReport};
ghost use Rattle.deny_gate.specs.private.Gating.{AreEntriesApart, IsCauseBehind};
ghost use Rattle.deny_gate.specs.Gating.{IsReportOf};
ghost use Rattle.deny_gate.specs.private.Gating.{IsJudged, IsMetadataCause, IsPolicyCause, IsPolicyReport};
ghost use Rattle.deny_gate.specs.Gating.{IsTableFor};
ghost use Rattle.deny_gate.specs.private.Gating.{IsTableCause, IsTableCauseFor, AreGraphResults};
ghost use Rattle.deny_gate.specs.Gating.{texts_in};
ghost use Rattle.deny_gate.specs.private.Gating.{extras_in, extras_of, report_with};
ghost use Rattle.deny_gate.specs.Dead.{CanDoWithoutDead};
ghost use Rattle.deny_gate.specs.Headline.{IsHeadlineOf};
ghost use Rattle.deny_gate.specs.Labels.{AreLabelled, IsLabelledCause};
ghost use Rattle.deny_gate.specs.Report.{lock_id, policy_id};
ghost use Rattle.deny_gate.specs.Stats.{code_of, exit_code};
ghost use Rattle.deny_gate.specs.Unread.{of_manifests};
ghost use Rattle.deny_gate.specs.declared.report.GateError.TheVariants.{Memory};

use crate::checks::{Extras, GraphResults, check_graph};
use crate::dead::dead_of;
use crate::findings::verdict_of;
use crate::report::{GateError, Inputs, Report, Verdict};
use crate::stats::{AllStats, all_stats};
use deny_base::{EntryId, Files};
use deny_base_disk::PackageFiles;
use deny_base_lists::{List, NoMemory};
use deny_cfg::bans::cfg::ValidConfig;
use deny_cfg::{Day, Policy, PolicyError, Scope, read_policy};
use deny_krates::{Krates, MetadataFault};
use deny_std::{ReplacementData, ReplacementError};
use std::alloc::Global;

/// The policy of a text on a day.
#[tactic(auto, using(crate::proofs::PolicyFiles::lock_number, crate::proofs::PolicyFiles::read_there))]
fn policy_of(
    alloc: Global,
    text: &[u8],
    files: &mut Files,
    today: Option<Day>,
) -> Result<Policy, GateError>
    requires small { length text.now < 2 ^ 28 }
    requires first { files.old ≡ [] }
    ensures ok { IfOk result (IsPolicyOf today text.now policy_id) }
    ensures labels { IfOk result (λ policy. AreLabels text.now (word_labels policy.bans)) }
    ensures licence_labels { IfOk result (λ policy. AreLabels text.now (licence_spans policy.licenses)) }
    ensures older_key { IfOk result (λ policy. All (IsPolicySpan text.now) (older_span policy.bans)) }
    ensures expired_labels { IfOk result (λ policy.
        All (IsPolicySpan text.now) (expired_spans policy.expired_waivers)) }
    ensures read { IfOk result (λ policy. AreGlobsRead policy.bans) }
    ensures apart { IfOk result AreEntriesApart }
    ensures err { IfErr result (IsPolicyCause today text.now) }
    ensures files { IfOk result (λ policy. files.new ≡ policy_files text.now policy.bans) }
    ensures lock { IfOk result (λ policy. length files.new ≡ lock_id (builtin_file_of policy.bans)) }
{
    match read_policy(alloc, text, files, today) {
        Ok(policy) => Ok(policy),
        Err(PolicyError::Config(faults)) => Err(GateError::Config(faults)),
        Err(PolicyError::Invalid(clashes)) => Err(GateError::Invalid(clashes)),
        Err(PolicyError::Memory) => Err(GateError::Memory),
    }
}

/// The graph of metadata, which has to be without fault.
fn read_graph(alloc: Global, bytes: &[u8]) -> Result<Krates, GateError>
    requires { length bytes.now < 2 ^ 28 }
    ensures ok { IfOk result (IsGraphOf bytes.now) }
    ensures err { IfErr result (IsMetadataCause bytes.now) }
{
    match Krates::build(alloc, bytes) {
        Ok(krates) => Ok(krates),
        Err(MetadataFault::Memory) => Err(GateError::Memory),
        Err(fault) => Err(GateError::Metadata(fault)),
    }
}

/// Whether a policy checks for crates that the standard library replaces, and has some crates in scope.
fn asks_for_table(cfg: &ValidConfig) -> bool
    ensures { result ≡ asks_for_table (policy_view cfg.now) }
{
    match &cfg.std_replacements {
        Some(checking) => !matches!(checking.scope, Scope::None),
        None => false,
    }
}

/// Checks that there are bytes, and that they are a table of replacements.
fn check_table(alloc: Global, table: Option<&[u8]>) -> Result<(), GateError>
    ensures ok { OnOk result (HasTable (option_copied table.entry)) }
    ensures err { IfErr result (IsTableCause (option_copied table.entry)) }
{
    let Some(bytes) = table else {
        return Err(GateError::Replacement(0));
    };
    match ReplacementData::from_bytes(alloc, bytes) {
        Ok(_) => Ok(()),
        Err(ReplacementError::Bad(at)) => Err(GateError::Replacement(at)),
        Err(ReplacementError::Memory) => Err(GateError::Memory),
    }
}

/// Checks the table of replacements where a configuration asks for one; otherwise the bytes are ignored.
fn check_asked_table(
    alloc: Global,
    cfg: &ValidConfig,
    table: Option<&[u8]>,
) -> Result<(), GateError>
    ensures ok { OnOk result (IsTableFor (policy_view cfg.now) (option_copied table.entry)) }
    ensures err { IfErr result (IsTableCauseFor (policy_view cfg.now) (option_copied table.entry)) }
{
    if asks_for_table(cfg) {
        check_table(alloc, table)
    } else {
        Ok(())
    }
}

/// The results on a graph, with the dead entries, the counts of the findings, and the verdict on them.
#[derive(Drop)]
struct Judged {
    checked: GraphResults,
    dead: List<EntryId>,
    stats: AllStats,
    verdict: Verdict,
}

/// Checks a policy on a graph and judges the results. The files of manifests are put behind those of the
/// policy.
fn judged_on<D: PackageFiles>(
    alloc: Global,
    policy: &Policy,
    krates: &Krates,
    extras: &Extras<'_>,
    disk: &mut D,
    files: &mut Files,
) -> Result<Judged, NoMemory>
    requires file { policy.now.bans.file_id ≡ 0 }
    requires read { AreGlobsRead policy.now.bans }
    requires apart { AreEntriesApart policy.now }
    requires table { IsTableFor (policy_view policy.now.bans) (option_copied extras.now.table) }
    requires few { length files.old < 2 ^ 31 }
    requires before { length files.old ≡ lock_id (builtin_file_of policy.now.bans) }
    ensures results { IfOk result (λ judged. AreGraphResults (D.seen disk.old) (D.seen disk.new) policy.now krates.now
        (extras_in extras.now) (files.old ++ lock_file krates.now.root krates.now ∷ []) files.new judged.checked) }
    ensures judged { IfOk result (IsJudged (is_some policy.now.licenses)) }
    ensures wanted { IfOk result (λ judged. AreWanted krates.now (of_manifests judged.checked.unread)) }
    ensures caused { IfOk result (λ judged. (folder : Folders) → AreFoldersOf krates.now folder →
        AreCaused folder (D.seen disk.old) (D.seen disk.new) judged.checked.unread) }
    ensures later { IsLater (D.seen disk.old) (D.seen disk.new) }
{
    let checked = check_graph(alloc, policy, krates, extras, disk, files)?;
    let dead = dead_of(
        alloc,
        checked.results.findings.as_slice(),
        checked.results.hits.as_slice(),
    )?;
    let stats = all_stats(
        policy.licenses.is_some(),
        checked.results.findings.as_slice(),
    );
    let verdict = verdict_of(checked.results.findings.as_slice());
    Ok(Judged {
        checked,
        dead,
        stats,
        verdict,
    })
}

/// The inputs besides a policy and metadata.
fn extras_of(inputs: &Inputs) -> Extras<'_>
    ensures { extras_in result ≡ extras_of (texts_in inputs.now) }
{
    Extras {
        table: inputs.replacements.as_deref(),
        home: inputs.home.as_ref().map(|home| home.as_str()),
        registries: inputs.registries.as_slice(),
    }
}

/// Checks the table that a policy asks for, and then the policy on a graph with the other inputs.
#[tactic(auto, using(crate::proofs::CauseLaws::no_table_cause))]
fn judged_with_inputs<D: PackageFiles>(
    alloc: Global,
    policy: &Policy,
    krates: &Krates,
    inputs: &Inputs,
    disk: &mut D,
    files: &mut Files,
) -> Result<Judged, GateError>
    requires file { policy.now.bans.file_id ≡ 0 }
    requires read { AreGlobsRead policy.now.bans }
    requires apart { AreEntriesApart policy.now }
    requires graph { IsGraphOf inputs.now.metadata.items krates.now }
    requires few { length files.old < 2 ^ 31 }
    requires before { length files.old ≡ lock_id (builtin_file_of policy.now.bans) }
    ensures results { IfOk result (λ judged. AreGraphResults (D.seen disk.old) (D.seen disk.new) policy.now krates.now
        (extras_of (texts_in inputs.now)) (files.old ++ lock_file krates.now.root krates.now ∷ []) files.new
        judged.checked) }
    ensures judged { IfOk result (IsJudged (is_some policy.now.licenses)) }
    ensures table { OnOk result (IsTableFor (policy_view policy.now.bans) (texts_in inputs.now).replacements) }
    ensures cause { IfErr result (IsCauseBehind (policy_view policy.now.bans) (texts_in inputs.now)) }
    ensures wanted { IfOk result (λ judged. AreWanted krates.now (of_manifests judged.checked.unread)) }
    ensures caused { IfOk result (λ judged. (folder : Folders) → AreFoldersOf krates.now folder →
        AreCaused folder (D.seen disk.old) (D.seen disk.new) judged.checked.unread) }
    ensures untouched { IfErr result (λ error. error ≢ Memory → disk.new ≡ disk.old) }
    ensures later { IsLater (D.seen disk.old) (D.seen disk.new) }
{
    let extras = extras_of(inputs);
    check_asked_table(alloc, &policy.bans, extras.table)?;
    let judged = judged_on(alloc, policy, krates, &extras, disk, files)?;
    Ok(judged)
}

/// The report of what was judged on a graph, with its files.
fn report_with(files: Files, krates: Krates, judged: Judged) -> Report
    ensures { result ≡ report_with files krates judged }
{
    let Judged {
        checked,
        dead,
        stats,
        verdict,
    } = judged;
    let GraphResults {
        results,
        unread,
        malformed,
    } = checked;
    Report {
        files,
        krates,
        findings: results.findings,
        dup_edges: results.dup_edges,
        unread,
        malformed,
        hits: results.hits,
        dead,
        stats,
        verdict,
    }
}

/// The report of a policy on a graph, with the files of the policy.
#[tactic(auto, using(crate::proofs::PolicyFiles::few_files))]
fn report_on_graph<D: PackageFiles>(
    alloc: Global,
    files: Files,
    policy: &Policy,
    krates: Krates,
    inputs: &Inputs,
    disk: &mut D,
) -> Result<Report, GateError>
    requires file { policy.now.bans.file_id ≡ 0 }
    requires read { AreGlobsRead policy.now.bans }
    requires apart { AreEntriesApart policy.now }
    requires graph { IsGraphOf inputs.now.metadata.items krates }
    requires first { files ≡ policy_files inputs.now.policy.items policy.now.bans }
    requires lock { length files ≡ lock_id (builtin_file_of policy.now.bans) }
    ensures report { IfOk result (IsPolicyReport (D.seen disk.old) (D.seen disk.new) policy.now (texts_in inputs.now)) }
    ensures cause { IfErr result (IsCauseBehind (policy_view policy.now.bans) (texts_in inputs.now)) }
    ensures wanted { IfOk result (λ report. AreWanted report.krates (of_manifests report.unread)) }
    ensures caused { IfOk result (λ report. (folder : Folders) → AreFoldersOf report.krates folder →
        AreCaused folder (D.seen disk.old) (D.seen disk.new) report.unread) }
    ensures untouched { IfErr result (λ error. error ≢ Memory → disk.new ≡ disk.old) }
    ensures later { IsLater (D.seen disk.old) (D.seen disk.new) }
{
    let mut files = files;
    let judged = judged_with_inputs(alloc, policy, &krates, inputs, disk, &mut files)?;
    Ok(report_with(files, krates, judged))
}

/// The report of a policy on the graph of metadata, with the table that the policy asks for.
#[tactic(auto, using(crate::proofs::CauseLaws::no_graph_cause))]
fn report_on_metadata<D: PackageFiles>(
    alloc: Global,
    files: Files,
    policy: &Policy,
    inputs: &Inputs,
    disk: &mut D,
) -> Result<Report, GateError>
    requires file { policy.now.bans.file_id ≡ 0 }
    requires read { AreGlobsRead policy.now.bans }
    requires apart { AreEntriesApart policy.now }
    requires small { length inputs.now.metadata.items < 2 ^ 28 }
    requires first { files ≡ policy_files inputs.now.policy.items policy.now.bans }
    requires lock { length files ≡ lock_id (builtin_file_of policy.now.bans) }
    ensures report { IfOk result (IsPolicyReport (D.seen disk.old) (D.seen disk.new) policy.now (texts_in inputs.now)) }
    ensures cause { IfErr result (IsCauseBehind (policy_view policy.now.bans) (texts_in inputs.now)) }
    ensures wanted { IfOk result (λ report. AreWanted report.krates (of_manifests report.unread)) }
    ensures caused { IfOk result (λ report. (folder : Folders) → AreFoldersOf report.krates folder →
        AreCaused folder (D.seen disk.old) (D.seen disk.new) report.unread) }
    ensures untouched { IfErr result (λ error. error ≢ Memory → disk.new ≡ disk.old) }
    ensures later { IsLater (D.seen disk.old) (D.seen disk.new) }
{
    let krates = read_graph(alloc, inputs.metadata.as_slice())?;
    report_on_graph(alloc, files, policy, krates, inputs, disk)
}

/// Reads a policy, cargo's metadata and, where the policy asks for one, a table of replacements, and then
/// from the disk the manifests of the graph and the packages that the policy asks for. It reports the
/// findings of the bans check, and behind them, where the policy writes `licenses`, those of the licence
/// check. The report fails by a bit for each check that has an error. It lists the entries of the policy
/// that are hit, and those that are dead: a finding names them as unused, and nothing hits them.
///
/// Each text has to be under 2^28 bytes. The error is the first of these that applies: `Config` exactly
/// where the policy's text has faults, `Invalid` exactly where entries clash, `Metadata` exactly where the
/// metadata has a fault, which is its first, and `Replacement` exactly where the policy asks for a table,
/// and no bytes came (0) or they first break at this offset. `Memory` can come at any point. Each label, of
/// a finding or of a clash, lies on character boundaries in its file; in the policy's, it marks a value of
/// the text's tree or the name of a spec in one, or of a clash also the byte of an extension.
///
/// A manifest that cannot be read or is malformed does not stop a report, nor does a folder or a file of a
/// package: the report lists it, and is made of the others. Something is not read only where a call failed
/// or it is too large. Where the inputs are the cause of an error, nothing is read from the disk.
pub fn gate<D: PackageFiles>(
    alloc: Global,
    inputs: &Inputs,
    disk: &mut D,
) -> Result<Report, GateError>
    requires short { AreShort (texts_in inputs.now) }
    ensures report { IfOk result (IsReportOf (D.seen disk.old).files (texts_in inputs.now)) }
    ensures cause { IfErr result (IsCause (texts_in inputs.now)) }
    ensures headline { IfOk result (IsHeadlineOf (texts_in inputs.now)) }
    // Any dead entries can go from the policy, as long as no list of wrappers is emptied: the report
    // without them is the same, except for findings that name one of them as unused.
    ensures dead_can_go { IfOk result (CanDoWithoutDead (D.seen disk.old).files (texts_in inputs.now)) }
    ensures exit_code { IfOk result (λ report. exit_code report.stats ≡ code_of report.verdict) }
    ensures labels { IfOk result (λ report. AreLabelled report.files report.findings) }
    ensures clash_labels { IfErr result (IsLabelledCause inputs.now.policy.items) }
    // Each entry for a manifest is for one that was to be read: of a crate without a source, or of the
    // workspace. Entries for packages are for what the policy asks of them.
    ensures wanted { IfOk result (λ report. AreWanted report.krates (of_manifests report.unread)) }
    // What was not read has a cause, and the entries that no bound explains are at most as many as the
    // calls that failed.
    ensures caused { IfOk result (IsCausedReport (D.seen disk.old) (D.seen disk.new) (texts_in inputs.now)) }
    // Where the inputs are the cause of an error, nothing was read.
    ensures untouched { IfErr result (λ error. error ≢ Memory → disk.new ≡ disk.old) }
    ensures later { IsLater (D.seen disk.old) (D.seen disk.new) }
{
    deny_spec_removal::entries_can_go();
    deny_spec_removal::packages_stay();
    let mut files = Files::new(alloc);
    let policy = policy_of(alloc, inputs.policy.as_slice(), &mut files, inputs.today)?;
    report_on_metadata(alloc, files, &policy, inputs, disk)
}
