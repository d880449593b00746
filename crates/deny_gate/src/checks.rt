//! The results of the checks of a policy on a graph: findings, hits, and what could not be read of
//! manifests and packages.
ghost use Rattle.std.specs.Prelude.{◌≡◌, ◌<◌, ◌^◌, ◌++◌, ◌∷◌, [], IfOk, None, length, option_copied};
ghost use Rattle.deny_cfg.specs.LicensingView.{licensing_of};
ghost use Rattle.deny_cfg.specs.PolicyView.{AreGlobsRead, builtin_file_of, policy_view};
ghost use Rattle.deny_base_disk.specs.Disk.{IsLater};
ghost use Rattle.deny_build_scan.specs.Why.{AreFoldersOf};
ghost use Rattle.deny_spans.specs.Seen.{lock_file};
ghost use Rattle.deny_spans.specs.SpansView.{AreSpansOf, spans_view};
ghost use Rattle.deny_spans.specs.Wanted.{AreWanted};
ghost use Rattle.deny_base_unread.specs.Bound.{Folders};
ghost use Rattle.deny_base_unread.specs.Causes.{AreCaused};
ghost use Rattle.deny_gate.specs.Gating.{IsTableFor};
ghost use Rattle.deny_gate.specs.private.Gating.{AreEntriesApart, IsCheckedBy, IsLicensedIf, AreGraphResults};
ghost use Rattle.deny_gate.specs.private.Gating.{extras_in};
ghost use Rattle.deny_gate.specs.private.Warnings.{AreAllFindings};
ghost use Rattle.deny_gate.specs.Report.{lock_id};
ghost use Rattle.deny_gate.specs.Unread.{of_manifests};

use crate::findings::add_findings;
use crate::hits::joined_hits;
use crate::report::Finding;
use crate::unread::joined_unread;
use crate::warnings::warnings_in;
use deny_base::{Files, Hit, Pack};
use deny_base_disk::PackageFiles;
use deny_base_lists::{List, NoMemory, Text};
use deny_base_unread::Unread;
use deny_cfg::Policy;
use deny_krates::Krates;
use deny_krates_lock::lines_ascend;
use deny_rules::{CheckCtx, DupEdges, bans};
use deny_spans::{KrateSpans, Registry};
use std::alloc::Global;

/// The results of both checks, with the policy's own warnings among the findings.
#[derive(Drop)]
pub struct CheckResults {
    pub findings: List<Finding>,
    pub dup_edges: List<DupEdges>,
    pub hits: List<Hit>,
}

/// The results of both checks, and what could not be read of packages.
#[derive(Drop)]
struct Checked {
    results: CheckResults,
    unread: List<Unread>,
}

/// The results of both checks, what could not be read of manifests and packages, and which manifests are
/// malformed.
#[derive(Drop)]
pub struct GraphResults {
    pub results: CheckResults,
    pub unread: List<Unread>,
    pub malformed: List<Text>,
}

/// The inputs of the gate besides a policy and metadata.
#[derive(Clone, Copy)]
pub struct Extras<'a> {
    pub table: Option<&'a [u8]>,
    pub home: Option<&'a str>,
    pub registries: &'a [Registry],
}

/// Runs the licence check, where the policy has a section on licences: appends its packs and gives its
/// hits.
fn check_licenses(
    alloc: Global,
    policy: &Policy,
    krates: &Krates,
    packs: &mut List<Pack>,
) -> Result<List<Hit>, NoMemory>
    ensures { IfOk result (IsLicensedIf (licensing_of policy.now.licenses) krates.now policy.now.bans.file_id
        packs.old packs.new) }
{
    match &policy.licenses {
        Some(cfg) => deny_gate_licenses::check(alloc, cfg, krates, policy.bans.file_id, packs),
        None => Ok(List::new(alloc)),
    }
}

/// The findings of the policy's own warnings, and behind them those of packs.
fn all_findings(
    alloc: Global,
    policy: &Policy,
    packs: List<Pack>,
) -> Result<List<Finding>, NoMemory>
    requires file { policy.now.bans.file_id ≡ 0 }
    ensures { IfOk result (AreAllFindings policy.now packs) }
{
    let mut findings = warnings_in(alloc, policy)?;
    add_findings(packs, &mut findings)?;
    Ok(findings)
}

/// Runs both checks of a policy on a graph, by where the crates stand in the lock text and in manifests,
/// and by what packages hold.
fn run_checks<D: PackageFiles>(
    alloc: Global,
    policy: &Policy,
    krates: &Krates,
    spans: &KrateSpans<'_>,
    extras: &Extras<'_>,
    disk: &mut D,
) -> Result<Checked, NoMemory>
    requires file { policy.now.bans.file_id ≡ 0 }
    requires read { AreGlobsRead policy.now.bans }
    requires apart { AreEntriesApart policy.now }
    requires spans { AreSpansOf krates.now spans.now }
    requires lock { spans.now.lock_id ≡ lock_id (builtin_file_of policy.now.bans) }
    requires table { IsTableFor (policy_view policy.now.bans) (option_copied extras.now.table) }
    ensures checked { IfOk result (IsCheckedBy (D.seen disk.old) (D.seen disk.new) policy.now krates.now
        (option_copied extras.now.table) (option_copied extras.now.home) (spans_view spans.now)) }
    ensures caused { IfOk result (λ checked. (folder : Folders) → AreFoldersOf krates.now folder →
        AreCaused folder (D.seen disk.old) (D.seen disk.new) checked.unread) }
    ensures later { IsLater (D.seen disk.old) (D.seen disk.new) }
{
    deny_spec_report::bans_unlicensed();
    deny_spec_report::bans_unexpired();
    deny_spec_report::policy_keys();
    deny_spec_report::joined_keys();
    let ctx = CheckCtx {
        cfg: &policy.bans,
        krates,
        krate_spans: spans,
        table: extras.table,
        home: extras.home,
    };
    let mut packs = List::new(alloc);
    let end = bans::check(alloc, &ctx, disk, &mut packs)?;
    let licensed = check_licenses(alloc, policy, krates, &mut packs)?;
    let hits = joined_hits(end.hits, licensed)?;
    let findings = all_findings(alloc, policy, packs)?;
    let results = CheckResults {
        findings,
        dup_edges: end.dup_edges,
        hits,
    };
    Ok(Checked {
        results,
        unread: end.unread,
    })
}

/// Reads the manifests of a graph, each once, and runs both checks. The files of manifests are put behind
/// the policy's and the lock text, and what could not be read of packages among what could not be read of
/// manifests.
pub fn check_graph<D: PackageFiles>(
    alloc: Global,
    policy: &Policy,
    krates: &Krates,
    extras: &Extras<'_>,
    disk: &mut D,
    files: &mut Files,
) -> Result<GraphResults, NoMemory>
    requires file { policy.now.bans.file_id ≡ 0 }
    requires read { AreGlobsRead policy.now.bans }
    requires apart { AreEntriesApart policy.now }
    requires table { IsTableFor (policy_view policy.now.bans) (option_copied extras.now.table) }
    requires few { length files.old < 2 ^ 31 }
    requires before { length files.old ≡ lock_id (builtin_file_of policy.now.bans) }
    ensures results { IfOk result (AreGraphResults (D.seen disk.old) (D.seen disk.new) policy.now krates.now
        (extras_in extras.now) (files.old ++ lock_file krates.now.root krates.now ∷ []) files.new) }
    ensures wanted { IfOk result (λ checked. AreWanted krates.now (of_manifests checked.unread)) }
    ensures caused { IfOk result (λ checked. (folder : Folders) → AreFoldersOf krates.now folder →
        AreCaused folder (D.seen disk.old) (D.seen disk.new) checked.unread) }
    ensures later { IsLater (D.seen disk.old) (D.seen disk.new) }
{
    let root = krates.workspace_root();
    let spans = KrateSpans::synthesize(alloc, krates, root, extras.registries, disk, files)?;
    lines_ascend(krates);
    let checked = run_checks(alloc, policy, krates, &spans, extras, disk)?;
    let unread = joined_unread(spans.unread, checked.unread)?;
    Ok(GraphResults {
        results: checked.results,
        unread,
        malformed: spans.malformed,
    })
}
