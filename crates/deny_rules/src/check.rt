//! The bans check.
ghost use Rattle.std.specs.Prelude.{◌≡◌, ◌++◌, IfOk, None, OnErr, option_copied};
ghost use Rattle.deny_cfg.specs.PolicyView.{building_of, policy_view};
ghost use Rattle.deny_base_lists.specs.Ascending.{Lists};
ghost use Rattle.deny_base_disk.specs.Disk.{IsLater};
ghost use Rattle.deny_base.specs.KeyOrder.{key_cmp};
ghost use Rattle.deny_spec_report.specs.Circumstances.{Circumstances};
ghost use Rattle.deny_spec_report.specs.Saying.{said_by};
ghost use Rattle.deny_spec_report.specs.StdReplacements.{ignore_hits_in};
ghost use Rattle.deny_rules_match.specs.Marks.{facts_of};
ghost use Rattle.deny_rules_manifests.specs.Uses.{AreUses};
ghost use Rattle.deny_spec.specs.Facts.{AreFacts};
ghost use Rattle.deny_spec.specs.Hits.{all_hits};
ghost use Rattle.deny_spans.specs.SpansView.{AreSpansOf, spans_view};
ghost use Rattle.deny_build_scan.specs.Why.{AreFoldersOf};
ghost use Rattle.deny_diags_parts.specs.Context.{circumstances_by};
ghost use Rattle.deny_base_unread.specs.Bound.{Folders};
ghost use Rattle.deny_base_unread.specs.Causes.{AreCaused};
ghost use Rattle.deny_krates_reach.specs.Reached.{AreReached};
ghost use Rattle.deny_rules.specs.Check.{IsCheckOf, IsTableThere, ReportsPrefixOf, circumstances_of};
ghost use Rattle.deny_rules.specs.private.OfPackages.{bypass_hits_by, facts_by};
ghost use Rattle.deny_rules.specs.private.OwnRules.{IsByRule};
ghost use Rattle.deny_rules.specs.private.Replaced.{IsFoundForPolicy};
ghost use Rattle.deny_rules.specs.private.Reported.{IsReportedBy, ReportsPrefixBy};

use crate::packages::{PackageScan, add_bypass_hits, add_package_keys, scan_packages};
use crate::replaced::{add_ignore_hits, replacements_in, report_replaced};
use deny_base::{Hit, Key, Pack, key_order};
use deny_base_disk::PackageFiles;
use deny_base_lists::{List, NoMemory, put_in_order};
use deny_base_unread::Unread;
use deny_cfg::bans::cfg::ValidConfig;
use deny_diags::report_all;
use deny_krates::Krates;
use deny_rules_crates::{add_ban_keys, add_duplicate_keys, add_skip_keys, hits_of};
use deny_rules_dup_edges::{DupEdges, dup_edges_of};
use deny_rules_features::add_feature_keys;
use deny_rules_manifests::{Uses, add_manifest_keys, uses_of};
use deny_rules_match::Matches;
use deny_spans::KrateSpans;
use deny_std::Replacements;
use std::alloc::Global;

/// What the check is given.
#[derive(Clone, Copy)]
pub struct CheckCtx<'a> {
    pub cfg: &'a ValidConfig,
    pub krates: &'a Krates,
    /// The spans of the crates of the graph in manifests and in the lock text.
    pub krate_spans: &'a KrateSpans<'a>,
    /// The bytes of a table of replacements, where one is given.
    pub table: Option<&'a [u8]>,
    /// The folder that the paths of package files are shown from, where one is named.
    pub home: Option<&'a str>,
}

/// What the check gives besides its findings.
#[derive(Drop)]
pub struct BansEnd {
    /// One for each entry that is hit, by its first crate and then its first dependent or file.
    pub hits: List<Hit>,
    /// One for each duplicate, in the order of their keys.
    pub dup_edges: List<DupEdges>,
    /// What could not be read of packages.
    pub unread: List<Unread>,
}

/// The hits and the edges of duplicates, which the check gives besides its findings.
#[derive(Drop)]
struct HitsAndEdges {
    hits: List<Hit>,
    dup_edges: List<DupEdges>,
}

/// The keys of the rules on crates, their features, manifests, and packages, by the crates that the policy's
/// entries match; ascending, each once.
fn keys_of(
    alloc: Global,
    found: &Matches<'_>,
    spans: &KrateSpans<'_>,
    uses: &Uses<'_, '_>,
    scan: &PackageScan,
) -> Result<List<Key>, NoMemory>
    requires spans { AreSpansOf found.now.krates.now spans.now }
    requires uses { AreUses (policy_view found.now.cfg.now) found.now.krates.now (spans_view spans.now) uses.now }
    ensures { IfOk result (Lists key_cmp (IsByRule
        (circumstances_by found.now.cfg.now found.now.krates.now spans.now scan.now.packages)
        (facts_by found.now.marks scan.now.reached.items))) }
{
    let cfg = found.cfg;
    let krates = found.krates;
    key_order();
    let mut keys = List::new(alloc);
    add_ban_keys(alloc, found, &mut keys)?;
    add_skip_keys(alloc, found, &mut keys)?;
    add_duplicate_keys(alloc, found, &mut keys)?;
    add_feature_keys(alloc, cfg, krates, &mut keys)?;
    add_manifest_keys(alloc, found, spans, uses, &mut keys)?;
    add_package_keys(alloc, cfg, krates, scan, &mut keys)?;
    put_in_order(&mut keys)?;
    Ok(keys)
}

/// The hits of the entries for crates, of those that ignore replaced crates, and of bypasses.
fn hits_found(
    alloc: Global,
    found: &Matches<'_>,
    replaced: &Option<Replacements<'_>>,
    scan: &PackageScan,
) -> Result<List<Hit>, NoMemory>
    ensures { IfOk result (λ hits. (c : Circumstances)
        → IsFoundForPolicy c.policy c.graph (said_by c.table) replaced.now
        → hits ≡ all_hits (policy_view found.now.cfg.now) found.now.krates.now (facts_of found.now.marks)
        ++ (ignore_hits_in c ++ bypass_hits_by (building_of found.now.cfg.now) found.now.krates.now
        scan.now.reached.items scan.now.packages)) }
{
    let mut hits = hits_of(alloc, found)?;
    add_ignore_hits(replaced, &mut hits)?;
    add_bypass_hits(alloc, found.cfg, found.krates, scan, &mut hits)?;
    Ok(hits)
}

/// Appends the findings of the rules on crates, their features, manifests and packages, and of what the
/// standard library replaces, one a pack, in the order of their keys.
///
/// A policy that asks for a table of replacements needs one; otherwise its bytes are not read. Where
/// memory runs out, `sink` holds what it held before and then a prefix of the findings, which may be
/// empty. Nothing is read from the disk but what the policy asks of packages; without a build
/// configuration the disk is left as it was. What could not be read stops nothing: it has an entry, by a
/// bound or a failed call.
pub fn check<D: PackageFiles>(
    alloc: Global,
    ctx: &CheckCtx<'_>,
    disk: &mut D,
    sink: &mut List<Pack>,
) -> Result<BansEnd, NoMemory>
    requires table { IsTableThere ctx.now.cfg.now (option_copied ctx.now.table) }
    requires spans { AreSpansOf ctx.now.krates.now ctx.now.krate_spans.now }
    ensures checked { IfOk result (IsCheckOf (D.seen disk.old) (D.seen disk.new) ctx.now.cfg.now ctx.now.krates.now
        (option_copied ctx.now.table) (option_copied ctx.now.home) ctx.now.krate_spans.now sink.old sink.new) }
    ensures prefix { OnErr result (ReportsPrefixOf (D.seen disk.old).files ctx.now.cfg.now ctx.now.krates.now
        (option_copied ctx.now.table) (option_copied ctx.now.home) ctx.now.krate_spans.now sink.old sink.new) }
    ensures caused { IfOk result (λ end. (folder : Folders) → AreFoldersOf ctx.now.krates.now folder
        → AreCaused folder (D.seen disk.old) (D.seen disk.new) end.unread) }
    ensures untouched { building_of ctx.now.cfg.now ≡ None → disk.new ≡ disk.old }
    ensures later { IsLater (D.seen disk.old) (D.seen disk.new) }
{
    let found = Matches::new(alloc, ctx.cfg, ctx.krates)?;
    check_found(
        alloc,
        &found,
        ctx.krate_spans,
        ctx.table,
        ctx.home,
        disk,
        sink,
    )
}

/// Checks the crates of a graph, by the crates that the policy's entries match.
fn check_found<D: PackageFiles>(
    alloc: Global,
    found: &Matches<'_>,
    spans: &KrateSpans<'_>,
    table: Option<&[u8]>,
    home: Option<&str>,
    disk: &mut D,
    sink: &mut List<Pack>,
) -> Result<BansEnd, NoMemory>
    requires table { IsTableThere found.now.cfg.now (option_copied table) }
    requires spans { AreSpansOf found.now.krates.now spans.now }
    requires facts { AreFacts (policy_view found.now.cfg.now) found.now.krates.now (facts_of found.now.marks) }
    ensures checked { IfOk result (IsCheckOf (D.seen disk.old) (D.seen disk.new) found.now.cfg.now found.now.krates.now
        (option_copied table.entry) (option_copied home.entry) spans.now sink.old sink.new) }
    ensures prefix { OnErr result (ReportsPrefixOf (D.seen disk.old).files found.now.cfg.now found.now.krates.now
        (option_copied table.entry) (option_copied home.entry) spans.now sink.old sink.new) }
    ensures caused { IfOk result (λ end. (folder : Folders) → AreFoldersOf found.now.krates.now folder
        → AreCaused folder (D.seen disk.old) (D.seen disk.new) end.unread) }
    ensures untouched { building_of found.now.cfg.now ≡ None → disk.new ≡ disk.old }
    ensures later { IsLater (D.seen disk.old) (D.seen disk.new) }
{
    let scan = scan_packages(alloc, found.cfg, found.krates, home, disk)?;
    let shown = report_scan(alloc, found, spans, table, &scan, sink)?;
    Ok(BansEnd {
        hits: shown.hits,
        dup_edges: shown.dup_edges,
        unread: scan.unread,
    })
}

/// Reports the keys that hold, by what was scanned.
fn report_scan(
    alloc: Global,
    found: &Matches<'_>,
    spans: &KrateSpans<'_>,
    table: Option<&[u8]>,
    scan: &PackageScan,
    sink: &mut List<Pack>,
) -> Result<HitsAndEdges, NoMemory>
    requires table { IsTableThere found.now.cfg.now (option_copied table) }
    requires spans { AreSpansOf found.now.krates.now spans.now }
    requires facts { AreFacts (policy_view found.now.cfg.now) found.now.krates.now (facts_of found.now.marks) }
    requires reached { AreReached found.now.krates.now scan.now.reached.items }
    ensures checked { IfOk result (IsReportedBy (circumstances_of found.now.cfg.now found.now.krates.now
        (option_copied table.entry) spans.now scan.now.packages) sink.old sink.new) }
    ensures prefix { OnErr result (ReportsPrefixBy (circumstances_of found.now.cfg.now found.now.krates.now
        (option_copied table.entry) spans.now scan.now.packages) sink.old sink.new) }
{
    let uses = uses_of(alloc, found.cfg, found.krates, spans)?;
    let keys = keys_of(alloc, found, spans, &uses, scan)?;
    report_keys(
        alloc,
        found,
        spans,
        table,
        &uses,
        scan,
        keys.as_slice(),
        sink,
    )
}

/// Reports the keys of the rules, which are given, and those of replaced crates.
fn report_keys(
    alloc: Global,
    found: &Matches<'_>,
    spans: &KrateSpans<'_>,
    table: Option<&[u8]>,
    uses: &Uses<'_, '_>,
    scan: &PackageScan,
    rules: &[Key],
    sink: &mut List<Pack>,
) -> Result<HitsAndEdges, NoMemory>
    requires table { IsTableThere found.now.cfg.now (option_copied table) }
    requires spans { AreSpansOf found.now.krates.now spans.now }
    requires facts { AreFacts (policy_view found.now.cfg.now) found.now.krates.now (facts_of found.now.marks) }
    requires reached { AreReached found.now.krates.now scan.now.reached.items }
    requires uses { AreUses (policy_view found.now.cfg.now) found.now.krates.now (spans_view spans.now) uses.now }
    requires rules { Lists key_cmp (IsByRule
        (circumstances_by found.now.cfg.now found.now.krates.now spans.now scan.now.packages)
        (facts_by found.now.marks scan.now.reached.items)) rules.now }
    ensures checked { IfOk result (IsReportedBy (circumstances_of found.now.cfg.now found.now.krates.now
        (option_copied table.entry) spans.now scan.now.packages) sink.old sink.new) }
    ensures prefix { OnErr result (ReportsPrefixBy (circumstances_of found.now.cfg.now found.now.krates.now
        (option_copied table.entry) spans.now scan.now.packages) sink.old sink.new) }
{
    let cfg = found.cfg;
    let krates = found.krates;
    let replaced = replacements_in(alloc, cfg, krates, table)?;
    let hits = hits_found(alloc, found, &replaced, scan)?;
    let dup_edges = dup_edges_of(alloc, cfg, krates, rules)?;
    let packages = scan.packages.as_slice();
    report_all(alloc, found, spans, uses, packages, rules, sink)?;
    report_replaced(alloc, krates, replaced, cfg.file_id, sink)?;
    Ok(HitsAndEdges { hits, dup_edges })
}
