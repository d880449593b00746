//! The licence check.
ghost use Rattle.std.specs.Prelude.{◌≡◌, ◌++◌, IfOk, OnErr, OnOk};
ghost use Rattle.std.specs.List.{flat_map};
ghost use Rattle.deny_gate_licenses.specs.Check.{IsLicensed};
ghost use Rattle.deny_cfg.specs.LicensingView.{licensing_view};
ghost use Rattle.deny_gate_licenses.specs.private.JudgedCrates.{AreJudgedCrates};
ghost use Rattle.deny_gate_licenses.specs.private.Granters.{policy_granters};
ghost use Rattle.deny_gate_licenses.specs.private.Reported.{ReportsUnused};
ghost use Rattle.deny_gate_licenses.specs.private.Witnesses.{hits_at};

use crate::counted::counted_places;
use crate::diags::report_unused;
use crate::entries::{all_granters, hits_of, unused_of};
use crate::granter::Granter;
use crate::granting::Granting;
use crate::judged::{JudgedCrates, judge_places};
use crate::witnesses::Witnesses;
use deny_base::{FileId, Hit, LintLevel, Pack};
use deny_base_lists::{List, NoMemory};
use deny_cfg::licenses::ValidConfig;
use deny_krates::Krates;
use deny_rules_match::are_placed;
use std::alloc::Global;

/// Appends one pack for each crate that counts, in graph order, and then one for each licence and
/// each exception of the policy that grants nothing, in the order of their keys. `id` is the
/// policy's file.
///
/// A crate counts where a chain without dev edges leads to it from a workspace member, or where the
/// policy counts all. The hits are one for each licence and exception that grants something to a
/// crate, by the first such crate in graph order: those of licences first, in the policy's order.
///
/// Where memory runs out, nothing was appended.
pub fn check(
    alloc: Global,
    cfg: &ValidConfig,
    krates: &Krates,
    id: FileId,
    sink: &mut List<Pack>,
) -> Result<List<Hit>, NoMemory>
    ensures checked { IfOk result (IsLicensed (licensing_view cfg.now) krates.now id sink.old sink.new) }
    ensures unchanged { OnErr result (sink.new ≡ sink.old) }
{
    are_placed(krates);
    let mut judged = judge_graph(alloc, cfg, krates)?;
    let hits = report_granters(alloc, cfg, krates, id, &mut judged)?;
    append(sink, &mut judged.packs)?;
    Ok(hits)
}

/// Reports the entries that grant nothing, and answers the hits of those that grant something.
fn report_granters(
    alloc: Global,
    cfg: &ValidConfig,
    krates: &Krates,
    id: FileId,
    judged: &mut JudgedCrates,
) -> Result<List<Hit>, NoMemory>
    ensures reported { OnOk result (ReportsUnused (licensing_view cfg.now).unused_allowed id
        (policy_granters (licensing_view cfg.now)) judged.old.witnesses judged.old.packs judged.new.packs) }
    ensures hits { IfOk result (λ hits. hits
        ≡ flat_map (hits_at krates.now judged.old.witnesses) (policy_granters (licensing_view cfg.now))) }
{
    let granters = all_granters(alloc, cfg)?;
    add_unused(
        alloc,
        cfg.unused_allowed,
        id,
        granters.as_slice(),
        &judged.witnesses,
        &mut judged.packs,
    )?;
    hits_of(alloc, krates, granters.as_slice(), &judged.witnesses)
}

/// The packs of the crates that count, and the first of them to which each entry grants a licence.
fn judge_graph(alloc: Global, cfg: &ValidConfig, krates: &Krates) -> Result<JudgedCrates, NoMemory>
    ensures { IfOk result (AreJudgedCrates cfg.now.include_dev (licensing_view cfg.now) krates.now) }
{
    let granting = Granting::new(alloc, cfg)?;
    judge_by_granting(alloc, &granting, krates)
}

/// The packs and witnesses of a graph, by what the policy grants.
fn judge_by_granting(
    alloc: Global,
    granting: &Granting<'_>,
    krates: &Krates,
) -> Result<JudgedCrates, NoMemory>
    ensures { IfOk result (AreJudgedCrates granting.now.cfg.now.include_dev
        (licensing_view granting.now.cfg.now) krates.now) }
{
    let places = counted_places(alloc, granting.cfg.include_dev, krates)?;
    judge_places(alloc, granting, krates, places.as_slice())
}

/// Appends a pack for each entry that grants nothing, in the order of the entries.
fn add_unused(
    alloc: Global,
    level: LintLevel,
    id: FileId,
    granters: &[Granter],
    witnesses: &Witnesses,
    packs: &mut List<Pack>,
) -> Result<(), NoMemory>
    ensures { OnOk result (ReportsUnused level id granters.now witnesses.now packs.old packs.new) }
{
    let unused = unused_of(alloc, granters, witnesses)?;
    report_unused(alloc, level, id, unused.as_slice(), packs)
}

/// Moves packs to the end of others, all of them or none.
fn append(sink: &mut List<Pack>, packs: &mut List<Pack>) -> Result<(), NoMemory>
    ensures ok { OnOk result (sink.new ≡ sink.old ++ packs.old) }
    ensures err { OnErr result (sink.new ≡ sink.old) }
{
    sink.vec.append(&mut packs.vec)?;
    Ok(())
}
