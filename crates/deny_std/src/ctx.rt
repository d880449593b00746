//! The policy's table `std-replacements` applied to a graph and a table of replacements.
ghost use Rattle.std.specs.Prelude.{◌≡◌, IfOk, false, flat_map};
ghost use Rattle.deny_cfg.specs.PolicyView.{replacing_view, scope_view};
ghost use Rattle.deny_spec_report.specs.Saying.{said_in};
ghost use Rattle.deny_spec_report.specs.StdReplacements.{looks_at_none};
ghost use Rattle.deny_base_lists.specs.First.{FindsFirst};
ghost use Rattle.deny_std.specs.Found.{IsFound, IsFoundFrom};
ghost use Rattle.deny_std.specs.private.FirstWitnesses.{place_in, is_same_span};
ghost use Rattle.deny_std.specs.private.Partition.{ignored_at, replaced_in, reported_at};

use crate::dependents::ScopedGraph;
use crate::hits::{first_hits, unmatched_of};
use crate::ignored::Ignored;
use crate::partition::{Partition, partition_places};
use crate::places::are_placed;
use crate::replaced::replaced_places;
use crate::replacements::Replacements;
use deny_base_lists::{List, NoMemory};
use deny_cfg::Scope;
use deny_cfg::bans::cfg::StdReplacementConfig;
use deny_krates::Krates;
use deny_std_table::ReplacementData;
use std::alloc::Global;

/// The policy's settings for crates that the standard library replaces.
#[derive(Drop)]
pub struct ReplacementCtx {
    cfg: StdReplacementConfig,
}

impl ReplacementCtx {
    /// Keeps a configuration.
    pub fn new(cfg: StdReplacementConfig) -> ReplacementCtx
        ensures { result.cfg ≡ cfg }
    {
        ReplacementCtx { cfg }
    }

    /// The crates of the graph that the table replaces; none exactly where the scope is none, and
    /// then nothing is looked up.
    pub fn process<'d>(
        self,
        alloc: Global,
        krates: &Krates,
        table: ReplacementData<'d>,
    ) -> Result<Option<Replacements<'d>>, NoMemory>
        ensures { IfOk result (IsFound (replacing_view self.cfg) krates.now (said_in table.entry)) }
    {
        replacements_of(alloc, &self.cfg, krates, table)
    }
}

/// The crates of a graph that a table replaces, as `ReplacementCtx::process`, by settings that the
/// caller keeps.
pub fn replacements_of<'d>(
    alloc: Global,
    cfg: &StdReplacementConfig,
    krates: &Krates,
    table: ReplacementData<'d>,
) -> Result<Option<Replacements<'d>>, NoMemory>
    ensures { IfOk result (IsFound (replacing_view cfg.now) krates.now (said_in table.entry)) }
{
    if is_none(cfg.scope) {
        return Ok(None);
    }
    Ok(Some(found_in(alloc, cfg, krates, table)?))
}

fn is_none(scope: Scope) -> bool
    ensures { result ≡ looks_at_none (scope_view scope) }
{
    match scope {
        Scope::None => true,
        Scope::All | Scope::Workspace | Scope::Transitive => false,
    }
}

/// The replaced crates of a graph, where the scope is not none.
fn found_in<'d>(
    alloc: Global,
    cfg: &StdReplacementConfig,
    krates: &Krates,
    table: ReplacementData<'d>,
) -> Result<Replacements<'d>, NoMemory>
    requires { looks_at_none (scope_view cfg.now.scope) ≡ false }
    ensures { IfOk result (IsFoundFrom (replacing_view cfg.now) krates.now (said_in table.entry)) }
{
    are_placed(krates);
    let partition = partition_in(alloc, cfg, krates, &table)?;
    let hits = first_hits(alloc, krates, cfg.ignore.as_slice(), &partition.witnesses)?;
    let unmatched = unmatched_of(alloc, cfg.ignore.as_slice(), &partition.witnesses)?;
    Ok(Replacements {
        table,
        level: cfg.level,
        unmatched,
        replaced: partition.reported,
        hits,
    })
}

/// The replaced crates: those that are reported, and the first that hits each ignore.
fn partition_in(
    alloc: Global,
    cfg: &StdReplacementConfig,
    krates: &Krates,
    table: &ReplacementData<'_>,
) -> Result<Partition, NoMemory>
    ensures reported { IfOk result (λ partition. partition.reported ≡ flat_map (reported_at cfg.now.ignore krates.now)
        (replaced_in (replacing_view cfg.now) krates.now (said_in table.now))) }
    ensures witnesses { IfOk result (λ partition. FindsFirst is_same_span
        (flat_map (ignored_at cfg.now.ignore krates.now)
        (replaced_in (replacing_view cfg.now) krates.now (said_in table.now)))
        (place_in partition.witnesses)) }
{
    let replaced = replaced_in(alloc, cfg, krates, table)?;
    let ignored = Ignored::new(alloc, cfg.ignore.as_slice())?;
    partition_places(alloc, krates, &ignored, replaced.as_slice())
}

/// The places of the crates that are replaced.
fn replaced_in(
    alloc: Global,
    cfg: &StdReplacementConfig,
    krates: &Krates,
    table: &ReplacementData<'_>,
) -> Result<List<u32>, NoMemory>
    ensures { IfOk result (λ places. places
        ≡ replaced_in (replacing_view cfg.now) krates.now (said_in table.now)) }
{
    let scoped = ScopedGraph::new(alloc, cfg, krates)?;
    replaced_places(alloc, &scoped, table)
}
