//! The crates of a graph that the standard library replaces, where the policy asks for them.
ghost use Rattle.std.specs.Prelude.{◌≡◌, ◌++◌, IfOk, OnErr, OnOk, Some, option_copied};
ghost use Rattle.deny_cfg.specs.PolicyView.{policy_view, replacing_view, scope_view};
ghost use Rattle.deny_spec_report.specs.Circumstances.{Circumstances};
ghost use Rattle.deny_spec_report.specs.Saying.{HasTable, bytes_of, said_by};
ghost use Rattle.deny_spec_report.specs.StdReplacements.{ignore_hits_in, looks_at_none};
ghost use Rattle.deny_std.specs.Found.{IsFound, ReportsStd, ReportsStdPrefix};
ghost use Rattle.deny_rules.specs.Check.{IsTableThere};
ghost use Rattle.deny_rules.specs.private.Replaced.{IsFoundForPolicy, IsFoundOf};

use deny_base::{FileId, Hit, Pack};
use deny_base_lists::{List, NoMemory};
use deny_cfg::Scope;
use deny_cfg::bans::cfg::{StdReplacementConfig, ValidConfig};
use deny_krates::Krates;
use deny_std::{Replacements, replacements_of};
use deny_std_table::ReplacementData;
use std::alloc::Global;

/// The crates of a graph that a table replaces. None exactly where the policy asks for no table: then its
/// bytes are not read.
pub fn replacements_in<'d>(
    alloc: Global,
    cfg: &ValidConfig,
    krates: &Krates,
    table: Option<&'d [u8]>,
) -> Result<Option<Replacements<'d>>, NoMemory>
    requires table { IsTableThere cfg.now (option_copied table) }
    ensures { IfOk result (IsFoundForPolicy (policy_view cfg.now) krates.now
        (said_by (bytes_of (option_copied table.entry)))) }
{
    let Some(replacing) = &cfg.std_replacements else {
        return Ok(None);
    };
    if looks_at_none(replacing.scope) {
        return Ok(None);
    }
    match table {
        Some(bytes) => read_replacements(alloc, replacing, krates, bytes),
        None => unreachable!(),
    }
}

fn looks_at_none(scope: Scope) -> bool
    ensures { result ≡ looks_at_none (scope_view scope) }
{
    match scope {
        Scope::None => true,
        Scope::All | Scope::Workspace | Scope::Transitive => false,
    }
}

// The crates of a graph that a table replaces, by the bytes of the table.
fn read_replacements<'d>(
    alloc: Global,
    replacing: &StdReplacementConfig,
    krates: &Krates,
    bytes: &'d [u8],
) -> Result<Option<Replacements<'d>>, NoMemory>
    requires table { HasTable (Some bytes.now) }
    ensures { IfOk result (IsFound (replacing_view replacing.now) krates.now (said_by bytes.now)) }
{
    match ReplacementData::from_bytes(alloc, bytes) {
        Ok(table) => replacements_of(alloc, replacing, krates, table),
        Err(_) => unreachable!(),
    }
}

/// Appends the hits of the entries that ignore replaced crates.
pub fn add_ignore_hits(
    found: &Option<Replacements<'_>>,
    hits: &mut List<Hit>,
) -> Result<(), NoMemory>
    ensures { OnOk result ((c : Circumstances)
        → IsFoundForPolicy c.policy c.graph (said_by c.table) found.now
        → hits.new ≡ hits.old ++ ignore_hits_in c) }
{
    match found {
        Some(replacements) => add_hits(replacements.hits(), hits),
        None => Ok(()),
    }
}

fn add_hits(more: &[Hit], hits: &mut List<Hit>) -> Result<(), NoMemory>
    ensures { OnOk result (hits.new ≡ hits.old ++ more.now) }
{
    for hit in more {
        hits.push(hit.clone()?)?;
    }
    Ok(())
}

/// Appends the findings of entries that ignored nothing, and then those of replaced crates. Where memory runs
/// out, a prefix of them was appended, which may be empty.
pub fn report_replaced(
    alloc: Global,
    krates: &Krates,
    found: Option<Replacements<'_>>,
    file: FileId,
    sink: &mut List<Pack>,
) -> Result<(), NoMemory>
    ensures reported { OnOk result ((c : Circumstances) → c.graph ≡ krates.now
        → IsFoundOf c file found.entry → ReportsStd c sink.old sink.new) }
    ensures prefix { OnErr result ((c : Circumstances) → c.graph ≡ krates.now
        → IsFoundOf c file found.entry → ReportsStdPrefix c sink.old sink.new) }
{
    match found {
        Some(replacements) => replacements.emit_diagnostics(alloc, krates, sink, file),
        None => Ok(()),
    }
}
