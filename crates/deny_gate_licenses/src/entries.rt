//! The entries of a policy that grant licences: those that are hit, and those that grant nothing.
ghost use Rattle.std.specs.Prelude.{◌≡◌, ◌++◌, Contains, IfOk, OnOk, map};
ghost use Rattle.std.specs.List.{flat_map};
ghost use Rattle.deny_base_lists.specs.Ascending.{Lists};
ghost use Rattle.deny_cfg.specs.LicensingView.{exception_view, licensing_view};
ghost use Rattle.deny_gate_licenses.specs.private.Granters.{allowance_granter, exception_granter, granter_cmp};
ghost use Rattle.deny_gate_licenses.specs.private.Granters.{policy_granters};
ghost use Rattle.deny_gate_licenses.specs.private.Witnesses.{hit_at, hits_at, unused_at};

use crate::granter::{Granter, granters_differ};
use crate::witnesses::Witnesses;
use deny_base::{EntryId, Hit, Spanned, Witness};
use deny_base_lists::{List, NoMemory, put_in_order};
use deny_cfg::licenses::{Exception, ValidConfig};
use deny_krates::{Krates, krate_at};
use deny_spdx::Requirement;
use std::alloc::Global;

/// The granters of a configuration: allowances, and then exceptions.
pub fn all_granters(alloc: Global, cfg: &ValidConfig) -> Result<List<Granter>, NoMemory>
    ensures { IfOk result (λ granters. granters ≡ policy_granters (licensing_view cfg.now)) }
{
    let mut granters = List::new(alloc);
    add_allowances(cfg.allow.as_slice(), &mut granters)?;
    add_exceptions(cfg.exceptions.as_slice(), &mut granters)?;
    Ok(granters)
}

fn add_allowances(
    licences: &[Spanned<Requirement>],
    granters: &mut List<Granter>,
) -> Result<(), NoMemory>
    ensures { OnOk result (granters.new ≡ granters.old ++ map allowance_granter licences.now) }
{
    for licence in licences {
        granters.push(Granter::Allowance(licence.span))?;
    }
    Ok(())
}

fn add_exceptions(exceptions: &[Exception], granters: &mut List<Granter>) -> Result<(), NoMemory>
    ensures { OnOk result (granters.new ≡ granters.old ++ map (λ e. exception_granter (exception_view e))
        exceptions.now) }
{
    for exception in exceptions {
        granters.push(Granter::Exception(exception.spec.name.span))?;
    }
    Ok(())
}

/// The hit of each entry that grants a licence, by its first crate.
pub fn hits_of(
    alloc: Global,
    krates: &Krates,
    granters: &[Granter],
    witnesses: &Witnesses,
) -> Result<List<Hit>, NoMemory>
    ensures { IfOk result (λ hits. hits ≡ flat_map (hits_at krates.now witnesses.now) granters.now) }
{
    let mut hits = List::new(alloc);
    for by in granters {
        add_hit(krates, witnesses, *by, &mut hits)?;
    }
    Ok(hits)
}

fn add_hit(
    krates: &Krates,
    witnesses: &Witnesses,
    by: Granter,
    hits: &mut List<Hit>,
) -> Result<(), NoMemory>
    ensures { OnOk result (hits.new ≡ hits.old ++ hits_at krates.now witnesses.now by) }
{
    if let Some(hit) = hit_at(krates, witnesses, by)? {
        hits.push(hit)?;
    }
    Ok(())
}

fn hit_at(krates: &Krates, witnesses: &Witnesses, by: Granter) -> Result<Option<Hit>, NoMemory>
    ensures { IfOk result (λ hit. hit ≡ hit_at krates.now witnesses.now by) }
{
    let Some(place) = witnesses.find(by) else {
        return Ok(None);
    };
    let Some(krate) = krate_at(krates, place) else {
        return Ok(None);
    };
    Ok(Some(Hit {
        entry: EntryId {
            kind: by.kind(),
            range: by.span(),
        },
        witness: Witness::Krate(krate.id.clone()?),
    }))
}

/// The entries that grant nothing: allowances, and then exceptions, each by span.
pub fn unused_of(
    alloc: Global,
    granters: &[Granter],
    witnesses: &Witnesses,
) -> Result<List<Granter>, NoMemory>
    ensures { IfOk result (Lists granter_cmp (Contains (flat_map (unused_at witnesses.now) granters.now))) }
{
    granters_differ();
    let mut unused = unused_unordered(alloc, granters, witnesses)?;
    put_in_order(&mut unused)?;
    Ok(unused)
}

/// The entries that grant nothing, in the order given.
fn unused_unordered(
    alloc: Global,
    granters: &[Granter],
    witnesses: &Witnesses,
) -> Result<List<Granter>, NoMemory>
    ensures { IfOk result (λ unused. unused ≡ flat_map (unused_at witnesses.now) granters.now) }
{
    let mut unused = List::new(alloc);
    for by in granters {
        add_unused(witnesses, *by, &mut unused)?;
    }
    Ok(unused)
}

fn add_unused(
    witnesses: &Witnesses,
    by: Granter,
    unused: &mut List<Granter>,
) -> Result<(), NoMemory>
    ensures { OnOk result (unused.new ≡ unused.old ++ unused_at witnesses.now by) }
{
    if witnesses.find(by).is_none() {
        unused.push(by)?;
    }
    Ok(())
}
