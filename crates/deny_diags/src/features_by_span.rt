//! The features that entries of the policy list, and those that bypasses require, by their spans.
ghost use Rattle.std.specs.Prelude.{IfOk, OnOk, map};
ghost use Rattle.std.specs.List.{flat_map};
ghost use Rattle.deny_cfg_build.specs.BuildingView.{bypass_view};
ghost use Rattle.deny_cfg.specs.PolicyView.{building_of, feature_view};
ghost use Rattle.deny_spec_report.specs.Features.{features_of};
ghost use Rattle.deny_spec_report.specs.PackageDiags.{required_features};
ghost use Rattle.deny_diags.specs.private.Features.{named_features};
ghost use Rattle.deny_diags_parts.specs.BySpan.{IsBySpan, PutsBefore};

use deny_base::Spanned;
use deny_base_lists::{NoMemory, Text};
use deny_cfg::bans::cfg::{ValidConfig, ValidKrateFeatures};
use deny_cfg_build::ValidBypass;
use deny_diags_parts::BySpan;
use std::alloc::Global;

/// Finds the features that entries allow and deny, in the order in which the entries list them, and
/// behind them those that bypasses require.
pub fn named_by_span<'c>(
    alloc: Global,
    cfg: &'c ValidConfig,
) -> Result<BySpan<'c, Spanned<Text>>, NoMemory>
    ensures { IfOk result (IsBySpan (λ w. w.span) (named_features cfg.now)) }
{
    let mut found = required_by_span(alloc, cfg)?;
    put_listed(&mut found, cfg.features.as_slice())?;
    Ok(found)
}

// Puts the features that entries list before those that are found.
fn put_listed<'c>(
    found: &mut BySpan<'c, Spanned<Text>>,
    entries: &'c [ValidKrateFeatures],
) -> Result<(), NoMemory>
    ensures { OnOk result (PutsBefore (λ w. w.span) (flat_map features_of (map feature_view entries.entry.now))
        found.old found.new) }
{
    for number in (0..entries.len()).rev() {
        put_features(found, &entries[number])?;
    }
    Ok(())
}

// Puts the features of an entry before those that are found.
fn put_features<'c>(
    found: &mut BySpan<'c, Spanned<Text>>,
    entry: &'c ValidKrateFeatures,
) -> Result<(), NoMemory>
    ensures { OnOk result (PutsBefore (λ w. w.span) (features_of (feature_view entry.entry.now)) found.old
        found.new) }
{
    found.put_before(entry.features.deny.as_slice())?;
    found.put_before(entry.features.allow.value.as_slice())
}

// Finds the features that bypasses require.
fn required_by_span<'c>(
    alloc: Global,
    cfg: &'c ValidConfig,
) -> Result<BySpan<'c, Spanned<Text>>, NoMemory>
    ensures { IfOk result (IsBySpan (λ w. w.span) (required_features (building_of cfg.now))) }
{
    match &cfg.build {
        Some(build) => required_of_each(alloc, build.bypass.as_slice()),
        None => Ok(BySpan::of_none(alloc)),
    }
}

fn required_of_each<'c>(
    alloc: Global,
    bypasses: &'c [ValidBypass],
) -> Result<BySpan<'c, Spanned<Text>>, NoMemory>
    ensures { IfOk result (IsBySpan (λ w. w.span) (flat_map (λ y. y.required) (map bypass_view bypasses.now))) }
{
    let mut found = BySpan::of_none(alloc);
    for number in (0..bypasses.len()).rev() {
        put_required(&mut found, &bypasses[number])?;
    }
    Ok(found)
}

// Puts the features that a bypass requires before those that are found.
fn put_required<'c>(
    found: &mut BySpan<'c, Spanned<Text>>,
    bypass: &'c ValidBypass,
) -> Result<(), NoMemory>
    ensures { OnOk result (PutsBefore (λ w. w.span) (bypass_view bypass.entry.now).required found.old found.new) }
{
    found.put_before(bypass.required_features.as_slice())
}
