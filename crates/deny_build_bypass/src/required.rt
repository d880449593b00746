//! The features that the bypass of a crate requires.
ghost use Rattle.std.specs.Prelude.{◌≡◌, ℕ, Contains, IfOk, filter, is_some, length, map, nat_lt, not};
ghost use Rattle.std.specs.FinMap as finite;
ghost use Rattle.std.specs.List.{list_any};
ghost use Rattle.deny_cfg_build.specs.BuildingView.{building_view};
ghost use Rattle.deny_spec_report.specs.BuildScripts.{required_enabled, required_of, required_unknown, used};
ghost use Rattle.deny_krates.specs.Crates.{crate_view};
ghost use Rattle.deny_spec.specs.Text.{same_text};

use crate::bypass::used;
use deny_base::Spanned;
use deny_base_lists::{List, NoMemory, Text, TextMap};
use deny_cfg_build::ValidBuildConfig;
use deny_krates::{Krate, Krates};
use std::alloc::Global;

fn required_of<'c>(config: &'c ValidBuildConfig, krate: &Krate) -> &'c [Spanned<Text>]
    ensures { (place : ℕ) → result.now ≡ required_of (used (building_view config.now) (crate_view place krate.now)) }
{
    match used(config, krate) {
        Some(bypass) => bypass.required_features.as_slice(),
        None => &[],
    }
}

// The enabled features of a crate of the graph.
fn enabled_of<'k>(krates: &'k Krates, krate: &Krate) -> &'k [Text]
    ensures { (place : ℕ) → Contains krates.now.crates (crate_view place krate.now)
        → result.now ≡ (crate_view place krate.now).enabled }
{
    let _orderly = krates.krates();
    match krates.get_enabled_features(&krate.id) {
        Some(features) => features,
        None => &[],
    }
}

fn has(features: &[Text], feature: &Text) -> bool
    ensures { result ≡ list_any (same_text feature.now) features.now }
{
    features.iter().any(|other| feature == other)
}

fn has_any(features: &[Text], required: &[Spanned<Text>]) -> bool
    ensures { result ≡ list_any (λ w. list_any (same_text w.value) features.now) required.now }
{
    required.iter().any(|feature| has(features, &feature.value))
}

/// Whether a crate of the graph has one of the `required-features` of its bypass enabled.
pub fn has_required_enabled(config: &ValidBuildConfig, krates: &Krates, krate: &Krate) -> bool
    ensures { (place : ℕ) → Contains krates.now.crates (crate_view place krate.now)
        → result ≡ nat_lt 0 (length (required_enabled (building_view config.now) (crate_view place krate.now))) }
{
    has_any(enabled_of(krates, krate), required_of(config, krate))
}

fn kept_of<'c>(
    alloc: Global,
    features: &[Text],
    required: &'c [Spanned<Text>],
) -> Result<Vec<&'c Spanned<Text>>, NoMemory>
    ensures { IfOk result (λ kept. map (λ w. w.now) kept.items
        ≡ filter (λ w. list_any (same_text w.value) features.now) required.now) }
{
    let mut kept = Vec::new(alloc);
    for feature in required {
        if has(features, &feature.value) {
            kept.push(feature)?;
        }
    }
    Ok(kept)
}

/// The enabled ones of the `required-features` of a crate's bypass, in the order of the bypass; the
/// crate is one of the graph.
pub fn required_enabled<'c>(
    alloc: Global,
    config: &'c ValidBuildConfig,
    krates: &Krates,
    krate: &Krate,
) -> Result<Vec<&'c Spanned<Text>>, NoMemory>
    ensures { IfOk result (λ enabled. (place : ℕ) → Contains krates.now.crates (crate_view place krate.now)
        → map (λ w. w.now) enabled.items ≡ required_enabled (building_view config.now) (crate_view place krate.now)) }
{
    kept_of(alloc, enabled_of(krates, krate), required_of(config, krate))
}

fn unknown_of<'c>(
    alloc: Global,
    features: &TextMap<List<Text>>,
    required: &'c [Spanned<Text>],
) -> Result<Vec<&'c Spanned<Text>>, NoMemory>
    ensures { IfOk result (λ unknown. map (λ w. w.now) unknown.items
        ≡ filter (λ w. not (is_some (finite.get features.now w.value))) required.now) }
{
    let mut unknown = Vec::new(alloc);
    for feature in required {
        if !features.contains_key(feature.value.as_str()) {
            unknown.push(feature)?;
        }
    }
    Ok(unknown)
}

/// The `required-features` of a crate's bypass that the crate does not have, in the order of the
/// bypass.
pub fn required_unknown<'c>(
    alloc: Global,
    config: &'c ValidBuildConfig,
    krate: &Krate,
) -> Result<Vec<&'c Spanned<Text>>, NoMemory>
    ensures { IfOk result (λ unknown. (place : ℕ) → map (λ w. w.now) unknown.items
        ≡ required_unknown (building_view config.now) (crate_view place krate.now)) }
{
    unknown_of(alloc, &krate.features, required_of(config, krate))
}
