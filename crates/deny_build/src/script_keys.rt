//! The keys of build scripts.
ghost use Rattle.std.specs.Prelude.{◌≡◌, ◌++◌, ◌∷◌, [], IfOk, OnOk, map};
ghost use Rattle.deny_cfg_build.specs.BuildingView.{checksum_view};
ghost use Rattle.deny_spec_report.specs.BuildScripts.{required_enabled, used};
ghost use Rattle.deny_spec_report.specs.Packages.{denied_script_keys, features_enabled_keys, path_key};
ghost use Rattle.deny_spec_report.specs.Packages.{right_script_keys, script_keys, script_shown, sum_keys};
ghost use Rattle.deny_spec.specs.Keys.{crate_key};
ghost use Rattle.deny_build.specs.private.ScannedKrates.{krate_of, scanning_at};

use crate::keys::path_key;
use crate::scanned_krate::ScannedKrate;
use deny_base::{Code, Key, Spanned};
use deny_base_lists::{List, NoMemory, Text};
use deny_build_bypass::{has_required_enabled, is_script_right, required_unknown, wanted_sum};
use deny_cfg_tables::bans::cfg::Checksum;
use deny_spec::{Package, crate_key, no_span};
use std::alloc::Global;

fn script_shown(alloc: Global, contents: &Package) -> Result<Text, NoMemory>
    ensures { IfOk result (λ shown. shown ≡ script_shown contents.now) }
{
    match &contents.script {
        Some(seen) => Ok(seen.shown.clone()?),
        None => Ok(Text::new(alloc)),
    }
}

/// Adds a key for each of these required features, by its span.
fn add_feature_keys(
    alloc: Global,
    code: Code,
    place: u32,
    features: &[&Spanned<Text>],
    keys: &mut List<Key>,
) -> Result<(), NoMemory>
    ensures { OnOk result (keys.new ≡ keys.old ++ map (λ w. crate_key code place w.now.span) features.now) }
{
    for feature in features {
        keys.push(crate_key(alloc, code, place, feature.span))?;
    }
    Ok(())
}

/// Adds the key that shows a build script with an expected checksum.
fn add_shown_key(
    alloc: Global,
    code: Code,
    at: &ScannedKrate<'_>,
    sum: &Spanned<Checksum>,
    keys: &mut List<Key>,
) -> Result<(), NoMemory>
    ensures { OnOk result (keys.new
        ≡ keys.old ++ path_key code at.now.place sum.now.span (script_shown at.now.contents.now) ∷ []) }
{
    let shown = script_shown(alloc, at.contents)?;
    keys.push(path_key(alloc, code, at.place, sum.span, &shown)?)
}

/// Adds the keys of a build script that has its expected checksum.
fn add_right_keys(
    alloc: Global,
    at: &ScannedKrate<'_>,
    sum: &Spanned<Checksum>,
    keys: &mut List<Key>,
) -> Result<(), NoMemory>
    ensures { OnOk result (keys.new
        ≡ keys.old ++ right_script_keys (scanning_at at.now) (krate_of at.now) sum.now.span) }
{
    add_shown_key(alloc, Code::ChecksumMatch, at, sum, keys)?;
    let unknown = required_unknown(alloc, at.ctx.config, at.krate)?;
    add_feature_keys(
        alloc,
        Code::UnknownFeature,
        at.place,
        unknown.as_slice(),
        keys,
    )
}

/// Adds the key of the features that a bypass requires, where one of them is enabled.
fn add_enabled_key(
    alloc: Global,
    at: &ScannedKrate<'_>,
    keys: &mut List<Key>,
) -> Result<(), NoMemory>
    ensures { OnOk result (keys.new ≡ keys.old ++ features_enabled_keys at.now.place
        (used (scanning_at at.now).building (krate_of at.now))
        (required_enabled (scanning_at at.now).building (krate_of at.now))) }
{
    let Some(bypass) = at.bypass else {
        return Ok(());
    };
    if !has_required_enabled(at.ctx.config, at.ctx.krates, at.krate) {
        return Ok(());
    }
    let span = bypass.spec.name.span;
    keys.push(crate_key(alloc, Code::FeaturesEnabled, at.place, span))
}

/// Adds the keys of a build script with an expected checksum.
#[tactic(auto, unfolding(deny_spec_report::specs::Packages::sum_keys))]
fn add_sum_keys(
    alloc: Global,
    at: &ScannedKrate<'_>,
    sum: &Spanned<Checksum>,
    keys: &mut List<Key>,
) -> Result<(), NoMemory>
    ensures { OnOk result (keys.new
        ≡ keys.old ++ sum_keys (scanning_at at.now) (krate_of at.now) (checksum_view sum.now)) }
{
    if !is_script_right(at.ctx.config, at.krate, at.contents) {
        return add_shown_key(alloc, Code::ChecksumMismatch, at, sum, keys);
    }
    add_right_keys(alloc, at, sum, keys)?;
    add_enabled_key(alloc, at, keys)
}

/// Adds the keys of the checksum of a crate's build script.
#[tactic(auto, unfolding(deny_spec_report::specs::Packages::script_keys))]
pub fn add_script_keys(
    alloc: Global,
    at: &ScannedKrate<'_>,
    keys: &mut List<Key>,
) -> Result<(), NoMemory>
    ensures { OnOk result (keys.new ≡ keys.old ++ script_keys (scanning_at at.now) (krate_of at.now)) }
{
    if !at.checked {
        return Ok(());
    }
    match wanted_sum(at.ctx.config, at.krate) {
        Some(sum) => add_sum_keys(alloc, at, sum, keys),
        None => Ok(()),
    }
}

/// Adds the key of a build script that a crate may not have.
#[tactic(auto, unfolding(deny_spec_report::specs::Packages::denied_script_keys))]
pub fn add_denied_script_keys(
    alloc: Global,
    at: &ScannedKrate<'_>,
    keys: &mut List<Key>,
) -> Result<(), NoMemory>
    ensures { OnOk result (keys.new ≡ keys.old ++ denied_script_keys (scanning_at at.now) (krate_of at.now)) }
{
    if !at.denied {
        return Ok(());
    }
    keys.push(crate_key(alloc, Code::BuildScriptNotAllowed, at.place, no_span()))
}
