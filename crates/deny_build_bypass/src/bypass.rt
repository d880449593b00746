//! The bypass of a crate.
ghost use Rattle.std.specs.Prelude.{◌≡◌, ℕ, Contains, IfSome, find, option_map};
ghost use Rattle.std.specs.Option.{option_copied};
ghost use Rattle.semver.specs.Identifiers.{parts_of};
ghost use Rattle.deny_cfg_build.specs.BuildingView.{building_view, bypass_view, checksum_view};
ghost use Rattle.deny_spec_report.specs.BuildScripts.{used, wanted_sum};
ghost use Rattle.deny_cfg_entries.specs.SpecView.{spec_view};
ghost use Rattle.deny_krates.specs.Crates.{crate_view};
ghost use Rattle.deny_spec.specs.Match.{spec_matches};

use crate::scripts::script_of;
use deny_base::Spanned;
use deny_cfg::match_krate;
use deny_cfg_build::{ValidBuildConfig, ValidBypass};
use deny_cfg_tables::bans::cfg::Checksum;
use deny_krates::Krate;

fn first_match<'c>(entries: &'c [ValidBypass], krate: &Krate) -> Option<&'c ValidBypass>
    ensures { option_copied result ≡ find (λ entry. spec_matches (spec_view entry.spec) krate.now.name
        (parts_of krate.now.version)) entries.now }
{
    entries.iter().find(|entry| match_krate(krate, &entry.spec))
}

/// The bypass of a crate: the first one that matches it.
pub fn used<'c>(config: &'c ValidBuildConfig, krate: &Krate) -> Option<&'c ValidBypass>
    ensures is { (place : ℕ) → option_map (λ bypass. bypass_view bypass.now) result
        ≡ used (building_view config.now) (crate_view place krate.now) }
    ensures listed { IfSome result (λ bypass. Contains config.now.bypass bypass.now) }
{
    first_match(config.bypass.as_slice(), krate)
}

fn script_sum(bypass: &ValidBypass) -> Option<&Spanned<Checksum>>
    ensures { option_map (λ sum. checksum_view sum.now) result ≡ (bypass_view bypass.now).script }
{
    bypass.build_script.as_ref()
}

/// The expected checksum of a crate's build script, where the crate has one and its bypass names a
/// checksum.
pub fn wanted_sum<'c>(config: &'c ValidBuildConfig, krate: &Krate) -> Option<&'c Spanned<Checksum>>
    ensures { (place : ℕ) → option_map (λ sum. checksum_view sum.now) result
        ≡ wanted_sum (building_view config.now) (crate_view place krate.now) }
{
    if script_of(krate).is_none() {
        return None;
    }
    match used(config, krate) {
        Some(bypass) => script_sum(bypass),
        None => None,
    }
}
