//! Build scripts, and which crates may have one.
ghost use Rattle.std.specs.Prelude.{◌≡◌, ℕ, find, option_map};
ghost use Rattle.std.specs.List.{list_any};
ghost use Rattle.std.specs.Option.{option_copied};
ghost use Rattle.semver.specs.Identifiers.{parts_of};
ghost use Rattle.deny_cfg_build.specs.BuildingView.{building_view};
ghost use Rattle.deny_spec_report.specs.BuildScripts.{is_script, is_script_ok, may_have_script, script_of};
ghost use Rattle.deny_cfg_entries.specs.SpecView.{spec_view};
ghost use Rattle.deny_krates.specs.Crates.{crate_view, target_view};
ghost use Rattle.deny_spec.specs.Match.{spec_matches};

use deny_cfg::match_krate;
use deny_cfg_build::ValidBuildConfig;
use deny_cfg_entries::PackageSpec;
use deny_krates::{Krate, Target};

#[tactic(auto, unfolding(deny_spec_report::specs::BuildScripts::is_script))]
fn is_script(target: &Target) -> bool
    ensures { result ≡ is_script (target_view target.now) }
{
    target
        .kind
        .as_slice()
        .iter()
        .any(|kind| kind.as_str() == "custom-build")
}

fn first_script(targets: &[Target]) -> Option<&Target>
    ensures { option_copied result ≡ find (λ target. is_script (target_view target)) targets.now }
{
    targets.iter().find(|target| is_script(target))
}

/// The build script of a crate: its first target of that kind.
pub fn script_of(krate: &Krate) -> Option<&Target>
    ensures { (place : ℕ) → option_map (λ target. target_view target.now) result
        ≡ script_of (crate_view place krate.now) }
{
    first_script(krate.targets.as_slice())
}

fn is_any_match(specs: &[PackageSpec], krate: &Krate) -> bool
    ensures { result
        ≡ list_any (λ spec. spec_matches (spec_view spec) krate.now.name (parts_of krate.now.version)) specs.now }
{
    specs.iter().any(|spec| match_krate(krate, spec))
}

// Whether a policy allows a crate to have a build script.
fn may_have_script(config: &ValidBuildConfig, krate: &Krate) -> bool
    ensures { (place : ℕ) → result ≡ may_have_script (building_view config.now) (crate_view place krate.now) }
{
    match &config.allow_build_scripts {
        Some(specs) => is_any_match(specs.as_slice(), krate),
        None => true,
    }
}

/// Whether a crate has no build script, or may have one.
pub fn is_script_ok(config: &ValidBuildConfig, krate: &Krate) -> bool
    ensures { (place : ℕ) → result ≡ is_script_ok (building_view config.now) (crate_view place krate.now) }
{
    script_of(krate).is_none() || may_have_script(config, krate)
}
