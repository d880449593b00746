//! What passes by the checksum of a crate's build script.
ghost use Rattle.std.specs.Prelude.{◌≡◌, ℕ, Contains};
ghost use Rattle.deny_cfg_build.specs.BuildingView.{building_view};
ghost use Rattle.deny_spec_report.specs.BuildScripts.{has_sum, is_script_denied, is_script_right};
ghost use Rattle.deny_spec_report.specs.BuildScripts.{is_walked, passes_by_script, script_found};
ghost use Rattle.deny_krates.specs.Crates.{crate_view};
ghost use Rattle.deny_build_bypass.specs.Marks.{reached_by};

use crate::bypass::wanted_sum;
use crate::checked::{Checking, is_checked};
use crate::required::has_required_enabled;
use crate::scripts::is_script_ok;
use deny_cfg_build::ValidBuildConfig;
use deny_cfg_tables::bans::cfg::Checksum;
use deny_krates::{Krate, Krates};
use deny_spec::{Found, Package};

/// Whether the checksum that was found is this one.
pub fn has_sum(sum: &Checksum, found: &Found) -> bool
    ensures { result ≡ has_sum sum.now.0 found.now }
{
    match found {
        Found::Sum(found) => found.as_slice() == sum.0.as_slice(),
        Found::Unasked | Found::Kind(_) | Found::Failed(_) => false,
    }
}

fn has_script_sum(sum: &Checksum, contents: &Package) -> bool
    ensures { result ≡ has_sum sum.now.0 (script_found contents.now) }
{
    match &contents.script {
        Some(seen) => has_sum(sum, &seen.found),
        None => false,
    }
}

/// Whether the build script of a crate has its expected checksum.
pub fn is_script_right(config: &ValidBuildConfig, krate: &Krate, contents: &Package) -> bool
    ensures { (place : ℕ) → result
        ≡ is_script_right (building_view config.now) contents.now (crate_view place krate.now) }
{
    match wanted_sum(config, krate) {
        Some(sum) => has_script_sum(&sum.value, contents),
        None => false,
    }
}

/// Whether the whole package of a crate of the graph passes: its build script has its expected
/// checksum, and none of the features that its bypass requires is enabled.
pub fn passes_by_script(
    config: &ValidBuildConfig,
    krates: &Krates,
    krate: &Krate,
    contents: &Package,
) -> bool
    ensures { (place : ℕ) → Contains krates.now.crates (crate_view place krate.now) → result
        ≡ passes_by_script (building_view config.now) contents.now (crate_view place krate.now) }
{
    is_script_right(config, krate, contents) && !has_required_enabled(config, krates, krate)
}

/// Whether the crate at a place is checked, and has a build script that it may not have and that
/// does not pass.
#[tactic(auto, unfolding(deny_spec_report::specs::BuildScripts::is_script_denied))]
pub fn is_script_denied(by: &Checking<'_>, place: u32, krate: &Krate, contents: &Package) -> bool
    ensures { Contains by.now.krates.now.crates (crate_view place krate.now) → result
        ≡ is_script_denied (building_view by.now.config.now) by.now.krates.now (reached_by by.now.marks.now)
        contents.now (crate_view place krate.now) }
{
    is_checked(by, place, krate)
        && !is_script_ok(by.config, krate)
        && !passes_by_script(by.config, by.krates, krate, contents)
}

/// Whether the files of the crate at a place are checked.
#[tactic(auto, unfolding(deny_spec_report::specs::BuildScripts::is_walked))]
pub fn is_walked(by: &Checking<'_>, place: u32, krate: &Krate, contents: &Package) -> bool
    ensures { Contains by.now.krates.now.crates (crate_view place krate.now) → result
        ≡ is_walked (building_view by.now.config.now) by.now.krates.now (reached_by by.now.marks.now) contents.now
        (crate_view place krate.now) }
{
    is_checked(by, place, krate)
        && is_script_ok(by.config, krate)
        && !passes_by_script(by.config, by.krates, krate, contents)
}
