//! Which crates the build check is about.
ghost use Rattle.std.specs.Prelude.{◌≡◌, ◌==◌};
ghost use Rattle.std.specs.List.{list_any};
ghost use Rattle.deny_cfg_build.specs.BuildingView.{building_view};
ghost use Rattle.deny_spec_report.specs.BuildScripts.{asks_script, is_checked, is_active};
ghost use Rattle.deny_krates.specs.Crates.{crate_view};
ghost use Rattle.deny_base_lists.specs.Walk.{is_marked};
ghost use Rattle.deny_build_bypass.specs.Marks.{reached_by};

use crate::bypass::wanted_sum;
use crate::scripts::is_script_ok;
use deny_base::LintLevel;
use deny_cfg_build::ValidBuildConfig;
use deny_krates::{Krate, Krates};
use deny_krates_reach::executes_at_build_time;

/// What decides whether a crate is checked.
#[derive(Clone, Copy)]
pub struct Checking<'a> {
    pub config: &'a ValidBuildConfig,
    pub krates: &'a Krates,
    /// A mark for each crate by its place: a chain of dependents leads from it to a crate that
    /// executes at build time.
    pub marks: &'a [bool],
}

fn is_active(level: LintLevel) -> bool
    ensures { result ≡ is_active level }
{
    match level {
        LintLevel::Allow => false,
        LintLevel::Warn | LintLevel::Deny => true,
    }
}

fn is_member(krates: &Krates, place: u32) -> bool
    ensures { result ≡ list_any (λ member. member == place) krates.now.members }
{
    krates
        .workspace_members()
        .iter()
        .any(|member| *member == place)
}

fn is_marked(marks: &[bool], place: u32) -> bool
    ensures { result ≡ is_marked marks.now place }
{
    marks.get(place as usize).copied().unwrap_or(false)
}

/// Whether the crate at a place is checked: it has a build script that it may not have, or the
/// level of executables is not `allow`; and it is no workspace member, or members are included; and
/// it executes at build time, or leads to a crate that does where dependencies are included.
#[tactic(auto, unfolding(deny_spec_report::specs::BuildScripts::is_checked, deny_spec_report::specs::Members::is_member))]
pub fn is_checked(by: &Checking<'_>, place: u32, krate: &Krate) -> bool
    ensures { result ≡ is_checked (building_view by.now.config.now) by.now.krates.now (reached_by by.now.marks.now)
        (crate_view place krate.now) }
{
    let config = by.config;
    (!is_script_ok(config, krate) || is_active(config.executables))
        && (!is_member(by.krates, place) || config.include_workspace)
        && (executes_at_build_time(krate)
            || (config.include_dependencies && is_marked(by.marks, place)))
}

/// Whether the build script of the crate at a place is read: the crate is checked, and its bypass
/// expects a checksum or it may not have the script.
#[tactic(auto, unfolding(deny_spec_report::specs::BuildScripts::asks_script))]
pub fn asks_script(by: &Checking<'_>, place: u32, krate: &Krate) -> bool
    ensures { result ≡ asks_script (building_view by.now.config.now) by.now.krates.now (reached_by by.now.marks.now)
        (crate_view place krate.now) }
{
    is_checked(by, place, krate)
        && (wanted_sum(by.config, krate).is_some() || !is_script_ok(by.config, krate))
}
