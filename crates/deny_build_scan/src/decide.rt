//! Which rule decides a file, and what it asks.
ghost use Rattle.std.specs.Prelude.{◌≡◌, [], IfOk, IfSome, None, Some, option_map};
ghost use Rattle.std.specs.Option.{option_copied};
ghost use Rattle.deny_cfg_build.specs.BuildingView.{building_view, bypass_view, path_view};
ghost use Rattle.deny_cfg_build.specs.Globs.{AreWritten, own_text};
ghost use Rattle.deny_spec_report.specs.PackageFiles.{path_of_used};
ghost use Rattle.deny_build_scan.specs.Deciding.{own_texts};
ghost use Rattle.deny_build_scan.specs.Globs.{AreFitting};
ghost use Rattle.deny_build_scan.specs.private.Deciding.{IsDecided};
ghost use Rattle.deny_build_scan.specs.private.Reading.{own_globs};

use crate::fitting::{fitting_own, fitting_scripts};
use deny_base_lists::{List, NoMemory, Text};
use deny_build_bypass::Allowed;
use deny_cfg_build::{ValidBuildConfig, ValidBypass, ValidGlobSet};
use deny_cfg_tables::bans::cfg::BypassPath;
use std::alloc::Global;

/// What a rule asks of a file.
#[derive(Clone, Copy)]
pub(crate) enum Asks {
    Nothing,
    Sum,
    Header,
}

/// The globs that decide a file, by their texts, and what is asked of the file.
#[derive(Drop)]
pub(crate) struct Decision {
    pub globs: List<Text>,
    pub asks: Asks,
}

/// What decides the file at a path of a crate; `allowed` is the crate's bypass. `indices` is a
/// buffer whose contents do not matter.
pub(crate) fn decide(
    alloc: Global,
    config: &ValidBuildConfig,
    allowed: &Allowed<'_>,
    path: &str,
    indices: &mut Vec<usize>,
) -> Result<Decision, NoMemory>
    ensures { IfOk result (IsDecided (building_view config.now)
        (option_map bypass_view (option_copied allowed.now.bypass)) path.now) }
{
    let bypass = allowed.bypass;
    match allowed.path_of(alloc, path)? {
        Some(file) => by_path(alloc, config, bypass, file, path, indices),
        None => by_globs(alloc, config, bypass, path, indices),
    }
}

fn globs_of(bypass: Option<&ValidBypass>) -> Option<&ValidGlobSet>
    ensures is { option_copied result ≡ own_globs (option_copied bypass.entry) }
    ensures written { IfSome (option_copied result) (AreWritten own_text) }
{
    match bypass {
        Some(bypass) => bypass.allow_globs.as_ref(),
        None => None,
    }
}

/// The decision where the bypass allows the path: without a checksum the path decides, or else a
/// fitting glob comes first.
fn by_path(
    alloc: Global,
    config: &ValidBuildConfig,
    bypass: Option<&ValidBypass>,
    file: &BypassPath,
    path: &str,
    indices: &mut Vec<usize>,
) -> Result<Decision, NoMemory>
    requires allowed { path_of_used (option_map bypass_view (option_copied bypass)) path.now
        ≡ Some (path_view file.now) }
    ensures { IfOk result (IsDecided (building_view config.now)
        (option_map bypass_view (option_copied bypass.entry)) path.now) }
{
    if file.checksum.is_none() {
        return Ok(Decision {
            globs: List::new(alloc),
            asks: Asks::Nothing,
        });
    }
    let globs = fitting_own(alloc, globs_of(bypass), path, indices)?;
    if globs.len() > 0 {
        return Ok(Decision {
            globs,
            asks: Asks::Nothing,
        });
    }
    Ok(Decision {
        globs,
        asks: Asks::Sum,
    })
}

/// The decision where the bypass does not allow the path.
fn by_globs(
    alloc: Global,
    config: &ValidBuildConfig,
    bypass: Option<&ValidBypass>,
    path: &str,
    indices: &mut Vec<usize>,
) -> Result<Decision, NoMemory>
    requires allowed { path_of_used (option_map bypass_view (option_copied bypass)) path.now ≡ None }
    ensures { IfOk result (IsDecided (building_view config.now)
        (option_map bypass_view (option_copied bypass.entry)) path.now) }
{
    let globs = fitting_own(alloc, globs_of(bypass), path, indices)?;
    if globs.len() > 0 {
        return Ok(Decision {
            globs,
            asks: Asks::Nothing,
        });
    }
    by_scripts(alloc, config, bypass, path, indices)
}

/// The decision where, in addition, no glob of the bypass fits.
fn by_scripts(
    alloc: Global,
    config: &ValidBuildConfig,
    bypass: Option<&ValidBypass>,
    path: &str,
    indices: &mut Vec<usize>,
) -> Result<Decision, NoMemory>
    requires allowed { path_of_used (option_map bypass_view (option_copied bypass)) path.now ≡ None }
    requires own { AreFitting path.now (own_texts (option_map bypass_view (option_copied bypass))) [] }
    ensures { IfOk result (IsDecided (building_view config.now)
        (option_map bypass_view (option_copied bypass.entry)) path.now) }
{
    let globs = fitting_scripts(alloc, &config.script_extensions, path, indices)?;
    if globs.len() > 0 {
        return Ok(Decision {
            globs,
            asks: Asks::Nothing,
        });
    }
    Ok(Decision {
        globs,
        asks: Asks::Header,
    })
}
