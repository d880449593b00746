//! Whether a spec matches a crate.
ghost use Rattle.std.specs.Prelude.{◌≡◌, option_map};
ghost use Rattle.semver.specs.Identifiers.{parts_of};
ghost use Rattle.deny_spec.specs.Match.{meets, spec_matches};
ghost use Rattle.deny_cfg_entries.specs.Requirement.{held_in};
ghost use Rattle.deny_cfg_entries.specs.SpecView.{spec_view};

use deny_cfg_entries::PackageSpec;
use deny_krates::Krate;
use semver::{Version, VersionReq};

/// Whether the spec matches the crate: the names are equal, and the crate's version meets the
/// requirement, if there is one.
pub fn match_krate(krate: &Krate, spec: &PackageSpec) -> bool
    ensures { result ≡ spec_matches (spec_view spec.now) krate.now.name (parts_of krate.now.version) }
{
    spec.name.value == krate.name && is_met(&spec.version_req, &krate.version)
}

fn is_met(requirement: &Option<VersionReq>, version: &Version) -> bool
    ensures { result ≡ meets (option_map held_in requirement.now) (parts_of version.now) }
{
    match requirement {
        Some(requirement) => requirement.matches(version),
        None => true,
    }
}
