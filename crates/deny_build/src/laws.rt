ghost use Rattle.deny_spec_report.specs.Packages.{Scanning};
ghost use Rattle.deny_build.specs.Joined.{AreJoined};
ghost use Rattle.deny_build.specs.JoinedChecks.{JoinsChecks};

use deny_krates::Krates;

/// The keys of all crates, as `add_build_keys` gives them, are those that hold of each crate where it alone is
/// judged, as by `check_build`, and then those of the bypasses that no crate uses; and an entry is hit by the first
/// crate that hits it alone.
pub fn joined_keys()
    ensures { (l : Scanning) → AreJoined l }
{}

/// Calls of `check_build` for each crate of a graph see the packages of all crates, as `see_packages` does, with the
/// entries of all calls; and each adds the keys and the hits of its crate by these packages.
pub fn joined_checks(krates: &Krates)
    ensures { JoinsChecks krates.now }
{
    krates.krates();
}
