//! The context of the build check.
ghost use Rattle.std.specs.Prelude.{◌≡◌};
ghost use Rattle.deny_spec.specs.Unseen.{package_at, unseen_package};
ghost use Rattle.deny_build.specs.ScanningOf.{scanning_of};

use deny_base_lists::List;
use deny_build_bypass::Checking;
use deny_cfg_build::ValidBuildConfig;
use deny_krates::{Krate, Krates};
use deny_spec::Package;
use std::alloc::Global;

/// The context of the build check: its configuration, the graph, and for each place a mark whether
/// the crate leads to one that executes at build time.
#[derive(Clone, Copy)]
pub struct BuildCtx<'a> {
    pub config: &'a ValidBuildConfig,
    pub krates: &'a Krates,
    pub marks: &'a [bool],
    /// The place of the crate that is judged alone; without one all are judged.
    pub alone: Option<u32>,
    /// What was seen of the packages, by the places of their crates, from that of the crate that is
    /// judged alone on.
    pub packages: &'a [Package],
}

impl<'a> BuildCtx<'a> {
    /// What decides whether a crate is checked.
    pub(crate) fn checking(&self) -> Checking<'a>
        ensures config { result.config.now ≡ self.now.config.now }
        ensures krates { result.krates.now ≡ self.now.krates.now }
        ensures marks { result.marks.now ≡ self.now.marks.now }
    {
        Checking {
            config: self.config,
            krates: self.krates,
            marks: self.marks,
        }
    }
}

/// The package of a crate that was not scanned.
pub(crate) fn unseen_package(alloc: Global) -> Package
    ensures { result ≡ unseen_package }
{
    Package {
        script: None,
        unlisted: List::new(alloc),
        files: List::new(alloc),
    }
}

/// The package of the crate at a place, as it was seen.
pub(crate) fn package_of<'a>(ctx: &BuildCtx<'a>, place: u32, unseen: &'a Package) -> &'a Package
    requires { unseen.now ≡ unseen_package }
    ensures { result.now ≡ package_at (scanning_of ctx.now).packages place }
{
    match ctx.alone {
        Some(first) if place < first => unseen,
        Some(first) => package_at(ctx.packages, place - first, unseen),
        None => package_at(ctx.packages, place, unseen),
    }
}

fn package_at<'p>(packages: &'p [Package], place: u32, unseen: &'p Package) -> &'p Package
    requires { unseen.now ≡ unseen_package }
    ensures { result.now ≡ package_at packages.now place }
{
    match packages.get(place as usize) {
        Some(contents) => contents,
        None => unseen,
    }
}
