//! A crate as the build check scans it.
ghost use Rattle.std.proofs.Props.{props};
ghost use Rattle.std.specs.Cmp.Lexicographic.{slice_cmp};
ghost use Rattle.std.specs.Coded.{codes, coded_list, coded_ℕ};
ghost use Rattle.std.specs.FinMap as finite;
ghost use Rattle.std.specs.Ordering.{nat_cmp};
ghost use Rattle.std.specs.Prelude.{◌≡◌, Some, option_map, slice_get};
ghost use Rattle.deny_cfg_build.specs.BuildingView.{building_view, bypass_view};
ghost use Rattle.deny_spec_report.specs.BuildScripts.{used};
ghost use Rattle.deny_spec_report.specs.Packages.{checks, package_of, walks};
ghost use Rattle.deny_krates.specs.Crates.{crate_view};
ghost use Rattle.deny_build.specs.ScanningOf.{scanning_of};
ghost use Rattle.deny_build.specs.private.Denied.{denies};

use crate::ctx::BuildCtx;
use deny_cfg_build::ValidBypass;
use deny_krates::Krate;
use deny_spec::Package;

/// A crate of the graph at its place, as the build check scans it.
#[derive(Drop)]
pub struct ScannedKrate<'a> {
    pub ctx: &'a BuildCtx<'a>,
    pub place: u32,
    pub krate: &'a Krate,
    /// Its package, as it was seen.
    pub contents: &'a Package,
    pub bypass: Option<&'a ValidBypass>,
    /// Whether it is checked, whether it has a build script that it may not have, and whether its
    /// files are checked.
    pub checked: bool,
    pub denied: bool,
    pub walked: bool,
    ghost placed: { slice_get ctx.now.krates.now.crates place ≡ Some (crate_view place krate.now) } by { Prim.hlevel (
      props,
      codes,
      finite.code {R = slice_cmp nat_cmp} (coded_list coded_ℕ)
          (coded_list (coded_list coded_ℕ)),
    ) },
    ghost seen: { contents.now ≡ package_of (scanning_of ctx.now) (crate_view place krate.now) },
    ghost uses: { option_map (λ y. bypass_view y.now) bypass
        ≡ used (building_view ctx.now.config.now) (crate_view place krate.now) } by { Prim.hlevel (props, codes) },
    ghost checks: { checked ≡ checks (scanning_of ctx.now) (crate_view place krate.now) },
    ghost denies: { denied ≡ denies (scanning_of ctx.now) (crate_view place krate.now) },
    ghost walks: { walked ≡ walks (scanning_of ctx.now) (crate_view place krate.now) },
}
