//! All crates of a graph, as the build check scans them.
ghost use Rattle.std.specs.Prelude.{◌≡◌, IfOk, Some, map, option_to_list, slice_get};
ghost use Rattle.std.specs.Option.{option_copied};
ghost use Rattle.deny_spec.specs.Unseen.{unseen_package};
ghost use Rattle.deny_krates.specs.Crates.{crate_view};
ghost use Rattle.deny_build.specs.ScanningOf.{scanning_of};
ghost use Rattle.deny_build.specs.private.ScannedKrates.{AreScannedKrates, scanned_view};

use crate::ctx::{BuildCtx, package_of};
use crate::scanned_krate::ScannedKrate;
use deny_base_lists::NoMemory;
use deny_build_bypass::{is_checked, is_script_denied, is_walked, used};
use deny_krates::Krate;
use deny_spec::Package;
use std::alloc::Global;

fn scan_krate<'a>(
    ctx: &'a BuildCtx<'a>,
    unseen: &'a Package,
    place: u32,
    krate: &'a Krate,
) -> ScannedKrate<'a>
    requires placed { slice_get ctx.now.krates.now.crates place ≡ Some (crate_view place krate.now) }
    requires unseen { unseen.now ≡ unseen_package }
    ensures { scanned_view result ≡ (scanning_of ctx.now, crate_view place krate.now) }
{
    let by = ctx.checking();
    let contents = package_of(ctx, place, unseen);
    ScannedKrate {
        ctx,
        place,
        krate,
        contents,
        bypass: used(ctx.config, krate),
        checked: is_checked(&by, place, krate),
        denied: is_script_denied(&by, place, krate, contents),
        walked: is_walked(&by, place, krate, contents),
    }
}

/// Scans the crates that are judged; `unseen` is the package of a crate that was not scanned before.
pub fn scan_each<'a>(
    alloc: Global,
    ctx: &'a BuildCtx<'a>,
    unseen: &'a Package,
) -> Result<Vec<ScannedKrate<'a>>, NoMemory>
    requires { unseen.now ≡ unseen_package }
    ensures { IfOk result (λ all. AreScannedKrates (scanning_of ctx.now) all.items) }
{
    match ctx.alone {
        Some(place) => scan_alone(alloc, ctx, unseen, place),
        None => scan_all(alloc, ctx, unseen),
    }
}

/// Scans the crate at a place, if there is one.
fn scan_alone<'a>(
    alloc: Global,
    ctx: &'a BuildCtx<'a>,
    unseen: &'a Package,
    place: u32,
) -> Result<Vec<ScannedKrate<'a>>, NoMemory>
    requires { unseen.now ≡ unseen_package }
    ensures { IfOk result (λ all. map scanned_view all.items ≡ map (λ c. (scanning_of ctx.now, c))
        (option_to_list (slice_get ctx.now.krates.now.crates place))) }
{
    match krate_at(ctx.krates.krates(), place) {
        Some(krate) => {
            let mut all = Vec::new(alloc);
            all.push(scan_krate(ctx, unseen, place, krate))?;
            Ok(all)
        }
        None => Ok(Vec::new(alloc)),
    }
}

fn krate_at(krates: &[Krate], place: u32) -> Option<&Krate>
    ensures { option_copied result ≡ slice_get krates.now place }
{
    krates.get(place as usize)
}

fn scan_all<'a>(
    alloc: Global,
    ctx: &'a BuildCtx<'a>,
    unseen: &'a Package,
) -> Result<Vec<ScannedKrate<'a>>, NoMemory>
    requires { unseen.now ≡ unseen_package }
    ensures { IfOk result (λ all. map scanned_view all.items
        ≡ map (λ c. (scanning_of ctx.now, c)) ctx.now.krates.now.crates) }
{
    let krates = ctx.krates.krates();
    let mut all = Vec::new(alloc);
    for place in 0..krates.len() {
        all.push(scan_krate(ctx, unseen, place as u32, &krates[place]))?;
    }
    Ok(all)
}
