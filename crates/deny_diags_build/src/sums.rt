//! The checksums of build scripts that a policy writes, by their spans.
ghost use Rattle.std.specs.Prelude.{◌≡◌, ◌||◌, IfOk, OnOk, Some, is_some, map};
ghost use Rattle.std.specs.List.{list_any};
ghost use Rattle.deny_base.specs.declared.span.Span.{Span};
ghost use Rattle.deny_cfg_build.specs.BuildingView.{building_view, bypass_view};
ghost use Rattle.deny_diags_build.specs.Sums.{AreSumsOf};
ghost use Rattle.deny_spec_report.specs.PackageDiags.{is_script_sum, is_sum_of_script};
ghost use Rattle.deny_diags_parts.specs.BySpan.{found_at};

use deny_base::{Span, Spanned};
use deny_base_lists::NoMemory;
use deny_cfg::bans::cfg::{Checksum, ValidConfig};
use deny_cfg_build::{ValidBuildConfig, ValidBypass};
use deny_diags_parts::{BySpan, DiagContext};
use std::alloc::Global;

/// Finds the checksums of scripts that bypasses write.
#[tactic(auto, unfolding(deny_spec_report::specs::PackageDiags::is_script_sum))]
pub fn script_sums<'c>(
    alloc: Global,
    cfg: &'c ValidConfig,
) -> Result<BySpan<'c, Spanned<Checksum>>, NoMemory>
    ensures { IfOk result (AreSumsOf cfg.now) }
{
    match &cfg.build {
        Some(build) => sums_of(alloc, build.bypass.as_slice()),
        None => Ok(BySpan::of_none(alloc)),
    }
}

fn sums_of<'c>(
    alloc: Global,
    bypasses: &'c [ValidBypass],
) -> Result<BySpan<'c, Spanned<Checksum>>, NoMemory>
    ensures { IfOk result (λ sums. (span : Span) → is_some (found_at sums span)
        ≡ list_any (is_sum_of_script span) (map bypass_view bypasses.now)) }
{
    let mut sums = BySpan::of_none(alloc);
    for number in (0..bypasses.len()).rev() {
        put_sum(&mut sums, &bypasses[number])?;
    }
    Ok(sums)
}

fn put_sum<'c>(
    sums: &mut BySpan<'c, Spanned<Checksum>>,
    bypass: &'c ValidBypass,
) -> Result<(), NoMemory>
    ensures { OnOk result ((span : Span) → is_some (found_at sums.new span)
        ≡ (is_sum_of_script span (bypass_view bypass.entry.now) || is_some (found_at sums.old span))) }
{
    if let Some(sum) = &bypass.build_script {
        sums.put(sum)?;
    }
    Ok(())
}

/// Whether a bypass writes a checksum of its script at this span.
pub fn is_script_sum(
    _ctx: &DiagContext<'_>,
    _build: &ValidBuildConfig,
    sums: &BySpan<'_, Spanned<Checksum>>,
    span: Span,
) -> bool
    requires sums { AreSumsOf _ctx.now.cfg.now sums.now }
    requires build { _ctx.now.cfg.now.build ≡ Some _build.now }
    ensures { result ≡ is_script_sum (building_view _build.now) span }
{
    sums.at(span).is_some()
}
