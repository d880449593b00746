//! Requirements that any version meets, as manifests write them.
ghost use Rattle.std.specs.Prelude.{◌≡◌, ℕ, false};
ghost use Rattle.std.specs.Option.{option_map_or};
ghost use Rattle.deny_cfg.specs.PolicyView.{policy_view};
ghost use Rattle.deny_spec_report.specs.Wildcards.{is_allowed_path, is_dev, is_active_in, is_shared, is_wildcard};
ghost use Rattle.deny_krates.specs.Crates.{crate_view};
ghost use Rattle.deny_spans_manifest.specs.Manifest.{dep_view};
ghost use Rattle.deny_spec.specs.Crates.{is_registry};
ghost use Rattle.deny_spec.specs.DiagParts.{crate_at};

use deny_base::DepKind;
use deny_cfg::bans::cfg::ValidConfig;
use deny_krates::{Krate, Krates, krate_at};
use deny_spans::ManifestDep;

/// Whether a declaration of a manifest is a wildcard that the policy checks: its requirement names no
/// versions, and it is neither of the crate itself nor a path that is allowed. The manifest is that of the
/// crate at `place`.
#[tactic(auto, unfolding(deny_spec_report::specs::Wildcards::is_active_in))]
pub fn is_active_in(
    cfg: &ValidConfig,
    krates: &Krates,
    place: u32,
    krate: &Krate,
    dep: &ManifestDep<'_>,
) -> bool
    ensures { result
        ≡ is_active_in (policy_view cfg.now) krates.now (crate_view place krate.now) (dep_view dep.now) }
{
    is_wildcard(dep) && dep.place != place && !is_allowed_path(cfg, krates, krate, dep)
}

/// Whether the requirement names no versions.
#[tactic(auto, unfolding(deny_spec_report::specs::Wildcards::is_wildcard))]
fn is_wildcard(dep: &ManifestDep<'_>) -> bool
    ensures { result ≡ is_wildcard (dep_view dep.now) }
{
    dep.dep.req.comparators.len() == 0
}

/// Whether the policy allows paths, and the declaration is one, in a crate that is published nowhere or as a
/// dev dependency.
#[tactic(auto, unfolding(deny_spec_report::specs::Wildcards::is_allowed_path))]
fn is_allowed_path(cfg: &ValidConfig, krates: &Krates, krate: &Krate, dep: &ManifestDep<'_>) -> bool
    ensures { (place : ℕ) → result
        ≡ is_allowed_path (policy_view cfg.now) krates.now (crate_view place krate.now) (dep_view dep.now) }
{
    cfg.allow_wildcard_paths
        && !is_registry_at(krates, dep.place)
        && (krate.is_private(&[]) || is_dev(dep.dep.kind))
}

fn is_registry_at(krates: &Krates, place: u32) -> bool
    ensures { result ≡ option_map_or is_registry (crate_at krates.now place) false }
{
    match krate_at(krates, place) {
        Some(krate) => krate.is_registry(),
        None => false,
    }
}

fn is_dev(kind: DepKind) -> bool
    ensures { result ≡ is_dev kind }
{
    match kind {
        DepKind::Normal => false,
        DepKind::Dev => true,
        DepKind::Build => false,
    }
}

/// Whether a declaration has `workspace = true`: the workspace declares the dependency.
#[tactic(auto, unfolding(deny_spec_report::specs::Wildcards::is_shared))]
pub fn is_shared(dep: &ManifestDep<'_>) -> bool
    ensures { result ≡ is_shared (dep_view dep.now) }
{
    match &dep.workspace {
        Some(flag) => flag.value,
        None => false,
    }
}
