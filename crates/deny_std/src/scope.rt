//! Which crates are in a scope, and which versions of Rust are new enough.
ghost use Rattle.std.specs.Prelude.{◌≡◌, option_map, true};
ghost use Rattle.std.specs.Option.{option_map_or};
ghost use Rattle.semver.specs.Identifiers.{parts_of};
ghost use Rattle.deny_cfg.specs.PolicyView.{scope_view};
ghost use Rattle.deny_spec_report.specs.Saying.{Items};
ghost use Rattle.deny_spec_report.specs.Members.{is_member};
ghost use Rattle.deny_spec_report.specs.StdReplacements.{has_stable, is_in_scope};
ghost use Rattle.deny_spec.specs.Graph.{Crate, Graph};
ghost use Rattle.deny_std.specs.private.StableSince.{IsLeastMinor, is_reached};

use deny_cfg::Scope;
use semver::Version;

/// Whether a crate is in a scope; `belongs` says whether it is a member of the workspace.
#[tactic(auto, unfolding(deny_spec_report::specs::StdReplacements::is_in_scope))]
pub fn is_in_scope(scope: Scope, belongs: bool) -> bool
    ensures { (g : Graph) → (c : Crate) → belongs ≡ is_member g c → result ≡ is_in_scope
        (scope_view scope) g c }
{
    match scope {
        Scope::All => true,
        Scope::Workspace => belongs,
        Scope::Transitive => !belongs,
        Scope::None => false,
    }
}

/// Whether an item is stable in a version of Rust, by the least minor version in which one is.
/// Without a version every item counts as stable.
#[tactic(auto, unfolding(deny_spec_report::specs::StdReplacements::has_stable))]
pub fn is_new_enough(least: Option<u8>, version: Option<&Version>) -> bool
    ensures { (items : Items) → IsLeastMinor items least
        → result ≡ option_map_or (has_stable items) (option_map
        (λ v. parts_of v.now) version.entry) true }
{
    match version {
        Some(version) => is_reached(least, version.minor),
        None => true,
    }
}

fn is_reached(least: Option<u8>, minor: u64) -> bool
    ensures { result ≡ is_reached least minor }
{
    match least {
        Some(least) => u64::from(least) <= minor,
        None => false,
    }
}
