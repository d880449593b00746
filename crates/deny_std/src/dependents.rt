//! Which direct dependents of a crate may use the standard library in its place.
ghost use Rattle.std.specs.Prelude.{◌≡◌, ◌<◌, ℕ, IfOk, Some, length, option_map};
ghost use Rattle.std.specs.List.{list_any};
ghost use Rattle.semver.specs.Identifiers.{parts_of};
ghost use Rattle.deny_cfg.specs.PolicyView.{replacing_view};
ghost use Rattle.deny_spec_report.specs.Saying.{Items};
ghost use Rattle.deny_spec_report.specs.Members.{is_member};
ghost use Rattle.deny_spec_report.specs.StdReplacements.{counting_version, may_replace, satisfies};
ghost use Rattle.deny_krates.specs.Crates.{crate_view};
ghost use Rattle.deny_spec.specs.Graph.{Crate, Graph, dependents};
ghost use Rattle.deny_spec.specs.DiagParts.{crate_at};
ghost use Rattle.deny_std.specs.private.Dependents.{may_replace_at};
ghost use Rattle.deny_std.specs.private.Members.{AreMemberMarks};
ghost use Rattle.deny_std.specs.private.StableSince.{IsLeastMinor};

use crate::members::{mark_at, member_marks};
use crate::places::are_placed;
use crate::scope::{is_in_scope, is_new_enough};
use deny_base_lists::{List, NoMemory};
use deny_cfg::bans::cfg::StdReplacementConfig;
use deny_krates::{DirectDependent, Krate, Krates, krate_at};
use semver::Version;
use std::alloc::Global;

/// The settings and a graph, with a mark for each member of the workspace.
#[derive(Drop)]
pub struct ScopedGraph<'c> {
    pub cfg: &'c StdReplacementConfig,
    pub krates: &'c Krates,
    members: List<bool>,
    ghost marked: { AreMemberMarks krates.now members },
}

impl<'c> ScopedGraph<'c> {
    /// Marks the members of a graph.
    pub fn new(
        alloc: Global,
        cfg: &'c StdReplacementConfig,
        krates: &'c Krates,
    ) -> Result<ScopedGraph<'c>, NoMemory>
        ensures cfg { IfOk result (λ scoped. scoped.cfg.now ≡ cfg.entry.now) }
        ensures krates { IfOk result (λ scoped. scoped.krates.now ≡ krates.entry.now) }
    {
        Ok(ScopedGraph {
            cfg,
            krates,
            members: member_marks(alloc, krates)?,
        })
    }

    fn is_member(&self, place: u32) -> bool
        ensures { (c : Crate) → crate_at self.now.krates.now place ≡ Some c → result
            ≡ is_member self.now.krates.now c }
    {
        are_placed(self.krates);
        mark_at(self.members.as_slice(), place)
    }

    /// Whether a direct dependent of the crate at a place may use the standard library in the
    /// crate's place. `least` is the least minor version in which an item of the crate's
    /// replacement is stable.
    pub fn has_replacing(&self, least: Option<u8>, place: u32) -> bool
        requires { place < length self.now.krates.now.crates }
        ensures { (items : Items) → IsLeastMinor items least → result ≡ list_any
            (may_replace (replacing_view self.now.cfg.now) self.now.krates.now items)
            (dependents self.now.krates.now place) }
    {
        are_placed(self.krates);
        is_one_replacing(self, least, self.krates.direct_dependents(place))
    }
}

fn is_one_replacing(
    scoped: &ScopedGraph<'_>,
    least: Option<u8>,
    parents: &[DirectDependent],
) -> bool
    ensures { (items : Items) → IsLeastMinor items least → result ≡ list_any
        (λ d. may_replace_at
        (replacing_view scoped.now.cfg.now) scoped.now.krates.now items d.place) parents.now }
{
    for parent in parents {
        if may_replace(scoped, least, parent.place) {
            return true;
        }
    }
    false
}

#[tactic(auto, unfolding(deny_spec_report::specs::StdReplacements::may_replace))]
fn may_replace(scoped: &ScopedGraph<'_>, least: Option<u8>, place: u32) -> bool
    ensures { (items : Items) → IsLeastMinor items least → result
        ≡ may_replace_at (replacing_view scoped.now.cfg.now) scoped.now.krates.now items place }
{
    let Some(krate) = krate_at(scoped.krates, place) else {
        return false;
    };
    let belongs = scoped.is_member(place);
    is_in_scope(scoped.cfg.scope, belongs) && satisfies(scoped.cfg, krate, least, belongs)
}

/// Whether the version of Rust is ignored for a crate, or is new enough.
#[tactic(auto, unfolding(deny_spec_report::specs::StdReplacements::satisfies))]
fn satisfies(cfg: &StdReplacementConfig, krate: &Krate, least: Option<u8>, belongs: bool) -> bool
    ensures { (items : Items) → (g : Graph) → (place : ℕ) → IsLeastMinor items least
        → belongs ≡ is_member g (crate_view place krate.now)
        → result ≡ satisfies (replacing_view cfg.now) g items (crate_view place krate.now) }
{
    is_in_scope(cfg.ignore_rust_version, belongs)
        || is_new_enough(least, counting_version(cfg, krate))
}

/// The crate's version of Rust, or the policy's where the crate has none.
#[tactic(auto, unfolding(deny_spec_report::specs::StdReplacements::counting_version))]
fn counting_version<'v>(cfg: &'v StdReplacementConfig, krate: &'v Krate) -> Option<&'v Version>
    ensures { (place : ℕ) → option_map (λ v. parts_of v.now) result
        ≡ counting_version (replacing_view cfg.now) (crate_view place krate.now) }
{
    match &krate.rust_version {
        Some(version) => Some(version),
        None => cfg.rust_version.as_ref(),
    }
}
