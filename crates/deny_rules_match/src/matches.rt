//! The crates that the entries of a policy match, worked out once for a check.
ghost use Rattle.std.specs.Prelude.{◌≡◌, ◌&&◌, IfOk, filter, map, not};
ghost use Rattle.deny_cfg.specs.PolicyView.{policy_view};
ghost use Rattle.deny_cfg.specs.SpecView.{spec_view};
ghost use Rattle.deny_spec.specs.Bans.{is_exempt};
ghost use Rattle.deny_spec.specs.Duplicates.{is_denied_multiple};
ghost use Rattle.deny_spec.specs.Facts.{AreFacts};
ghost use Rattle.deny_spec.specs.Match.{matches};
ghost use Rattle.deny_spec.specs.Policy.{Policy};
ghost use Rattle.deny_rules_match.specs.Groups.{AreGroups};
ghost use Rattle.deny_rules_match.specs.Marks.{facts_of, marked};
ghost use Rattle.deny_rules_match.specs.Matches.{AreBanMatches, IsBanMatch, root_match, skip_match};

use crate::entry_match::EntryMatch;
use crate::exempt::exempt_marks;
use crate::facts::{Marks, marks_of};
use crate::groups::{Groups, groups_of, matched_marks};
use crate::marking::unmarked;
use crate::matching::matched;
use crate::placed::are_placed;
use crate::wrappers::{spans_by_name, wrappers_of};
use deny_base::Span;
use deny_base_lists::{List, NoMemory, TextMap};
use deny_cfg::bans::cfg::{KrateBan, ValidConfig};
use deny_cfg::{PackageSpec, PackageSpecOrExtended};
use deny_krates::Krates;
use std::alloc::Global;

/// A ban with the crates that it concerns.
#[derive(Drop)]
pub struct BanMatch<'c> {
    pub ban: &'c PackageSpecOrExtended<KrateBan>,
    /// The crates that the ban matches and that are not exempt, by their places, ascending.
    pub places: List<u32>,
    /// The span of the first wrapper of each name.
    pub spans: TextMap<Span>,
}

/// The crates that the entries of a configuration match in a graph, with the facts that the rules ask of
/// both.
#[derive(Drop)]
pub struct Matches<'c> {
    pub cfg: &'c ValidConfig,
    pub krates: &'c Krates,
    pub marks: Marks,
    pub groups: Groups,
    /// Which crates no rule of bans concerns, by their places.
    pub exempt: List<bool>,
    /// Which crates an entry denies in several versions, by their places.
    pub several: List<bool>,
    /// Each skip with the crates that it matches and that count.
    pub skips: List<EntryMatch>,
    /// Each entry of `skip-tree` with the crates that it matches.
    pub roots: List<EntryMatch>,
    pub bans: List<BanMatch<'c>>,
    ghost grouped: { AreGroups (policy_view cfg.now) krates.now (facts_of marks) groups },
    ghost exempted: { exempt ≡ map (is_exempt (policy_view cfg.now) krates.now) krates.now.crates },
    ghost several_marked: { several ≡ map (is_denied_multiple (policy_view cfg.now)) krates.now.crates },
    ghost skips_found: { skips ≡ map (skip_match krates.now (facts_of marks)) (policy_view cfg.now).skip },
    ghost roots_found: { roots ≡ map (root_match krates.now) (policy_view cfg.now).skip_tree },
    ghost bans_found: { AreBanMatches (policy_view cfg.now) krates.now (policy_view cfg.now).deny bans },
}

impl<'c> Matches<'c> {
    /// Finds the crates that the entries of a configuration match in a graph.
    pub fn new(
        alloc: Global,
        cfg: &'c ValidConfig,
        krates: &'c Krates,
    ) -> Result<Matches<'c>, NoMemory>
        ensures cfg { IfOk result (λ found. found.cfg.now ≡ cfg.entry.now) }
        ensures krates { IfOk result (λ found. found.krates.now ≡ krates.entry.now) }
        ensures facts { IfOk result (λ found. AreFacts (policy_view found.cfg.now) found.krates.now
            (facts_of found.marks)) }
    {
        let marked = mark_graph(alloc, cfg, krates)?;
        let grouped = grouped_of(alloc, cfg, krates, &marked.marks)?;
        let banned = banned_of(alloc, cfg, krates)?;
        Ok(Matches {
            cfg,
            krates,
            marks: marked.marks,
            groups: grouped.groups,
            exempt: banned.exempt,
            several: banned.several,
            skips: grouped.skips,
            roots: marked.roots,
            bans: banned.bans,
        })
    }
}

/// Marks, and each entry of `skip-tree` with the crates that it matches.
#[derive(Drop)]
struct MarkedTrees {
    marks: Marks,
    roots: List<EntryMatch>,
}

/// The facts of a configuration and a graph, and the crates that each entry of `skip-tree` matches.
fn mark_graph(alloc: Global, cfg: &ValidConfig, krates: &Krates) -> Result<MarkedTrees, NoMemory>
    ensures facts { IfOk result (λ marked. AreFacts (policy_view cfg.now) krates.now (facts_of marked.marks)) }
    ensures roots { IfOk result (λ marked. marked.roots ≡ map (root_match krates.now) (policy_view cfg.now).skip_tree) }
{
    let mut roots = List::new(alloc);
    let marks = marks_of(alloc, cfg, krates, &mut roots)?;
    Ok(MarkedTrees { marks, roots })
}

/// The groups of names, and each skip with the crates that it matches and that count.
#[derive(Drop)]
struct Grouped {
    groups: Groups,
    skips: List<EntryMatch>,
}

/// The groups of names by marks, and the crates that each skip matches.
fn grouped_of(
    alloc: Global,
    cfg: &ValidConfig,
    krates: &Krates,
    marks: &Marks,
) -> Result<Grouped, NoMemory>
    ensures groups { IfOk result (λ grouped.
        AreGroups (policy_view cfg.now) krates.now (facts_of marks.now) grouped.groups) }
    ensures skips { IfOk result (λ grouped.
        grouped.skips ≡ map (skip_match krates.now (facts_of marks.now)) (policy_view cfg.now).skip) }
{
    let mut skips = List::new(alloc);
    let groups = groups_of(alloc, cfg, krates, marks, &mut skips)?;
    Ok(Grouped { groups, skips })
}

/// Which crates no rule of bans concerns, which ones an entry denies in several versions, and each ban with
/// the crates that it concerns.
#[derive(Drop)]
struct Banned<'c> {
    exempt: List<bool>,
    several: List<bool>,
    bans: List<BanMatch<'c>>,
}

/// The crates that the entries of `deny` match.
fn banned_of<'c>(
    alloc: Global,
    cfg: &'c ValidConfig,
    krates: &Krates,
) -> Result<Banned<'c>, NoMemory>
    ensures exempt { IfOk result (λ banned.
        banned.exempt ≡ map (is_exempt (policy_view cfg.now) krates.now) krates.now.crates) }
    ensures several { IfOk result (λ banned.
        banned.several ≡ map (is_denied_multiple (policy_view cfg.now)) krates.now.crates) }
    ensures bans { IfOk result (λ banned.
        AreBanMatches (policy_view cfg.now) krates.now (policy_view cfg.now).deny banned.bans) }
{
    let exempt = exempt_marks(alloc, cfg, krates)?;
    let several = several_of(alloc, cfg, krates)?;
    let bans = ban_matches(alloc, cfg, krates, exempt.as_slice())?;
    Ok(Banned {
        exempt,
        several,
        bans,
    })
}

/// Marks for the crates that an entry denies in several versions.
#[tactic(auto, unfolding(deny_spec::specs::Duplicates::is_denied_multiple))]
fn several_of(alloc: Global, cfg: &ValidConfig, krates: &Krates) -> Result<List<bool>, NoMemory>
    ensures { IfOk result (λ marks. marks ≡ map (is_denied_multiple (policy_view cfg.now)) krates.now.crates) }
{
    matched_marks(alloc, krates, cfg.denied_multiple_versions.as_slice())
}

/// Each ban with the crates that it concerns.
fn ban_matches<'c>(
    alloc: Global,
    cfg: &'c ValidConfig,
    krates: &Krates,
    exempt: &[bool],
) -> Result<List<BanMatch<'c>>, NoMemory>
    requires { exempt.now ≡ map (is_exempt (policy_view cfg.now) krates.now) krates.now.crates }
    ensures { IfOk result (AreBanMatches (policy_view cfg.now) krates.now (policy_view cfg.now).deny) }
{
    let denied = cfg.denied.as_slice();
    let mut bans = List::new(alloc);
    for ban in denied {
        bans.push(ban_match(alloc, krates, exempt, ban)?)?;
    }
    Ok(bans)
}

/// A ban with the crates that it concerns.
fn ban_match<'c>(
    alloc: Global,
    krates: &Krates,
    exempt: &[bool],
    ban: &'c PackageSpecOrExtended<KrateBan>,
) -> Result<BanMatch<'c>, NoMemory>
    ensures of { IfOk result (λ found. found.ban.now ≡ ban.entry.now) }
    ensures is { (p : Policy) → exempt.now ≡ map (is_exempt p krates.now) krates.now.crates
        → IfOk result (IsBanMatch p krates.now) }
{
    are_placed(krates);
    let places = concerned(alloc, krates, &ban.spec, exempt)?;
    let spans = spans_by_name(alloc, wrappers_of(ban))?;
    Ok(BanMatch { ban, places, spans })
}

/// The places of the crates that a spec matches and that are not exempt.
fn concerned(
    alloc: Global,
    krates: &Krates,
    spec: &PackageSpec,
    exempt: &[bool],
) -> Result<List<u32>, NoMemory>
    ensures { IfOk result (λ places. places
        ≡ map (λ c. c.place) (filter (λ c. matches (spec_view spec.now) c && not
        (marked exempt.now c)) krates.now.crates)) }
{
    let places = matched(alloc, krates, spec)?;
    unmarked(alloc, places.as_slice(), exempt)
}
