//! Duplicates: crates of one name in several versions.
ghost use Rattle.std.specs.Prelude.{◌≡◌, ◌++◌, ◌-◌, ◌<◌, ◌≤◌, filter, length, map, take, drop, Contains, IfOk, OnOk};
ghost use Rattle.std.specs.List.{IsDistinct};
ghost use Rattle.deny_base_lists.specs.Ascending.{Adds, Lists};
ghost use Rattle.deny_cfg.specs.PolicyView.{policy_view};
ghost use Rattle.deny_krates.specs.Crates.{crates_from};
ghost use Rattle.deny_spec.specs.Duplicates.{IsDuplicate};
ghost use Rattle.deny_spec.specs.Keys.{duplicate_key};
ghost use Rattle.deny_spec.specs.VersionOrder.{version_cmp};
ghost use Rattle.deny_rules_crates.specs.private.Duplicates.{AddsKey, IsKeyOfCrates, IsDuplicatePolicy};
ghost use Rattle.deny_rules_crates.specs.private.Duplicates.{is_unmarked, is_unmarked_at, key_of_group};
ghost use Rattle.deny_rules_crates.specs.private.Duplicates.{level_at, same_id, placed_view};
ghost use Rattle.deny_rules_match.specs.Marks.{facts_of};

use deny_base::{Code, DiagnosticCode, Key, LintLevel, Section};
use deny_base_lists::{List, NoMemory, Text};
use deny_krates::{Krate, Krates};
use deny_rules_match::{Groups, Matches, mark_at};
use deny_spec::no_span;
use std::alloc::Global;
use std::cmp::Ordering;
use std::ops::Range;

/// A crate at its place.
#[derive(Clone, Copy)]
struct PlacedKrate<'k> {
    place: u32,
    krate: &'k Krate,
}

/// What the policy says of duplicates.
#[derive(Drop)]
struct DuplicatePolicy<'f> {
    groups: &'f Groups,
    /// Which crates an entry denies in several versions.
    denied: &'f [bool],
    /// The level for the other crates.
    level: LintLevel,
}

/// Adds the keys of duplicates, where their level is active.
pub fn add_duplicate_keys(
    alloc: Global,
    found: &Matches<'_>,
    keys: &mut List<Key>,
) -> Result<(), NoMemory>
    ensures { OnOk result (Adds (IsDuplicate (policy_view found.now.cfg.now) found.now.krates.now
        (facts_of found.now.marks)) keys.old keys.new) }
{
    let krates = found.krates;
    let size = krates.krates().len();
    let policy = duplicate_policy_of(found);
    let mut next = 0;
    while next < size {
        next = add_next(alloc, krates, &policy, next, keys)?;
    }
    Ok(())
}

/// What the policy of the matches says of duplicates.
fn duplicate_policy_of<'f>(found: &'f Matches<'_>) -> DuplicatePolicy<'f>
    ensures { IsDuplicatePolicy (policy_view found.now.cfg.now) found.now.krates.now (facts_of found.now.marks) result }
{
    DuplicatePolicy {
        groups: &found.groups,
        denied: found.several.as_slice(),
        level: found.cfg.multiple_versions,
    }
}

/// Adds the key of the duplicates of the name of the crate at `place`, where they have one, and gives the
/// place where the run of this name ends.
fn add_next(
    alloc: Global,
    krates: &Krates,
    policy: &DuplicatePolicy<'_>,
    place: usize,
    keys: &mut List<Key>,
) -> Result<usize, NoMemory>
    requires { place < length krates.now.crates }
    ensures { IfOk result (λ next. AddsKey krates.now policy.now place next keys.old keys.new) }
{
    let name = krates.krates()[place].name.as_str();
    let run = krates.places_by_name(name);
    let next = run.end as usize;
    if let Some(key) = key_of_run(alloc, krates, policy, run)? {
        keys.push(key)?;
    }
    Ok(next)
}

/// The key of the duplicates in a run of crates of one name, where they have one.
fn key_of_run(
    alloc: Global,
    krates: &Krates,
    policy: &DuplicatePolicy<'_>,
    run: Range<u32>,
) -> Result<Option<Key>, NoMemory>
    requires upward { run.start ≤ run.end }
    requires within { run.end ≤ length krates.now.crates }
    ensures { IfOk result (IsKeyOfCrates policy.now (take (run.end - run.start) (drop run.start krates.now.crates))) }
{
    let mut candidates = unmarked_of(alloc, krates.krates(), policy.groups, run)?;
    put_by_version(&mut candidates)?;
    let level = level_of(policy, candidates.as_slice());
    key_of_group(alloc, level, candidates.as_slice())
}

/// Those of a run of crates that no skip matches, and that are in the reduced group of their name.
fn unmarked_of<'k>(
    alloc: Global,
    all: &'k [Krate],
    groups: &Groups,
    run: Range<u32>,
) -> Result<Vec<PlacedKrate<'k>>, NoMemory>
    requires upward { run.start ≤ run.end }
    requires within { run.end ≤ length all.now }
    ensures { IfOk result (λ candidates. map placed_view candidates.items
        ≡ filter (is_unmarked groups.now) (take (run.end - run.start) (drop run.start (crates_from 0 all.now)))) }
{
    let mut candidates = Vec::new(alloc);
    for place in run.start..run.end {
        keep(all, groups, place, &mut candidates)?;
    }
    Ok(candidates)
}

/// Adds the crate at a place, where it is unmarked.
fn keep<'k>(
    all: &'k [Krate],
    groups: &Groups,
    place: u32,
    candidates: &mut Vec<PlacedKrate<'k>>,
) -> Result<(), NoMemory>
    requires { place < length all.now }
    ensures { OnOk result (map placed_view candidates.new.items
        ≡ map placed_view candidates.old.items ++ filter (is_unmarked groups.now)
        (take 1 (drop place (crates_from 0 all.now)))) }
{
    if !is_unmarked_at(groups, place) {
        return Ok(());
    }
    candidates.push(PlacedKrate {
        place,
        krate: &all[place as usize],
    })?;
    Ok(())
}

/// Whether the crate at a place is in the reduced group of its name and no skip matches it.
#[tactic(auto, unfolding(crate::specs::private::Duplicates::is_unmarked_at))]
fn is_unmarked_at(groups: &Groups, place: u32) -> bool
    ensures { result ≡ is_unmarked_at groups.now place }
{
    mark_at(groups.reduced.as_slice(), place) && !mark_at(groups.marked.as_slice(), place)
}

/// Puts crates in the order of their versions, and of their ids where the versions tie.
fn put_by_version(candidates: &mut Vec<PlacedKrate<'_>>) -> Result<(), NoMemory>
    requires { IsDistinct same_id (map placed_view candidates.old.items) }
    ensures { OnOk result (Lists version_cmp (Contains (map placed_view candidates.old.items))
        (map placed_view candidates.new.items)) }
{
    candidates.sort_by(|a, b| by_version(a, b))?;
    Ok(())
}

/// The order of versions, and of ids where the versions tie.
fn by_version(a: &PlacedKrate<'_>, b: &PlacedKrate<'_>) -> Ordering
    ensures { result ≡ version_cmp (placed_view a.now) (placed_view b.now) }
{
    a.krate
        .version
        .cmp_precedence(&b.krate.version)
        .then(a.krate.id.cmp(&b.krate.id))
}

/// The level of the rule on duplicates for these crates.
#[tactic(auto, unfolding(crate::specs::private::Duplicates::level_at))]
fn level_of(policy: &DuplicatePolicy<'_>, candidates: &[PlacedKrate<'_>]) -> LintLevel
    ensures { result ≡ level_at policy.now (map placed_view candidates.now) }
{
    for crate_at in candidates {
        if mark_at(policy.denied, crate_at.place) {
            return LintLevel::Deny;
        }
    }
    policy.level
}

/// The key of crates in the order of their versions. None where they are not several, or where the level is
/// not active.
#[tactic(auto, unfolding(crate::specs::private::Duplicates::key_of_group))]
fn key_of_group(
    alloc: Global,
    level: LintLevel,
    candidates: &[PlacedKrate<'_>],
) -> Result<Option<Key>, NoMemory>
    ensures { IfOk result (λ key. key ≡ key_of_group level (map placed_view candidates.now)) }
{
    if candidates.len() < 2 || level == LintLevel::Allow {
        return Ok(None);
    }
    Ok(Some(duplicate_key(alloc, places_of(alloc, candidates)?)))
}

/// The places of crates, in their order.
fn places_of(alloc: Global, candidates: &[PlacedKrate<'_>]) -> Result<List<u32>, NoMemory>
    ensures { IfOk result (λ places. places ≡ map (λ c. c.place) (map placed_view candidates.now)) }
{
    let mut places = List::new(alloc);
    for crate_at in candidates {
        places.push(crate_at.place)?;
    }
    Ok(places)
}

/// The key of duplicates, by their places.
#[tactic(auto, unfolding(deny_spec::specs::Keys::duplicate_key))]
fn duplicate_key(alloc: Global, places: List<u32>) -> Key
    ensures { result ≡ duplicate_key places }
{
    let place = places.as_slice().first().copied().unwrap_or(0);
    Key {
        section: Section::Groups,
        place,
        code: DiagnosticCode::Bans(Code::Duplicate),
        entry: no_span(),
        text: Text::new(alloc),
        other: 0,
        places,
    }
}
