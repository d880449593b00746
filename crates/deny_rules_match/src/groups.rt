//! Reduced groups: the crates of one name that may be duplicates.
ghost use Rattle.std.specs.Prelude.{◌≡◌, ◌++◌, ◌<◌, ◌≤◌, ◌-◌, IfOk, OnOk, All, filter, length, map, take};
ghost use Rattle.std.specs.List.{list_all, list_any, range_with_len};
ghost use Rattle.deny_cfg.specs.PolicyView.{entry_view, policy_view};
ghost use Rattle.deny_cfg.specs.SpecView.{spec_view};
ghost use Rattle.deny_spec.specs.Graph.{Graph, dependents};
ghost use Rattle.deny_spec.specs.Groups.{has_name};
ghost use Rattle.deny_spec.specs.Match.{matches};
ghost use Rattle.deny_rules_match.specs.Groups.{AreGroups, IsReducedLength};
ghost use Rattle.deny_rules_match.specs.private.Groups.{AddsLeft, all_have_name};
ghost use Rattle.deny_rules_match.specs.Groups.{is_left};
ghost use Rattle.deny_rules_match.specs.private.Groups.{has_name_at, is_left_at, may_duplicate_at};
ghost use Rattle.deny_rules_match.specs.Marks.{AddsMarks, HaveBesides, facts_of, mark_at, marked};
ghost use Rattle.deny_rules_match.specs.Matches.{skip_match};

use crate::entry_match::EntryMatch;
use crate::facts::Marks;
use crate::marking::{mark_at, mark_each, marked, no_marks};
use crate::matching::matched;
use crate::placed::are_placed;
use deny_base_lists::{List, NoMemory};
use deny_cfg::PackageSpec;
use deny_cfg::bans::cfg::{CrateSkip, ValidConfig};
use deny_krates::{DirectDependent, Krate, Krates};
use std::alloc::Global;
use std::ops::Range;

/// The groups of names, by a mark for each crate at its place.
#[derive(Drop)]
pub struct Groups {
    /// Which crates a skip matches.
    pub marked: List<bool>,
    /// Which crates are in a skipped tree.
    pub in_skipped_tree: List<bool>,
    /// Which crates are in the reduced group of their name.
    pub reduced: List<bool>,
}

/// The crates that skips match, those of skipped trees, and those of reduced groups. Adds each skip with the
/// counting crates that it matches.
pub fn groups_of(
    alloc: Global,
    cfg: &ValidConfig,
    krates: &Krates,
    marks: &Marks,
    skips: &mut List<EntryMatch>,
) -> Result<Groups, NoMemory>
    ensures groups { IfOk result (AreGroups (policy_view cfg.now) krates.now (facts_of marks.now)) }
    ensures skips { OnOk result (skips.new
        ≡ skips.old ++ map (skip_match krates.now (facts_of marks.now)) (policy_view cfg.now).skip) }
{
    are_placed(krates);
    let marked = skipped_of(alloc, krates, marks, cfg.skipped.as_slice(), skips)?;
    let trees = first_trees(marks.trees.as_slice(), cfg.tree_skipped.len());
    let in_skipped_tree = in_tree_of(alloc, krates, trees)?;
    let candidates = candidates_of(
        alloc,
        krates,
        marks.counts.as_slice(),
        marked.as_slice(),
        in_skipped_tree.as_slice(),
    )?;
    let reduced = reduced_of(alloc, krates, candidates.as_slice())?;
    Ok(Groups {
        marked,
        in_skipped_tree,
        reduced,
    })
}

/// How many crates the reduced group of a name has.
pub fn reduced_len(krates: &Krates, groups: &Groups, name: &str) -> usize
    ensures { IsReducedLength krates.now groups.now name.now result }
{
    are_placed(krates);
    let run = krates.places_by_name(name);
    count_marked(groups.reduced.as_slice(), run.start, run.end)
}

/// Marks for the crates that a spec of these matches.
pub fn matched_marks(
    alloc: Global,
    krates: &Krates,
    specs: &[PackageSpec],
) -> Result<List<bool>, NoMemory>
    ensures { IfOk result (λ marks. marks ≡ map (λ c. list_any (λ s. matches s c)
        (map spec_view specs.now)) krates.now.crates) }
{
    let mut marks = no_marks(alloc, krates)?;
    for spec in specs {
        mark_spec(alloc, krates, spec, &mut marks)?;
    }
    Ok(marks)
}

/// Marks for the crates that skips match. Adds each skip with the counting crates that it matches.
fn skipped_of(
    alloc: Global,
    krates: &Krates,
    marks: &Marks,
    skips: &[CrateSkip],
    found: &mut List<EntryMatch>,
) -> Result<List<bool>, NoMemory>
    ensures marks { IfOk result (λ marks. marks ≡ map (λ c. list_any (λ s. matches s.spec c)
        (map entry_view skips.now)) krates.now.crates) }
    ensures found { OnOk result (found.new
        ≡ found.old ++ map (λ s. skip_match krates.now (facts_of marks.now) (entry_view s)) skips.now) }
{
    let mut skipped = no_marks(alloc, krates)?;
    for skip in skips {
        let places = mark_spec(alloc, krates, &skip.spec, &mut skipped)?;
        found.push(counting(alloc, marks, skip, places.as_slice())?)?;
    }
    Ok(skipped)
}

/// A skip with those of the crates that it matches which count.
fn counting(
    alloc: Global,
    marks: &Marks,
    skip: &CrateSkip,
    places: &[u32],
) -> Result<EntryMatch, NoMemory>
    ensures { (g : Graph) → places.now ≡ map (λ c. c.place) (filter (matches (entry_view skip.now).spec) g.crates)
        → IfOk result (λ found. found ≡ skip_match g (facts_of marks.now) (entry_view skip.now)) }
{
    let counting = marked(alloc, places, marks.counts.as_slice())?;
    Ok(EntryMatch {
        name: skip.spec.name.value.clone()?,
        span: skip.spec.name.span,
        places: counting,
    })
}

/// Marks the crates that a spec matches, and gives their places, ascending.
fn mark_spec(
    alloc: Global,
    krates: &Krates,
    spec: &PackageSpec,
    marks: &mut List<bool>,
) -> Result<List<u32>, NoMemory>
    requires { length marks.old ≡ length krates.now.crates }
    ensures marks { OnOk result (AddsMarks krates.now.crates (matches (spec_view spec.now)) marks.old marks.new) }
    ensures places { IfOk result (λ places. places ≡ map (λ c. c.place)
        (filter (matches (spec_view spec.now)) krates.now.crates)) }
{
    are_placed(krates);
    let places = matched(alloc, krates, spec)?;
    mark_each(marks, places.as_slice());
    Ok(places)
}

/// The first trees, `size` at most.
fn first_trees(trees: &[List<bool>], size: usize) -> &[List<bool>]
    ensures { result.now ≡ take size trees.now }
{
    &trees[..size.min(trees.len())]
}

/// Marks for the crates of trees.
fn in_tree_of(alloc: Global, krates: &Krates, trees: &[List<bool>]) -> Result<List<bool>, NoMemory>
    ensures { IfOk result (λ marks. marks ≡ map (λ c. list_any (λ tree. marked tree c) trees.now) krates.now.crates) }
{
    are_placed(krates);
    let mut in_skipped_tree = no_marks(alloc, krates)?;
    for tree in trees {
        mark_tree(tree.as_slice(), &mut in_skipped_tree);
    }
    Ok(in_skipped_tree)
}

/// Marks the crates of a tree.
fn mark_tree(tree: &[bool], in_skipped_tree: &mut List<bool>)
    ensures { HaveBesides (mark_at tree.now) in_skipped_tree.old in_skipped_tree.new }
{
    for place in 0..tree.len() {
        if tree[place] && place < in_skipped_tree.len() {
            in_skipped_tree.vec[place] = true;
        }
    }
}

/// Marks for the crates that count and are not left out for a skipped tree.
fn candidates_of(
    alloc: Global,
    krates: &Krates,
    counts: &[bool],
    skipped: &[bool],
    in_skipped_tree: &[bool],
) -> Result<List<bool>, NoMemory>
    ensures { IfOk result (λ marks. marks
        ≡ map (λ c. may_duplicate_at counts.now skipped.now in_skipped_tree.now c.place) krates.now.crates) }
{
    let size = krates.krates().len() as u32;
    let mut candidates = List::new(alloc);
    for place in 0..size {
        candidates.push(may_duplicate_at(counts, skipped, in_skipped_tree, place))?;
    }
    Ok(candidates)
}

/// Whether the crate at a place counts, and a skip matches it or no skipped tree has it.
#[tactic(auto, unfolding(crate::specs::private::Groups::may_duplicate_at))]
fn may_duplicate_at(counts: &[bool], skipped: &[bool], in_skipped_tree: &[bool], place: u32) -> bool
    ensures { result ≡ may_duplicate_at counts.now skipped.now in_skipped_tree.now place }
{
    mark_at(counts, place) && (mark_at(skipped, place) || !mark_at(in_skipped_tree, place))
}

/// Marks for the crates of reduced groups, name by name.
fn reduced_of(alloc: Global, krates: &Krates, candidates: &[bool]) -> Result<List<bool>, NoMemory>
    ensures { IfOk result (λ marks. marks ≡ map (is_left krates.now (marked candidates.now)) krates.now.crates) }
{
    let size = krates.krates().len();
    let mut reduced = List::new(alloc);
    let mut next = 0;
    while next < size {
        next = reduce_next(krates, candidates, next, &mut reduced)?;
    }
    Ok(reduced)
}

/// Adds the marks of the crates of the name of the crate at `place`, from that place on, and gives the place
/// where the run of this name ends.
fn reduce_next(
    krates: &Krates,
    candidates: &[bool],
    place: usize,
    reduced: &mut List<bool>,
) -> Result<usize, NoMemory>
    requires { place < length krates.now.crates }
    ensures { IfOk result (λ next. AddsLeft krates.now candidates.now place next reduced.old reduced.new) }
{
    let name = krates.krates()[place].name.as_str();
    let run = krates.places_by_name(name);
    let alone = count_marked(candidates, run.start, run.end) == 1;
    let rest = place as u32..run.end;
    reduce_run(krates, candidates, name, alone, rest, reduced)?;
    Ok(run.end as usize)
}

/// Adds the marks of a run of crates of one name.
fn reduce_run(
    krates: &Krates,
    candidates: &[bool],
    name: &str,
    alone: bool,
    run: Range<u32>,
    reduced: &mut List<bool>,
) -> Result<(), NoMemory>
    requires upward { run.start ≤ run.end }
    requires within { run.end ≤ length krates.now.crates }
    ensures { OnOk result (reduced.new ≡ reduced.old ++ map (is_left_at krates.now candidates.now name.now alone)
        (range_with_len run.start (run.end - run.start))) }
{
    for place in run.start..run.end {
        reduced.push(is_left_at(krates, candidates, name, alone, place))?;
    }
    Ok(())
}

/// Whether the crate at a place may be a duplicate, and is alone in that or has a dependent of another name.
#[tactic(auto, unfolding(crate::specs::private::Groups::is_left_at))]
fn is_left_at(krates: &Krates, candidates: &[bool], name: &str, alone: bool, place: u32) -> bool
    requires { place < length krates.now.crates }
    ensures { result ≡ is_left_at krates.now candidates.now name.now alone place }
{
    mark_at(candidates, place) && (alone || !is_internal(krates, name, place))
}

/// Whether all direct dependents of the crate at a place have a name.
fn is_internal(krates: &Krates, name: &str, place: u32) -> bool
    requires { place < length krates.now.crates }
    ensures { result ≡ list_all (has_name name.now) (dependents krates.now place) }
{
    all_have_name(krates.krates(), name, krates.direct_dependents(place))
}

/// Whether all these dependents have a name.
#[tactic(auto, unfolding(crate::specs::private::Groups::all_have_name))]
fn all_have_name(krates: &[Krate], name: &str, dependents: &[DirectDependent]) -> bool
    requires { All (λ d. d.place < length krates.now) dependents.now }
    ensures { result ≡ all_have_name krates.now name.now dependents.now }
{
    for dependent in dependents {
        if !has_name_at(krates, name, dependent.place) {
            return false;
        }
    }
    true
}

/// Whether the crate at a place has this name.
#[tactic(auto, unfolding(crate::specs::private::Groups::has_name_at))]
fn has_name_at(krates: &[Krate], name: &str, place: u32) -> bool
    requires { place < length krates.now }
    ensures { result ≡ has_name_at krates.now name.now place }
{
    krates[place as usize].name.as_str() == name
}

/// How many places from `start` to `end` are marked.
fn count_marked(marks: &[bool], start: u32, end: u32) -> usize
    requires { start ≤ end }
    ensures { result ≡ length (filter (mark_at marks.now) (range_with_len start (end - start))) }
{
    let mut count = 0;
    for place in start..end {
        if mark_at(marks, place) {
            count += 1;
        }
    }
    count
}
