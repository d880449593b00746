//! The keys of skips and skipped trees.
ghost use Rattle.std.specs.Prelude.{◌≡◌, ◌++◌, not, [], map, filter, slice_index_or, Contains, IfOk, OnOk};
ghost use Rattle.std.specs.List.{flat_map, range_with_len};
ghost use Rattle.deny_base_lists.specs.Ascending.{Adds};
ghost use Rattle.deny_base.specs.declared.code.Code.TheVariants as code;
ghost use Rattle.deny_cfg.specs.PolicyView.{policy_view, root_view, roots_from};
ghost use Rattle.deny_spec.specs.Groups.{is_marked};
ghost use Rattle.deny_spec.specs.Keys.{unused_key};
ghost use Rattle.deny_spec.specs.Skips.{skipped_by_root_keys_of};
ghost use Rattle.deny_rules_match.specs.Marks.{facts_of};
ghost use Rattle.deny_rules_crates.specs.Rules.{keys_of_rules, skip_rules};
ghost use Rattle.deny_rules_crates.specs.private.Skipping.{is_left_out, is_needless_by, skipped_keys_by, does_match};

use deny_base::{Code, Key};
use deny_base_lists::{List, NoMemory};
use deny_cfg::bans::cfg::{ValidConfig, ValidTreeSkip};
use deny_krates::Krates;
use deny_rules_match::{EntryMatch, Marks, Matches, add_crate_keys, mark_at, reduced_len};
use deny_spec::unused_key;
use std::alloc::Global;

/// Adds the keys of skips and skipped trees.
pub fn add_skip_keys(
    alloc: Global,
    found: &Matches<'_>,
    keys: &mut List<Key>,
) -> Result<(), NoMemory>
    ensures { OnOk result (Adds (Contains (keys_of_rules (skip_rules (policy_view found.now.cfg.now)
        found.now.krates.now (facts_of found.now.marks)))) keys.old keys.new) }
{
    let skips = found.skips.as_slice();
    let roots = found.roots.as_slice();
    add_skipped(alloc, skips, keys)?;
    add_skipped_by_roots(
        alloc,
        found.cfg,
        found.krates,
        &found.marks,
        found.groups.marked.as_slice(),
        found.cfg.tree_skipped.as_slice(),
        keys,
    )?;
    add_unmatched(alloc, Code::UnmatchedSkip, skips, keys)?;
    add_unnecessary_skips(alloc, found, skips, keys)?;
    add_unmatched(alloc, Code::UnmatchedSkipRoot, roots, keys)?;
    Ok(())
}

/// Adds the keys of the crates that skips match, skip by skip.
fn add_skipped(alloc: Global, skips: &[EntryMatch], keys: &mut List<Key>) -> Result<(), NoMemory>
    ensures { OnOk result (keys.new ≡ keys.old ++ flat_map skipped_keys_by skips.now) }
{
    for skip in skips {
        add_skipped_crates(alloc, skip, keys)?;
    }
    Ok(())
}

#[tactic(auto, unfolding(crate::specs::private::Skipping::skipped_keys_by))]
fn add_skipped_crates(
    alloc: Global,
    skip: &EntryMatch,
    keys: &mut List<Key>,
) -> Result<(), NoMemory>
    ensures { OnOk result (keys.new ≡ keys.old ++ skipped_keys_by skip.now) }
{
    let places = skip.places.as_slice();
    add_crate_keys(alloc, Code::Skipped, places, skip.span, keys)
}

/// Whether the crate at a place counts, no skip matches it, and it is in a tree.
#[tactic(auto, unfolding(crate::specs::private::Skipping::is_left_out))]
fn is_left_out(counts: &[bool], skipped: &[bool], tree: &[bool], place: u32) -> bool
    ensures { result ≡ is_left_out counts.now skipped.now tree.now place }
{
    mark_at(counts, place) && !mark_at(skipped, place) && mark_at(tree, place)
}

/// The places below `end` of the counting crates of a tree that no skip matches.
fn left_out(
    alloc: Global,
    end: u32,
    counts: &[bool],
    skipped: &[bool],
    tree: &[bool],
) -> Result<List<u32>, NoMemory>
    ensures { IfOk result (λ places. places ≡ filter (is_left_out counts.now skipped.now tree.now)
        (range_with_len 0 end)) }
{
    let mut places = List::new(alloc);
    for place in 0..end {
        if is_left_out(counts, skipped, tree, place) {
            places.push(place)?;
        }
    }
    Ok(places)
}

/// The marks of the tree of an entry, by its number.
fn tree_at(trees: &[List<bool>], number: usize) -> &[bool]
    ensures { result.now ≡ slice_index_or trees.now number [] }
{
    match trees.get(number) {
        Some(tree) => tree.as_slice(),
        None => &[],
    }
}

/// Adds the keys of the counting crates that an entry's tree alone skips.
#[tactic(auto, unfolding(deny_spec::specs::Skips::skipped_by_root_keys_of))]
fn add_skipped_by_root(
    alloc: Global,
    cfg: &ValidConfig,
    krates: &Krates,
    marks: &Marks,
    skipped: &[bool],
    number: usize,
    root: &ValidTreeSkip,
    keys: &mut List<Key>,
) -> Result<(), NoMemory>
    requires { skipped.now ≡ map (is_marked (policy_view cfg.now)) krates.now.crates }
    ensures { OnOk result (keys.new ≡ keys.old ++ skipped_by_root_keys_of (policy_view cfg.now) krates.now
        (facts_of marks.now) (root_view number root.now)) }
{
    let tree = tree_at(marks.trees.as_slice(), number);
    if tree.is_empty() {
        return Ok(());
    }
    let end = krates.krates().len() as u32;
    let places = left_out(alloc, end, marks.counts.as_slice(), skipped, tree)?;
    add_crate_keys(
        alloc,
        Code::SkippedByRoot,
        places.as_slice(),
        root.spec.name.span,
        keys,
    )
}

fn add_skipped_by_roots(
    alloc: Global,
    cfg: &ValidConfig,
    krates: &Krates,
    marks: &Marks,
    skipped: &[bool],
    roots: &[ValidTreeSkip],
    keys: &mut List<Key>,
) -> Result<(), NoMemory>
    requires { skipped.now ≡ map (is_marked (policy_view cfg.now)) krates.now.crates }
    ensures { OnOk result (keys.new ≡ keys.old ++ flat_map (skipped_by_root_keys_of (policy_view cfg.now) krates.now
        (facts_of marks.now)) (roots_from 0 roots.now)) }
{
    for number in 0..roots.len() {
        add_skipped_by_root(
            alloc,
            cfg,
            krates,
            marks,
            skipped,
            number,
            &roots[number],
            keys,
        )?;
    }
    Ok(())
}

/// Whether an entry matches a crate.
#[tactic(auto, unfolding(crate::specs::private::Skipping::does_match))]
fn does_match(entry: &EntryMatch) -> bool
    ensures { result ≡ does_match entry.now }
{
    entry.places.len() > 0
}

/// Adds the keys of the entries that match no crate.
fn add_unmatched(
    alloc: Global,
    code: Code,
    entries: &[EntryMatch],
    keys: &mut List<Key>,
) -> Result<(), NoMemory>
    ensures { OnOk result (keys.new
        ≡ keys.old ++ map (λ m. unused_key code m.span) (filter (λ m. not (does_match m)) entries.now)) }
{
    for entry in entries {
        if !does_match(entry) {
            keys.push(unused_key(alloc, code, entry.span))?;
        }
    }
    Ok(())
}

/// Whether a skip matches a crate, though the reduced group of its name has at most one crate.
#[tactic(auto, unfolding(crate::specs::private::Skipping::is_needless_by))]
fn is_needless(found: &Matches<'_>, skip: &EntryMatch) -> bool
    ensures { result ≡ is_needless_by (policy_view found.now.cfg.now) found.now.krates.now (facts_of found.now.marks)
        skip.now }
{
    does_match(skip) && reduced_len(found.krates, &found.groups, skip.name.as_str()) <= 1
}

/// Adds the keys of the skips that match crates and are not needed.
fn add_unnecessary_skips(
    alloc: Global,
    found: &Matches<'_>,
    skips: &[EntryMatch],
    keys: &mut List<Key>,
) -> Result<(), NoMemory>
    ensures { OnOk result (keys.new ≡ keys.old ++ map (λ m. unused_key code.UnnecessarySkip m.span)
        (filter (is_needless_by (policy_view found.now.cfg.now) found.now.krates.now (facts_of found.now.marks))
        skips.now)) }
{
    for skip in skips {
        if is_needless(found, skip) {
            keys.push(unused_key(alloc, Code::UnnecessarySkip, skip.span))?;
        }
    }
    Ok(())
}
