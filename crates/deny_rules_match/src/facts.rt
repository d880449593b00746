//! The facts that rules ask of chains, worked out for each crate.
ghost use Rattle.std.specs.Prelude.{◌≡◌, ◌++◌, IfOk, OnOk, filter, map, option_and_then};
ghost use Rattle.std.specs.List.{AllZip};
ghost use Rattle.deny_cfg.specs.PolicyView.{policy_view};
ghost use Rattle.deny_cfg.specs.SpecView.{spec_view};
ghost use Rattle.deny_spec.specs.Facts.{AreFacts};
ghost use Rattle.deny_spec.specs.Match.{matches};
ghost use Rattle.deny_rules_match.specs.Marks.{facts_of, AreCounted};
ghost use Rattle.deny_rules_match.specs.private.Marks.{is_near, IsTreeOf};
ghost use Rattle.deny_rules_match.specs.Matches.{root_match, spec_match};

use crate::entry_match::{EntryMatch, spec_match};
use crate::placed::are_placed;
use deny_base::DepKind;
use deny_base_lists::{List, NoMemory};
use deny_cfg::bans::cfg::{ValidConfig, ValidTreeSkip};
use deny_krates::{Krates, distances_from};
use std::alloc::Global;

/// Facts about the crates of a graph, by marks.
#[derive(Drop)]
pub struct Marks {
    /// Which crates count.
    pub counts: Vec<bool>,
    /// Which crates are in the tree of each entry of `skip-tree`; empty for an entry that matches no crate.
    pub trees: List<List<bool>>,
}

/// The facts of a configuration and a graph. Adds each entry of `skip-tree` with the crates that it matches.
pub fn marks_of(
    alloc: Global,
    cfg: &ValidConfig,
    krates: &Krates,
    roots: &mut List<EntryMatch>,
) -> Result<Marks, NoMemory>
    ensures facts { IfOk result (λ marks. AreFacts (policy_view cfg.now) krates.now (facts_of marks)) }
    ensures roots { OnOk result (roots.new ≡ roots.old ++ map (root_match krates.now) (policy_view cfg.now).skip_tree) }
{
    let counts = counts_of(alloc, cfg.multiple_versions_include_dev, krates)?;
    let trees = trees_of(alloc, krates, cfg.tree_skipped.as_slice(), roots)?;
    Ok(Marks { counts, trees })
}

/// Marks for the crates that count: all, or those to which a chain without dev edges leads from a
/// member.
pub fn counts_of(alloc: Global, include_dev: bool, krates: &Krates) -> Result<Vec<bool>, NoMemory>
    ensures { IfOk result (λ marks. AreCounted include_dev krates.now marks.items) }
{
    let size = krates.krates().len();
    if include_dev {
        return Ok(vec![in alloc; true; size]?);
    }
    krates.krates_filtered(alloc, DepKind::Dev)
}

/// Marks for the crates of each entry's tree. Adds each entry with the crates that it matches.
fn trees_of(
    alloc: Global,
    krates: &Krates,
    entries: &[ValidTreeSkip],
    roots: &mut List<EntryMatch>,
) -> Result<List<List<bool>>, NoMemory>
    ensures trees { IfOk result (AllZip (IsTreeOf krates.now) entries.now) }
    ensures roots { OnOk result (roots.new
        ≡ roots.old ++ map (λ e. spec_match krates.now (spec_view e.spec)) entries.now) }
{
    let mut trees = List::new(alloc);
    for entry in entries {
        let root = spec_match(alloc, krates, &entry.spec)?;
        trees.push(tree_of(alloc, krates, entry, root.places.as_slice())?)?;
        roots.push(root)?;
    }
    Ok(trees)
}

/// Marks for the crates of an entry's tree, by the places of the crates that it matches; empty where it
/// matches no crate.
fn tree_of(
    alloc: Global,
    krates: &Krates,
    entry: &ValidTreeSkip,
    roots: &[u32],
) -> Result<List<bool>, NoMemory>
    requires { roots.now ≡ map (λ c. c.place) (filter (matches (spec_view entry.now.spec)) krates.now.crates) }
    ensures { IfOk result (IsTreeOf krates.now entry.now) }
{
    are_placed(krates);
    if roots.is_empty() {
        return Ok(List::new(alloc));
    }
    let distances = distances_from(alloc, krates, roots)?;
    near(alloc, depth_of(entry), distances.as_slice())
}

/// The depth to which an entry's tree reaches, where one is written.
fn depth_of(entry: &ValidTreeSkip) -> Option<u32>
    ensures { result ≡ option_and_then (λ skip. skip.depth) entry.now.inner }
{
    match &entry.inner {
        Some(skip) => skip.depth,
        None => None,
    }
}

/// Marks for the distances that are near enough.
fn near(
    alloc: Global,
    depth: Option<u32>,
    distances: &[Option<u32>],
) -> Result<List<bool>, NoMemory>
    ensures { IfOk result (λ marks. marks ≡ map (is_near depth) distances.now) }
{
    let mut marks = List::new(alloc);
    for distance in distances {
        marks.push(is_near(depth, *distance))?;
    }
    Ok(marks)
}

/// Whether a distance is near enough: there is one, and it is below the depth, of which 0 counts as 1.
#[tactic(auto, unfolding(crate::specs::private::Marks::is_near))]
fn is_near(depth: Option<u32>, distance: Option<u32>) -> bool
    ensures { result ≡ is_near depth distance }
{
    match distance {
        None => false,
        Some(distance) => match depth {
            None => true,
            Some(depth) => distance < depth.max(1),
        },
    }
}
