//! The crates that are checked for requirements that any version meets.
ghost use Rattle.std.specs.Prelude.{◌≡◌, IfOk, length, map};
ghost use Rattle.std.specs.List.{range_with_len};
ghost use Rattle.deny_cfg.specs.PolicyView.{policy_view};
ghost use Rattle.deny_spec_report.specs.Wildcards.{is_asked};
ghost use Rattle.deny_rules_match.specs.Marks.{facts_of};
ghost use Rattle.deny_rules_manifests.specs.private.Asked.{is_asked_at, is_git_at};

use deny_base_lists::{List, NoMemory};
use deny_krates::{Krates, krate_at};
use deny_rules_match::{Groups, Marks, Matches, are_placed, mark_at};
use std::alloc::Global;

/// Marks for the crates that are checked: those that count and come from no git repository, that no skip
/// matches, and that are in no skipped tree.
pub fn asked_of(alloc: Global, found: &Matches<'_>) -> Result<List<bool>, NoMemory>
    ensures { IfOk result (λ asked. asked
        ≡ map (is_asked (policy_view found.now.cfg.now) (facts_of found.now.marks)) found.now.krates.now.crates) }
{
    are_placed(found.krates);
    asked_by_marks(alloc, found.krates, &found.marks, &found.groups)
}

/// Marks for the crates that are checked, by the marks of the facts and the groups.
fn asked_by_marks(
    alloc: Global,
    krates: &Krates,
    marks: &Marks,
    groups: &Groups,
) -> Result<List<bool>, NoMemory>
    ensures { IfOk result (λ asked. asked ≡ map (is_asked_at krates.now marks.now.counts.items groups.now)
        (range_with_len 0 (length krates.now.crates))) }
{
    let end = krates.krates().len() as u32;
    let mut asked = List::new(alloc);
    for place in 0..end {
        asked.push(is_asked_at(krates, marks, groups, place))?;
    }
    Ok(asked)
}

/// Whether the crate at a place is checked.
#[tactic(auto, unfolding(crate::specs::private::Asked::is_asked_at))]
fn is_asked_at(krates: &Krates, marks: &Marks, groups: &Groups, place: u32) -> bool
    ensures { result ≡ is_asked_at krates.now marks.now.counts.items groups.now place }
{
    mark_at(marks.counts.as_slice(), place)
        && !mark_at(groups.marked.as_slice(), place)
        && !mark_at(groups.in_skipped_tree.as_slice(), place)
        && !is_git_at(krates, place)
}

fn is_git_at(krates: &Krates, place: u32) -> bool
    ensures { result ≡ is_git_at krates.now place }
{
    match krate_at(krates, place) {
        Some(krate) => krate.is_git_source(),
        None => false,
    }
}
