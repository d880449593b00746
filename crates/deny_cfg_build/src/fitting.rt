//! Patterns of a glob set by their indices.
ghost use Rattle.std.specs.Prelude.{◌≡◌, IfOk, filter_map, map, option_map, slice_get};

use crate::pattern::GlobPattern;
use deny_base_lists::NoMemory;
use std::alloc::Global;

fn pattern_at(patterns: &[GlobPattern], index: usize) -> Option<&GlobPattern>
    ensures { option_map (λ pattern. pattern.now) result ≡ slice_get patterns.now index }
{
    patterns.get(index)
}

pub(crate) fn patterns_at<'s>(
    alloc: Global,
    patterns: &'s [GlobPattern],
    indices: &[usize],
) -> Result<Vec<&'s GlobPattern>, NoMemory>
    ensures { IfOk result (λ all. map (λ pattern. pattern.now) all.items
        ≡ filter_map (slice_get patterns.now) indices.now) }
{
    let mut all = Vec::new(alloc);
    for index in indices {
        if let Some(pattern) = pattern_at(patterns, *index) {
            all.push(pattern)?;
        }
    }
    Ok(all)
}
