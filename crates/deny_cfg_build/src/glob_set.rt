//! Sets of globs with the patterns that the globs were read from.
ghost use Rattle.std.specs.Prelude.{◌≡◌, length};

use crate::fitting::patterns_at;
use crate::pattern::GlobPattern;
use deny_base_lists::{List, NoMemory};
use deny_globs::GlobSet;

/// Globs, and their patterns: the glob of each index is read from the pattern of that index.
#[derive(Drop)]
pub struct ValidGlobSet {
    pub set: GlobSet,
    pub patterns: List<GlobPattern>,
    pub ghost paired: { length set ≡ length patterns },
}

impl ValidGlobSet {
    ghost use Rattle.std.specs.Prelude.{ℕ, ◌↔◌, Contains, IfOk, OnErr, map, option_map};
    ghost use Rattle.std.specs.List.Sorted.{IsStrictlyIncreasing};
    ghost use Rattle.std.specs.Str.{chars};
    ghost use Rattle.deny_globs.specs.Sets.{AreFirstFitting, FitsAt};
    ghost use Rattle.deny_cfg_build.specs.Globs.{patterns_at};

    /// The patterns whose globs match the whole path, in order; None exactly where no glob matches. The
    /// indices of these globs, ascending, replace what `indices` held. Where memory runs out, the list
    /// holds the first of them.
    pub fn matches<'s>(
        &'s self,
        path: &str,
        indices: &mut Vec<usize>,
    ) -> Result<Option<Vec<&'s GlobPattern>>, NoMemory>
        ensures ascending { IfOk result (λ found. IsStrictlyIncreasing indices.new.items) }
        ensures exact { IfOk result (λ found. (i : ℕ) → Contains indices.new.items i
            ↔ FitsAt self.now.set i (chars path.now)) }
        ensures patterns { IfOk result (λ found. option_map (λ all. map (λ pattern. pattern.now) all.items) found
            ≡ patterns_at self.now.patterns indices.new.items) }
        ensures short { OnErr result (AreFirstFitting self.now.set (chars path.now) indices.new.items) }
    {
        self.set.matches(path, indices)?;
        if indices.is_empty() {
            return Ok(None);
        }
        let patterns = patterns_at(
            *indices.allocator(),
            self.patterns.as_slice(),
            indices.as_slice(),
        )?;
        Ok(Some(patterns))
    }
}
