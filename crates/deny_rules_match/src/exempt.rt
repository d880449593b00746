//! The crates that no rule of bans concerns.
ghost use Rattle.std.specs.Prelude.{◌≡◌, IfOk, map};
ghost use Rattle.deny_cfg.specs.PolicyView.{policy_view};
ghost use Rattle.deny_spec.specs.Bans.{is_exempt};

use crate::marking::{mark_each, no_marks};
use deny_base_lists::{List, NoMemory};
use deny_cfg::bans::cfg::ValidConfig;
use deny_krates::Krates;
use std::alloc::Global;

/// A mark for each exempt crate: the workspace's own, where the policy allows them.
pub fn exempt_marks(
    alloc: Global,
    cfg: &ValidConfig,
    krates: &Krates,
) -> Result<List<bool>, NoMemory>
    ensures { IfOk result (λ marks. marks ≡ map (is_exempt (policy_view cfg.now) krates.now) krates.now.crates) }
{
    let _orderly = krates.krates();
    let mut marks = no_marks(alloc, krates)?;
    if !cfg.allow_workspace {
        return Ok(marks);
    }
    mark_each(&mut marks, krates.workspace_members());
    Ok(marks)
}
