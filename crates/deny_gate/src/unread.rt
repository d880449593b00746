//! What a report lists as unread.
ghost use Rattle.std.specs.Prelude.{◌++◌, Contains, IfOk};
ghost use Rattle.deny_base_lists.specs.Ascending.{Lists};
ghost use Rattle.deny_base.specs.Unread.{unread_cmp};

use deny_base_lists::{List, NoMemory, put_in_order};
use deny_base_unread::{Unread, unread_order};

/// What was not read of manifests and of packages, by crate, path and purpose, each once.
pub fn joined_unread(
    manifests: List<Unread>,
    packages: List<Unread>,
) -> Result<List<Unread>, NoMemory>
    ensures { IfOk result (Lists unread_cmp (Contains (manifests ++ packages))) }
{
    unread_order();
    let mut unread = manifests;
    let mut others = packages;
    unread.vec.append(&mut others.vec)?;
    put_in_order(&mut unread)?;
    Ok(unread)
}
