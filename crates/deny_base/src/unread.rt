ghost use Rattle.std.specs.Prelude.{◌≡◌};
ghost use Rattle.std.specs.Cmp.{IsTotalOrder};
ghost use Rattle.std.specs.FinMap.{IsAntisymmetric};
ghost use Rattle.deny_base.specs.Unread.{unread_cmp};
ghost use Rattle.deny_base.specs.declared.unread.Unread.{Unread};

use crate::purpose::Purpose;
use crate::span::Kid;
use deny_base_lists::Text;

/// An entry for what was to be read and was not, because of a limit or a failed call. Entries
/// ascend by crate, path and purpose, and those of no crate come first.
#[derive(PartialEq, Eq, PartialOrd, Ord, Drop)]
pub struct Unread {
    /// The crate that it was to be read for; none for the manifest of a workspace that is no crate's.
    pub krate: Option<Kid>,
    /// The path of the file or the folder.
    pub path: Text,
    pub purpose: Purpose,
}

/// The order of entries is by crate, path and purpose, it is total, and only equal entries tie.
pub fn unread_order()
    ensures fields { (a b : Unread) → ⟦<Unread as Ord>⟧.cmp a b ≡ unread_cmp a b }
    ensures total { IsTotalOrder unread_cmp }
    ensures equal { IsAntisymmetric unread_cmp }
{}
