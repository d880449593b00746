//! Entries for what was not read of packages.
ghost use Rattle.std.specs.Prelude.{◌≡◌, ◌++◌, ◌∷◌, [], IfOk, OnOk, Some};
ghost use Rattle.deny_spec.specs.declared.package.Found.TheVariants.{Failed};
ghost use Rattle.deny_base.specs.Unread.{asked};

use deny_base::Kid;
use deny_base_lists::{List, NoMemory, Text};
use deny_base_unread::{Purpose, Unread};
use deny_spec::{Failure, Found};
use std::alloc::Global;

/// A failure, with an entry for it at the end of `unread`.
pub(crate) fn failed(
    alloc: Global,
    krate: &Kid,
    purpose: Purpose,
    path: &str,
    failure: Failure,
    unread: &mut List<Unread>,
) -> Result<Found, NoMemory>
    ensures found { IfOk result (λ found. found ≡ Failed failure) }
    ensures unread { OnOk result (unread.new ≡ unread.old ++ asked (Some krate.now) purpose path.now ∷ []) }
{
    unread.push(Unread {
        krate: Some(krate.clone()?),
        path: Text::from_str(alloc, path)?,
        purpose,
    })?;
    Ok(Found::Failed(failure))
}
