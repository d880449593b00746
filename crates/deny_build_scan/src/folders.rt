//! The folders of a package that have no list.
ghost use Rattle.std.specs.Prelude.{◌≡◌, IfOk, map};
ghost use Rattle.std.specs.Option.{option_copied};
ghost use Rattle.deny_build_scan.specs.private.Folders.{failure_of, folder_unseen};

use deny_base_lists::{List, NoMemory};
use deny_build_file::home_path;
use deny_build_walk::{NoList, Unlisted};
use deny_spec::{Failure, Found, Seen};
use std::alloc::Global;

fn failure_of(why: NoList) -> Failure
    ensures { result ≡ failure_of why }
{
    match why {
        NoList::Failed => Failure::Unlisted,
        NoList::Crowded => Failure::Crowded,
    }
}

/// The folders without a list as they are shown, in their order.
pub(crate) fn folders_unseen(
    alloc: Global,
    folder: &str,
    home: Option<&str>,
    unlisted: &[Unlisted],
) -> Result<List<Seen>, NoMemory>
    ensures { IfOk result (λ seen. seen ≡ map (folder_unseen folder.now (option_copied home.entry)) unlisted.now) }
{
    let mut seen = List::new(alloc);
    for one in unlisted {
        seen.push(Seen {
            shown: home_path(alloc, one.path.as_str(), folder, home)?,
            found: Found::Failed(failure_of(one.why)),
        })?;
    }
    Ok(seen)
}
