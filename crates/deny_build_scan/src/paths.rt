//! Paths of files, relative to the folder of their package.
ghost use Rattle.std.specs.Prelude.{◌≡◌};
ghost use Rattle.deny_build_scan.specs.Paths.{below};

use deny_base_disk::path_in_folder;

/// The rest of a path after the folder and its slash; all of a path that does not begin with these.
#[tactic(auto, unfolding(crate::specs::Paths::below))]
pub(crate) fn below<'p>(folder: &str, path: &'p str) -> &'p str
    ensures { result.now ≡ below folder.now path.now }
{
    match path_in_folder(folder, path) {
        Some(rest) => rest,
        None => path,
    }
}
