//! The paths of the workspace's own files.
ghost use Rattle.std.specs.Prelude.{◌≡◌, IfOk};
ghost use Rattle.deny_spans.specs.Paths.{lock_path, workspace_path};

use deny_base_lists::{NoMemory, Text};
use std::alloc::Global;

/// The path of the manifest in the root of a workspace.
#[tactic(auto, unfolding(crate::specs::Paths::workspace_path))]
pub fn workspace_path(alloc: Global, root: &str) -> Result<Text, NoMemory>
    ensures { IfOk result (λ path. path ≡ workspace_path root.now) }
{
    let mut path = Text::from_str(alloc, root)?;
    if !root.ends_with('/') {
        path.push_str("/")?;
    }
    path.push_str("Cargo.toml")?;
    Ok(path)
}

/// The path of the lock text, by the name that is given to it.
#[tactic(auto, unfolding(crate::specs::Paths::lock_path))]
pub fn lock_path(alloc: Global, name: &str) -> Result<Text, NoMemory>
    ensures { IfOk result (λ path. path ≡ lock_path name.now) }
{
    let mut path = Text::from_str(alloc, name)?;
    path.push_str("/Cargo.lock")?;
    Ok(path)
}
