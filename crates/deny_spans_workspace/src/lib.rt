//! What the entries of `workspace.dependencies` resolve to, by the tree of the workspace's manifest, a
//! graph and the known registries. Nothing is read from a disk.
//!
//! # Choices
//!
//! A path of the workspace's manifest is compared by components, with `.` and `..` resolved: `..` at the root vanishes,
//! and stays where no name precedes it. Of addresses of repositories host and path are compared, of a path each `.git`
//! at its end left off.
#![tactic(auto)]

mod agreement;
mod dep_spec;
mod entries;
mod manifest_key;
mod origin;
mod paths;
mod registries;
mod repositories;
mod workspace;

pub use registries::Registry;
pub use workspace::{UnusedWorkspaceDep, WorkspaceDeps, WorkspaceSpan, workspace_deps};
