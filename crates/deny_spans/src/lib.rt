//! Where a graph's crates stand in texts: in the lock text, in their manifests, and in what the workspace's
//! manifest shares. Each manifest is read once; what was not read or is malformed is reported.
//!
//! # Choices
//!
//! Two types that cargo-deny makes public are not there. `WsDep` is one that nothing in cargo-deny makes or takes.
//! `Spans` is the value of a map there that no call hands out; here a list for each of its three parts has them by the
//! places of crates, and `lock_span`, `manifest` and `workspace_span` give them.
//!
//! What was seen of manifests is a list of scans (`ManifestScan`): a crate with what was read of its manifest, if
//! anything. So two crates with the same manifest path have two scans, each of which is read, or unread, by itself.
#![tactic(auto)]

mod gathered;
mod krate_spans;
mod laws;
mod missed;
mod paths;
mod workspace;

pub use deny_krates_lock::LockSpan;
pub use deny_spans_manifest::{Manifest, ManifestDep, ManifestDeps, ManifestFault};
pub use deny_spans_workspace::{Registry, UnusedWorkspaceDep, WorkspaceSpan};
pub use krate_spans::KrateSpans;
pub use laws::one_view;
