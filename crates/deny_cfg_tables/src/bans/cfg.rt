//! The tables and entries of `[bans]`. Their keys are those of cargo-deny: a field has the name of
//! its key, with `_` for `-`, where its comment names no other key.

use deny_cfg_entries::{PackageSpecOrExtended, Reason, Waiver};

mod ban;
mod build;
mod bypass;
mod checksum;
mod config;
mod features;
mod highlight;
mod std_replacements;
mod tree_skip;
mod workspace;

pub use ban::CrateBanExtended;
pub use build::BuildConfig;
pub use bypass::{Bypass, BypassPath};
pub use checksum::{Checksum, ChecksumParseError, checksum_round_trip};
pub use config::Config;
pub use features::CrateFeatures;
pub use highlight::GraphHighlight;
pub use std_replacements::StdReplacementConfig;
pub use tree_skip::TreeSkipExtended;
pub use workspace::WorkspaceDepsConfig;

/// An entry of `deny`.
pub type CrateBan = PackageSpecOrExtended<CrateBanExtended>;

/// An entry of `allow`.
pub type CrateAllow = PackageSpecOrExtended<Reason>;

/// An entry of `skip`, or of `ignore` in `std-replacements`.
pub type CrateSkip = PackageSpecOrExtended<Waiver>;

/// An entry of `skip-tree`.
pub type TreeSkip = PackageSpecOrExtended<TreeSkipExtended>;

/// An entry that gives nothing but a reason beside its spec.
pub type SpecAndReason = PackageSpecOrExtended<Reason>;
