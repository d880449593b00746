//! The tables and entries of `[bans]`: as they are written, and as the rules take them.

use deny_cfg_entries::PackageSpecOrExtended;

mod valid;

pub use deny_cfg_build::{GlobPattern, ValidBuildConfig, ValidBypass, ValidGlobSet};
pub use deny_cfg_tables::bans::cfg::{
    BuildConfig, Bypass, BypassPath, Checksum, ChecksumParseError, Config, CrateAllow, CrateBan,
    CrateBanExtended, CrateFeatures, CrateSkip, GraphHighlight, SpecAndReason,
    StdReplacementConfig, TreeSkip, TreeSkipExtended, WorkspaceDepsConfig, checksum_round_trip,
};
pub use valid::{Features, KrateBan, ValidConfig, ValidKrateFeatures};

/// An entry of `skip-tree` in a valid configuration.
pub type ValidTreeSkip = PackageSpecOrExtended<TreeSkipExtended>;
