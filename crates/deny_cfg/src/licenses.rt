//! The table `[licenses]`.

pub use deny_cfg_tables::licenses::{Config, Exception};

/// The table `[licenses]` as the rules take it: as it is written, since nothing in it can clash.
pub type ValidConfig = Config;
