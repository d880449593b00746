//! The table `[bans]`.

pub mod cfg;
