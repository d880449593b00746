//! The check of `[bans]`.

pub use crate::check::check;
