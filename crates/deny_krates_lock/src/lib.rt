//! The lock text of a graph: a line for each crate, and the spans of each crate in it.
//!
//! # Choices
//!
//! A crate's line begins after the lines of those before it, a sum over crates in any order, so its span is read
//! without the sorted list.
#![tactic(auto)]

mod laws;
mod line;
mod order;
mod text;

pub use laws::lines_ascend;
pub use line::LockSpan;
pub use text::{LockText, lock_text};
