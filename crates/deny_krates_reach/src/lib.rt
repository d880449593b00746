//! The crates that lead to build time: those that execute there, and those on which they depend.
#![tactic(auto)]

mod executing;
mod reach;

pub use executing::executes_at_build_time;
pub use reach::build_reach;
