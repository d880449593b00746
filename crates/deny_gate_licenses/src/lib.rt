//! The licence check: which licences the expressions of crates require, and which of them a policy
//! grants.
//!
//! # Choices
//!
//! The licence check gathers its findings and appends all of them or none. It identifies entries by their spans, and
//! requires nothing of the configuration.
//!
//! What grants a licence is found in a map from licence and exception to its first entry: one map for all crates, and
//! one for each crate from the exceptions that match it.
#![tactic(auto)]

mod answers;
mod counted;
mod diags;
mod entries;
mod granter;
mod granting;
mod grants;
mod judged;
mod judgement;
mod licenses;
mod witnesses;

pub use licenses::check;
