//! The bans check: which keys hold for a policy and a graph by the rules on crates, features, manifests and
//! packages, which entries are hit, and which crates the standard library replaces.
//!
//! # Choices
//!
//! The rules of the bans check are one list of lists (`OwnRules`), and that they give the keys that hold in its
//! sections is a line for each rule, each way; duplicates, which are a relation, are beside the list. So the crate
//! depends on no list of rules in the definitions, and a new rule is a line in three places of one crate.
//!
//! `bans::check` takes the spans of manifests and says its keys, its findings and the prefix by their view
//! (`spans_view`), a function of the value, so that no condition names the disk that they were read from.
//!
//! Keys of features are added to the others before the keys are ordered, once; those on replaced crates come after all
//! of them. The unlisted features that a finding shows are computed by the function that decides whether its key holds.
//!
//! The findings of the crate rules are one list, and those on replaced crates another, which follows the first as a
//! whole: neither is sorted again. The check finds all keys before it reports any, so running out of memory while it
//! finds them leaves the list as it was.
//!
//! The warnings about the policy itself are none of this check's: they come of reading the policy, whatever the graph
//! is, and their section is before all others. So the check needs no part of a policy that expired.
#![tactic(auto)]

pub mod bans;
mod check;
mod packages;
mod replaced;

pub use check::{BansEnd, CheckCtx};
pub use deny_rules_dup_edges::{DupEdge, DupEdges, DupSet};
