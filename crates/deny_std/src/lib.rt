//! Crates that the standard library replaces, by the policy's settings and a table of replacements:
//! which crates are replaced, which ignores of the policy they hit, and the diagnostics.
//!
//! The table itself, its items and its errors are those of `deny_std_table`.
//!
//! # Choices
//!
//! The findings of the rule are those of its own section and its unused entries, which are next to each other in the
//! report: the unused entries of this kind are the last of their section, and the section of std comes next. So one
//! call can report both, in the order of their keys.
//!
//! `## Stable` is the head of every note, also without a stable item; a version is written above an item where it is
//! not that of the item before, so it may occur twice; the list of what is unavailable has the crate's name as it is
//! written, with its `-`.
//!
//! Of the versions of Rust only the minor number counts. Without a stable item a dependent with a version never
//! satisfies.
//!
//! `process` takes the configuration, as cargo-deny's does, and the check, which borrows one, calls `replacements_of`,
//! which does the same.
//!
//! What is found keeps no policy and no graph: it keeps the table, the level, the places of the crates that are
//! reported, the hits, and of each entry that ignored nothing its span, its text and the span of its reason. What it
//! was found from is a relation (`IsFoundFrom`), since what a table says is a function, and a member of a struct that
//! is there for proofs alone has to be a proposition.
//!
//! A dependent is tested against the least minor version in which something is stable; that version is reached exactly
//! where something is stable in the dependent's. So an entry's items are read once for a crate, and not once for each
//! dependent.
//!
//! Entries of `ignore` are identified by their spans, and no call requires that the configuration is lawful: of several
//! with the same span that ignore nothing the first is reported.
//!
//! Crates that the standard library replaces are reported where they are found, with notes made of the table's bytes as
//! they are reported: `report_all` requires, by the table over all codes, that a key's code is one that it reports.
#![tactic(auto)]

mod ctx;
mod dependents;
mod diags;
mod first_witnesses;
mod hits;
mod ignored;
mod members;
mod note;
mod partition;
mod places;
mod replaced;
mod replacements;
mod scope;
mod stable_since;

pub use ctx::{ReplacementCtx, replacements_of};
pub use deny_std_table::{
    Api, ApiReplacement, Replacement, ReplacementData, ReplacementError, ReplacementItem,
    ReplacementIter, UpgradeError,
};
pub use replacements::Replacements;
