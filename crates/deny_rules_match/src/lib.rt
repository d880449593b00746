//! What the crate rules rest on: which crates an entry matches, which count, which are in skipped trees,
//! which are exempt, and which crates of one name may be duplicates.
//!
//! # Choices
//!
//! Which crates the entries of a policy match is found once for a check, in one value (`Matches`) that rules, hits and
//! diagnostics read: of each skip, entry of `skip-tree` and ban the places of its crates, a ban's wrappers by name, the
//! groups, who is exempt and of which crates several versions are denied. What the value holds is its own invariant, so
//! no call that takes it has a further condition; only that its facts are true is a clause of the call that makes it,
//! since chains are no proposition. The crates of entries of `allow` are found by their one rule, and those of
//! `features` once for all rules on features.
//!
//! The crates that an entry matches are found by its name among the crates, which are in the order of their names, and
//! then by their versions: the index is the graph's own. An index of the entries' names (`SpecIndex`) serves where the
//! entries that match a given crate are looked for: ignores of what the standard library replaces, exceptions of
//! licences.
#![tactic(auto)]

mod crate_keys;
mod entry_match;
mod exempt;
mod facts;
mod groups;
mod marking;
mod matches;
mod matching;
mod placed;
mod shown;
mod wrappers;

pub use crate_keys::add_crate_keys;
pub use entry_match::EntryMatch;
pub use facts::{Marks, counts_of};
pub use groups::{Groups, reduced_len};
pub use marking::{mark_at, mark_each, marked, no_marks, unmarked};
pub use matches::{BanMatch, Matches};
pub use matching::matched;
pub use placed::are_placed;
pub use shown::krate_name;
pub use wrappers::{span_at, spans_by_name, wrappers_of};
