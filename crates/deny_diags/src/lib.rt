//! The message about each key, code by code: its severity, its text, its labels, its notes, the crates shown
//! with it and the crate that it is about. Each subject has a file, as in the definitions, but for manifests
//! and builds, which have crates of their own; `diag` has the table over codes.
//!
//! # Choices
//!
//! The entry that a key shows is found by its number: one index, made once for a check, leads from a list of the policy
//! and a span to the number of the first entry of that span in the list (`EntryNumbers`), and what was found for a
//! check is read by the same number. Features are found by their spans, in one index over those that entries list and,
//! after them, those that bypasses require; of equal spans the first.
//!
//! Only keys that hold are reported (`CanAllHold`, a `requires` of `report_all`, which `deny_rules` shows of its rules'
//! keys), so the entry, the feature or the workspace's entry that a key shows is there, and no body handles one that is
//! not. A wrapper may be missing: of two bans with the same span the first is reported, and the key may be that of the
//! other; the definitions say what is reported then. No table over codes says which of them look an entry up: for each
//! that does, its keys show one by their own definition (`deny_diags/proofs/NamedLemmas.antt`). That the lists of a
//! policy ascend by the spans of their entries, so that a search in the list itself would serve, is no clause of
//! reading: it would have to be shown of the tree, through the tables, for one map less.
#![tactic(auto)]

mod allow_list;
mod bans;
mod crate_message;
mod diag;
mod duplicates;
mod entry_labels;
mod entry_numbers;
mod entry_warning;
mod features;
mod features_by_span;
mod skipped_trees;
mod skips;
mod wrappers;
mod writer;

pub use diag::report_all;
