//! The gate: from the texts of a policy and of cargo's metadata to a report of findings.
//!
//! # Choices
//!
//! One view does not determine a whole report: a manifest that is unread and one that is malformed look alike in it. So
//! equal views give equal findings, and equal reports where the disk tells its files and what is unread is the same.
//!
//! Where the texts give no report, no manifest is read: a clause says that the disk is the very value that was passed.
//!
//! That what was seen of manifests determines the findings is one law (`one_report`), and that one thing is seen on a
//! disk that tells its files is another (`one_view`); what is so whatever was seen follows from `one_unseen` and
//! `message_unseen`.
//!
//! The answer `Metadata` never has the fault `Memory`: the gate has an answer of its own for that, so that each cause
//! has one answer.
//!
//! Of a policy outside the grammar the fault's span is free within the text, so that is the one cause that two runs may
//! report differently.
//!
//! Offset 0 of `Replacement` means that there is no table, or that it breaks at its first byte.
//!
//! A policy asks for a table where it writes `std-replacements` with a scope other than none; else bytes that were
//! passed are ignored, and the file is read all the same, since inputs are read before the policy is parsed.
//!
//! The gate tests the table, so that its break is an answer of its own, and the check reads it again: it takes the
//! bytes, and both readings cost less than a step for each byte.
//!
//! The clauses of each check hold by any view and facts, and the gate takes both checks by those of the bans check. So
//! the keys of the bans check, followed by those of the licence check, are the report's. Without `[licenses]` no key
//! holds in the sections of licences: the definitions say so, no check is made and no count given.
//!
//! Counts are of findings, by check and severity. The verdict is computed from the findings; that the exit code of the
//! counts is that of the verdict is a clause and a law.
//!
//! That dead entries can go is said of the policy, the graph and the table of the texts, and not of a shorter text: no
//! law says yet which text has the policy without them.
//!
//! A report has no `Debug`, since a graph has none.
#![tactic(auto)]

mod checks;
mod dead;
mod findings;
mod gating;
mod hits;
mod laws;
pub mod licenses;
mod report;
mod stats;
mod trees;
mod unread;
mod warnings;

/// Trees of the graph, by cargo-deny's names.
pub mod grapher {
    pub use deny_krates_trees::grapher::{GraphNode, NodeInner};
}

pub use deny_gate_json::{CsDiag, cs_diag_to_json, diag_to_json};
pub use deny_krates_trees::{GraphEnd, InclusionGrapher, graphs_of, write_graph_as_text};
pub use findings::has_error;
pub use gating::gate;
pub use laws::{dead_can_go, exit_codes, headline, one_answer, one_report, unhit_can_go};
pub use report::{Finding, GateError, Inputs, Report, Verdict};
pub use stats::{AllStats, Stats, stats_to_exit_code};
