//! Diagnostics, trees and findings as JSON, and the lines of findings.
//!
//! # Choices
//!
//! Where a chain is long, a line nests deeper than `serde_json` reads back, so the law on lines is about the grammar of
//! JSON, and about `serde_json` up to its depth.
//!
//! A finding without a code has no member `code`; clashes of a policy are reported without one, in lines of the same
//! form.
#![tactic(auto)]

mod diagnostics;
mod findings;
mod graph_text;
mod graphs;
mod labels;
mod laws;
mod lines;

pub use diagnostics::{CsDiag, cs_diag_to_json, diagnostic_value};
pub use findings::diag_to_json;
pub use laws::{findings_are_plain, lines_are_json, text_is_json};
pub use lines::{diag_line, line};
