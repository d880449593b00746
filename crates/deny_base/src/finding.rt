use crate::check::Check;
use crate::code::DiagnosticCode;
use crate::key::Key;
use crate::label::Label;
use crate::level::Severity;
use crate::span::Kid;
use deny_base_lists::{List, Text};

/// The message of a finding, with its severity, labels and notes.
#[derive(Debug, Drop)]
pub struct Diagnostic {
    pub severity: Severity,
    pub code: Option<DiagnosticCode>,
    pub message: Text,
    pub labels: List<Label>,
    pub notes: List<Text>,
}

/// A crate in the graph that a finding shows, or one of its features.
#[derive(Drop)]
pub struct GraphNode {
    pub kid: Kid,
    pub feature: Option<Text>,
}

/// A diagnostic with the key that orders it, and the nodes of the graph that are shown with it.
#[derive(Drop)]
pub struct Diag {
    pub key: Key,
    pub diag: Diagnostic,
    /// The crates and features that are shown; where there are none, the crate of the finding.
    pub graph_nodes: List<GraphNode>,
    /// Whether features are shown too, however deep.
    pub with_features: bool,
}

/// The diagnostics of one check about a crate, or about no single crate.
#[derive(Drop)]
pub struct Pack {
    pub check: Check,
    pub kid: Option<Kid>,
    pub diags: List<Diag>,
}
