//! The message of a key, and the pack that holds its diagnostic.
ghost use Rattle.std.specs.Prelude.{◌≡◌, IfOk};
ghost use Rattle.deny_spec_report.specs.Diags.{check_of_code, pack_of};

use deny_base::{
    Check, Diag, Diagnostic, DiagnosticCode, GraphNode, Key, Kid, Label, Pack, Severity,
};
use deny_base_lists::{List, NoMemory, Text};
use std::alloc::Global;

/// What a report says of a key, whichever code it has: the definition of each code's message gives one of these, and
/// so does the function that makes it.
#[derive(Drop)]
pub struct Message {
    pub severity: Severity,
    pub message: Text,
    pub labels: List<Label>,
    pub notes: List<Text>,
    /// The crates and features that are shown; where there are none, the crate of the finding.
    pub nodes: List<GraphNode>,
    pub with_features: bool,
    /// The crate that the finding is about; none for a group of crates, or for an entry.
    pub krate: Option<Kid>,
}

/// The pack of a key: one diagnostic, with this message.
#[tactic(auto, unfolding(crate::specs::Diags::diag_of, crate::specs::Diags::pack_of))]
pub fn pack_of(alloc: Global, key: Key, message: Message) -> Result<Pack, NoMemory>
    ensures { IfOk result (λ pack. pack ≡ pack_of key message) }
{
    let code = key.code;
    let mut diags = List::new(alloc);
    diags.push(Diag {
        key,
        diag: Diagnostic {
            severity: message.severity,
            code: Some(code),
            message: message.message,
            labels: message.labels,
            notes: message.notes,
        },
        graph_nodes: message.nodes,
        with_features: message.with_features,
    })?;
    Ok(Pack {
        check: check_of_code(code),
        kid: message.krate,
        diags,
    })
}

fn check_of_code(code: DiagnosticCode) -> Check
    ensures { result ≡ check_of_code code }
{
    match code {
        DiagnosticCode::Deprecated | DiagnosticCode::Bans(_) | DiagnosticCode::Expired => {
            Check::Bans
        }
        DiagnosticCode::License(_) => Check::Licenses,
    }
}
