//! The messages about the allow list.
ghost use Rattle.std.specs.Prelude.{◌≡◌, IfOk, IsTrue, is_some};
ghost use Rattle.deny_spec_report.specs.AllowList.{allowed_diag, not_allowed_diag};
ghost use Rattle.deny_spec.specs.DiagParts.{allow_at};
ghost use Rattle.deny_diags.specs.private.DiagWriter.{circumstances_from};

use crate::crate_message::sentence_message;
use crate::entry_labels::allow_labels_at;
use crate::writer::DiagWriter;
use deny_base::{Key, Severity};
use deny_base_lists::{List, NoMemory};
use deny_spec_report::Message;
use std::alloc::Global;

/// The message about a crate that an entry allows.
#[tactic(auto, unfolding(deny_spec_report::specs::AllowList::allowed_diag))]
pub fn allowed_diag(alloc: Global, writer: &DiagWriter<'_>, key: &Key) -> Result<Message, NoMemory>
    requires { IsTrue (is_some (allow_at (circumstances_from writer.now).policy key.now.entry)) }
    ensures { IfOk result (λ diag. let c = circumstances_from writer.now in
        diag ≡ allowed_diag c.policy c.graph c.files.policy key.now) }
{
    let labels = allow_labels_at(alloc, writer, "allowed here", key.entry)?;
    sentence_message(
        alloc,
        writer.ctx.krates,
        Severity::Note,
        "crate '",
        key,
        "' is explicitly allowed",
        labels,
    )
}

/// The message about a crate that no entry allows.
#[tactic(auto, unfolding(deny_spec_report::specs::AllowList::not_allowed_diag))]
pub fn not_allowed_diag(
    alloc: Global,
    writer: &DiagWriter<'_>,
    key: &Key,
) -> Result<Message, NoMemory>
    ensures { IfOk result (λ diag. diag ≡ not_allowed_diag (circumstances_from writer.now).graph key.now) }
{
    sentence_message(
        alloc,
        writer.ctx.krates,
        Severity::Error,
        "crate '",
        key,
        "' is not explicitly allowed",
        List::new(alloc),
    )
}
