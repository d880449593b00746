//! The messages about wrappers that nothing hits.
ghost use Rattle.std.specs.Prelude.{◌≡◌, IfOk};
ghost use Rattle.deny_spec_report.specs.Wrappers.{unused_wrapper_diag};
ghost use Rattle.deny_diags.specs.private.DiagWriter.{circumstances_from};

use crate::entry_warning::entry_warning;
use crate::writer::DiagWriter;
use deny_base::Key;
use deny_base_lists::NoMemory;
use deny_spec_report::Message;
use std::alloc::Global;

/// The message about a wrapper that nothing hits.
#[tactic(auto, unfolding(deny_spec_report::specs::Wrappers::unused_wrapper_diag))]
pub fn unused_wrapper_diag(
    alloc: Global,
    writer: &DiagWriter<'_>,
    key: &Key,
) -> Result<Message, NoMemory>
    ensures { IfOk result (λ diag. diag ≡ unused_wrapper_diag (circumstances_from writer.now).files.policy key.now) }
{
    let message = "wrapper for banned crate was not encountered";
    entry_warning(
        alloc,
        writer.ctx.cfg.file_id,
        key,
        message,
        "unmatched wrapper",
    )
}
