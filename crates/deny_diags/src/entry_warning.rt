//! A warning about an entry of the policy that matches nothing.
ghost use Rattle.std.specs.Prelude.{◌≡◌, ◌∷◌, [], IfOk, None};
ghost use Rattle.deny_base.specs.declared.level.Severity.TheVariants as severity;
ghost use Rattle.deny_spec_report.specs.MessageParts.{plainly};
ghost use Rattle.deny_spec.specs.DiagParts.{primary};

use deny_base::{FileId, Key, Severity};
use deny_base_lists::{NoMemory, Text};
use deny_diags_parts::{lone_label, plainly};
use deny_spec_report::Message;
use std::alloc::Global;

/// A warning with one label, at the entry of a key.
pub fn entry_warning(
    alloc: Global,
    file: FileId,
    key: &Key,
    message: &str,
    label: &str,
) -> Result<Message, NoMemory>
    ensures { IfOk result (λ diag. diag ≡ plainly severity.Warning message.now
        (primary file key.now.entry label.now ∷ []) None) }
{
    let message = Text::from_str(alloc, message)?;
    let labels = lone_label(alloc, file, key.entry, label)?;
    Ok(plainly(alloc, Severity::Warning, message, labels, None))
}
