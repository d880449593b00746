//! Messages about the crate of a key.
ghost use Rattle.std.specs.Prelude.{◌≡◌, IfOk};
ghost use Rattle.deny_spec_report.specs.MessageParts.{plainly};
ghost use Rattle.deny_spec.specs.DiagParts.{kid_at, of_crate};

use deny_base::{Key, Label, Severity};
use deny_base_lists::{List, NoMemory};
use deny_diags_parts::{crate_message, of_crate};
use deny_krates::Krates;
use deny_spec_report::Message;
use std::alloc::Global;

/// A message about the crate of a key, whose text is a sentence about it.
pub fn sentence_message(
    alloc: Global,
    krates: &Krates,
    severity: Severity,
    before: &str,
    key: &Key,
    after: &str,
    labels: List<Label>,
) -> Result<Message, NoMemory>
    ensures { IfOk result (λ diag. diag ≡ plainly severity
        (of_crate before.now krates.now key.now after.now) labels (kid_at krates.now key.now.place)) }
{
    let message = of_crate(alloc, krates, before, key, after)?;
    crate_message(alloc, krates, key, severity, message, labels)
}
