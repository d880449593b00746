//! The messages about skipped trees.
ghost use Rattle.std.specs.Prelude.{◌≡◌, IfOk, IsTrue, is_some};
ghost use Rattle.deny_spec_report.specs.SkippedTrees.{skipped_by_root_diag, unmatched_skip_root_diag};
ghost use Rattle.deny_spec.specs.DiagParts.{root_at};
ghost use Rattle.deny_diags.specs.private.DiagWriter.{circumstances_from};

use crate::crate_message::sentence_message;
use crate::entry_labels::root_labels_at;
use crate::entry_warning::entry_warning;
use crate::writer::DiagWriter;
use deny_base::{Key, Severity};
use deny_base_lists::NoMemory;
use deny_spec_report::Message;
use std::alloc::Global;

/// The message about a crate in a skipped tree.
#[tactic(auto, unfolding(deny_spec_report::specs::SkippedTrees::skipped_by_root_diag))]
pub fn skipped_by_root_diag(
    alloc: Global,
    writer: &DiagWriter<'_>,
    key: &Key,
) -> Result<Message, NoMemory>
    requires { IsTrue (is_some (root_at (circumstances_from writer.now).policy key.now.entry)) }
    ensures { IfOk result (λ diag. let c = circumstances_from writer.now in
        diag ≡ skipped_by_root_diag c.policy c.graph c.files.policy key.now) }
{
    let labels = root_labels_at(alloc, writer, "matched skip root", key.entry)?;
    sentence_message(
        alloc,
        writer.ctx.krates,
        Severity::Note,
        "skipping crate '",
        key,
        "' due to root skip",
        labels,
    )
}

/// The message about an entry of `skip-tree` that matches no crate.
#[tactic(auto, unfolding(deny_spec_report::specs::SkippedTrees::unmatched_skip_root_diag))]
pub fn unmatched_skip_root_diag(
    alloc: Global,
    writer: &DiagWriter<'_>,
    key: &Key,
) -> Result<Message, NoMemory>
    ensures { IfOk result
        (λ diag. diag ≡ unmatched_skip_root_diag (circumstances_from writer.now).files.policy key.now) }
{
    entry_warning(
        alloc,
        writer.ctx.cfg.file_id,
        key,
        "skip tree root was not found in the dependency graph",
        "no crate matched these criteria",
    )
}
