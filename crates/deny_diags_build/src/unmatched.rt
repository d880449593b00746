//! The messages about bypasses that no crate hits, and about their paths and globs that no file hits.
ghost use Rattle.std.specs.Prelude.{◌≡◌, IfOk};
ghost use Rattle.deny_spec_report.specs.PackageDiags.{unmatched_bypass_diag, unmatched_glob_diag, unmatched_path_diag};
ghost use Rattle.deny_diags_parts.specs.Context.{circumstances_from};

use crate::message::at_entry;
use deny_base::{Key, Severity};
use deny_base_lists::{NoMemory, Text};
use deny_diags_parts::{DiagContext, lone_label, plainly};
use deny_spec_report::Message;
use std::alloc::Global;

/// The message about an allowed path that no file of the crate hits.
#[tactic(auto, unfolding(deny_spec_report::specs::PackageDiags::unmatched_path_diag))]
pub fn unmatched_path_diag(
    alloc: Global,
    ctx: &DiagContext<'_>,
    key: &Key,
) -> Result<Message, NoMemory>
    ensures { IfOk result (λ diag. diag ≡ unmatched_path_diag (circumstances_from ctx.now) key.now) }
{
    let message = "allowed path was not encountered";
    at_entry(alloc, ctx, key, Severity::Warning, message, "")
}

/// The message about a glob that no file of the crate hits.
#[tactic(auto, unfolding(deny_spec_report::specs::PackageDiags::unmatched_glob_diag))]
pub fn unmatched_glob_diag(
    alloc: Global,
    ctx: &DiagContext<'_>,
    key: &Key,
) -> Result<Message, NoMemory>
    ensures { IfOk result (λ diag. diag ≡ unmatched_glob_diag (circumstances_from ctx.now) key.now) }
{
    at_entry(
        alloc,
        ctx,
        key,
        Severity::Warning,
        "glob was not encountered",
        "",
    )
}

/// The message about a bypass that no crate hits.
#[tactic(auto, unfolding(deny_spec_report::specs::PackageDiags::unmatched_bypass_diag))]
pub fn unmatched_bypass_diag(
    alloc: Global,
    ctx: &DiagContext<'_>,
    key: &Key,
) -> Result<Message, NoMemory>
    ensures { IfOk result (λ diag. diag ≡ unmatched_bypass_diag (circumstances_from ctx.now).files.policy key.now) }
{
    let message = Text::from_str(alloc, "crate build bypass was not encountered")?;
    let labels = lone_label(alloc, ctx.cfg.file_id, key.entry, "unmatched bypass")?;
    Ok(plainly(alloc, Severity::Warning, message, labels, None))
}
