//! Dead entries as JSON.
ghost use Rattle.std.specs.Prelude.{◌≡◌, IfOk};
ghost use Rattle.serde_json.specs.View.{view};
ghost use Rattle.deny_cli.specs.Dead.{dead_value, entry_word};

use crate::line_value::line_value;
use deny_base::{EntryId, EntryKind};
use deny_base_lists::NoMemory;
use serde_json::{Value, json};
use std::alloc::Global;

/// The word of a kind of entry.
fn entry_word(kind: EntryKind) -> &'static str
    ensures { result.now ≡ entry_word kind }
{
    match kind {
        EntryKind::Skip => "skip",
        EntryKind::SkipRoot => "skip-root",
        EntryKind::Wrapper => "wrapper",
        EntryKind::Bypass => "bypass",
        EntryKind::BypassPath => "bypass-path",
        EntryKind::BypassGlob => "bypass-glob",
        EntryKind::ReplacementIgnore => "replacement-ignore",
        EntryKind::LicenseAllow => "license-allow",
        EntryKind::LicenseException => "license-exception",
    }
}

/// A dead entry as JSON.
pub fn dead_value(alloc: Global, entry: EntryId) -> Result<Value, NoMemory>
    ensures { IfOk result (λ value. view value ≡ dead_value entry) }
{
    let kind = entry_word(entry.kind);
    let fields = json!(in alloc; {
        "end": entry.range.end, "kind": kind, "start": entry.range.start,
    })?;
    line_value(alloc, "dead", fields)
}
