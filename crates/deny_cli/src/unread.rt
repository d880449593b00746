//! What could not be read, and malformed manifests, as JSON.
ghost use Rattle.std.specs.Prelude.{◌≡◌, IfOk};
ghost use Rattle.std.specs.Option.{option_copied};
ghost use Rattle.serde_json.specs.View.{view};
ghost use Rattle.deny_cli.specs.Unread.{malformed_value, purpose_word, unread_value, wanted_for};

use crate::line_value::line_value;
use deny_base::Kid;
use deny_base_lists::NoMemory;
use deny_base_unread::{Purpose, Unread};
use deny_krates::Krates;
use serde_json::{Value, json};
use std::alloc::{AllocError, Global};

/// The word of a purpose.
fn purpose_word(purpose: Purpose) -> &'static str
    ensures { result.now ≡ purpose_word purpose }
{
    match purpose {
        Purpose::Manifest => "manifest",
        Purpose::Script => "script",
        Purpose::List => "list",
        Purpose::Header => "header",
        Purpose::Sum => "sum",
    }
}

/// The crate of the graph that something was wanted for, as `name = version`, or null.
fn wanted_for(alloc: Global, krates: &Krates, krate: Option<&Kid>) -> Result<Value, AllocError>
    ensures { IfOk result (λ value. view value ≡ wanted_for krates.now (option_copied krate.entry)) }
{
    let Some(kid) = krate else {
        return Ok(Value::Null);
    };
    match krates.node_for_kid(kid) {
        Some(krate) => Ok(Value::String(format!(in alloc; "{krate}")?)),
        None => Ok(Value::Null),
    }
}

/// What could not be read as JSON.
pub fn unread_value(alloc: Global, krates: &Krates, entry: &Unread) -> Result<Value, NoMemory>
    ensures { IfOk result (λ value. view value ≡ unread_value krates.now entry.now) }
{
    let krate = wanted_for(alloc, krates, entry.krate.as_ref())?;
    let path = entry.path.as_str();
    let purpose = purpose_word(entry.purpose);
    let fields = json!(in alloc; {"crate": krate, "path": path, "purpose": purpose})?;
    line_value(alloc, "unread", fields)
}

/// The path of a malformed manifest as JSON.
pub fn malformed_value(alloc: Global, path: &str) -> Result<Value, NoMemory>
    ensures { IfOk result (λ value. view value ≡ malformed_value path.now) }
{
    line_value(alloc, "malformed", json!(in alloc; {"path": path})?)
}
