//! The values of lines.
ghost use Rattle.std.specs.Prelude.{◌≡◌, IfOk, codes};
ghost use Rattle.serde_json.specs.Data.{member, no_members, object, string};
ghost use Rattle.serde_json.specs.View.{view};

use deny_base_lists::NoMemory;
use serde_json::{Value, json};
use std::alloc::Global;

/// The value of a line: its fields, and the word for their kind.
pub fn line_value(alloc: Global, kind: &str, fields: Value) -> Result<Value, NoMemory>
    ensures { IfOk result (λ value. view value ≡ object (member (codes "fields") (view fields)
        (member (codes "type") (string kind.now) no_members))) }
{
    Ok(json!(in alloc; {"fields": fields, "type": kind})?)
}
