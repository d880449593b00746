ghost use Rattle.std.specs.Prelude.{◌≡◌, Some, None, Ok, IfOk, IfErr};
ghost use Rattle.serde_json.specs.Read.{read};
ghost use Rattle.serde_json.specs.View.{view};
ghost use Rattle.deny_base_lists.specs.Reader.{Fails, Gives, IsFault};
ghost use Rattle.deny_krates_metadata.specs.Document.{json_at, value_at};

use crate::fault::MetadataFault;
use crate::floats::is_fractional;
use serde_json::Value;
use std::alloc::Global;

/// The value of a text in UTF-8 whose numbers are whole and within 64 bits.
#[tactic(auto, unfolding(crate::specs::Document::value_at, crate::specs::Document::whole))]
pub fn owned_value(alloc: Global, bytes: &[u8]) -> Result<Value, MetadataFault>
    ensures { Gives MetadataFault.Memory (λ v. value_at bytes.now ≡ Ok (view v)) (IsFault (value_at bytes.now)) result }
{
    let value = json_in(alloc, bytes)?;
    if is_fractional(&value) {
        return Err(MetadataFault::Float);
    }
    Ok(value)
}

// The value of a text in UTF-8.
#[tactic(auto, unfolding(crate::specs::Document::json_at, crate::specs::Document::json_of))]
fn json_in(alloc: Global, bytes: &[u8]) -> Result<Value, MetadataFault>
    ensures { Gives MetadataFault.Memory (λ v. json_at bytes.now ≡ Ok (view v)) (IsFault (json_at bytes.now)) result }
{
    match simdutf8::compat::from_utf8(bytes) {
        Ok(text) => value_of_text(alloc, text),
        Err(_) => Err(MetadataFault::Json),
    }
}

fn value_of_text(alloc: Global, text: &str) -> Result<Value, MetadataFault>
    ensures ok { IfOk result (λ v. read text.now ≡ Some (view v)) }
    ensures err { IfErr result (Fails MetadataFault.Memory
        (λ e. (e ≡ MetadataFault.Json) × (read text.now ≡ None))) }
{
    match Value::from_str(alloc, text) {
        Ok(value) => Ok(value),
        Err(error) => {
            if error.is_memory() {
                Err(MetadataFault::Memory)
            } else {
                Err(MetadataFault::Json)
            }
        }
    }
}
