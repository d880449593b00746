use crate::case_error::CaseError;
use serde_json::Value;
use std::alloc::Global;

/// The bytes of a text: of a part, or of an array of parts one after another.
pub(crate) fn text_bytes(alloc: Global, text: &Value) -> Result<Vec<u8>, CaseError> {
    let mut bytes = Vec::new(alloc);
    push_text(alloc, text, &mut bytes)?;
    Ok(bytes)
}

/// The string that an object has as the member of this name.
pub(crate) fn string_member<'v>(object: &'v Value, name: &str) -> Option<&'v str> {
    object.get(name).and_then(Value::as_str)
}

/// The number that an object has as the member of this name.
pub(crate) fn number_member(object: &Value, name: &str) -> Option<u64> {
    object.get(name).and_then(Value::as_u64)
}

fn push_text(alloc: Global, text: &Value, bytes: &mut Vec<u8>) -> Result<(), CaseError> {
    match text {
        Value::Array(parts) => push_parts(alloc, parts.as_slice(), bytes),
        part => push_part(alloc, part, bytes),
    }
}

fn push_parts(alloc: Global, parts: &[Value], bytes: &mut Vec<u8>) -> Result<(), CaseError> {
    for part in parts {
        push_part(alloc, part, bytes)?;
    }
    Ok(())
}

/// Puts the bytes of a part at the end: a string, or an object for bytes in hex or for a string
/// that is repeated.
fn push_part(alloc: Global, part: &Value, bytes: &mut Vec<u8>) -> Result<(), CaseError> {
    if let Some(string) = part.as_str() {
        return push_bytes(string.as_bytes(), bytes);
    }
    match string_member(part, "hex") {
        Some(digits) => push_hex(alloc, digits, bytes),
        None => push_repeat(part, bytes),
    }
}

fn push_hex(alloc: Global, digits: &str, bytes: &mut Vec<u8>) -> Result<(), CaseError> {
    match hex::decode(alloc, digits) {
        Ok(decoded) => push_bytes(decoded.as_slice(), bytes),
        Err(_) => Err(CaseError::Member("hex")),
    }
}

fn push_repeat(part: &Value, bytes: &mut Vec<u8>) -> Result<(), CaseError> {
    let Some(string) = string_member(part, "repeat") else {
        return Err(CaseError::Member("repeat"));
    };
    match number_member(part, "times") {
        Some(times) => push_repeated(string.as_bytes(), times, bytes),
        None => Err(CaseError::Member("times")),
    }
}

fn push_repeated(string: &[u8], times: u64, bytes: &mut Vec<u8>) -> Result<(), CaseError> {
    for _ in 0..times {
        push_bytes(string, bytes)?;
    }
    Ok(())
}

fn push_bytes(more: &[u8], bytes: &mut Vec<u8>) -> Result<(), CaseError> {
    bytes.extend_from_slice(more)?;
    Ok(())
}
