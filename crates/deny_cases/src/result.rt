use crate::case_error::CaseError;
use deny_base_disk::MemoryOut;
use serde_json::Value;
use std::alloc::{AllocError, Global};

/// The result of a case, as a line of JSON.
pub(crate) fn result_line(
    alloc: Global,
    name: &str,
    out: &MemoryOut,
    err: &MemoryOut,
    status: u8,
) -> Result<String, CaseError> {
    let mut line = String::new(alloc);
    push_output(alloc, "{\"err\":", err, &mut line)?;
    push_name(alloc, name, &mut line)?;
    push_output(alloc, ",\"out\":", out, &mut line)?;
    push_status(status, &mut line)?;
    Ok(line)
}

/// What an output took, as text.
fn push_output(
    alloc: Global,
    before: &str,
    out: &MemoryOut,
    line: &mut String,
) -> Result<(), AllocError> {
    line.push_str(before)?;
    let text = String::from_utf8_lossy(alloc, out.bytes())?;
    line.write(Value::String(text))
}

fn push_name(alloc: Global, name: &str, line: &mut String) -> Result<(), AllocError> {
    line.push_str(",\"name\":")?;
    let name = String::from_str(alloc, name)?;
    line.write(Value::String(name))
}

fn push_status(status: u8, line: &mut String) -> Result<(), AllocError> {
    line.push_str(",\"status\":")?;
    line.write(status)?;
    line.push_str("}")
}
