use crate::case_error::CaseError;
use crate::result::result_line;
use crate::text::{number_member, string_member, text_bytes};
use deny_base_disk::{MemoryDisk, MemoryOut};
use deny_cli::status_of_run;
use serde_json::{Map, Value};
use std::alloc::Global;

/// How many bytes a read gives at most, and how many an output takes, where a case does not say.
const PIECE: usize = 0x1_0000;

const ROOM: usize = 0x10_0000;

/// Runs the case of a line, and gives its result as a line of JSON.
pub(crate) fn run_line(alloc: Global, line: &str) -> Result<String, CaseError> {
    match Value::from_str(alloc, line) {
        Ok(case) => run(alloc, &case),
        Err(error) => Err(CaseError::Json(error)),
    }
}

/// Runs a case: its arguments on its disk.
fn run(alloc: Global, case: &Value) -> Result<String, CaseError> {
    let Some(name) = string_member(case, "name") else {
        return Err(CaseError::Member("name"));
    };
    let arguments = strings(alloc, case.get("words"))?;
    run_arguments(alloc, case, name, arguments.as_slice())
}

fn run_arguments(
    alloc: Global,
    case: &Value,
    name: &str,
    arguments: &[String],
) -> Result<String, CaseError> {
    let mut disk = disk(alloc, case)?;
    run_on_disk(alloc, case, name, arguments, &mut disk)
}

fn run_on_disk(
    alloc: Global,
    case: &Value,
    name: &str,
    arguments: &[String],
    disk: &mut MemoryDisk,
) -> Result<String, CaseError> {
    let mut out = MemoryOut::new(alloc, number(case, "room", ROOM))?;
    let mut err = MemoryOut::new(alloc, number(case, "err_room", ROOM))?;
    let status = status_of_run(alloc, arguments, disk, &mut out, &mut err);
    result_line(alloc, name, &out, &err, status)
}

/// A number of the case, or its default where it is left out.
fn number(case: &Value, name: &str, default: usize) -> usize {
    match number_member(case, name) {
        Some(number) => number as usize,
        None => default,
    }
}

/// The texts of a list of strings; a list that is missing is empty.
fn strings(alloc: Global, list: Option<&Value>) -> Result<Vec<String>, CaseError> {
    match list.and_then(Value::as_array) {
        Some(items) => element_strings(alloc, items.as_slice()),
        None => Ok(Vec::new(alloc)),
    }
}

fn element_strings(alloc: Global, items: &[Value]) -> Result<Vec<String>, CaseError> {
    let mut strings = Vec::new(alloc);
    for item in items {
        push_string(alloc, item, &mut strings)?;
    }
    Ok(strings)
}

fn push_string(alloc: Global, item: &Value, strings: &mut Vec<String>) -> Result<(), CaseError> {
    match item.as_str() {
        Some(string) => push_copy(alloc, string, strings),
        None => Err(CaseError::Member("words or fail")),
    }
}

fn push_copy(alloc: Global, string: &str, strings: &mut Vec<String>) -> Result<(), CaseError> {
    strings.push(String::from_str(alloc, string)?)?;
    Ok(())
}

/// The disk of the case.
fn disk(alloc: Global, case: &Value) -> Result<MemoryDisk, CaseError> {
    let mut disk = MemoryDisk::new(alloc, number(case, "piece", PIECE).max(1));
    put_files(alloc, case, &mut disk)?;
    fail_paths(alloc, case, &mut disk)?;
    fail_call(case, &mut disk)?;
    Ok(disk)
}

fn put_files(alloc: Global, case: &Value, disk: &mut MemoryDisk) -> Result<(), CaseError> {
    match case.get("files").and_then(Value::as_object) {
        Some(files) => put_each(alloc, files, disk),
        None => Ok(()),
    }
}

fn put_each(
    alloc: Global,
    files: &Map<String, Value>,
    disk: &mut MemoryDisk,
) -> Result<(), CaseError> {
    for (path, text) in files {
        put_file(alloc, path.as_str(), text, disk)?;
    }
    Ok(())
}

fn put_file(
    alloc: Global,
    path: &str,
    text: &Value,
    disk: &mut MemoryDisk,
) -> Result<(), CaseError> {
    let bytes = text_bytes(alloc, text)?;
    put_bytes(path, bytes.as_slice(), disk)
}

fn put_bytes(path: &str, bytes: &[u8], disk: &mut MemoryDisk) -> Result<(), CaseError> {
    if !disk.takes(path)? {
        return Err(CaseError::Member("files"));
    }
    disk.put_file(path, bytes)?;
    Ok(())
}

fn fail_paths(alloc: Global, case: &Value, disk: &mut MemoryDisk) -> Result<(), CaseError> {
    let paths = strings(alloc, case.get("fail"))?;
    fail_each(paths.as_slice(), disk)
}

fn fail_each(paths: &[String], disk: &mut MemoryDisk) -> Result<(), CaseError> {
    for path in paths {
        disk.fail_path(path.as_str())?;
    }
    Ok(())
}

fn fail_call(case: &Value, disk: &mut MemoryDisk) -> Result<(), CaseError> {
    if let Some(number) = number_member(case, "fail_call") {
        disk.fail_call(number)?;
    }
    Ok(())
}
