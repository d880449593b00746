//! The calls on the values of a TOML text: keys, faults and paths. What a text is, is shown in
//! `deny_cases_toml`.

use deny_base::Span;
use deny_base_lists::{List, NoMemory, Text};
use deny_toml::{ConfigFault, DeserError, FaultKind, TableHelper, Value, parse};
use std::alloc::Global;

/// `float` at 0, `list` at 12 with elements at 20 and 24, `name` at 28 with its text at 36, `other` at 39.
const TABLE: &str = "float = 1.5\nlist = [7, \"y\"]\nname = \"x\"\nother = true\n";

fn value_of(alloc: Global, text: &'static str) -> Result<Value<'static>, NoMemory> {
    if text.len() > 0xFFF_FFFF {
        return Err(NoMemory);
    }
    parse(alloc, text).map_err(|_| NoMemory)
}

fn is_fault(faults: &[ConfigFault], index: usize, kind: FaultKind, key: &str, start: u32) -> bool {
    match faults.get(index) {
        Some(fault) => fault.kind == kind && fault.key.as_str() == key && fault.span.start == start,
        None => false,
    }
}

fn faults_of(read: Result<(), DeserError>, alloc: Global) -> List<ConfigFault> {
    match read {
        Err(DeserError::Faults(faults)) => faults,
        _ => List::new(alloc),
    }
}

fn reads_name(helper: &mut TableHelper) -> bool {
    match helper.required_s::<Text>("name") {
        Ok(spanned) => spanned.value.as_str() == "x" && spanned.span.start == 36,
        Err(_) => false,
    }
}

/// A key that is there, with the span of its value, and one that is not.
fn reads_with_span(alloc: Global, value: &mut Value) -> bool {
    let Ok(mut helper) = TableHelper::new(alloc, value) else {
        return false;
    };
    let gone = matches!(helper.optional_s::<Text>("gone"), Ok(None));
    match helper.optional_s::<Text>("name") {
        Ok(Some(spanned)) => {
            gone && spanned.value.as_str() == "x" && spanned.span == Span { start: 36, end: 37 }
        }
        _ => false,
    }
}

/// A value of another kind is none, and a fault.
fn keeps_fault(alloc: Global, value: &mut Value) -> bool {
    let Ok(mut helper) = TableHelper::new(alloc, value) else {
        return false;
    };
    let none = matches!(helper.optional_s::<Text>("other"), Ok(None));
    let faults = faults_of(helper.finalize(), alloc);
    none && is_fault(faults.as_slice(), 0, FaultKind::WrongKind, "other", 8)
}

#[test]
fn an_optional_value_is_read_with_its_span(rt: HostRuntime) -> Result<(), NoMemory> {
    let mut value = value_of(rt.alloc(), TABLE)?;
    assert!(rt; reads_with_span(rt.alloc(), &mut value));
    let mut value = value_of(rt.alloc(), "other = true\n")?;
    assert!(rt; keeps_fault(rt.alloc(), &mut value));
    Ok(())
}

const DATES: &str = "day = 2026-01-31\ntime = 07:32:00\nboth = 2026-01-31 07:32:00Z\n\
    text = \"2026-01-31\"\nnumber = 2026\n";

fn is_date(value: &Value, path: &str, date: &str) -> bool {
    match value.pointer(path) {
        Some(value) => matches!(value.as_date(), Some(text) if text == date),
        None => false,
    }
}

fn is_no_date(value: &Value, path: &str) -> bool {
    match value.pointer(path) {
        Some(value) => value.as_date().is_none(),
        None => false,
    }
}

#[test]
fn a_date_is_its_text(rt: HostRuntime) -> Result<(), NoMemory> {
    let value = value_of(rt.alloc(), DATES)?;
    let dates = is_date(&value, "/day", "2026-01-31")
        && is_date(&value, "/time", "07:32:00")
        && is_date(&value, "/both", "2026-01-31 07:32:00Z");
    assert!(rt;
        dates
            && is_no_date(&value, "/text")
            && is_no_date(&value, "/number")
            && is_no_date(&value, "")
    );
    Ok(())
}

fn misses_gone(alloc: Global, helper: &mut TableHelper) -> bool {
    let missing = faults_of(helper.required::<u32>("gone").map(|_| ()), alloc);
    is_fault(missing.as_slice(), 0, FaultKind::Missing, "gone", 0)
}

fn reads_no_list(helper: &mut TableHelper, key: &str) -> bool {
    match helper.optional::<List<i64>>(key) {
        Ok(read) => read.is_none(),
        Err(NoMemory) => false,
    }
}

fn reads_no_number(helper: &mut TableHelper, key: &str) -> bool {
    match helper.optional::<i64>(key) {
        Ok(read) => read.is_none(),
        Err(NoMemory) => false,
    }
}

fn reads_keys(alloc: Global, helper: &mut TableHelper) -> bool {
    reads_name(helper)
        && misses_gone(alloc, helper)
        && reads_no_list(helper, "list")
        && reads_no_number(helper, "float")
}

fn are_gathered(faults: &[ConfigFault]) -> bool {
    faults.len() == 3
        && is_fault(faults, 0, FaultKind::WrongKind, "float", 8)
        && is_fault(faults, 1, FaultKind::WrongKind, "list.1", 24)
        && is_fault(faults, 2, FaultKind::Unknown, "other", 39)
}

fn gathers_faults(alloc: Global, value: &mut Value) -> bool {
    let Ok(mut helper) = TableHelper::new(alloc, value) else {
        return false;
    };
    let read = reads_keys(alloc, &mut helper);
    let faults = faults_of(helper.finalize(), alloc);
    read && are_gathered(faults.as_slice())
}

#[test]
fn a_helper_reads_keys_and_gathers_faults(rt: HostRuntime) -> Result<(), NoMemory> {
    let mut value = value_of(rt.alloc(), TABLE)?;
    assert!(rt; gathers_faults(rt.alloc(), &mut value));
    Ok(())
}

/// An element of a value under the key whose name is empty.
fn names_element(alloc: Global, value: &mut Value) -> bool {
    let Ok(mut helper) = TableHelper::new(alloc, value) else {
        return false;
    };
    let none = reads_no_list(&mut helper, "");
    let faults = faults_of(helper.finalize(), alloc);
    none && faults.len() == 1 && is_fault(faults.as_slice(), 0, FaultKind::WrongKind, ".0", 6)
}

fn is_nameless(faults: &[ConfigFault]) -> bool {
    is_fault(faults, 0, FaultKind::WrongKind, "", 5)
        && matches!(faults.first(), Some(fault) if fault.is_nameless)
}

/// A value under the key whose name is empty.
fn names_value(alloc: Global, value: &mut Value) -> bool {
    let Ok(mut helper) = TableHelper::new(alloc, value) else {
        return false;
    };
    let none = reads_no_number(&mut helper, "");
    let faults = faults_of(helper.finalize(), alloc);
    none && is_nameless(faults.as_slice())
}

fn element_is_named(alloc: Global) -> Result<bool, NoMemory> {
    let mut value = value_of(alloc, "\"\" = [true]\n")?;
    Ok(names_element(alloc, &mut value))
}

fn value_is_named(alloc: Global) -> Result<bool, NoMemory> {
    let mut value = value_of(alloc, "\"\" = true\n")?;
    Ok(names_value(alloc, &mut value))
}

#[test]
fn an_empty_name_is_a_part_of_a_path(rt: HostRuntime) -> Result<(), NoMemory> {
    assert!(rt; element_is_named(rt.alloc())? && value_is_named(rt.alloc())?);
    Ok(())
}

fn lead_to_values(value: &Value) -> bool {
    let mut all = true;
    for (path, start) in [("", 0u32), ("/list/0", 20), ("/list/1", 24), ("/name", 36)] {
        all = all && matches!(value.pointer(path), Some(found) if found.span.start == start);
    }
    all
}

fn lead_nowhere(value: &Value) -> bool {
    let mut all = true;
    for path in [
        "name", "/", "/list/2", "/list/01", "/list/+1", "/list/", "/name/0", "/list/0/",
    ] {
        all = all && value.pointer(path).is_none();
    }
    all
}

#[test]
fn paths_lead_to_values(rt: HostRuntime) -> Result<(), NoMemory> {
    let value = value_of(rt.alloc(), TABLE)?;
    assert!(rt; lead_to_values(&value) && lead_nowhere(&value));
    Ok(())
}
