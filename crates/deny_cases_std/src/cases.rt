//! The cases, one a line: a table's bytes and the names that are looked up in it, in hex.

use deny_std_table::{
    Api, ApiReplacement, Replacement, ReplacementData, ReplacementError, ReplacementItem,
    UpgradeError,
};
use hex::FromHexError;
use std::alloc::{AllocError, Global};
use std::str;

/// The bytes of a word, or none where it is not hex.
fn bytes_of(alloc: Global, word: &str) -> Result<Vec<u8>, AllocError> {
    match hex::decode(alloc, word) {
        Ok(bytes) => Ok(bytes),
        Err(FromHexError::OutOfMemory) => Err(AllocError),
        Err(_) => Ok(Vec::new(alloc)),
    }
}

/// Writes bytes in hex, between the text before them and the text after them.
fn push_hex(
    answers: &mut String,
    alloc: Global,
    before: &str,
    bytes: &[u8],
    after: &str,
) -> Result<(), AllocError> {
    answers.push_str(before)?;
    push_digits(answers, alloc, bytes)?;
    answers.push_str(after)
}

fn push_digits(answers: &mut String, alloc: Global, bytes: &[u8]) -> Result<(), AllocError> {
    let digits = hex::encode(alloc, bytes)?;
    answers.push_str(digits.as_str())
}

fn push_text(answers: &mut String, alloc: Global, text: &str) -> Result<(), AllocError> {
    push_hex(answers, alloc, " <", text.as_bytes(), ">")
}

fn push_api(answers: &mut String, alloc: Global, api: &Api) -> Result<(), AllocError> {
    push_text(answers, alloc, api.name)?;
    push_text(answers, alloc, api.url)
}

fn push_note(answers: &mut String, alloc: Global, note: Option<&str>) -> Result<(), AllocError> {
    match note {
        None => answers.push_str(" none"),
        Some(note) => push_text(answers, alloc, note),
    }
}

fn push_replacement(
    answers: &mut String,
    alloc: Global,
    replacement: &ApiReplacement,
) -> Result<(), AllocError> {
    push_api(answers, alloc, &replacement.krate)?;
    push_api(answers, alloc, &replacement.std)?;
    push_note(answers, alloc, replacement.note)
}

fn push_stable(
    answers: &mut String,
    alloc: Global,
    minor: u8,
    replacement: &ApiReplacement,
) -> Result<(), AllocError> {
    answers.push_str(" stable ")?;
    answers.write(minor)?;
    push_replacement(answers, alloc, replacement)
}

fn push_unstable(
    answers: &mut String,
    alloc: Global,
    replacement: &ApiReplacement,
) -> Result<(), AllocError> {
    answers.push_str(" unstable")?;
    push_replacement(answers, alloc, replacement)
}

fn push_unavailable(answers: &mut String, alloc: Global, api: &Api) -> Result<(), AllocError> {
    answers.push_str(" unavailable")?;
    push_api(answers, alloc, api)
}

fn push_item(
    answers: &mut String,
    alloc: Global,
    item: &ReplacementItem,
) -> Result<(), AllocError> {
    match item {
        ReplacementItem::Stable { replacement, minor } => {
            push_stable(answers, alloc, *minor, replacement)
        }
        ReplacementItem::Unstable { replacement } => push_unstable(answers, alloc, replacement),
        ReplacementItem::Unavailable { api } => push_unavailable(answers, alloc, api),
    }
}

fn push_items(
    answers: &mut String,
    alloc: Global,
    replacement: &Replacement,
) -> Result<(), AllocError> {
    let mut items = replacement.iter();
    let mut before = "";
    while let Some(item) = items.next() {
        answers.push_str(before)?;
        push_item(answers, alloc, &item)?;
        before = ",";
    }
    Ok(())
}

fn push_entry(
    answers: &mut String,
    alloc: Global,
    table: &ReplacementData,
    name: &str,
) -> Result<(), AllocError> {
    match table.entry(name) {
        None => answers.push_str(" absent"),
        Some(replacement) => push_items(answers, alloc, &replacement),
    }
}

fn push_found(
    answers: &mut String,
    alloc: Global,
    table: &ReplacementData,
    name: &[u8],
) -> Result<(), AllocError> {
    match str::from_utf8(name) {
        Ok(name) => push_entry(answers, alloc, table, name),
        Err(_) => answers.push_str(" no name"),
    }
}

/// Writes the entry of the name that a word gives.
fn push_look_up(
    answers: &mut String,
    alloc: Global,
    table: &ReplacementData,
    word: &str,
) -> Result<(), AllocError> {
    let name = bytes_of(alloc, word)?;
    push_hex(answers, alloc, "; <", name.as_slice(), ">:")?;
    push_found(answers, alloc, table, name.as_slice())
}

fn push_look_ups(
    answers: &mut String,
    alloc: Global,
    table: &ReplacementData,
    line: &str,
) -> Result<(), AllocError> {
    for word in line.split(' ').skip(1) {
        push_look_up(answers, alloc, table, word)?;
    }
    Ok(())
}

fn push_upgrade(
    answers: &mut String,
    alloc: Global,
    table: &ReplacementData,
) -> Result<(), AllocError> {
    match table.upgrade(alloc) {
        Ok(bytes) => push_hex(answers, alloc, "; version 2: ", bytes.as_slice(), ""),
        Err(UpgradeError::Long) => answers.push_str("; version 2: Long"),
        Err(UpgradeError::Memory) => Err(AllocError),
    }
}

/// Writes `Ok`, the entry of each name, and the bytes of the table in version 2.
fn push_table(
    answers: &mut String,
    alloc: Global,
    table: &ReplacementData,
    line: &str,
) -> Result<(), AllocError> {
    answers.push_str("Ok")?;
    push_look_ups(answers, alloc, table, line)?;
    push_upgrade(answers, alloc, table)
}

/// Writes why the bytes were refused.
fn push_error(answers: &mut String, error: ReplacementError) -> Result<(), AllocError> {
    match error {
        ReplacementError::Bad(offset) => push_offset(answers, offset),
        ReplacementError::Memory => answers.push_str("Memory"),
    }
}

fn push_offset(answers: &mut String, offset: usize) -> Result<(), AllocError> {
    answers.push_str("Bad(")?;
    answers.write(offset)?;
    answers.push_str(")")
}

/// Writes the answer to a case: the entries of its table, or why the bytes were refused.
fn push_answer(answers: &mut String, alloc: Global, line: &str) -> Result<(), AllocError> {
    let bytes = bytes_of(alloc, line.split(' ').next().unwrap_or(""))?;
    match ReplacementData::from_bytes(alloc, bytes.as_slice()) {
        Ok(table) => push_table(answers, alloc, &table, line),
        Err(error) => push_error(answers, error),
    }
}

fn push_line(answers: &mut String, alloc: Global, line: &str) -> Result<(), AllocError> {
    push_answer(answers, alloc, line)?;
    answers.push_str("\n")
}

/// The answers to the cases, one a line.
pub(crate) fn answers(alloc: Global, input: &str) -> Result<String, AllocError> {
    let mut answers = String::new(alloc);
    for line in input.lines() {
        push_line(&mut answers, alloc, line)?;
    }
    Ok(answers)
}
