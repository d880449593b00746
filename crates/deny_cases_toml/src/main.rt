//! Reads texts of TOML from standard input, one a line as a JSON string, and prints for each its tree in JSON,
//! `grammar`, or `clash` with the span of the key that clashes. `tools/gate/cases/toml_cases.py` writes its input and
//! the expected answers.
#![tactic(auto)]

mod case_error;
mod tree;

use case_error::CaseError;
use deny_base::Span;
use deny_toml::{TomlError, TomlKind, parse};
use serde_json::Value;
use std::alloc::{AllocError, Global};
use std::io;
use tree::push_tree;

/// The longest text that is read.
const LONGEST: usize = 0xFFF_FFFF;

fn main(rt: HostRuntime) -> Result<(), CaseError> {
    let input = io::read_to_string(rt.alloc(), rt.reader()).map_err(CaseError::Io)?;
    let answers = answers(rt.alloc(), input.as_str())?;
    print!(rt; "{answers}").map_err(CaseError::Io)
}

/// The answers to the lines, one a line.
fn answers(alloc: Global, input: &str) -> Result<String, CaseError> {
    let mut answers = String::new(alloc);
    for line in input.lines() {
        push_line(alloc, line, &mut answers)?;
    }
    Ok(answers)
}

fn push_line(alloc: Global, line: &str, answers: &mut String) -> Result<(), CaseError> {
    match Value::from_str(alloc, line) {
        Ok(case) => push_case(alloc, &case, answers),
        Err(error) => Err(CaseError::Json(error)),
    }
}

fn push_case(alloc: Global, case: &Value, answers: &mut String) -> Result<(), CaseError> {
    match case.as_str() {
        Some(text) => push_answer(alloc, text, answers),
        None => Err(CaseError::NoText),
    }
}

fn push_answer(alloc: Global, text: &str, answers: &mut String) -> Result<(), CaseError> {
    if text.len() > LONGEST {
        return Err(CaseError::NoText);
    }
    push_parsed(alloc, parse(alloc, text), answers)?;
    answers.push_str("\n").map_err(CaseError::Memory)
}

/// Writes the tree or the fault of a text.
fn push_parsed(
    alloc: Global,
    parsed: Result<deny_toml::Value<'_>, TomlError>,
    answers: &mut String,
) -> Result<(), CaseError> {
    match parsed {
        Ok(value) => push_tree(alloc, &value, answers).map_err(CaseError::Memory),
        Err(TomlError::Fault { kind, span }) => push_fault(kind, &span, answers).map_err(
            CaseError::Memory,
        ),
        Err(TomlError::Memory) => Err(CaseError::Memory(AllocError)),
    }
}

fn push_fault(kind: TomlKind, span: &Span, answers: &mut String) -> Result<(), AllocError> {
    match kind {
        TomlKind::Grammar => answers.push_str("grammar"),
        TomlKind::Clash => push_clash(span, answers),
    }
}

fn push_clash(span: &Span, answers: &mut String) -> Result<(), AllocError> {
    answers.push_str("clash ")?;
    answers.write(span.start)?;
    answers.push_str("..")?;
    answers.write(span.end)
}
