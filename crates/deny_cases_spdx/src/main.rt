//! Reads licence texts, one a line, and writes for each its requirements and its truth under each assignment to them,
//! as an expression, and its parts as one requirement. The texts and the expected answers come from
//! `tools/gate/cases/licence_cases.py`.
#![tactic(auto)]

ghost use Rattle.std.specs.Prelude.{◌≡◌, IfOk, vec_len};

use deny_spdx::{Expression, Requirement, SpdxError};
use std::alloc::{AllocError, Global};
use std::io;

/// The number of requirements with values of their own in an assignment.
const FREE: usize = 8;

fn main(rt: HostRuntime) -> io::Result<()> {
    let input = io::read_to_string(rt.alloc(), rt.reader())?;
    let answers = answers(rt.alloc(), input.as_str())?;
    print!(rt; "{answers}")
}

/// The lines, each with its answer.
fn answers(alloc: Global, input: &str) -> Result<String, AllocError> {
    let mut answers = String::new(alloc);
    for line in input.lines() {
        push_line(alloc, line, &mut answers)?;
    }
    Ok(answers)
}

fn push_line(alloc: Global, line: &str, answers: &mut String) -> Result<(), AllocError> {
    answers.push_str(line)?;
    let text = unescaped(alloc, line)?;
    push_answer(alloc, text.as_str(), answers)
}

/// Writes the text as an expression, and as one requirement.
fn push_answer(alloc: Global, text: &str, answers: &mut String) -> Result<(), AllocError> {
    answers.push_str(": ")?;
    push_expression(alloc, text, answers)?;
    answers.push_str("; ")?;
    push_requirement(alloc, text, answers)?;
    answers.push_str("\n")
}

/// The line with the characters that `\t`, `\n`, `\r` and `\\` stand for.
fn unescaped(alloc: Global, line: &str) -> Result<String, AllocError> {
    let mut text = String::new(alloc);
    let mut escaped = false;
    for c in line.chars() {
        escaped = push_character(c, escaped, &mut text)?;
    }
    Ok(text)
}

/// Appends a character, and returns whether it is a backslash that the next one is escaped by.
fn push_character(c: char, escaped: bool, text: &mut String) -> Result<bool, AllocError> {
    if c == '\\' && !escaped {
        return Ok(true);
    }
    text.push(if escaped { meant(c) } else { c })?;
    Ok(false)
}

/// The character that is written by this one after a backslash.
fn meant(c: char) -> char {
    match c {
        't' => '\t',
        'n' => '\n',
        'r' => '\r',
        other => other,
    }
}

/// Writes the text as an expression.
fn push_expression(alloc: Global, text: &str, answers: &mut String) -> Result<(), AllocError> {
    match Expression::parse(alloc, text) {
        Ok(expression) => push_names_and_truths(alloc, &expression, answers),
        Err(error) => push_fault(error, answers),
    }
}

/// Writes the text as one requirement.
fn push_requirement(alloc: Global, text: &str, answers: &mut String) -> Result<(), AllocError> {
    match Requirement::parse(alloc, text) {
        Ok(requirement) => push_name("ok ", &requirement, answers),
        Err(error) => push_fault(error, answers),
    }
}

fn push_fault(error: SpdxError, answers: &mut String) -> Result<(), AllocError> {
    match error {
        SpdxError::Bad(offset) => push_offset(offset, answers),
        SpdxError::Memory => answers.push_str("memory"),
    }
}

fn push_offset(offset: usize, answers: &mut String) -> Result<(), AllocError> {
    answers.push_str("bad ")?;
    answers.write(offset)
}

fn push_names_and_truths(
    alloc: Global,
    expression: &Expression,
    answers: &mut String,
) -> Result<(), AllocError> {
    answers.push_str("ok ")?;
    push_names(expression.requirements(), answers)?;
    answers.push_str(" ")?;
    push_truths(alloc, expression, answers)
}

/// Writes the requirements in order.
fn push_names(requirements: &[Requirement], answers: &mut String) -> Result<(), AllocError> {
    let mut before = "";
    for requirement in requirements {
        push_name(before, requirement, answers)?;
        before = ", ";
    }
    Ok(())
}

fn push_name(
    before: &str,
    requirement: &Requirement,
    answers: &mut String,
) -> Result<(), AllocError> {
    answers.push_str(before)?;
    answers.push_str(requirement.id.as_str())?;
    match &requirement.exception {
        None => Ok(()),
        Some(exception) => push_exception(exception.as_str(), answers),
    }
}

fn push_exception(exception: &str, answers: &mut String) -> Result<(), AllocError> {
    answers.push_str(" WITH ")?;
    answers.push_str(exception)
}

/// Writes a digit for each assignment to the first requirements.
fn push_truths(
    alloc: Global,
    expression: &Expression,
    answers: &mut String,
) -> Result<(), AllocError> {
    let count = expression.requirements().len().min(FREE);
    for bits in 0..1u32 << count {
        push_truth(alloc, expression, bits, answers)?;
    }
    Ok(())
}

fn push_truth(
    alloc: Global,
    expression: &Expression,
    bits: u32,
    answers: &mut String,
) -> Result<(), AllocError> {
    let allowed = assignment(alloc, expression.requirements().len(), bits)?;
    let is_true = expression.evaluate(&allowed);
    answers.push_str(if is_true { "1" } else { "0" })
}

/// A value for each requirement.
fn assignment(alloc: Global, count: usize, bits: u32) -> Result<Vec<bool>, AllocError>
    ensures { IfOk result (λ values. vec_len values ≡ count) }
{
    let mut values = Vec::new(alloc);
    for number in 0..count {
        values.push(value(number, bits))?;
    }
    Ok(values)
}

/// The value of a requirement: its bit, and past the free ones that of the first.
fn value(number: usize, bits: u32) -> bool {
    let bit = if number < FREE { number } else { 0 };
    (bits >> bit) & 1 == 1
}
