//! Runs cases that standard input gives as data, one JSON object a line, over a disk and outputs in memory,
//! and prints a JSON object for each: its name, its status, and what was written.
//!
//! A case has a `name` and its arguments, `words`. `files` gives each path a text: a string, an object
//! `{"hex": "00ff"}` or `{"repeat": "ab", "times": 3}`, or an array of these, one after another. `fail`
//! lists the paths whose reading fails, `fail_call` is the number of a call that fails, from 0, `piece` is
//! how many bytes a read gives at most, `room` and `err_room` how many bytes the outputs take; these five
//! may be left out.
#![tactic(auto)]

mod case;
mod case_error;
mod result;
mod text;

use case::run_line;
use case_error::CaseError;
use std::io;

fn main(rt: HostRuntime) -> Result<(), CaseError> {
    let input = io::read_to_string(rt.alloc(), rt.reader()).map_err(CaseError::Io)?;
    run_lines(&rt, input.as_str())
}

fn run_lines(rt: &HostRuntime, input: &str) -> Result<(), CaseError> {
    for line in input.lines() {
        print_run(rt, line)?;
    }
    Ok(())
}

fn print_run(rt: &HostRuntime, line: &str) -> Result<(), CaseError> {
    let result = run_line(rt.alloc(), line)?;
    println!(rt; "{result}").map_err(CaseError::Io)
}
