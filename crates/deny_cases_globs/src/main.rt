//! Reads sets of globs and paths, a line each, and writes for each text whether it is a glob, and for each path
//! which globs fit it. The lines and the expected answers come from `tools/gate/cases/glob_cases.py`.
#![tactic(auto)]

use deny_globs::{Glob, GlobError, GlobSet};
use std::alloc::{AllocError, Global};
use std::io;

fn main(rt: HostRuntime) -> io::Result<()> {
    let input = io::read_to_string(rt.alloc(), rt.reader())?;
    let answers = answers(rt.alloc(), input.as_str())?;
    print!(rt; "{answers}")
}

/// The lines, each with its answer.
fn answers(alloc: Global, input: &str) -> Result<String, AllocError> {
    let mut answers = String::new(alloc);
    let mut globs = Globs::none(alloc);
    push_answers(alloc, input, &mut globs, &mut answers)?;
    Ok(answers)
}

fn push_answers(
    alloc: Global,
    input: &str,
    globs: &mut Globs,
    answers: &mut String,
) -> Result<(), AllocError> {
    for line in input.lines() {
        push_line(alloc, line, globs, answers)?;
    }
    Ok(())
}

fn push_line(
    alloc: Global,
    line: &str,
    globs: &mut Globs,
    answers: &mut String,
) -> Result<(), AllocError> {
    answers.push_str(line)?;
    push_answer(alloc, line, globs, answers)?;
    answers.push_str("\n")
}

/// Writes whether a text is a glob, or which globs fit a path. Any other line begins a set, and has
/// no answer.
fn push_answer(
    alloc: Global,
    line: &str,
    globs: &mut Globs,
    answers: &mut String,
) -> Result<(), AllocError> {
    if let Some(text) = line.strip_prefix("glob ") {
        return push_added(globs.add(alloc, text), answers);
    }
    if let Some(path) = line.strip_prefix("path ") {
        return push_matches(alloc, path, &globs.set, answers);
    }
    *globs = Globs::none(alloc);
    Ok(())
}

fn push_added(added: Added, answers: &mut String) -> Result<(), AllocError> {
    match added {
        Added::Numbered(number) => push_number(": ", number, answers),
        Added::Bad(offset) => push_number(": bad ", offset, answers),
        Added::Memory => answers.push_str(": memory"),
    }
}

/// Writes the numbers of the globs that fit the path, as many as there was memory for.
fn push_matches(
    alloc: Global,
    path: &str,
    set: &GlobSet,
    answers: &mut String,
) -> Result<(), AllocError> {
    let mut indices = Vec::new(alloc);
    let found = set.matches(path, &mut indices);
    push_indices(indices.as_slice(), answers)?;
    answers.push_str(if found.is_ok() { "" } else { " memory" })
}

fn push_indices(indices: &[usize], answers: &mut String) -> Result<(), AllocError> {
    answers.push_str(":")?;
    for index in indices {
        push_number(" ", *index, answers)?;
    }
    Ok(())
}

fn push_number(before: &str, number: usize, answers: &mut String) -> Result<(), AllocError> {
    answers.push_str(before)?;
    answers.write(number)
}

/// The globs of a set, and how many were added to it.
#[derive(Drop)]
struct Globs {
    set: GlobSet,
    count: usize,
}

impl Globs {
    fn none(alloc: Global) -> Globs {
        Globs {
            set: GlobSet::empty(alloc),
            count: 0,
        }
    }

    /// Adds a text to the set, where it is a glob.
    fn add(&mut self, alloc: Global, text: &str) -> Added {
        match Glob::parse(alloc, text) {
            Ok(glob) => self.add_glob(glob),
            Err(GlobError::Bad(offset)) => Added::Bad(offset),
            Err(GlobError::Memory) => Added::Memory,
        }
    }

    fn add_glob(&mut self, glob: Glob) -> Added {
        let number = self.count;
        match self.set.add(glob) {
            Ok(()) => {
                self.count = number.wrapping_add(1);
                Added::Numbered(number)
            }
            Err(_) => Added::Memory,
        }
    }
}

/// The result of adding a text to a set.
#[derive(Drop)]
enum Added {
    /// It is the glob with this number.
    Numbered(usize),
    /// It is no glob, and its first bad character begins at this byte.
    Bad(usize),
    Memory,
}
