//! Reads replacement tables from standard input, one a line, and prints the entries of each, and its bytes in
//! version 2. `tools/gate/cases/replacement_cases.py` writes its input and the expected answers.
#![tactic(auto)]

mod cases;

use std::io;

fn main(rt: HostRuntime) -> io::Result<()> {
    let input = io::read_to_string(rt.alloc(), rt.reader())?;
    let answers = cases::answers(rt.alloc(), input.as_str())?;
    print!(rt; "{answers}")
}
