//! The program: the system's files and outputs, the arguments without the program's own name, and the
//! status that the run ends with.
#![tactic(auto)]

use deny_base_disk::{RealDisk, RealOut};
use deny_cli::status_of_run;
use std::process::ExitCode;
use std::{env, io};

/// The status where the system cannot give the arguments. No run ends with it.
const NO_ARGUMENTS: u8 = 28;

/// The arguments without the program's own name.
fn arguments_of(rt: &HostRuntime) -> io::Result<Vec<String>> {
    Ok(env::args(rt)?.skip(1).collect(rt.alloc())?)
}

fn main(rt: HostRuntime) -> ExitCode {
    match arguments_of(&rt) {
        Ok(arguments) => ExitCode::from(status_of(&rt, arguments.as_slice())),
        Err(_) => ExitCode::from(NO_ARGUMENTS),
    }
}

/// The status that the run of these arguments ends with.
fn status_of(rt: &HostRuntime, arguments: &[String]) -> u8 {
    let mut disk = RealDisk::new(rt);
    let mut out = RealOut::out(rt);
    let mut err = RealOut::err(rt);
    status_of_run(rt.alloc(), arguments, &mut disk, &mut out, &mut err)
}
