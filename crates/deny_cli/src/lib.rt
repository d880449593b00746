//! The command line as a library call: from arguments to inputs, the gate, lines and a status.
//!
//! # Choices
//!
//! The clauses of `run` are tables by outcome: a new outcome adds a line to each, and no clause changes.
//!
//! On every disk a report is that of some policy and metadata; where the disk tells its files, these are the files at
//! the two paths, and on one that tells nothing no clause can name the bytes that were read. That the status is not 0
//! exactly where a finding has severity error is proved for the real program too.
//!
//! A policy of 2^28 bytes or more stops the run before the metadata is read, and long metadata before the gate reads
//! the policy. So a failed read of the metadata is a cause only where the policy is short, and never of a stop by a
//! long policy. Where the disk tells nothing, no clause can name what was read before; a body that cannot distinguish
//! disks keeps the order there too.
//!
//! Arguments are read into a form, of which each argument fills one place. So a new option or input is a new place, and
//! where a list of arguments goes wrong follows from the form; that an accepted list goes on there is the lemma that
//! each form can be filled.
//!
//! The registries that options name are read from the arguments beside the form, in their order, so that reading
//! arguments takes no memory and `Usage` stays exact. Of two with the same name the first counts.
//!
//! The files of the disk that is made for `generate N` are a definition of the command line: its one manifest. That
//! nothing is left unread there holds for every purpose, since no text and no folder of it is large and no call fails.
//!
//! The crate of an unread line is null for the workspace's own manifest.
//!
//! `refuses` names the stop itself, so it is one clause for all stops by texts, and exact: no other stop can come.
//!
//! After Done the error output is the very value that was passed, and after a stop other than Write so is the output,
//! counts included.
//!
//! Arguments that are not accepted are found without taking memory, so `Usage` is exact, and out of memory comes only
//! after it.
//!
//! `status_of_run` gives the status of `run` alone, and drops its report by `drop`: a value that goes out of scope in a
//! function is taken apart in the proof of that function, so neither it nor a program that calls it holds one to its
//! end. It says when the outcome may come and what it leaves in the outputs; all other clauses on the report are those
//! of `run`.
//!
//! The policy's text is read into the files of the report, and once more where clashes are reported, since an answer
//! that is no report has no files.
#![tactic(auto)]

mod arguments;
mod dead;
mod home;
mod laws;
mod line_value;
mod lines;
mod options;
mod outcome;
mod program;
mod registries;
mod status;
mod stops;
mod summary;
mod today;
mod unread;

pub use laws::lines_are_json;
pub use outcome::{Ended, Outcome};
pub use program::run;
pub use status::status_of_run;
