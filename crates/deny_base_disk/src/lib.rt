//! The outside as traits: a disk that is read and an output that is written, each in memory and on
//! the real system.
//!
//! # Choices
//!
//! A file is put only at a path that is not empty, has after each slash a name other than `.` and `..`, is no folder's,
//! and goes through no file; so all files and folders of the disk are at such paths, and a folder's children have names
//! of that form. `takes` is the test, since paths come as data. The part before the first slash may be `.` or `..`.
//!
//! A folder of a path ends at each of its slashes; the folder before a slash at the very start is `/`.
//!
//! Failed calls are counted by kind and path in the trait; each disk keeps one count for all.
//!
//! A call of a disk that succeeds leaves the count of failures, and any other raises it by at most one. So what reads
//! shows that a failed call was not forgotten: the count rose at most as often as what it hands out has failures.
//!
//! A child of a folder is what the disk holds at the folder's path, a slash and a name without a slash; a name is not
//! empty and neither `.` nor `..`. So what a list gives is defined for any map from paths, also for one that no disk in
//! memory could hold.
//!
//! The calls on a disk in memory are numbered together, also those that fail or find no memory; the number stops at
//! 2^64 - 1, which every later call has.
//!
//! A list on the real disk fails, and that is counted, where a name is no text or no child's name; where the system
//! answers that it has no memory, that is a failure too, as it is of a read. A name that the system gives twice is
//! listed once.
//!
//! The system gives only the names of a folder, so whether each is a file or a folder is one call more than a bare walk
//! makes. Names are taken as they come, and the path of each for that call is written into one buffer.
//!
//! A read or a write that the system interrupts counts as failed. Texts are read at offsets, in pieces of 64 KiB, so a
//! pipe or a terminal cannot be given as a text. The real disk keeps the file that was read last open, so that one is
//! opened once for all its pieces; where memory runs out for its path, it is opened again.
//!
//! The loop that writes to the system is a function over any std writer, so that the proof says that all bytes go out,
//! which no clause on the system's own streams could.
#![tactic(auto)]

mod children;
mod disk;
mod memory_disk;
mod memory_out;
mod out;
mod path;
mod read;
mod real_disk;
mod real_out;
mod sure_disk;

pub use children::{child_path, path_behind, path_in_folder};
pub use disk::{Call, DiskError, Entry, PackageFiles, Place};
pub use memory_disk::MemoryDisk;
pub use memory_out::MemoryOut;
pub use out::{Out, OutFault};
pub use path::is_path;
pub use read::{ReadEnd, read_whole};
pub use real_disk::RealDisk;
pub use real_out::RealOut;
pub use sure_disk::SureDisk;
