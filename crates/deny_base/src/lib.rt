//! The types that every layer uses: texts and lists, the outside with its disks and outputs, spans,
//! levels, codes, keys with their order, diagnostics, entries for what was not read, and the files
//! that labels point into.
//!
//! # Choices
//!
//! Codes and sections are compared by their number in the order of declaration, by hand: a derived order of an enum
//! unfolds into a case for each pair.
//!
//! Each enum of codes is numbered by itself, and a base for each check makes numbers of all codes: licence codes begin
//! after the last code of bans, which is named there, so that no number is written twice. That names and numbers are
//! distinct is a computation over the list of all codes.
//!
//! A file keeps the location of every 256th byte of its text, since a report may have 100,000 labels in one line of
//! megabytes. These are an invariant of a private type whose value is the text, so no contract names them; the
//! definition counts characters. A line ends at a newline alone: a carriage return is a character of its line.
//!
//! `Files::add` requires fewer than 2^32 - 1 files and a text under 2^32 bytes: it has no answer for more.
#![tactic(auto)]

mod check;
mod code;
mod edge;
mod entry;
mod files;
mod finding;
mod key;
mod label;
mod level;
mod license_code;
mod purpose;
mod span;
mod unread;

pub use check::{Check, Which};
pub use code::{Code, DiagnosticCode, code_order};
pub use deny_base_disk::{
    Call, DiskError, Entry, MemoryDisk, MemoryOut, Out, OutFault, PackageFiles, Place, ReadEnd,
    RealDisk, RealOut, SureDisk, read_whole,
};
pub use deny_base_lists::{List, NoMemory, Plain, Text, TextMap};
pub use edge::{DepKind, Edge, edge_order};
pub use entry::{EntryId, EntryKind, Hit, Witness, entry_order};
pub use files::{Files, Location};
pub use finding::{Diag, Diagnostic, GraphNode, Pack};
pub use key::{Key, Section, key_order};
pub use label::{FileId, Label, LabelStyle};
pub use level::{LintLevel, Severity};
pub use license_code::LicenseCode;
pub use purpose::Purpose;
pub use span::{Kid, Span, Spanned};
pub use unread::{Unread, unread_order};
