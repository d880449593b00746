//! The notes on files and folders.
ghost use Rattle.std.specs.Prelude.{◌≡◌, ◌++◌, ◌∷◌, [], IfOk, OnOk};
ghost use Rattle.deny_spec_report.specs.PackageDiags.{executable_note, failure_notes, failure_text, kind_notes};
ghost use Rattle.deny_spec_report.specs.PackageDiags.{kind_text, path_note, quoted};
ghost use Rattle.hex.specs.Hex.{encode_lower};

use deny_base::Key;
use deny_base_lists::{List, NoMemory, Text};
use deny_spec::{ExecutableKind, Failure, Found, NativeKind};
use std::alloc::Global;

/// A note that gives a text a name.
pub fn quoted(alloc: Global, name: &str, text: &str) -> Result<Text, NoMemory>
    ensures { IfOk result (λ note. note ≡ quoted name.now text.now) }
{
    Ok(Text::from_string(format!(in alloc; "{name} = '{text}'")?))
}

/// Appends a note that gives a text a name.
pub fn add_quoted(
    alloc: Global,
    notes: &mut List<Text>,
    name: &str,
    text: &str,
) -> Result<(), NoMemory>
    ensures { OnOk result (notes.new ≡ notes.old ++ quoted name.now text.now ∷ []) }
{
    notes.push(quoted(alloc, name, text)?)?;
    Ok(())
}

/// The note on the path that a key shows, alone.
pub fn path_notes(alloc: Global, key: &Key) -> Result<List<Text>, NoMemory>
    ensures { IfOk result (λ notes. notes ≡ path_note key.now ∷ []) }
{
    let mut notes = List::new(alloc);
    add_quoted(alloc, &mut notes, "path", key.text.as_str())?;
    Ok(notes)
}

/// The hexadecimal digits of a checksum.
pub fn digits(alloc: Global, sum: &[u8; 32]) -> Result<Text, NoMemory>
    ensures { IfOk result (λ digits. digits ≡ encode_lower sum.now) }
{
    Ok(Text::from_string(hex::encode(alloc, sum.as_slice())?))
}

/// Why something was not read.
pub fn failure_text(failure: Failure) -> &'static str
    ensures { result.now ≡ failure_text failure }
{
    match failure {
        Failure::Unreadable => "the file could not be read",
        Failure::Long => "the file has 1099511627776 bytes or more",
        Failure::Unlisted => "the folder could not be listed",
        Failure::Crowded => "the package has more than 16777216 entries",
    }
}

/// Appends a note on why something was not read, if it was not.
pub fn add_failure_notes(
    alloc: Global,
    found: &Found,
    notes: &mut List<Text>,
) -> Result<(), NoMemory>
    ensures { OnOk result (notes.new ≡ notes.old ++ failure_notes found.now) }
{
    match found {
        Found::Failed(failure) => {
            let why = failure_text(*failure);
            notes.push(Text::from_string(format!(in alloc; "error = {why}")?))?;
            Ok(())
        }
        Found::Unasked | Found::Sum(_) | Found::Kind(_) => Ok(()),
    }
}

/// Appends a note on how a file is executed, if it is.
pub fn add_kind_notes(alloc: Global, found: &Found, notes: &mut List<Text>) -> Result<(), NoMemory>
    ensures { OnOk result (notes.new ≡ notes.old ++ kind_notes found.now) }
{
    match found {
        Found::Kind(Some(kind)) => {
            notes.push(executable_note(alloc, kind)?)?;
            Ok(())
        }
        Found::Kind(None) | Found::Unasked | Found::Sum(_) | Found::Failed(_) => Ok(()),
    }
}

fn executable_note(alloc: Global, kind: &ExecutableKind) -> Result<Text, NoMemory>
    ensures { IfOk result (λ note. note ≡ executable_note kind.now) }
{
    match kind {
        ExecutableKind::Native(kind) => quoted(alloc, "executable-kind", kind_text(*kind)),
        ExecutableKind::Interpreted(name) => quoted(alloc, "interpreter", name.as_str()),
    }
}

fn kind_text(kind: NativeKind) -> &'static str
    ensures { result.now ≡ kind_text kind }
{
    match kind {
        NativeKind::Elf => "elf",
        NativeKind::Pe => "pe",
        NativeKind::Mach => "mach",
        NativeKind::Archive => "archive",
    }
}
