//! Codes as words, and files with the locations in them.
ghost use Rattle.std.specs.Prelude.{◌<◌, ◌^◌, length};

use deny_base::{Code, DiagnosticCode, FileId, Files, LicenseCode, Location};
use deny_base_lists::{NoMemory, Text};
use std::alloc::Global;

fn prints(rt: &HostRuntime, code: DiagnosticCode, word: &str) -> Result<bool, NoMemory> {
    let printed = format!(in rt.alloc(); "{code}")?;
    Ok(printed.as_str() == word)
}

#[test]
fn a_code_prints_its_word(rt: HostRuntime) -> Result<(), NoMemory> {
    let script = DiagnosticCode::Bans(Code::BuildScriptNotAllowed);
    let license = DiagnosticCode::License(LicenseCode::ParseError);
    assert!(rt; prints(&rt, DiagnosticCode::Deprecated, "deprecated")?);
    assert!(rt; prints(&rt, script, "build-script-not-allowed")?);
    assert!(rt; prints(&rt, license, "parse-error")?);
    assert!(rt; prints(&rt, DiagnosticCode::Expired, "waiver-expired")?);
    Ok(())
}

/// Characters of one byte to four: `a`, `é` from 1, a newline at 3, `€` from 4, `𝄞` from 7,
/// `b` at 11.
const TEXT: &str = "aé\n€𝄞b";

fn files_of(alloc: Global, text: &str) -> Result<Files, NoMemory>
    requires { length text.now < 2 ^ 32 }
{
    let mut files = Files::new(alloc);
    files.add("deny.toml", text)?;
    Ok(files)
}

fn is_at(files: &Files, offset: u32, line: u32, column: u32) -> bool {
    files.location(0, offset) == Some(Location { line, column })
}

fn is_nowhere(files: &Files, id: FileId, offset: u32) -> bool {
    files.location(id, offset).is_none()
}

fn have_columns(files: &Files) -> bool {
    is_at(files, 0, 0, 0)
        && is_at(files, 3, 0, 2)
        && is_at(files, 4, 1, 0)
        && is_at(files, 11, 1, 2)
        && is_at(files, 12, 1, 3)
}

fn are_nowhere(files: &Files) -> bool {
    is_nowhere(files, 0, 2)
        && is_nowhere(files, 0, 10)
        && is_nowhere(files, 0, 13)
        && is_nowhere(files, 1, 0)
}

#[test]
fn a_column_counts_characters(rt: HostRuntime) -> Result<(), NoMemory> {
    let files = files_of(rt.alloc(), TEXT)?;
    assert!(rt; have_columns(&files) && are_nowhere(&files));
    Ok(())
}

/// A line of 400 characters of two bytes.
fn long_line(alloc: Global) -> Result<Text, NoMemory> {
    let mut text = Text::new(alloc);
    for _ in 0..400 {
        text.push_str("é")?;
    }
    Ok(text)
}

fn finds_far_offsets(alloc: Global, text: &Text) -> Result<bool, NoMemory> {
    if text.as_str().len() != 800 {
        return Ok(false);
    }
    let files = files_of(alloc, text.as_str())?;
    Ok(
        is_at(&files, 254, 0, 127)
            && is_at(&files, 256, 0, 128)
            && is_at(&files, 800, 0, 400)
            && is_nowhere(&files, 0, 513),
    )
}

#[test]
fn a_long_line_has_locations(rt: HostRuntime) -> Result<(), NoMemory> {
    let text = long_line(rt.alloc())?;
    assert!(rt; finds_far_offsets(rt.alloc(), &text)?);
    Ok(())
}

fn is_source(files: &Files, id: FileId, text: &str) -> bool {
    match files.source(id) {
        Some(source) => source == text,
        None => false,
    }
}

/// Three files, two of them at one path, and whether their numbers are 0 to 2.
fn three_files(alloc: Global) -> Result<(Files, bool), NoMemory> {
    let mut files = Files::new(alloc);
    let first = files.add("/ws/Cargo.toml", "[package]")?;
    let second = files.add("/ws/Cargo.toml", "")?;
    let third = files.add("/ws/Cargo.lock", "version = 4")?;
    Ok((files, first == 0 && second == 1 && third == 2))
}

fn have_sources(files: &Files) -> bool {
    is_source(files, 0, "[package]")
        && is_source(files, 2, "version = 4")
        && files.source(3).is_none()
}

fn have_paths(files: &Files) -> bool {
    files.id_for_path("/ws/Cargo.toml") == Some(0)
        && files.id_for_path("/ws/Cargo.lock") == Some(2)
        && files.id_for_path("/ws").is_none()
}

#[test]
fn files_are_found_by_number_and_path(rt: HostRuntime) -> Result<(), NoMemory> {
    let (files, are_numbered) = three_files(rt.alloc())?;
    assert!(rt; are_numbered && have_sources(&files) && have_paths(&files));
    Ok(())
}
