//! The disk and the output in memory.
ghost use Rattle.std.specs.Prelude.{◌≤◌};

use deny_base_disk::{MemoryDisk, MemoryOut, Out, is_path, read_whole};
use deny_base_lists::NoMemory;
use std::alloc::Global;

/// Puts a file where one can stand, and says whether that is so.
pub(crate) fn put(disk: &mut MemoryDisk, path: &str, bytes: &[u8]) -> Result<bool, NoMemory> {
    if !disk.takes(path)? {
        return Ok(false);
    }
    disk.put_file(path, bytes)?;
    Ok(true)
}

fn reads(alloc: Global, disk: &mut MemoryDisk, path: &str, text: &[u8]) -> bool {
    match read_whole(alloc, disk, path) {
        Ok(bytes) => bytes.as_slice() == text,
        Err(_end) => false,
    }
}

/// A file, a folder above it, and a path that is to fail.
fn fill(disk: &mut MemoryDisk) -> Result<bool, NoMemory> {
    disk.fail_path("/ws/bad")?;
    Ok(put(disk, "/ws/app/Cargo.toml", b"seven b")? && put(disk, "/ws/bad", b"text")?)
}

/// A file is read whole, a folder and a failing path are not.
fn are_read(alloc: Global, disk: &mut MemoryDisk) -> bool {
    reads(alloc, disk, "/ws/app/Cargo.toml", b"seven b")
        && read_whole(alloc, disk, "/ws/app").is_err()
        && read_whole(alloc, disk, "/ws/bad").is_err()
}

fn reads_in_pieces(alloc: Global, piece: usize) -> bool
    requires { 1 ≤ piece }
{
    let mut disk = MemoryDisk::new(alloc, piece);
    matches!(fill(&mut disk), Ok(true)) && are_read(alloc, &mut disk)
}

#[test]
fn a_text_is_read_whole_in_pieces(rt: HostRuntime) {
    assert!(rt; reads_in_pieces(rt.alloc(), 1) && reads_in_pieces(rt.alloc(), 3));
}

fn are_paths() -> bool {
    is_path("a") && is_path("/a/.b/..c") && is_path("./a")
}

fn is_any_path() -> bool {
    let mut any = false;
    for text in ["", "/", "a/", "a//b", "a/./b", "a/..", "/."] {
        any = any || is_path(text);
    }
    any
}

#[test]
fn paths_have_a_form(rt: HostRuntime) {
    assert!(rt; are_paths() && !is_any_path());
}

fn refuses(disk: &mut MemoryDisk, path: &str) -> bool {
    matches!(put(disk, path, b"text"), Ok(false))
}

/// No file stands where a folder does, and none below a file.
fn refuses_a_second_kind(disk: &mut MemoryDisk) -> bool {
    matches!(put(disk, "/ws/a/b", b"text"), Ok(true))
        && matches!(put(disk, "/ws/a/b", b"other"), Ok(true))
        && refuses(disk, "/ws/a")
        && refuses(disk, "/ws/a/b/c")
}

#[test]
fn a_file_is_no_folder(rt: HostRuntime) {
    let mut disk = MemoryDisk::new(rt.alloc(), 1);
    assert!(rt; refuses_a_second_kind(&mut disk));
}

fn takes_what_fits(out: &mut MemoryOut) -> bool {
    out.put(b"abc").is_ok() && out.put(b"def").is_err() && out.bytes() == b"abcde".as_slice()
}

#[test]
fn an_output_takes_what_there_is_room_for(rt: HostRuntime) -> Result<(), NoMemory> {
    let mut out = MemoryOut::new(rt.alloc(), 5)?;
    assert!(rt; takes_what_fits(&mut out));
    Ok(())
}
