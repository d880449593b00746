//! What disks list, and calls that fail by their numbers.
use crate::outside::put;
use deny_base_disk::{Entry, MemoryDisk, PackageFiles, RealDisk, SureDisk, read_whole};
use deny_base_lists::{NoMemory, Text};
use std::alloc::Global;
use std::fs;

/// The names, a slash behind those of folders and a blank behind each.
fn push_names(text: &mut Text, entries: &[Entry]) -> Result<(), NoMemory> {
    for entry in entries {
        text.push_str(entry.name.as_str())?;
        text.push_str(if entry.folder { "/ " } else { " " })?;
    }
    Ok(())
}

/// The names in the folder; or a question mark, where the call failed.
fn listed<D: PackageFiles>(alloc: Global, disk: &mut D, dir: &str) -> Result<Text, NoMemory> {
    let mut text = Text::new(alloc);
    match disk.list(alloc, dir) {
        Ok(entries) => push_names(&mut text, entries.as_slice())?,
        Err(_error) => text.push_str("?")?,
    }
    Ok(text)
}

fn lists<D: PackageFiles>(alloc: Global, disk: &mut D, dir: &str, names: &str) -> bool {
    match listed(alloc, disk, dir) {
        Ok(text) => text.as_str() == names,
        Err(NoMemory) => false,
    }
}

/// A folder whose name begins as that of a file beside it.
fn fill(disk: &mut MemoryDisk) -> Result<bool, NoMemory> {
    Ok(put(disk, "/ws/b/c/d", b"")? && put(disk, "/ws/b-e", b"")? && put(disk, "/ws/a", b"")?)
}

fn lists_children(alloc: Global, disk: &mut MemoryDisk) -> bool {
    lists(alloc, disk, "/", "ws/ ")
        && lists(alloc, disk, "/ws", "a b/ b-e ")
        && lists(alloc, disk, "/ws/a", "?")
        && lists(alloc, disk, "/ws/n", "?")
}

/// Of the calls of both kinds the second fails, and no other.
fn fails_second(alloc: Global, disk: &mut MemoryDisk) -> bool {
    let mut buffer = [0; 1];
    disk.fail_call(1).is_ok()
        && disk.read_at("/ws/a", 0, &mut buffer).is_ok()
        && disk.list(alloc, "/ws").is_err()
        && disk.list(alloc, "/ws").is_ok()
}

#[test]
fn a_disk_in_memory_lists_children(rt: HostRuntime) {
    let mut disk = MemoryDisk::new(rt.alloc(), 1);
    assert!(rt; matches!(fill(&mut disk), Ok(true)) && lists_children(rt.alloc(), &mut disk));
}

#[test]
fn a_call_fails_by_its_number(rt: HostRuntime) {
    let mut disk = MemoryDisk::new(rt.alloc(), 1);
    assert!(rt; matches!(fill(&mut disk), Ok(true)) && fails_second(rt.alloc(), &mut disk));
}

#[test]
fn a_sure_disk_lists_what_is_not_there(rt: HostRuntime) {
    let mut disk = SureDisk::new(rt.alloc());
    assert!(rt; lists(rt.alloc(), &mut disk, "/ws", ""));
}

/// Names that begin with a dot stand before others.
fn make_folder(rt: &HostRuntime) -> bool {
    fs::create_dir_all(rt, "listed/b/c").is_ok()
        && fs::create_dir_all(rt, "listed/.d").is_ok()
        && fs::write(rt, "listed/.e", "").is_ok()
        && fs::write(rt, "listed/..f", "").is_ok()
        && fs::write(rt, "listed/b-e", "").is_ok()
        && fs::write(rt, "listed/a", "").is_ok()
}

fn lists_made(rt: &HostRuntime) -> bool {
    let mut disk = RealDisk::new(rt);
    lists(rt.alloc(), &mut disk, "listed", "..f .d/ .e a b/ b-e ")
        && lists(rt.alloc(), &mut disk, "listed/b/c", "")
        && lists(rt.alloc(), &mut disk, "listed/n", "?")
}

#[test]
fn the_disk_of_the_system_lists_children(rt: HostRuntime) {
    let made = make_folder(&rt);
    let lists = lists_made(&rt);
    let removed = fs::remove_dir_all(&rt, "listed").is_ok();
    assert!(rt; made && lists && removed);
}

fn reads(alloc: Global, disk: &mut RealDisk<'_>, path: &str, bytes: &[u8]) -> bool {
    match read_whole(alloc, disk, path) {
        Ok(read) => read.as_slice() == bytes,
        Err(_) => false,
    }
}

fn reads_in_turn(rt: &HostRuntime) -> bool {
    let mut disk = RealDisk::new(rt);
    reads(rt.alloc(), &mut disk, "pair/a", b"first")
        && reads(rt.alloc(), &mut disk, "pair/b", b"and second")
        && reads(rt.alloc(), &mut disk, "pair/a", b"first")
        && reads(rt.alloc(), &mut disk, "pair/a", b"first")
        && !reads(rt.alloc(), &mut disk, "pair/c", b"first")
        && reads(rt.alloc(), &mut disk, "pair/b", b"and second")
}

/// Two files whose paths have one length.
fn make_pair(rt: &HostRuntime) -> bool {
    fs::create_dir_all(rt, "pair").is_ok()
        && fs::write(rt, "pair/a", "first").is_ok()
        && fs::write(rt, "pair/b", "and second").is_ok()
}

#[test]
fn files_are_read_in_turn(rt: HostRuntime) {
    let made = make_pair(&rt);
    let read = reads_in_turn(&rt);
    let removed = fs::remove_dir_all(&rt, "pair").is_ok();
    assert!(rt; made && read && removed);
}
