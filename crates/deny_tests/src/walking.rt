//! Walks of packages over the disk in memory.
use deny_base::Kid;
use deny_base_disk::MemoryDisk;
use deny_base_lists::{List, NoMemory, Text};
use deny_base_unread::Unread;
use deny_build_walk::walk_package;
use std::alloc::Global;

/// A package with folders below it, `.git` in two of them, and a file beside its folder.
fn disk_of(alloc: Global) -> Result<Option<MemoryDisk>, NoMemory> {
    let mut disk = MemoryDisk::new(alloc, 1);
    for path in &[
        "/p/src/lib.rs",
        "/p/a.rs",
        "/p/.git/config",
        "/p/src/.git/config",
        "/p-b/c",
    ] {
        if !disk.takes(path)? {
            return Ok(None);
        }
        disk.put_file(path, b"")?;
    }
    Ok(Some(disk))
}

fn push_paths(text: &mut Text, paths: &[Text]) -> Result<(), NoMemory> {
    for path in paths {
        text.push_str(path.as_str())?;
        text.push_str(" ")?;
    }
    Ok(())
}

fn push_unread(text: &mut Text, unread: &[Unread]) -> Result<(), NoMemory> {
    for entry in unread {
        text.push_str("?")?;
        text.push_str(entry.path.as_str())?;
        text.push_str(" ")?;
    }
    Ok(())
}

/// Writes the files of the package and then the folders that were not listed, a blank behind each.
fn push_walk(
    alloc: Global,
    disk: &mut MemoryDisk,
    by_git: bool,
    text: &mut Text,
) -> Result<(), NoMemory> {
    let krate = Kid(Text::from_str(alloc, "p")?);
    let mut unread = List::new(alloc);
    let walked = walk_package(alloc, disk, &krate, "/p", by_git, &mut unread)?;
    push_paths(text, walked.files.as_slice())?;
    push_unread(text, unread.as_slice())
}

/// What is walked where the calls on this path fail.
fn walked(alloc: Global, by_git: bool, failing: &str) -> Result<Text, NoMemory> {
    let mut text = Text::new(alloc);
    if let Some(mut disk) = disk_of(alloc)? {
        disk.fail_path(failing)?;
        push_walk(alloc, &mut disk, by_git, &mut text)?;
    }
    Ok(text)
}

#[test]
fn a_package_is_walked(rt: HostRuntime) -> Result<(), NoMemory> {
    let text = walked(rt.alloc(), false, "")?;
    assert!(rt; text.as_str() == "/p/.git/config /p/a.rs /p/src/.git/config /p/src/lib.rs ");
    Ok(())
}

#[test]
fn git_is_left_out_right_in_the_folder(rt: HostRuntime) -> Result<(), NoMemory> {
    let text = walked(rt.alloc(), true, "")?;
    assert!(rt; text.as_str() == "/p/a.rs /p/src/.git/config /p/src/lib.rs ");
    Ok(())
}

#[test]
fn a_folder_that_fails_is_not_entered(rt: HostRuntime) -> Result<(), NoMemory> {
    let below = walked(rt.alloc(), true, "/p/src")?;
    let all = walked(rt.alloc(), true, "/p")?;
    assert!(rt; below.as_str() == "/p/a.rs ?/p/src " && all.as_str() == "?/p ");
    Ok(())
}
