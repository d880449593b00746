//! The checks of one file of a package.
use crate::outside::put;
use deny_base_disk::MemoryDisk;
use deny_base_lists::NoMemory;
use deny_build_file::{
    CheckEnd, ExecutableKind, NativeKind, check_is_executable, checksum_file, validate_checksum,
};
use deny_cfg::bans::cfg::Checksum;
use std::alloc::Global;
use std::str::FromStr;

fn disk_with(alloc: Global, path: &str, bytes: &[u8]) -> Result<MemoryDisk, NoMemory> {
    let mut disk = MemoryDisk::new(alloc, 4096);
    if put(&mut disk, path, bytes)? {
        Ok(disk)
    } else {
        Err(NoMemory)
    }
}

/// The kind of executable that a file with these bytes is, if it is one.
fn kind_of(alloc: Global, path: &str, bytes: &[u8]) -> Result<Option<ExecutableKind>, CheckEnd> {
    let mut disk = disk_with(alloc, path, bytes)?;
    check_is_executable(alloc, &mut disk, path, false)
}

fn is_script_of(alloc: Global, name: &str, bytes: &[u8]) -> bool {
    match kind_of(alloc, "/f", bytes) {
        Ok(Some(ExecutableKind::Interpreted(found))) => found.as_str() == name,
        _ => false,
    }
}

fn is_none(alloc: Global, path: &str, bytes: &[u8]) -> bool {
    matches!(kind_of(alloc, path, bytes), Ok(None))
}

fn is_elf(alloc: Global, bytes: &[u8]) -> bool {
    matches!(
        kind_of(alloc, "/f", bytes),
        Ok(Some(ExecutableKind::Native(NativeKind::Elf)))
    )
}

/// The least bytes of an executable: 16 of them.
const ELF: &[u8] = b"\x7fELF\0\0\0\0\0\0\0\0\0\0\0\0";

#[test]
fn first_bytes_tell_executables(rt: HostRuntime) {
    assert!(rt; is_script_of(rt.alloc(), "python3", b"#!/usr/bin/env python3\n"));
    assert!(rt; is_script_of(rt.alloc(), "bash", b"#! /bin/bash\necho"));
    assert!(rt; is_elf(rt.alloc(), ELF));
}

/// An attribute of a crate, and a script of 15 bytes.
#[test]
fn other_files_are_none(rt: HostRuntime) {
    assert!(rt; is_none(rt.alloc(), "/lib.rs", b"#![allow(unused)]\n"));
    assert!(rt; is_none(rt.alloc(), "/f", b"#!/bin/sh\necho "));
    assert!(rt; is_script_of(rt.alloc(), "sh", b"#!/bin/sh\necho 1"));
}

/// The SHA-256 of `abc`, as its standard gives it.
const ABC: &str = "ba7816bf8f01cfea414140de5dae2223b00361a396177a9cb410ff61f20015ad";

const LETTERS: &str = "aaaaaaaaaaaaaaaaaaaaaaaaaaaaaaaaaaaaaaaaaaaaaaaaaaaaaaaaaaaaaaaa";

fn is_sum(alloc: Global, checksum: &Checksum) -> bool {
    match format!(in alloc; "{checksum}") {
        Ok(printed) => printed.as_str() == ABC,
        Err(_) => false,
    }
}

fn has_sum(alloc: Global) -> Result<bool, CheckEnd> {
    let mut disk = disk_with(alloc, "/f", b"abc")?;
    let checksum = checksum_file(alloc, &mut disk, "/f")?;
    Ok(is_sum(alloc, &checksum))
}

/// Whether a file with `abc` is found to have this checksum; and that its own is handed out.
fn is_valid(alloc: Global, expected: &str) -> Result<(bool, bool), CheckEnd> {
    let mut disk = disk_with(alloc, "/f", b"abc")?;
    match Checksum::from_str(expected) {
        Ok(expected) => {
            let (equal, checksum) = validate_checksum(alloc, &expected, &mut disk, "/f")?;
            Ok((equal, is_sum(alloc, &checksum)))
        }
        Err(_) => Err(CheckEnd::Fault),
    }
}

#[test]
fn a_file_has_its_checksum(rt: HostRuntime) {
    assert!(rt; matches!(has_sum(rt.alloc()), Ok(true)));
}

#[test]
fn a_checksum_is_right_or_wrong(rt: HostRuntime) {
    assert!(rt; matches!(is_valid(rt.alloc(), ABC), Ok((true, true))));
    assert!(rt; matches!(is_valid(rt.alloc(), LETTERS), Ok((false, true))));
}
