ghost use Rattle.std.specs.Prelude.{◌≡◌, ◌≤◌, length, IfOk};
ghost use Rattle.std.specs.List.{list_all};
ghost use Rattle.deny_base_disk.specs.Children.{AreListed, is_child_name};
ghost use Rattle.deny_base_disk.specs.Disk.{untold};

use crate::children::{child_path, is_child_name};
use crate::disk::{DiskError, Entry, PackageFiles};
use crate::path::is_name;
use deny_base_lists::{List, Text, put_records_in_order};
use std::alloc::Global;
use std::fs::{File, Files};
use std::io::Read;
use std::os::unix::fs::FileExt;
use std::{fs, io};

/// The files of the system. It tells nothing of what they hold, and has one count of failures for
/// every call and path. The file that was read last stays open, so that one is opened once for all
/// its pieces.
#[derive(Drop)]
pub struct RealDisk<'r> {
    rt: &'r HostRuntime,
    last: LastFile,
    faults: u64,
    given: u64,
    listed: u64,
}

impl<'r> RealDisk<'r> {
    /// The files of the system, with counts of 0.
    pub fn new(rt: &'r HostRuntime) -> RealDisk<'r>
        ensures { ⟦<RealDisk<'r> as PackageFiles>⟧.seen result ≡ untold 0 0 0 }
    {
        RealDisk {
            rt,
            last: LastFile::new(rt.alloc()),
            faults: 0,
            given: 0,
            listed: 0,
        }
    }
}

/// The file that was read last, by its path, if it is still open.
#[derive(Drop)]
struct LastFile {
    path: String,
    file: Option<File>,
}

impl LastFile {
    fn new(alloc: Global) -> LastFile {
        LastFile {
            path: String::new(alloc),
            file: None,
        }
    }

    /// Reads the file at `path` from `offset` on, and opens it where it is not the file read last.
    fn read_at(
        &mut self,
        rt: &HostRuntime,
        path: &str,
        offset: u64,
        buf: &mut [u8],
    ) -> io::Result<usize>
        ensures { IfOk result (λ n. n ≤ length buf.new) }
    {
        match &self.file {
            Some(file) if self.path.as_str() == path => return file.read_at(buf, offset),
            _ => {}
        }
        self.file = None;
        let file = fs::open(rt, path)?;
        let n = file.read_at(buf, offset)?;
        self.keep(path, file);
        Ok(n)
    }

    /// Keeps a file open, unless memory for its path runs out.
    fn keep(&mut self, path: &str, file: File) {
        self.path.clear();
        if self.path.push_str(path).is_ok() {
            self.file = Some(file);
        }
    }
}

/// The disk error for an error of the system: a failure, also where the system itself has no memory.
fn disk_error(_error: io::Error) -> DiskError {
    DiskError::Failed
}

/// The number of bytes of names that one call asks for.
const NAMES: usize = 0x2000;

/// The entries read of a folder so far. One buffer serves the paths of all of them.
#[derive(Drop)]
struct Listing {
    prefix: Text,
    path: String,
    entries: List<Entry>,
}

impl Listing {
    /// Adds names, each ended by a 0. The folder itself and its parent are left out.
    fn take(&mut self, rt: &HostRuntime, alloc: Global, names: &[u8]) -> Result<(), DiskError> {
        for name in names.split(|byte| *byte == 0) {
            if is_name(name) {
                self.take_name(rt, alloc, name)?;
            }
        }
        Ok(())
    }

    /// Adds the entry of a name. A link is not followed.
    fn take_name(&mut self, rt: &HostRuntime, alloc: Global, name: &[u8]) -> Result<(), DiskError> {
        let Ok(name) = str::from_utf8(name) else {
            return Err(DiskError::Failed);
        };
        self.path.clear();
        self.path.push_str(self.prefix.as_str())?;
        self.path.push_str(name)?;
        let found = rt.symlink_metadata(self.path.as_str()).map_err(disk_error)?;
        self.entries.push(Entry {
            name: Text::from_str(alloc, name)?,
            folder: found.is_dir(),
        })?;
        Ok(())
    }
}

/// The entries of a folder, in the order in which the system gives them.
fn read_folder(rt: &HostRuntime, alloc: Global, dir: &str) -> Result<List<Entry>, DiskError> {
    if dir.is_empty() {
        return Err(DiskError::Failed);
    }
    let prefix = child_path(alloc, dir, "")?;
    let mut folder = rt.open_dir(prefix.as_str()).map_err(disk_error)?;
    let mut listing = Listing {
        prefix,
        path: String::new(alloc),
        entries: List::new(alloc),
    };
    let mut names = [0u8; NAMES];
    for _ in 0..u64::MAX {
        let n = folder.read(&mut names).map_err(disk_error)?;
        if n == 0 {
            return Ok(listing.entries);
        }
        listing.take(rt, alloc, &names[..n])?;
    }
    Err(DiskError::Failed)
}

fn have_child_names(entries: &[Entry]) -> bool
    ensures { result ≡ list_all (λ entry. is_child_name entry.name) entries.now }
{
    entries
        .iter()
        .all(|entry| is_child_name(entry.name.as_str().as_bytes()))
}

/// The entries of a folder, by their names. The call fails where a name cannot be a child's.
fn list_folder(rt: &HostRuntime, alloc: Global, dir: &str) -> Result<List<Entry>, DiskError>
    ensures { IfOk result AreListed }
{
    let mut entries = read_folder(rt, alloc, dir)?;
    put_records_in_order(&mut entries)?;
    if have_child_names(entries.as_slice()) {
        Ok(entries)
    } else {
        Err(DiskError::Failed)
    }
}

impl<'r> PackageFiles for RealDisk<'r> {
    ghost seen = { λ disk. untold disk.faults disk.given disk.listed };

    fn list(&mut self, alloc: Global, dir: &str) -> Result<List<Entry>, DiskError> {
        match list_folder(self.rt, alloc, dir) {
            Ok(entries) => {
                self.listed = self.listed.saturating_add(entries.len() as u64);
                Ok(entries)
            }
            Err(DiskError::Failed) => {
                self.faults = self.faults.saturating_add(1);
                Err(DiskError::Failed)
            }
            Err(DiskError::Memory) => Err(DiskError::Memory),
        }
    }

    fn read_at(&mut self, path: &str, offset: u64, buf: &mut [u8]) -> Result<usize, DiskError> {
        match self.last.read_at(self.rt, path, offset, buf) {
            Ok(n) => {
                self.given = self.given.saturating_add(n as u64);
                Ok(n)
            }
            Err(_) => {
                self.faults = self.faults.saturating_add(1);
                Err(DiskError::Failed)
            }
        }
    }
}
