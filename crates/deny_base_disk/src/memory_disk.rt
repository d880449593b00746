ghost use Rattle.std.specs.Prelude.{◌≡◌, ◌+◌, ◌-◌, ◌<◌, ◌≤◌, ◌++◌, ◌∷◌, [], ◌↔◌, false, length, min};
ghost use Rattle.std.specs.Prelude.{slice_index, Option, Ok, Err, Some, None, IfOk};
ghost use Rattle.std.specs.Prelude.{IsErrOf, IsTrue, OnOk, OnErr, MatchOption, MatchResult};
ghost use Rattle.std.specs.Option.{option_copied};
ghost use Rattle.std.specs.List.{list_any};
ghost use Rattle.std.specs.FinMap as finite;
ghost use Rattle.deny_base_disk.specs.Count.{counted};
ghost use Rattle.deny_base_disk.specs.Children.{AreListed, children};
ghost use Rattle.deny_base_disk.specs.Disk.{IsLater, FailedAt, IsPieceOf, bytes_at};
ghost use Rattle.deny_base_disk.specs.MemoryDisk.{Memory, memory_seen, called, failed_by, fails_next, is_failing};
ghost use Rattle.deny_base_disk.specs.MemoryDisk.{is_failing_call, is_listing, text_to_read, folder_before};
ghost use Rattle.deny_base_disk.specs.MemoryDisk.{folders_of, with_folders, with_file, is_file, takes_file};
ghost use Rattle.deny_base_disk.specs.declared.disk.Place.TheVariants.{File};

use crate::children::{children_of, is_folder_at};
use crate::disk::{Call, DiskError, Entry, PackageFiles, Place};
use crate::path::is_path;
use deny_base_lists::{List, NoMemory, Text, TextMap};
use std::alloc::Global;
use std::marker::Model;

/// A disk in memory whose calls fail as its maker chose, and which gives bytes in small pieces.
#[derive(Drop)]
pub struct MemoryDisk {
    alloc: Global,
    files: TextMap<Place>,
    failing: List<Text>,
    failing_calls: List<u64>,
    piece: usize,
    calls: u64,
    faults: u64,
    given: u64,
    listed: u64,
}

impl Model for MemoryDisk {
    ghost use Rattle.std.specs.Prelude.{◌≤◌};
    ghost use Rattle.std.specs.Coded.{codes, coded_ℕ, coded_list};
    ghost use Rattle.std.specs.Ordering.{nat_cmp};
    ghost use Rattle.std.specs.Cmp.Lexicographic.{slice_cmp};
    ghost use Rattle.std.specs.FinMap as finite;
    ghost use Rattle.deny_base_disk.specs.contracts.disk.Place as place;
    ghost use Rattle.deny_base_disk.specs.MemoryDisk.{HoldsPaths, Memory};

    ghost Value = { Memory };

    ghost coded = { Prim.hlevel (codes, finite.code {R = slice_cmp nat_cmp} (coded_list coded_ℕ) place.the_row.coded) };

    ghost view = { λ d. record {
      files = d.files;
      failing = d.failing;
      failing_calls = d.failing_calls;
      piece = d.piece;
      calls = d.calls;
      faults = d.faults;
      given = d.given;
      listed = d.listed;
    } };

    ghost invariant = { λ d. (1 ≤ d.piece) × HoldsPaths d.files };
}

/// The path of the folder whose name ends before the slash at `offset`.
fn folder_before(path: &str, offset: usize) -> &str
    requires slash { slice_index path.now offset ≡ 47 }
    requires within { offset < length path.now }
    ensures { result.now ≡ folder_before path.now offset }
{
    if offset == 0 { "/" } else { &path[..offset] }
}

/// The folders that the path goes through, the outermost first.
fn folders_of(alloc: Global, path: &str) -> Result<List<Text>, NoMemory>
    ensures { IfOk result (λ folders. folders ≡ folders_of path.now) }
{
    let mut folders = List::new(alloc);
    for (offset, byte) in path.as_bytes().iter().enumerate() {
        if *byte == b'/' {
            folders.push(Text::from_str(alloc, folder_before(path, offset))?)?;
        }
    }
    Ok(folders)
}

/// Puts a file at its path, in place of what was there.
fn put_alone(
    alloc: Global,
    files: &mut TextMap<Place>,
    path: &str,
    bytes: &[u8],
) -> Result<(), NoMemory>
    ensures ok { OnOk result (files.new ≡ finite.insert files.old path.now (File bytes.now)) }
    ensures err { OnErr result (files.new ≡ files.old) }
{
    let key = Text::from_str(alloc, path)?;
    let text = List::from_vec(Vec::from_slice(alloc, bytes)?);
    files.insert(key, Place::File(text))
}

/// Puts the missing folders, and then the file.
fn put_with_folders(
    alloc: Global,
    files: &mut TextMap<Place>,
    folders: &[Text],
    path: &str,
    bytes: &[u8],
) -> Result<(), NoMemory>
    ensures ok { OnOk result
        (files.new ≡ finite.insert (with_folders files.old folders.now) path.now (File bytes.now)) }
    ensures err { OnErr result (files.new ≡ files.old) }
{
    let Some((folder, rest)) = folders.split_first() else {
        return put_alone(alloc, files, path, bytes);
    };
    if files.contains_key(folder.as_str()) {
        return put_with_folders(alloc, files, rest, path, bytes);
    }
    files.insert(folder.clone()?, Place::Folder)?;
    match put_with_folders(alloc, files, rest, path, bytes) {
        Ok(()) => Ok(()),
        Err(error) => {
            files.remove(folder.as_str());
            Err(error)
        }
    }
}

/// Puts a file at `path`, and a folder for each slash of the path where nothing was.
pub(crate) fn put_at(
    alloc: Global,
    files: &mut TextMap<Place>,
    path: &str,
    bytes: &[u8],
) -> Result<(), NoMemory>
    ensures ok { OnOk result (files.new ≡ with_file files.old path.now bytes.now) }
    ensures err { OnErr result (files.new ≡ files.old) }
{
    let folders = folders_of(alloc, path)?;
    put_with_folders(alloc, files, folders.as_slice(), path, bytes)
}

/// Copies the text from `offset` to the start of `buf`, at most `piece` bytes of it.
pub(crate) fn copy_piece(text: &[u8], offset: u64, piece: usize, buf: &mut [u8]) -> usize
    requires { 1 ≤ piece }
    ensures count { result ≡ min (min piece (length buf.new)) (length text.now - offset) }
    ensures bytes { IsPieceOf text.now offset result buf.new }
{
    let start = offset.min(text.len() as u64) as usize;
    let rest = &text[start..];
    let count = piece.min(buf.len()).min(rest.len());
    buf[..count].copy_from_slice(&rest[..count]);
    count
}

fn is_failing_call(failing: &[u64], number: u64) -> bool
    ensures { result ≡ is_failing_call failing.now number }
{
    failing.iter().any(|other| *other == number)
}

impl MemoryDisk {
    /// No files, counts of 0, no paths or calls that fail, and at most `piece` bytes for each call.
    pub fn new(alloc: Global, piece: usize) -> MemoryDisk
        requires { 1 ≤ piece }
        ensures { result ≡ record {
          files = finite.empty;
          failing = [];
          failing_calls = [];
          piece = piece;
          calls = 0;
          faults = 0;
          given = 0;
          listed = 0;
        } }
    {
        MemoryDisk {
            alloc,
            files: TextMap::new(alloc),
            failing: List::new(alloc),
            failing_calls: List::new(alloc),
            piece,
            calls: 0,
            faults: 0,
            given: 0,
            listed: 0,
        }
    }

    /// Puts a file at `path`, in place of what was there, and a folder for each slash of the path
    /// where nothing was. Where memory runs out nothing has changed. `takes` is the test of the path.
    pub fn put_file(&mut self, path: &str, bytes: &[u8]) -> Result<(), NoMemory>
        requires { IsTrue (takes_file self.old.files path.now) }
        ensures ok { OnOk result
            (self.new ≡ record self.old { files = with_file self.old.files path.now bytes.now }) }
        ensures err { OnErr result (self.new ≡ self.old) }
    {
        put_at(self.alloc, &mut self.files, path, bytes)
    }

    /// Whether a file can be put at `path`: the path has the form of a file's, no folder stands at it,
    /// and no file stands where it goes through a folder.
    pub fn takes(&self, path: &str) -> Result<bool, NoMemory>
        ensures { IfOk result (λ takes. takes ≡ takes_file self.now.files path.now) }
    {
        let folders = folders_of(self.alloc, path)?;
        Ok(
            is_path(path)
                && !is_folder_at(&self.files, path)
                && !self.is_any_file(folders.as_slice()),
        )
    }

    fn is_any_file(&self, paths: &[Text]) -> bool
        ensures { result ≡ list_any (λ path. is_file (finite.get self.now.files path)) paths.now }
    {
        paths.iter().any(|path| matches!(self.files.get(path.as_str()), Some(Place::File(_))))
    }

    /// From now on each call on `path` fails.
    pub fn fail_path(&mut self, path: &str) -> Result<(), NoMemory>
        ensures ok { OnOk result
            (self.new ≡ record self.old { failing = self.old.failing ++ path.now ∷ [] }) }
        ensures err { OnErr result (self.new ≡ self.old) }
    {
        self.failing.push(Text::from_str(self.alloc, path)?)
    }

    /// The call of this number fails, whatever its path. Calls of both kinds are numbered together,
    /// from 0 for the first call on this disk; each call after number 2^64 - 1 has that number.
    pub fn fail_call(&mut self, number: u64) -> Result<(), NoMemory>
        ensures ok { OnOk result (self.new ≡
            record self.old { failing_calls = self.old.failing_calls ++ number ∷ [] }) }
        ensures err { OnErr result (self.new ≡ self.old) }
    {
        self.failing_calls.push(number)
    }

    /// Whether the next call is to fail, if it is on `path`.
    fn fails_next(&self, path: &str) -> bool
        ensures { result ≡ fails_next self.now path.now }
    {
        self.is_failing(path) || is_failing_call(self.failing_calls.as_slice(), self.calls)
    }

    fn count_fault(&mut self)
        ensures { self.new ≡ record self.old { faults = counted self.old.faults 1 } }
    {
        self.faults = self.faults.saturating_add(1);
    }

    /// Whether the next call lists, if it is on `path`.
    fn is_listing(&self, path: &str) -> bool
        ensures { result ≡ is_listing self.now path.now }
    {
        !self.fails_next(path) && is_folder_at(&self.files, path)
    }

    /// Whether each call on `path` is to fail.
    fn is_failing(&self, path: &str) -> bool
        ensures { result ≡ is_failing self.now.failing path.now }
    {
        self.failing
            .as_slice()
            .iter()
            .any(|other| other.as_str() == path)
    }

    /// The text that a call on `path` reads. There is none where the call fails.
    fn text_to_read(&self, path: &str) -> Option<&[u8]>
        ensures { option_copied result ≡ text_to_read self.now path.now }
    {
        if self.fails_next(path) {
            return None;
        }
        match self.files.get(path) {
            Some(Place::File(bytes)) => Some(bytes.as_slice()),
            Some(Place::Folder) | None => None,
        }
    }

    /// Copies a piece of the text to `buf`, and returns its length, unless the call fails.
    fn piece_of(&self, path: &str, offset: u64, buf: &mut [u8]) -> Option<usize>
        ensures { MatchOption (text_to_read self.now path.now) (result ≡ None) (λ text.
            (result ≡ Some (min (min self.now.piece (length buf.new)) (length text - offset)))
            × IsPieceOf text offset (min (min self.now.piece (length buf.new)) (length text - offset)) buf.new) }
    {
        let text = self.text_to_read(path)?;
        Some(copy_piece(text, offset, self.piece, buf))
    }
}

impl PackageFiles for MemoryDisk {
    ghost seen = { memory_seen };

    /// Fails exactly where the call is to fail, or no folder is at the path.
    fn list(&mut self, alloc: Global, dir: &str) -> Result<List<Entry>, DiskError>
        ensures names { IfOk result AreListed }
        ensures entries { IfOk result (λ entries. entries ≡ children self.old.files dir.now) }
        ensures later { IsLater (memory_seen self.old) (memory_seen self.new) }
        ensures listed { MatchResult result
            (λ entries. self.new.listed ≡ counted self.old.listed (length entries))
            (λ _. self.new.listed ≡ self.old.listed) }
        ensures given { self.new.given ≡ self.old.given }
        ensures failed { IsErrOf result DiskError.Failed →
            FailedAt (memory_seen self.old) (memory_seen self.new) Call.List dir.now }
        ensures faults { MatchResult result
            (λ _. self.new.faults ≡ self.old.faults)
            (λ _. self.new.faults ≤ self.old.faults + 1) }

        ensures exact { IsErrOf result DiskError.Failed ↔ (is_listing self.old dir.now ≡ false) }
        ensures after { MatchResult result
            (λ entries. self.new ≡
            record (called self.old) { listed = counted self.old.listed (length entries) })
            (λ error. self.new ≡ failed_by error self.old) }
    {
        let is_listing = self.is_listing(dir);
        self.calls = self.calls.saturating_add(1);
        if !is_listing {
            self.count_fault();
            return Err(DiskError::Failed);
        }
        let entries = children_of(alloc, &self.files, dir)?;
        self.listed = self.listed.saturating_add(entries.len() as u64);
        Ok(entries)
    }

    /// Fails exactly where the call is to fail, or no file is at the path. It gives as many bytes as
    /// the piece, the buffer and the rest of the text allow.
    fn read_at(&mut self, path: &str, offset: u64, buf: &mut [u8]) -> Result<usize, DiskError>
        ensures bound { IfOk result (λ n. n ≤ length buf.new) }
        ensures bytes { IfOk result
            (λ n. IsPieceOf (bytes_at self.old.files path.now) offset n buf.new) }
        ensures later { IsLater (memory_seen self.old) (memory_seen self.new) }
        ensures given { MatchResult result
            (λ n. self.new.given ≡ counted self.old.given n)
            (λ _. self.new.given ≡ self.old.given) }
        ensures listed { self.new.listed ≡ self.old.listed }
        ensures failed { IsErrOf result DiskError.Failed →
            FailedAt (memory_seen self.old) (memory_seen self.new) Call.Read path.now }
        ensures faults { MatchResult result
            (λ _. self.new.faults ≡ self.old.faults)
            (λ _. self.new.faults ≤ self.old.faults + 1) }
        ensures no_memory { IsErrOf result DiskError.Memory → ⊥ }

        ensures exact { MatchOption (text_to_read self.old path.now)
            (result ≡ Err DiskError.Failed)
            (λ text. result ≡ Ok (min (min self.old.piece (length buf.new)) (length text - offset))) }
        ensures after { MatchResult result
            (λ n. self.new ≡ record (called self.old) { given = counted self.old.given n })
            (λ error. self.new ≡ failed_by error self.old) }
    {
        let piece = self.piece_of(path, offset, buf);
        self.calls = self.calls.saturating_add(1);
        match piece {
            Some(count) => {
                self.given = self.given.saturating_add(count as u64);
                Ok(count)
            }
            None => {
                self.count_fault();
                Err(DiskError::Failed)
            }
        }
    }
}
