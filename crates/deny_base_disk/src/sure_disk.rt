ghost use Rattle.std.specs.Prelude.{◌≡◌, ◌+◌, ◌-◌, ◌≤◌, length, min, Ok, IfOk, IsErrOf, IsTrue, OnOk, OnErr, MatchResult};
ghost use Rattle.std.specs.FinMap as finite;
ghost use Rattle.deny_base_disk.specs.Children.{AreListed, children};
ghost use Rattle.deny_base_disk.specs.Count.{counted};
ghost use Rattle.deny_base_disk.specs.Disk.{IsLater, FailedAt, IsPieceOf, bytes_at};
ghost use Rattle.deny_base_disk.specs.MemoryDisk.{takes_file, with_file};
ghost use Rattle.deny_base_disk.specs.SureDisk.{Sure, sure_seen};

use crate::children::children_of;
use crate::disk::{Call, DiskError, Entry, PackageFiles, Place};
use crate::memory_disk::{copy_piece, put_at};
use deny_base_lists::{List, NoMemory, TextMap};
use std::alloc::Global;
use std::marker::Model;

/// Files in memory that never fail: a path without a file reads as the empty text, and one without
/// a folder lists as an empty folder.
#[derive(Drop)]
pub struct SureDisk {
    alloc: Global,
    files: TextMap<Place>,
    given: u64,
    listed: u64,
}

impl Model for SureDisk {
    ghost use Rattle.std.specs.Coded.{codes, coded_ℕ, coded_list};
    ghost use Rattle.std.specs.Ordering.{nat_cmp};
    ghost use Rattle.std.specs.Cmp.Lexicographic.{slice_cmp};
    ghost use Rattle.std.specs.FinMap as finite;
    ghost use Rattle.deny_base_disk.specs.contracts.disk.Place as place;
    ghost use Rattle.deny_base_disk.specs.MemoryDisk.{HoldsPaths};
    ghost use Rattle.deny_base_disk.specs.SureDisk.{Sure};

    ghost Value = { Sure };

    ghost coded = { Prim.hlevel (codes, finite.code {R = slice_cmp nat_cmp} (coded_list coded_ℕ) place.the_row.coded) };

    ghost view = { λ d. record { files = d.files; given = d.given; listed = d.listed } };

    ghost invariant = { λ d. HoldsPaths d.files };
}

/// The text of the file at a path, or the empty text.
fn text_at<'d>(files: &'d TextMap<Place>, path: &str) -> &'d [u8]
    ensures { result.now ≡ bytes_at files.now path.now }
{
    match files.get(path) {
        Some(Place::File(bytes)) => bytes.as_slice(),
        Some(Place::Folder) | None => &[],
    }
}

impl SureDisk {
    /// No files, and counts of 0.
    pub fn new(alloc: Global) -> SureDisk
        ensures { result ≡ record { files = finite.empty; given = 0; listed = 0 } }
    {
        SureDisk {
            alloc,
            files: TextMap::new(alloc),
            given: 0,
            listed: 0,
        }
    }

    /// Puts a file at `path`, in place of what was there, and a folder for each slash of the path
    /// where nothing was. Where memory runs out nothing has changed.
    pub fn put_file(&mut self, path: &str, bytes: &[u8]) -> Result<(), NoMemory>
        requires { IsTrue (takes_file self.old.files path.now) }
        ensures ok { OnOk result
            (self.new ≡ record self.old { files = with_file self.old.files path.now bytes.now }) }
        ensures err { OnErr result (self.new ≡ self.old) }
    {
        put_at(self.alloc, &mut self.files, path, bytes)
    }
}

impl PackageFiles for SureDisk {
    ghost seen = { sure_seen };

    /// Fails only where memory runs out.
    fn list(&mut self, alloc: Global, dir: &str) -> Result<List<Entry>, DiskError>
        ensures names { IfOk result AreListed }
        ensures entries { IfOk result (λ entries. entries ≡ children self.old.files dir.now) }
        ensures later { IsLater (sure_seen self.old) (sure_seen self.new) }
        ensures listed { MatchResult result
            (λ entries. self.new.listed ≡ counted self.old.listed (length entries))
            (λ _. self.new.listed ≡ self.old.listed) }
        ensures given { self.new.given ≡ self.old.given }
        ensures failed { IsErrOf result DiskError.Failed →
            FailedAt (sure_seen self.old) (sure_seen self.new) Call.List dir.now }
        ensures faults { MatchResult result
            (λ _. (sure_seen self.new).faults ≡ (sure_seen self.old).faults)
            (λ _. (sure_seen self.new).faults ≤ (sure_seen self.old).faults + 1) }

        ensures exact { IsErrOf result DiskError.Failed → ⊥ }
        ensures after { MatchResult result
            (λ entries. self.new ≡
            record self.old { listed = counted self.old.listed (length entries) })
            (λ _. self.new ≡ self.old) }
    {
        let entries = children_of(alloc, &self.files, dir)?;
        self.listed = self.listed.saturating_add(entries.len() as u64);
        Ok(entries)
    }

    /// Never fails, and gives as many bytes as the buffer and the rest of the text allow.
    fn read_at(&mut self, path: &str, offset: u64, buf: &mut [u8]) -> Result<usize, DiskError>
        ensures bound { IfOk result (λ n. n ≤ length buf.new) }
        ensures bytes { IfOk result
            (λ n. IsPieceOf (bytes_at self.old.files path.now) offset n buf.new) }
        ensures later { IsLater (sure_seen self.old) (sure_seen self.new) }
        ensures given { MatchResult result
            (λ n. self.new.given ≡ counted self.old.given n)
            (λ _. self.new.given ≡ self.old.given) }
        ensures listed { self.new.listed ≡ self.old.listed }
        ensures failed { IsErrOf result DiskError.Failed →
            FailedAt (sure_seen self.old) (sure_seen self.new) Call.Read path.now }
        ensures faults { MatchResult result
            (λ _. (sure_seen self.new).faults ≡ (sure_seen self.old).faults)
            (λ _. (sure_seen self.new).faults ≤ (sure_seen self.old).faults + 1) }
        ensures no_memory { IsErrOf result DiskError.Memory → ⊥ }

        ensures exact { result ≡ Ok (min (length buf.new) (length (bytes_at self.old.files path.now) - offset)) }
        ensures after { IfOk result (λ n. self.new ≡ record self.old { given = counted self.old.given n }) }
    {
        let text = text_at(&self.files, path);
        let count = copy_piece(text, offset, buf.len().max(1), buf);
        self.given = self.given.saturating_add(count as u64);
        Ok(count)
    }
}
