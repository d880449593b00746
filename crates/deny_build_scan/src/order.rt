//! Files in the order of the components of their paths.
ghost use Rattle.std.specs.Prelude.{◌≡◌, ◌<◌, Contains, IfOk, IfSome, Some, length, map, refl};
ghost use Rattle.std.specs.Cmp.{eq_by_cmp_equiv, partial_equiv_from_equiv, partial_order_from_total};
ghost use Rattle.std.specs.Ordering.{eq_by_cmp};
ghost use Rattle.deny_spec.specs.Paths.{path_cmp, rank};
ghost use Rattle.deny_base_lists.specs.Ascending.{Lists};
ghost use Rattle.deny_build_scan.specs.private.Order.{file_cmp, file_cmp_total};

use deny_base_disk::path_behind;
use deny_base_lists::{List, NoMemory, Text, put_in_order};
use std::alloc::Global;
use std::cmp::Ordering;

/// The path of a file. Paths are ordered by their components.
#[derive(Drop)]
pub(crate) struct FilePath {
    pub path: Text,
}

impl PartialEq for FilePath {
    ghost eq = { λ a b. eq_by_cmp file_cmp a b };

    ghost laws = { partial_equiv_from_equiv (eq_by_cmp_equiv file_cmp_total) };

    fn eq(&self, other: &Self) -> bool {
        self.path == other.path
    }
}

impl Eq for FilePath {
    ghost laws = { eq_by_cmp_equiv file_cmp_total };
}

impl PartialOrd for FilePath {
    ghost partial_cmp = { λ a b. Some (file_cmp a b) };

    ghost laws = { partial_order_from_total file_cmp_total };

    fn partial_cmp(&self, other: &Self) -> Option<Ordering> {
        Some(self.cmp(other))
    }
}

impl Ord for FilePath {
    ghost cmp = { file_cmp };

    ghost total = { file_cmp_total };

    ghost matches_partial_cmp = { λ a b. refl };

    ghost matches_eq = { λ a b. refl };

    fn cmp(&self, other: &Self) -> Ordering {
        path_cmp(self.path.as_str(), other.path.as_str())
    }
}

fn rank(byte: u8) -> u16
    ensures { result ≡ rank byte }
{
    if byte == b'/' { 0 } else { u16::from(byte) + 1 }
}

/// How many bytes are compared at a time where paths begin alike.
const PIECE: usize = 16;

fn path_cmp(a: &str, b: &str) -> Ordering
    ensures { result ≡ path_cmp a.now b.now }
{
    let mut rests = (a, b);
    while let Some(next) = behind_piece(rests.0, rests.1) {
        rests = next;
    }
    rest_cmp(rests.0.as_bytes(), rests.1.as_bytes())
}

/// The rests of both paths after their first pieces, where these are equal.
fn behind_piece<'p>(a: &'p str, b: &'p str) -> Option<(&'p str, &'p str)>
    ensures same { IfSome result (λ rests. path_cmp a.now b.now ≡ path_cmp rests.0.now rests.1.now) }
    ensures shorter { IfSome result (λ rests. length rests.0.now < length a.now) }
{
    let (piece, rest) = a.split_at_checked(PIECE)?;
    let other = path_behind(piece, b)?;
    Some((rest, other))
}

fn rest_cmp(a: &[u8], b: &[u8]) -> Ordering
    ensures { result ≡ path_cmp a.now b.now }
{
    let both = a.len().min(b.len());
    for index in 0..both {
        if a[index] != b[index] {
            return rank(a[index]).cmp(&rank(b[index]));
        }
    }
    a.len().cmp(&b.len())
}

/// Sorts paths by their components.
pub(crate) fn in_order(alloc: Global, paths: List<Text>) -> Result<List<FilePath>, NoMemory>
    ensures { IfOk result (λ files. Lists path_cmp (Contains paths) (map (λ file. file.path) files)) }
{
    let mut files = files_at(alloc, paths)?;
    put_in_order(&mut files)?;
    Ok(files)
}

fn files_at(alloc: Global, paths: List<Text>) -> Result<List<FilePath>, NoMemory>
    ensures { IfOk result (λ files. map (λ file. file.path) files ≡ paths) }
{
    let mut files = List::with_capacity(alloc, paths.len())?;
    'paths: for path in paths.vec {
        files.push(FilePath { path })?;
    }
    Ok(files)
}
