//! Sets of globs, and indexes of names, by the calls that count their steps.
ghost use Rattle.std.specs.Prelude.{◌≡◌, ◌<◌};

use deny_base_lists::{NoMemory, Steps, Text};
use deny_cfg_index::SpecIndex;
use deny_globs::{Glob, GlobError, GlobSet};
use std::alloc::Global;
use std::marker::Brand;
use std::sync::ledger::{Blank, Ledger};

fn set_of(alloc: Global, patterns: &[&str]) -> Result<GlobSet, GlobError> {
    let mut set = GlobSet::empty(alloc);
    for pattern in patterns {
        set.add(Glob::parse(alloc, pattern)?)?;
    }
    Ok(set)
}

fn put_fitting<L: Ledger>(
    set: &GlobSet,
    path: &Text,
    numbers: &mut Vec<usize>,
    blank: Blank,
) -> Result<(), NoMemory>
    requires name { blank.name ≡ L.name }
    requires parts { blank.parts ≡ L.parts }
    requires whole { 0 < L.parts }
{
    let mut steps: Steps<L> = Steps::new(blank);
    set.matches_counted(path.as_str(), numbers, &mut steps)
}

/// The numbers of the globs that fit a path.
fn fitting(alloc: Global, patterns: &[&str], path: &str) -> Result<Vec<usize>, GlobError> {
    let set = set_of(alloc, patterns)?;
    let path = Text::from_str(alloc, path)?;
    let mut numbers = Vec::new(alloc);
    put_fitting::<Brand>(&set, &path, &mut numbers, Blank::new(1))?;
    Ok(numbers)
}

fn are_fitting(alloc: Global, path: &str, wanted: &[usize]) -> bool {
    match fitting(alloc, &["*.sh", "a?", "*.sh"], path) {
        Ok(numbers) => numbers.as_slice() == wanted,
        Err(_) => false,
    }
}

#[test]
fn globs_that_fit_are_counted(rt: HostRuntime) {
    assert!(rt; are_fitting(rt.alloc(), "a.sh", &[0, 2]));
    assert!(rt; are_fitting(rt.alloc(), "ab", &[1]));
    assert!(rt; are_fitting(rt.alloc(), "b", &[]));
}

fn index_of(alloc: Global, names: &[&str]) -> Result<SpecIndex, NoMemory> {
    let mut index = SpecIndex::new(alloc);
    for name in names {
        index.add(name)?;
    }
    Ok(index)
}

fn put_equal<L: Ledger>(
    index: &SpecIndex,
    name: &Text,
    numbers: &mut Vec<usize>,
    blank: Blank,
) -> Result<(), NoMemory>
    requires name { blank.name ≡ L.name }
    requires parts { blank.parts ≡ L.parts }
    requires whole { 0 < L.parts }
{
    let mut steps: Steps<L> = Steps::new(blank);
    index.find(name.as_str(), numbers, &mut steps)
}

/// Whether exactly these of the names `a`, `b`, `a` are equal to this one, by both calls. The lists that
/// they clear are not empty.
fn are_equal(alloc: Global, name: &str, wanted: &[usize]) -> Result<bool, NoMemory> {
    let index = index_of(alloc, &["a", "b", "a"])?;
    let mut counted = vec![in alloc; 7usize; 2]?;
    let mut numbers = vec![in alloc; 7usize; 2]?;
    put_equal::<Brand>(
        &index,
        &Text::from_str(alloc, name)?,
        &mut counted,
        Blank::new(1),
    )?;
    index.numbers_of(name, &mut numbers)?;
    Ok(counted.as_slice() == wanted && numbers.as_slice() == wanted)
}

#[test]
fn names_that_are_equal_are_counted(rt: HostRuntime) -> Result<(), NoMemory> {
    assert!(rt; are_equal(rt.alloc(), "a", &[0, 2])?);
    assert!(rt; are_equal(rt.alloc(), "b", &[1])?);
    assert!(rt; are_equal(rt.alloc(), "c", &[])?);
    Ok(())
}
