//! The build check of one crate.
ghost use Rattle.std.specs.Prelude.{◌<◌, ◌≡◌, ◌^◌, Some, length, slice_get};
ghost use Rattle.std.specs.Option.{option_copied};
ghost use Rattle.deny_krates.specs.Crates.{crate_view};

use crate::graphs::TWO_P;
use crate::krates::built;
use crate::outside::put;
use deny_base::{Files, Hit, Key, Purpose, Witness};
use deny_base_disk::MemoryDisk;
use deny_base_lists::{List, NoMemory, Text};
use deny_base_unread::Unread;
use deny_build::{BuildNotes, check_build};
use deny_cfg::read_policy;
use deny_cfg_build::ValidBuildConfig;
use deny_krates::{Krate, Krates};
use std::alloc::Global;

fn push_keys(text: &mut Text, keys: &[Key]) -> Result<(), NoMemory> {
    for key in keys {
        text.push_str(key.code.name())?;
        text.push_str(" ")?;
        text.push_str(key.text.as_str())?;
        text.push_str("\n")?;
    }
    Ok(())
}

fn push_hit(text: &mut Text, hit: &Hit) -> Result<(), NoMemory> {
    match &hit.witness {
        Witness::Krate(krate) => text.push_str(krate.0.as_str()),
        Witness::File { krate, path } => {
            text.push_str(krate.0.as_str())?;
            text.push_str(" ")?;
            text.push_str(path.as_str())
        }
        _ => text.push_str("another witness"),
    }
}

fn push_hits(text: &mut Text, hits: &[Hit]) -> Result<(), NoMemory> {
    for hit in hits {
        text.push_str("hit ")?;
        push_hit(text, hit)?;
        text.push_str("\n")?;
    }
    Ok(())
}

fn push_unread(text: &mut Text, unread: &[Unread]) -> Result<(), NoMemory> {
    for entry in unread {
        text.push_str("unread ")?;
        text.push_str(entry.path.as_str())?;
        let header = entry.purpose == Purpose::Header;
        text.push_str(if header { " header\n" } else { " not header\n" })?;
    }
    Ok(())
}

fn push_number(text: &mut Text, number: Option<usize>) -> Result<(), NoMemory> {
    match number {
        Some(0) => text.push_str("first bypass\n"),
        Some(1) => text.push_str("second bypass\n"),
        Some(_) => text.push_str("later bypass\n"),
        None => text.push_str("no bypass\n"),
    }
}

/// What the check of the crate at a place gives: the number of its bypass, keys, hits, and what is unread.
fn checked(
    alloc: Global,
    config: &ValidBuildConfig,
    krates: &Krates,
    place: u32,
    krate: &Krate,
    disk: &mut MemoryDisk,
) -> Result<Text, NoMemory>
    requires placed { slice_get krates.now.crates place ≡ Some (crate_view place krate.now) }
{
    let mut keys = List::new(alloc);
    let mut notes = BuildNotes {
        unread: List::new(alloc),
        hits: List::new(alloc),
    };
    let number = check_build(
        alloc,
        config,
        None,
        place,
        krate,
        krates,
        &[],
        disk,
        &mut keys,
        &mut notes,
    )?;
    let mut text = Text::new(alloc);
    push_number(&mut text, number)?;
    push_keys(&mut text, keys.as_slice())?;
    push_hits(&mut text, notes.hits.as_slice())?;
    push_unread(&mut text, notes.unread.as_slice())?;
    Ok(text)
}

fn krate_at(krates: &[Krate], place: u32) -> Option<&Krate>
    ensures { option_copied result ≡ slice_get krates.now place }
{
    krates.get(place as usize)
}

fn checked_at(
    alloc: Global,
    config: &ValidBuildConfig,
    place: u32,
    disk: &mut MemoryDisk,
) -> Result<Text, NoMemory> {
    match built(alloc, TWO_P) {
        Ok(krates) => match krate_at(krates.krates(), place) {
            Some(krate) => checked(alloc, config, &krates, place, krate, disk),
            None => Err(NoMemory),
        },
        Err(_) => Err(NoMemory),
    }
}

fn config(alloc: Global, policy: &'static [u8]) -> Option<ValidBuildConfig>
    requires { length policy.now < 2 ^ 28 }
{
    let mut files = Files::new(alloc);
    match read_policy(alloc, policy, &mut files, None) {
        Ok(policy) => policy.bans.build,
        Err(_) => None,
    }
}

/// Whether the check of the crate at a place gives this text.
fn gives(
    alloc: Global,
    policy: &'static [u8],
    place: u32,
    disk: &mut MemoryDisk,
    wanted: &str,
) -> bool
    requires { length policy.now < 2 ^ 28 }
{
    match config(alloc, policy) {
        Some(config) => {
            matches!(checked_at(alloc, &config, place, disk), Ok(text) if text.as_str() == wanted)
        }
        None => false,
    }
}

const BYPASS: &[u8] = b"[bans.build]\nbypass = [{ crate = \"p\", allow-globs = [\"*.sh\"] }]\n";

fn fill(disk: &mut MemoryDisk) -> Result<bool, NoMemory> {
    Ok(
        put(disk, "/r/p-1.0.0/README", b"x")?
            && put(disk, "/r/p-2.0.0/README", b"x")?
            && put(disk, "/r/p-2.0.0/a.sh", b"x")?,
    )
}

#[test]
fn a_bypass_lets_files_of_its_crates_pass(rt: HostRuntime) {
    let mut disk = MemoryDisk::new(rt.alloc(), 4096);
    let filled = matches!(fill(&mut disk), Ok(true));
    assert!(rt; filled);
    assert!(rt; gives(rt.alloc(), BYPASS, 0, &mut disk, "no bypass\n"));
    assert!(rt;
        gives(
            rt.alloc(),
            BYPASS,
            1,
            &mut disk,
            "first bypass\nunmatched-glob \nhit p1\n"
        )
    );
    assert!(rt;
        gives(
            rt.alloc(),
            BYPASS,
            2,
            &mut disk,
            "first bypass\npath-bypassed-by-glob $crate/a.sh\nhit p2\nhit p2 a.sh\n"
        )
    );
}

fn fill_failing(disk: &mut MemoryDisk) -> Result<bool, NoMemory> {
    disk.fail_path("/r/p-1.0.0/run")?;
    put(disk, "/r/p-1.0.0/run", b"x")
}

#[test]
fn what_a_crate_has_unread_is_noted(rt: HostRuntime) {
    let mut disk = MemoryDisk::new(rt.alloc(), 4096);
    let filled = matches!(fill_failing(&mut disk), Ok(true));
    assert!(rt; filled);
    assert!(rt;
        gives(
            rt.alloc(),
            b"[bans.build]\n",
            1,
            &mut disk,
            "no bypass\nunable-to-check-path $crate/run\nunread /r/p-1.0.0/run header\n"
        )
    );
}
