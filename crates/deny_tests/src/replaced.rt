//! Crates that the standard library replaces.
ghost use Rattle.std.specs.Prelude.{◌<◌, ◌^◌, length};

use crate::graphs::APP_X;
use crate::krates::built;
use deny_base::{Diag, Files, Pack, Severity};
use deny_base_lists::{List, NoMemory, Text};
use deny_cfg::bans::cfg::StdReplacementConfig;
use deny_cfg::read_policy;
use deny_krates::Krates;
use deny_std::{ReplacementCtx, ReplacementData, Replacements};
use std::alloc::Global;

/// A table of version 1: of `x` it says that `f` is `g` of the standard library since 1.70.
const TABLE: &[u8] = b"\xcd\xcd\xcd\x01\x01\0\0\0\x0c\0\0\0\x01x\x01\0\0\x46\x01\x01f\0\x01g\0\0";

/// Writes the crate of a pack, or a star for none, and the messages of its errors with their notes.
fn push_pack(text: &mut Text, pack: &Pack) -> Result<(), NoMemory> {
    match &pack.kid {
        Some(kid) => text.push_str(kid.0.as_str())?,
        None => text.push_str("*")?,
    }
    text.push_str("\n")?;
    push_diags(text, pack.diags.as_slice())
}

fn push_diags(text: &mut Text, diags: &[Diag]) -> Result<(), NoMemory> {
    for diag in diags {
        if diag.diag.severity == Severity::Error {
            text.push_str(diag.diag.message.as_str())?;
            text.push_str("\n")?;
            push_notes(text, diag.diag.notes.as_slice())?;
        }
    }
    Ok(())
}

fn push_notes(text: &mut Text, notes: &[Text]) -> Result<(), NoMemory> {
    for note in notes {
        text.push_str(note.as_str())?;
    }
    Ok(())
}

fn push_packs(text: &mut Text, packs: &[Pack]) -> Result<(), NoMemory> {
    for pack in packs {
        push_pack(text, pack)?;
    }
    Ok(())
}

/// What is reported of the crates that were found in a graph.
fn reported(
    alloc: Global,
    krates: &Krates,
    found: Option<Replacements<'_>>,
) -> Result<Text, NoMemory> {
    let mut text = Text::new(alloc);
    match found {
        Some(found) => {
            let mut packs = List::new(alloc);
            found.emit_diagnostics(alloc, krates, &mut packs, 0)?;
            push_packs(&mut text, packs.as_slice())?;
        }
        None => text.push_str("nothing is looked up")?,
    }
    Ok(text)
}

fn reported_on(
    alloc: Global,
    cfg: StdReplacementConfig,
    krates: &Krates,
) -> Result<Text, NoMemory> {
    match ReplacementData::from_bytes(alloc, TABLE) {
        Ok(table) => {
            let found = ReplacementCtx::new(cfg).process(alloc, krates, table)?;
            reported(alloc, krates, found)
        }
        Err(_) => Err(NoMemory),
    }
}

fn reported_by(alloc: Global, cfg: StdReplacementConfig) -> Result<Text, NoMemory> {
    match built(alloc, APP_X) {
        Ok(krates) => reported_on(alloc, cfg, &krates),
        Err(_) => Err(NoMemory),
    }
}

fn config(alloc: Global, policy: &'static [u8]) -> Option<StdReplacementConfig>
    requires { length policy.now < 2 ^ 28 }
{
    let mut files = Files::new(alloc);
    match read_policy(alloc, policy, &mut files, None) {
        Ok(policy) => policy.bans.std_replacements,
        Err(_) => None,
    }
}

fn reports(alloc: Global, policy: &'static [u8], wanted: &str) -> bool
    requires { length policy.now < 2 ^ 28 }
{
    match config(alloc, policy) {
        Some(cfg) => matches!(reported_by(alloc, cfg), Ok(text) if text.as_str() == wanted),
        None => false,
    }
}

const REPLACED: &str = "x\ncrate 'x = 1.0.0' is partially or fully replaced in std and/or core\n\
    ## Stable\n### 1.70.0\n```diff\n- [x::f]()\n+ [g]()\n```\n\n";

#[test]
fn a_replaced_crate_is_reported(rt: HostRuntime) {
    assert!(rt; reports(rt.alloc(), b"[bans.std-replacements]\n", REPLACED));
}

#[test]
fn with_the_scope_of_no_crate_nothing_is_looked_up(rt: HostRuntime) {
    assert!(rt;
        reports(
            rt.alloc(),
            b"[bans.std-replacements]\nscope = \"none\"\n",
            "nothing is looked up"
        )
    );
}
