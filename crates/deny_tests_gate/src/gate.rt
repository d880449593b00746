//! What the gate's report says beside the lines of the program: the spans that keys have, hits with their
//! witnesses, dead entries, and labels.
ghost use Rattle.std.specs.Prelude.{◌<◌, ◌^◌, IfOk, length};
ghost use Rattle.deny_gate.specs.Gating.{AreShort, texts_in};

use crate::graphs::{APP_X, APP_X_Y, ONE_LICENCE_EACH, TWO_LICENCES, TWO_MEMBERS, TWO_P, TWO_X};
use deny_base::{EntryId, EntryKind, Files, Hit, Kid, Label, Severity, Span, Witness};
use deny_base_disk::MemoryDisk;
use deny_base_lists::{List, NoMemory, Text};
use deny_gate::{Finding, Inputs, Report, gate};
use std::alloc::Global;

/// The inputs of these texts alone.
fn inputs_of(alloc: Global, policy: &str, metadata: &str) -> Result<Inputs, NoMemory>
    requires policy { length policy.now < 2 ^ 28 }
    requires metadata { length metadata.now < 2 ^ 28 }
    ensures { IfOk result (λ inputs. AreShort (texts_in inputs)) }
{
    Ok(Inputs {
        policy: Vec::from_slice(alloc, policy.as_bytes())?,
        metadata: Vec::from_slice(alloc, metadata.as_bytes())?,
        replacements: None,
        home: None,
        registries: List::new(alloc),
        today: None,
    })
}

/// The disk with these files, each by its path and its text.
fn disk_of(alloc: Global, files: &[(&str, &str)]) -> Result<MemoryDisk, NoMemory> {
    let mut disk = MemoryDisk::new(alloc, 4096);
    for (path, text) in files {
        if !disk.takes(path)? {
            return Err(NoMemory);
        }
        disk.put_file(path, text.as_bytes())?;
    }
    Ok(disk)
}

/// The report on a policy and metadata, with these files.
pub(crate) fn report_on(
    alloc: Global,
    policy: &str,
    metadata: &str,
    files: &[(&str, &str)],
) -> Result<Report, NoMemory> {
    if policy.len() >= 1 << 28 || metadata.len() >= 1 << 28 {
        return Err(NoMemory);
    }
    let inputs = inputs_of(alloc, policy, metadata)?;
    let mut disk = disk_of(alloc, files)?;
    gate(alloc, &inputs, &mut disk).map_err(|_| NoMemory)
}

// ---- a line for each key, hit and dead entry

/// Writes a word and a span.
fn push_entry(alloc: Global, text: &mut Text, word: &str, span: Span) -> Result<(), NoMemory> {
    let Span { start, end } = span;
    text.push_str(format!(in alloc; "{word} {start}..{end}")?.as_str())
}

/// The word of a kind, as lines on dead entries have it.
fn word_of(kind: EntryKind) -> &'static str {
    match kind {
        EntryKind::Skip => "skip",
        EntryKind::SkipRoot => "skip-root",
        EntryKind::Wrapper => "wrapper",
        EntryKind::Bypass => "bypass",
        EntryKind::BypassPath => "bypass-path",
        EntryKind::BypassGlob => "bypass-glob",
        EntryKind::ReplacementIgnore => "replacement-ignore",
        EntryKind::LicenseAllow => "license-allow",
        EntryKind::LicenseException => "license-exception",
    }
}

fn push_keys(alloc: Global, text: &mut Text, findings: &[Finding]) -> Result<(), NoMemory> {
    for finding in findings {
        let key = &finding.diag.key;
        push_entry(alloc, text, key.code.name(), key.entry)?;
        text.push_str("\n")?;
    }
    Ok(())
}

fn push_both(text: &mut Text, krate: &Kid, word: &str, other: &str) -> Result<(), NoMemory> {
    text.push_str(krate.0.as_str())?;
    text.push_str(word)?;
    text.push_str(other)
}

fn push_witness(text: &mut Text, witness: &Witness) -> Result<(), NoMemory> {
    match witness {
        Witness::Krate(kid) => text.push_str(kid.0.as_str()),
        Witness::Parent { krate, parent } => push_both(text, krate, " below ", parent.0.as_str()),
        Witness::File { krate, path } => push_both(text, krate, " with ", path.as_str()),
    }
}

fn push_hits(alloc: Global, text: &mut Text, hits: &[Hit]) -> Result<(), NoMemory> {
    for hit in hits {
        push_entry(alloc, text, word_of(hit.entry.kind), hit.entry.range)?;
        text.push_str(" is hit by ")?;
        push_witness(text, &hit.witness)?;
        text.push_str("\n")?;
    }
    Ok(())
}

fn push_dead(alloc: Global, text: &mut Text, dead: &[EntryId]) -> Result<(), NoMemory> {
    for entry in dead {
        push_entry(alloc, text, word_of(entry.kind), entry.range)?;
        text.push_str(" is dead\n")?;
    }
    Ok(())
}

/// What a report says, a line each: the codes of its findings with the spans of their keys, its hits, its dead entries.
fn said_of(alloc: Global, report: &Report) -> Result<Text, NoMemory> {
    let mut text = Text::new(alloc);
    push_keys(alloc, &mut text, report.findings.as_slice())?;
    push_hits(alloc, &mut text, report.hits.as_slice())?;
    push_dead(alloc, &mut text, report.dead.as_slice())?;
    Ok(text)
}

fn said(
    alloc: Global,
    policy: &str,
    metadata: &str,
    files: &[(&str, &str)],
) -> Result<Text, NoMemory> {
    let report = report_on(alloc, policy, metadata, files)?;
    said_of(alloc, &report)
}

const APP: (&str, &str) = ("/w/Cargo.toml", "[package]\nname = \"app\"\n");

/// Whether this is said where the member's manifest is the only file.
fn says(alloc: Global, policy: &str, metadata: &str, wanted: &str) -> bool {
    matches!(said(alloc, policy, metadata, &[APP]), Ok(text) if text.as_str() == wanted)
}

// ---- crates

const WRAPPED: &str = "[bans]\ndeny = [{ crate = \"x\", wrappers = [\"app\"] }]\n";

const OF_WRAPPED: &str = "banned 26..27\n\
    allowed-by-wrapper 26..27\n\
    unmatched-wrapper 26..27\n\
    wrapper 43..46 is hit by x below app\n";

#[test]
fn a_wrapper_is_hit_by_a_dependent(rt: HostRuntime) {
    assert!(rt; says(rt.alloc(), WRAPPED, APP_X_Y, OF_WRAPPED));
}

const NO_WRAPPER: &str = "[bans]\ndeny = [{ crate = \"app\", wrappers = [\"z\"] }]\n";

const OF_NO_WRAPPER: &str = "unused-wrapper 45..46\n\
    wrapper 45..46 is dead\n";

#[test]
fn a_wrapper_without_a_dependent_is_dead(rt: HostRuntime) {
    assert!(rt; says(rt.alloc(), NO_WRAPPER, APP_X, OF_NO_WRAPPER));
}

const SEVERAL: &str = "[bans]\nmultiple-versions = \"deny\"\n";

const SKIPPING: &str = "[bans]\nmultiple-versions = \"deny\"\nskip = [\"x@=1.0.0\"]\n";

const OF_SKIPPING: &str = "skipped 43..44\n\
    skip 43..44 is hit by x1\n";

#[test]
fn a_skip_is_hit_by_the_version_that_it_matches(rt: HostRuntime) {
    assert!(rt; says(rt.alloc(), SEVERAL, TWO_X, "duplicate 0..0\n"));
    assert!(rt; says(rt.alloc(), SKIPPING, TWO_X, OF_SKIPPING));
}

// ---- packages

const BYPASSING: &str = "[bans.build]\nbypass = [{ crate = \"p\", allow-globs = [\"*.sh\"] }]\n";

const WITHOUT_GLOB: &str = "[bans.build]\nbypass = [{ crate = \"p\" }]\n";

/// The files of two versions of `p`.
const WITHOUT_SCRIPT: &[(&str, &str)] = &[
    APP,
    ("/r/p-1.0.0/README", "x"),
    ("/r/p-2.0.0/README", "x"),
];

/// These files, and a script in the second version.
const WITH_SCRIPT: &[(&str, &str)] = &[
    APP,
    ("/r/p-1.0.0/README", "x"),
    ("/r/p-2.0.0/README", "x"),
    ("/r/p-2.0.0/a.sh", "x"),
];

fn says_of_packages(alloc: Global, policy: &str, files: &[(&str, &str)], wanted: &str) -> bool {
    matches!(said(alloc, policy, TWO_P, files), Ok(text) if text.as_str() == wanted)
}

const OF_BYPASSING: &str = "unmatched-glob 54..58\n\
    path-bypassed-by-glob 0..0\n\
    duplicate 0..0\n\
    bypass 34..35 is hit by p1\n\
    bypass-glob 54..58 is hit by p2 with a.sh\n";

#[test]
fn a_glob_is_hit_by_a_file(rt: HostRuntime) {
    assert!(rt; says_of_packages(rt.alloc(), BYPASSING, WITH_SCRIPT, OF_BYPASSING));
}

const OF_BYPASSING_ALONE: &str = "unmatched-glob 54..58\n\
    unmatched-glob 54..58\n\
    duplicate 0..0\n\
    bypass 34..35 is hit by p1\n\
    bypass-glob 54..58 is dead\n";

#[test]
fn a_glob_without_a_file_is_dead(rt: HostRuntime) {
    assert!(rt; says_of_packages(rt.alloc(), BYPASSING, WITHOUT_SCRIPT, OF_BYPASSING_ALONE));
}

const OF_WITHOUT_GLOB: &str = "duplicate 0..0\n\
    bypass 34..35 is hit by p1\n";

#[test]
fn without_its_glob_a_bypass_says_nothing(rt: HostRuntime) {
    assert!(rt; says_of_packages(rt.alloc(), WITHOUT_GLOB, WITHOUT_SCRIPT, OF_WITHOUT_GLOB));
}

// ---- licences

const ALLOWING: &str = "[licenses]\nallow = [\"Apache-2.0\", \"Zlib\"]\n";

const OF_ALLOWING: &str = "accepted 0..0\n\
    accepted 0..0\n\
    license-not-encountered 35..39\n\
    license-allow 21..31 is hit by app\n\
    license-allow 35..39 is dead\n";

#[test]
fn a_licence_that_no_crate_asks_for_is_dead(rt: HostRuntime) {
    assert!(rt; says(rt.alloc(), ALLOWING, TWO_LICENCES, OF_ALLOWING));
}

const EXCEPTING: &str = "[licenses]\nallow = [\"Apache-2.0\"]\n\
    exceptions = [{ crate = \"x\", allow = [\"Zlib\"] }, { crate = \"x\", allow = [\"MIT\"] }]\n";

const OF_EXCEPTING: &str = "accepted 0..0\n\
    accepted 0..0\n\
    license-exception-not-encountered 59..60\n\
    license-allow 21..31 is hit by app\n\
    license-exception 94..95 is hit by x\n\
    license-exception 59..60 is dead\n";

#[test]
fn an_exception_that_lists_no_licence_of_its_crate_is_dead(rt: HostRuntime) {
    assert!(rt; says(rt.alloc(), EXCEPTING, ONE_LICENCE_EACH, OF_EXCEPTING));
}

// ---- labels in manifests

const A: &str = "[package]\nname = \"a\"\n\n[dependencies]\nx = \"1\"\n";

const B: &str = "[package]\nname = \"b\"\n\n[dependencies]\nx = \"1\"\n";

const ROOT: &str = "[workspace]\nmembers = [\"a\", \"b\"]\n";

/// Whether a label is at the key of `x` in the manifest at a path: the first character of its fifth line.
fn is_at_x(files: &Files, label: &Label, path: &str) -> bool {
    files.id_for_path(path) == Some(label.file_id)
        && label.span == Span { start: 37, end: 38 }
        && matches!(files.location(label.file_id, 37), Some(place) if place.line == 4 && place.column == 0)
}

fn is_of_both(files: &Files, finding: &Finding) -> bool {
    finding.diag.key.code.name() == "workspace-duplicate"
        && finding.diag.diag.severity == Severity::Error
        && match finding.diag.diag.labels.as_slice() {
            [one, other] => {
                is_at_x(files, one, "/w/a/Cargo.toml") && is_at_x(files, other, "/w/b/Cargo.toml")
            }
            _ => false,
        }
}

fn is_labelled(report: &Report) -> bool {
    matches!(report.findings.as_slice(), [finding] if is_of_both(&report.files, finding))
}

fn labels_both(alloc: Global) -> Result<bool, NoMemory> {
    let files = [
        ("/w/a/Cargo.toml", A),
        ("/w/b/Cargo.toml", B),
        ("/w/Cargo.toml", ROOT),
    ];
    let report = report_on(
        alloc,
        "[bans.workspace-dependencies]\n",
        TWO_MEMBERS,
        &files,
    )?;
    Ok(is_labelled(&report))
}

#[test]
fn a_crate_that_members_need_is_labelled_in_each(rt: HostRuntime) {
    assert!(rt; matches!(labels_both(rt.alloc()), Ok(true)));
}
