//! Where crates stand in the lock text and in manifests.

use crate::graphs::{APP_X, TWO_X};
use crate::krates::built;
use crate::outside::put;
use deny_base::{Files, Kid, Span};
use deny_base_disk::MemoryDisk;
use deny_base_lists::{NoMemory, Text};
use deny_krates::Krates;
use deny_spans::{KrateSpans, LockSpan, Manifest, ManifestDep, WorkspaceSpan};
use std::alloc::Global;

fn kid(alloc: Global, id: &str) -> Result<Kid, NoMemory> {
    Ok(Kid(Text::from_str(alloc, id)?))
}

/// The spans of a graph whose member has this manifest, with the lock text below `/w`.
fn spans_of<'k>(
    alloc: Global,
    krates: &'k Krates,
    manifest: &[u8],
) -> Result<KrateSpans<'k>, NoMemory> {
    let mut disk = MemoryDisk::new(alloc, 4096);
    if !put(&mut disk, "/w/Cargo.toml", manifest)? {
        return Err(NoMemory);
    }
    let mut files = Files::new(alloc);
    KrateSpans::synthesize(alloc, krates, "/w", &[], &mut disk, &mut files)
}

fn is_span(span: Span, start: u32, end: u32) -> bool {
    span == Span { start, end }
}

// ---- the lock text: a line of `app` with 13 bytes, and two of `x` with 62, each with its newline

fn is_line(found: Option<&LockSpan>, start: u32, source: u32, end: u32) -> bool {
    match found {
        Some(found) => is_span(found.total, start, end) && is_span(found.source, source, end),
        None => false,
    }
}

fn have_lines(alloc: Global, spans: &KrateSpans<'_>) -> Result<bool, NoMemory> {
    let app = kid(alloc, "app")?;
    let first = kid(alloc, "x1")?;
    let second = kid(alloc, "x2")?;
    Ok(
        is_line(spans.lock_span(&app), 0, 10, 12)
            && is_line(spans.lock_span(&first), 13, 21, 74)
            && is_line(spans.lock_span(&second), 75, 83, 136),
    )
}

fn has_no_line(alloc: Global, spans: &KrateSpans<'_>) -> Result<bool, NoMemory> {
    let unknown = kid(alloc, "x3")?;
    Ok(spans.lock_span(&unknown).is_none())
}

fn are_lines(alloc: Global, krates: &Krates) -> Result<bool, NoMemory> {
    let spans = spans_of(alloc, krates, b"[package]\nname = \"app\"\n")?;
    Ok(have_lines(alloc, &spans)? && has_no_line(alloc, &spans)?)
}

fn lines_are_found(alloc: Global) -> bool {
    match built(alloc, TWO_X) {
        Ok(krates) => matches!(are_lines(alloc, &krates), Ok(true)),
        Err(_) => false,
    }
}

#[test]
fn crates_have_lines_in_the_lock_text(rt: HostRuntime) {
    assert!(rt; lines_are_found(rt.alloc()));
}

// ---- what a manifest declares

const WILDCARD: &[u8] = b"[package]\nname = \"app\"\n\n[dependencies]\nx = \"*\"\n";

fn is_wildcard(dep: &ManifestDep<'_>) -> bool {
    dep.krate.id.0.as_str() == "x"
        && is_span(dep.key_span, 39, 40)
        && is_span(dep.value_span, 44, 45)
        && dep.rename.is_none()
        && dep.workspace.is_none()
}

fn has_wildcard(manifest: &Manifest<'_>) -> bool {
    let mut deps = manifest.deps(false);
    matches!(deps.next(), Some(dep) if is_wildcard(dep)) && deps.next().is_none()
}

fn are_manifests(alloc: Global, krates: &Krates) -> Result<bool, NoMemory> {
    let spans = spans_of(alloc, krates, WILDCARD)?;
    let app = kid(alloc, "app")?;
    let x = kid(alloc, "x")?;
    let unknown = kid(alloc, "y")?;
    Ok(
        matches!(spans.manifest(&app), Some(manifest) if has_wildcard(manifest))
            && spans.manifest(&x).is_none()
            && spans.manifest(&unknown).is_none(),
    )
}

fn manifests_are_found(alloc: Global) -> bool {
    match built(alloc, APP_X) {
        Ok(krates) => matches!(are_manifests(alloc, &krates), Ok(true)),
        Err(_) => false,
    }
}

#[test]
fn a_crate_without_a_source_has_its_manifest(rt: HostRuntime) {
    assert!(rt; manifests_are_found(rt.alloc()));
}

// ---- what the workspace's manifest shares

const SHARING: &[u8] =
    b"[package]\nname = \"app\"\n\n[workspace]\n\n[workspace.dependencies]\nx = \"1\"\ny = \"1\"\n";

fn is_entry(found: Option<&WorkspaceSpan<'_>>) -> bool {
    match found {
        Some(found) => {
            is_span(found.key, 62, 63) && is_span(found.value, 67, 68) && found.patched.is_none()
        }
        None => false,
    }
}

fn are_shared(alloc: Global, krates: &Krates) -> Result<bool, NoMemory> {
    let spans = spans_of(alloc, krates, SHARING)?;
    let app = kid(alloc, "app")?;
    let x = kid(alloc, "x")?;
    let unknown = kid(alloc, "y")?;
    Ok(
        is_entry(spans.workspace_span(&x))
            && spans.workspace_span(&app).is_none()
            && spans.workspace_span(&unknown).is_none(),
    )
}

fn shared_are_found(alloc: Global) -> bool {
    match built(alloc, APP_X) {
        Ok(krates) => matches!(are_shared(alloc, &krates), Ok(true)),
        Err(_) => false,
    }
}

#[test]
fn a_shared_entry_stands_for_its_crate(rt: HostRuntime) {
    assert!(rt; shared_are_found(rt.alloc()));
}
