//! The faults of a table `build`.
ghost use Rattle.std.specs.Prelude.{◌≡◌, ◌<◌, ◌≤◌, ◌-◌, ◌++◌, []};
ghost use Rattle.std.specs.Prelude.{IfOk, None, OnOk, Some, filter_map, length};
ghost use Rattle.std.specs.List.{cons_option, flat_map, position};
ghost use Rattle.deny_base_lists.specs.Ascending.{Adds};
ghost use Rattle.deny_cfg_build.specs.Build.{listed};
ghost use Rattle.deny_cfg_build.specs.Wrong as spec;
ghost use Rattle.deny_cfg_build.specs.Wrong.{IsGlobFault, IsGlobFaultOf, IsOfAny, IsWrong, bad_at};
ghost use Rattle.deny_cfg_build.specs.Wrong.{bad_span, byte_span, extension_fault, faults_by_text};
ghost use Rattle.deny_cfg_build.specs.Wrong.{is_ascii_text, line_end, path_fault, path_faults};
ghost use Rattle.deny_cfg_build.specs.declared.wrong.BuildFault as fault;

use deny_base::{Span, Spanned};
use deny_base_lists::{List, NoMemory, Text};
use deny_cfg_tables::bans::cfg::{BuildConfig, Bypass, BypassPath};
use deny_globs::{Glob, GlobError};
use std::alloc::Global;

/// A fault of a table `build`, with spans in the policy.
#[derive(Clone, Copy)]
pub enum BuildFault {
    /// An extension has a character that is not ASCII.
    NonAscii(Span),
    /// An extension of ASCII characters has one that is neither a letter nor a digit: the span of the extension,
    /// and that of its first such character, or the first span again where the extension is written with escapes.
    NoLetter(Span, Span),
    /// A text is no glob; the byte offset of the fault in the glob.
    Glob(Span, u64),
    /// A path begins with `/`.
    Absolute(Span),
}

/// The bytes at a span; none where the span is not within the text.
fn bytes_at(source: &str, span: Span) -> &[u8]
    ensures bytes { result.now ≡ spec.bytes_at source.now span }
    ensures long { length result.now ≤ span.end - span.start }
{
    let bytes = source.as_bytes();
    let start = span.start as usize;
    let end = span.end as usize;
    if start <= end && end <= bytes.len() {
        &bytes[start..end]
    } else {
        &[]
    }
}

/// The length of the line end that the bytes begin with.
fn line_end(bytes: &[u8]) -> usize
    ensures end { result ≡ line_end bytes.now }
    ensures within { result ≤ length bytes.now }
{
    match bytes {
        [b'\n', ..] => 1,
        [b'\r', b'\n', ..] => 2,
        _ => 0,
    }
}

/// The span of the byte at an offset into a span.
fn byte_span(span: Span, offset: usize) -> Span
    requires within { offset < span.end - span.start }
    ensures { result ≡ byte_span span offset }
{
    let start = span.start + offset as u32;
    Span {
        start,
        end: start + 1,
    }
}

/// The span of a byte of an extension; that of the whole extension where it is written with escapes.
fn bad_span(source: &str, extension: &Spanned<Text>, at: usize) -> Span
    requires within { at < length extension.now.value }
    ensures { result ≡ bad_span source.now extension.now at }
{
    let span = extension.span;
    let bytes = bytes_at(source, span);
    let prefix = line_end(bytes);
    let written = &bytes[prefix..];
    if extension.value.as_str().as_bytes() == written {
        byte_span(span, prefix + at)
    } else {
        span
    }
}

fn is_ascii_text(text: &[u8]) -> bool
    ensures { result ≡ is_ascii_text text.now }
{
    text.iter().all(|byte| byte.is_ascii())
}

/// The offset of the first byte that is neither an ASCII letter nor a digit.
fn bad_at(text: &[u8]) -> Option<usize>
    ensures offset { result ≡ bad_at text.now }
{
    text.iter().position(|byte| !byte.is_ascii_alphanumeric())
}

#[tactic(auto, unfolding(crate::specs::Wrong::extension_fault))]
fn extension_fault(source: &str, extension: &Spanned<Text>) -> Option<BuildFault>
    ensures { result ≡ extension_fault source.now extension.now }
{
    let text = extension.value.as_str().as_bytes();
    if !is_ascii_text(text) {
        return Some(BuildFault::NonAscii(extension.span));
    }
    let at = bad_at(text)?;
    Some(BuildFault::NoLetter(extension.span, bad_span(source, extension, at)))
}

/// Adds a fault behind the others, if there is one.
fn put_fault(fault: Option<BuildFault>, faults: &mut List<BuildFault>) -> Result<(), NoMemory>
    ensures { OnOk result (faults.new ≡ faults.old ++ cons_option fault []) }
{
    match fault {
        Some(fault) => faults.push(fault),
        None => Ok(()),
    }
}

fn put_extension_faults(
    source: &str,
    extensions: &[Spanned<Text>],
    faults: &mut List<BuildFault>,
) -> Result<(), NoMemory>
    ensures { OnOk result (faults.new ≡ faults.old ++ filter_map (extension_fault source.now) extensions.now) }
{
    for extension in extensions {
        put_fault(extension_fault(source, extension), faults)?;
    }
    Ok(())
}

#[tactic(auto, unfolding(crate::specs::Wrong::path_fault))]
fn path_fault(file: &BypassPath) -> Option<BuildFault>
    ensures { result ≡ path_fault file.now }
{
    match file.path.value.as_str().as_bytes() {
        [b'/', ..] => Some(BuildFault::Absolute(file.path.span)),
        _ => None,
    }
}

#[tactic(auto, unfolding(crate::specs::Wrong::path_faults))]
fn put_path_faults(bypass: &Bypass, faults: &mut List<BuildFault>) -> Result<(), NoMemory>
    ensures { OnOk result (faults.new ≡ faults.old ++ path_faults bypass.now) }
{
    for file in bypass.allow.as_slice() {
        put_fault(path_fault(file), faults)?;
    }
    Ok(())
}

fn put_paths_faults(bypass: &[Bypass], faults: &mut List<BuildFault>) -> Result<(), NoMemory>
    ensures { OnOk result (faults.new ≡ faults.old ++ flat_map path_faults bypass.now) }
{
    for entry in bypass {
        put_path_faults(entry, faults)?;
    }
    Ok(())
}

fn put_glob_fault(
    alloc: Global,
    glob: &Spanned<Text>,
    faults: &mut List<BuildFault>,
) -> Result<(), NoMemory>
    ensures { OnOk result (Adds (IsGlobFaultOf glob.now) faults.old faults.new) }
{
    match Glob::parse(alloc, glob.value.as_str()) {
        Ok(_) => Ok(()),
        Err(GlobError::Bad(byte)) => {
            faults.push(BuildFault::Glob(glob.span, byte as u64))?;
            Ok(())
        }
        Err(GlobError::Memory) => Err(NoMemory),
    }
}

fn put_globs_faults(
    alloc: Global,
    globs: &[Spanned<Text>],
    faults: &mut List<BuildFault>,
) -> Result<(), NoMemory>
    ensures { OnOk result (Adds (IsOfAny IsGlobFaultOf globs.now) faults.old faults.new) }
{
    for glob in globs {
        put_glob_fault(alloc, glob, faults)?;
    }
    Ok(())
}

/// The items of a list that may be left out.
fn listed<T>(list: &Option<List<T>>) -> &[T]
    ensures { result.now ≡ listed list.now }
{
    match list {
        Some(list) => list.as_slice(),
        None => &[],
    }
}

fn put_bypass_faults(
    alloc: Global,
    bypass: &[Bypass],
    faults: &mut List<BuildFault>,
) -> Result<(), NoMemory>
    ensures { OnOk result (Adds (IsOfAny IsGlobFault bypass.now) faults.old faults.new) }
{
    for entry in bypass {
        put_globs_faults(alloc, listed(&entry.allow_globs), faults)?;
    }
    Ok(())
}

#[tactic(auto, unfolding(crate::specs::Wrong::faults_by_text))]
fn faults_by_text(
    alloc: Global,
    source: &str,
    build: &BuildConfig,
) -> Result<List<BuildFault>, NoMemory>
    ensures { IfOk result (λ faults. faults ≡ faults_by_text source.now build.now) }
{
    let mut faults = List::new(alloc);
    put_extension_faults(source, listed(&build.script_extensions), &mut faults)?;
    put_paths_faults(listed(&build.bypass), &mut faults)?;
    Ok(faults)
}

/// The faults of a table that is written in this text, in any order.
pub fn wrong_in(
    alloc: Global,
    source: &str,
    build: &BuildConfig,
) -> Result<List<BuildFault>, NoMemory>
    ensures { IfOk result (Adds (IsWrong source.now build.now) []) }
{
    let mut faults = faults_by_text(alloc, source, build)?;
    put_bypass_faults(alloc, listed(&build.bypass), &mut faults)?;
    Ok(faults)
}
