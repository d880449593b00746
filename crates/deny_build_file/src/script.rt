//! The interpreter that the first line of a script names.
ghost use Rattle.std.specs.Prelude.{◌≡◌, ◌==◌, ◌<◌, ◌≤◌, length, map, option_copied, take, IfOk, IfSome};
ghost use Rattle.std.specs.List.{position};
ghost use Rattle.deny_build_file.specs.Script.{interpreter_in, interpreter_by, first_line, is_newline};
ghost use Rattle.deny_build_file.specs.Script.{is_rust_path, last_part, named_by, named_past_env, interpreter_of_text};

use crate::parts::split_parts;
use deny_base_lists::{NoMemory, Text};
use std::alloc::Global;

/// The name of the interpreter, where a file with this prefix is a script that names one.
#[tactic(auto, unfolding(crate::specs::Script::interpreter_in))]
pub fn interpreter_in(alloc: Global, path: &str, prefix: &[u8]) -> Result<Option<Text>, NoMemory>
    ensures { IfOk result (λ name. name ≡ interpreter_in path.now prefix.now) }
{
    if !prefix.starts_with(b"#!") {
        return Ok(None);
    }
    match first_line(prefix) {
        Some(line) => interpreter_of_line(alloc, path, line),
        None => Ok(None),
    }
}

/// The first line, where it ends within the first 256 bytes.
#[tactic(auto, unfolding(crate::specs::Script::first_line))]
fn first_line(prefix: &[u8]) -> Option<&[u8]>
    ensures { option_copied result ≡ first_line prefix.now }
{
    let bytes = first_bytes(prefix);
    let end = newline_in(bytes)?;
    Some(&bytes[..end])
}

/// The first 256 bytes, or all where there are fewer.
fn first_bytes(prefix: &[u8]) -> &[u8]
    ensures prefix { result.now ≡ take 256 prefix.now }
    ensures short { length result.now ≤ length prefix.now }
{
    if prefix.len() > 256 {
        &prefix[..256]
    } else {
        prefix
    }
}

fn newline_in(bytes: &[u8]) -> Option<usize>
    ensures offset { result ≡ position is_newline bytes.now }
    ensures within { IfSome result (λ offset. offset < length bytes.now) }
{
    bytes.iter().position(|byte| *byte == b'\n')
}

#[tactic(auto, unfolding(crate::specs::Script::interpreter_by))]
fn interpreter_of_line(alloc: Global, path: &str, line: &[u8]) -> Result<Option<Text>, NoMemory>
    ensures { IfOk result (λ name. name ≡ interpreter_by path.now line.now) }
{
    match str::from_utf8(line) {
        Ok(line) => interpreter_of_text(alloc, path, line),
        Err(_) => Ok(None),
    }
}

fn interpreter_of_text(alloc: Global, path: &str, line: &str) -> Result<Option<Text>, NoMemory>
    ensures { IfOk result (λ name. name ≡ interpreter_of_text path.now line.now) }
{
    if line.as_bytes().starts_with(b"#![") && is_rust_path(path) {
        return Ok(None);
    }
    let parts = split_parts(alloc, line, ' ')?;
    match named_by(parts.as_slice()) {
        Some(name) => Ok(Some(Text::from_str(alloc, name)?)),
        None => Ok(None),
    }
}

/// Whether the last component of a path ends with `.rs` after at least one byte.
#[tactic(auto, unfolding(crate::specs::Script::is_rust_path))]
fn is_rust_path(path: &str) -> bool
    ensures { result ≡ is_rust_path path.now }
{
    let name = last_part(path);
    name.len() > 3 && name.as_bytes().ends_with(b".rs")
}

/// The interpreter named by the parts of a line, without its folder.
#[tactic(auto, unfolding(crate::specs::Script::named_by))]
fn named_by<'t>(parts: &[&'t str]) -> Option<&'t str>
    ensures { option_copied result ≡ named_by (map (λ part. part.now) parts.now) }
{
    match parts {
        [first, rest @ ..] => {
            if first.as_bytes().ends_with(b"#!") {
                named_past_env(rest)
            } else {
                named_past_env(parts)
            }
        }
        [] => None,
    }
}

#[tactic(auto, unfolding(crate::specs::Script::named_past_env))]
fn named_past_env<'t>(parts: &[&'t str]) -> Option<&'t str>
    ensures { option_copied result ≡ named_past_env (map (λ part. part.now) parts.now) }
{
    match parts {
        [] => None,
        [part, rest @ ..] if part.as_bytes().ends_with(b"/env") => rest.first().copied(),
        [part, ..] => Some(last_part(part)),
    }
}

/// The text after the last slash; all of it where there is none.
fn last_part(text: &str) -> &str
    ensures { result.now ≡ last_part text.now }
{
    match text.rsplit_once('/') {
        Some((_, rest)) => rest,
        None => text,
    }
}
