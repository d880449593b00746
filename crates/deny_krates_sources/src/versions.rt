ghost use Rattle.std.specs.Prelude.{◌≡◌, IfOk, IsTrue, map, option_copied, option_map};
ghost use Rattle.std.specs.Result.{result_ok};
ghost use Rattle.form_urlencoded.specs.Form.{split};
ghost use Rattle.semver.specs.Parse.{memory_error, req_of, version_parts};
ghost use Rattle.semver.specs.Identifiers.{comparator_view, parts_of};
ghost use Rattle.deny_krates_sources.specs.Versions.{number_of, rust_version_of, whole_release};
ghost use Rattle.deny_krates_sources.specs.private.Versions.{pieces_of};

use deny_base_lists::NoMemory;
use semver::{Error, Version, VersionReq};
use std::alloc::{AllocError, Global};

// Whether the error is a failed allocation.
fn is_memory(error: &Error) -> bool
    ensures { error.now ≡ memory_error → IsTrue result }
{
    *error == Error::from(AllocError)
}

/// Parses a text as a version; none where it is none.
pub fn version_in(alloc: Global, text: &str) -> Result<Option<Version>, NoMemory>
    ensures { IfOk result (λ version. option_map parts_of version ≡ result_ok (version_parts text.now)) }
{
    match Version::parse(alloc, text) {
        Ok(version) => Ok(Some(version)),
        Err(error) => {
            if is_memory(&error) {
                return Err(NoMemory);
            }
            Ok(None)
        }
    }
}

/// Parses a text as a version requirement; none where it is none.
pub fn requirement_in(alloc: Global, text: &str) -> Result<Option<VersionReq>, NoMemory>
    ensures { IfOk result (λ req.
        option_map (λ r. map comparator_view r.comparators.items) req ≡ result_ok (req_of text.now)) }
{
    match VersionReq::parse(alloc, text) {
        Ok(req) => Ok(Some(req)),
        Err(error) => {
            if is_memory(&error) {
                return Err(NoMemory);
            }
            Ok(None)
        }
    }
}

// The number below 2^32 that decimal digits write; none for other bytes.
#[tactic(auto, unfolding(crate::specs::Versions::number_of))]
fn written_number(digits: &[u8]) -> Option<u64>
    ensures { result ≡ number_of digits.now }
{
    if digits.is_empty() {
        return None;
    }
    let mut number = 0u64;
    for digit in digits {
        if !digit.is_ascii_digit() {
            return None;
        }
        number = number * 10 + u64::from(*digit - b'0');
        if number >= 1 << 32 {
            return None;
        }
    }
    Some(number)
}

// A text cut at its first dot: the piece before it, and the rest after it if there is a dot.
fn cut(text: &str) -> (&str, Option<&str>)
    ensures { pieces_of result.0.now (option_copied result.1) ≡ split 46 text.now }
{
    match text.split_once('.') {
        Some((piece, rest)) => (piece, Some(rest)),
        None => (text, None),
    }
}

// The version with these numbers; none where one of them is none.
#[tactic(auto, unfolding(crate::specs::Versions::whole_release))]
fn release(major: Option<u64>, minor: Option<u64>, patch: Option<u64>) -> Option<Version>
    ensures { option_map parts_of result ≡ whole_release major minor patch }
{
    Some(Version::new(major?, minor?, patch?))
}

/// Parses a text as a version of Rust: one to three numbers joined by dots. None where it is none.
#[tactic(auto, unfolding(crate::specs::Versions::rust_version_of, crate::specs::Versions::release_of))]
pub fn rust_version_in(text: &str) -> Option<Version>
    ensures { option_map parts_of result ≡ rust_version_of text.now }
{
    let (major, rest) = cut(text);
    let Some(rest) = rest else {
        return release(written_number(major.as_bytes()), Some(0), Some(0));
    };
    let (minor, rest) = cut(rest);
    let Some(rest) = rest else {
        return release(
            written_number(major.as_bytes()),
            written_number(minor.as_bytes()),
            Some(0),
        );
    };
    let (patch, rest) = cut(rest);
    if rest.is_some() {
        return None;
    }
    release(
        written_number(major.as_bytes()),
        written_number(minor.as_bytes()),
        written_number(patch.as_bytes()),
    )
}
