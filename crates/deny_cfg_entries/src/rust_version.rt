//! Versions of Rust, as a policy writes them.
ghost use Rattle.std.specs.Prelude.{◌≡◌, ◌==◌, Some, None, IfOk, IfErr, map, option_map};
ghost use Rattle.std.specs.List.{slice_split};
ghost use Rattle.semver.specs.Identifiers.{parts_of};
ghost use Rattle.deny_toml.specs.Faults.{Reports};
ghost use Rattle.deny_cfg_entries.specs.RustVersion.{number_in, small_number, rust_version_in, version_with};
ghost use Rattle.deny_cfg_entries.specs.Words.{faults_as, ReadsAs};

use deny_base_lists::NoMemory;
use deny_toml::{DeserError, Deserialize, Value};
use semver::Version;
use std::alloc::{AllocError, Global};

/// The number that decimal digits write; None where there is no digit, another character, or a number of 2^32 or more.
#[tactic(auto, unfolding(crate::specs::RustVersion::number_in))]
pub(crate) fn number_in(digits: &[u8]) -> Option<u64>
    ensures { result ≡ number_in digits.now }
{
    if digits.is_empty() {
        None
    } else {
        small_number(digits)
    }
}

fn small_number(digits: &[u8]) -> Option<u64>
    ensures { result ≡ small_number digits.now }
{
    let mut number: u64 = 0;
    'digits: for byte in digits {
        let digit = char::from(*byte).to_digit(10)?;
        number = number * 10 + u64::from(digit);
        if number >= 0x1_0000_0000 {
            return None;
        }
    }
    Some(number)
}

fn parts(alloc: Global, text: &[u8]) -> Result<Vec<&[u8]>, AllocError>
    ensures { IfOk result (λ parts. map (λ part. part.now) parts.items ≡ slice_split (λ b. b == 46) text.now) }
{
    text.split(|byte| *byte == b'.').collect(alloc)
}

fn version_with(parts: &[&[u8]]) -> Option<Version>
    ensures { option_map parts_of result ≡ version_with (map number_in (map (λ part. part.now) parts.now)) }
{
    match parts {
        [major, minor] => Some(Version::new(number_in(major)?, number_in(minor)?, 0)),
        [major, minor, patch] => Some(Version::new(
            number_in(major)?,
            number_in(minor)?,
            number_in(patch)?,
        )),
        _ => None,
    }
}

#[tactic(auto, unfolding(crate::specs::RustVersion::rust_version_in))]
fn rust_version_in(alloc: Global, text: &str) -> Result<Option<Version>, NoMemory>
    ensures { IfOk result (λ read. option_map parts_of read ≡ rust_version_in text.now) }
{
    let parts = parts(alloc, text.as_bytes())?;
    Ok(version_with(&parts))
}

/// Reads a version of Rust: a text of two or three numbers with dots between them, each of digits
/// and below 2^32. A patch number that is left out is 0. A value of another kind is `WrongKind`, and
/// another text `Unreadable`; `Memory` may come in place of each of these. The value is not changed.
pub fn parse_semver(alloc: Global, v: &mut Value<'_>) -> Result<Version, DeserError>
    ensures ok { IfOk result (λ version. ReadsAs rust_version_in v.old (parts_of version)) }
    ensures faults { IfErr result (Reports (faults_as rust_version_in v.old)) }
    ensures stays { v.new ≡ v.old }
{
    let Some(text) = v.as_str() else {
        return Err(DeserError::wrong_kind(alloc, v.span));
    };
    match rust_version_in(alloc, text)? {
        Some(version) => Ok(version),
        None => Err(DeserError::unreadable(alloc, v.span)),
    }
}

/// A version of Rust, as a value of the policy writes it.
#[derive(Drop)]
pub struct RustVersion(pub Version);

impl Deserialize for RustVersion {
    ghost reads = { λ v read. ReadsAs rust_version_in v (parts_of read.0) };

    ghost faults_of = { faults_as rust_version_in };

    fn deserialize(alloc: Global, value: &mut Value<'_>) -> Result<RustVersion, DeserError> {
        Ok(RustVersion(parse_semver(alloc, value)?))
    }
}
