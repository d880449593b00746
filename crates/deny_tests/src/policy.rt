//! What single values of a policy say.

use deny_base::Span;
use deny_cfg::bans::cfg::{Checksum, ChecksumParseError};
use deny_cfg::{Day, DayError, PackageSpec, PolicyError, parse_semver, read_day};
use deny_toml::{Content, CowStr, DeserError, Deserialize, FaultKind, Scalar, Value};
use std::alloc::Global;
use std::str::FromStr;

fn string_value(string: Scalar<'static>, end: u32) -> Value<'static> {
    Value {
        span: Span { start: 16, end },
        content: Content::Scalar(string),
    }
}

/// The value of a string on one line whose span is from 16 to `end`.
fn text_value(text: &'static str, end: u32) -> Value<'static> {
    string_value(Scalar::Text(CowStr::borrowed(text)), end)
}

fn spec_of(alloc: Global, text: &'static str, end: u32) -> Result<PackageSpec, DeserError> {
    PackageSpec::deserialize(alloc, &mut text_value(text, end))
}

fn is_named(spec: &PackageSpec, name: &str, start: u32, end: u32) -> bool {
    spec.name.value.as_str() == name && spec.name.span == Span { start, end }
}

#[test]
fn a_name_on_several_lines_has_the_span_of_its_string(rt: HostRuntime) -> Result<(), DeserError> {
    let mut value = string_value(Scalar::Multiline(CowStr::borrowed("x@1")), 19);
    let spec = PackageSpec::deserialize(rt.alloc(), &mut value)?;
    assert!(rt; is_named(&spec, "x", 16, 19));
    Ok(())
}

fn is_plain(spec: &PackageSpec) -> bool {
    is_named(spec, "x", 16, 17) && spec.version_req.is_some()
}

fn is_bare(spec: &PackageSpec) -> bool {
    is_named(spec, "x", 16, 17) && spec.req_text.is_none()
}

/// With an escape the span of the name is that of the string.
fn is_escaped(alloc: Global, plain: &PackageSpec) -> bool {
    match spec_of(alloc, "x@1", 24) {
        Ok(spec) => is_named(&spec, "x", 16, 24) && spec == *plain,
        Err(_) => false,
    }
}

fn is_with_colon(alloc: Global, plain: &PackageSpec) -> bool {
    match spec_of(alloc, "x:y@1", 21) {
        Ok(spec) => is_named(&spec, "x:y", 16, 19) && spec != *plain,
        Err(_) => false,
    }
}

fn is_name_alone(alloc: Global, plain: &PackageSpec) -> bool {
    match spec_of(alloc, "x", 17) {
        Ok(spec) => is_bare(&spec) && spec != *plain,
        Err(_) => false,
    }
}

fn are_specs(alloc: Global) -> bool {
    match spec_of(alloc, "x@1", 19) {
        Ok(plain) => {
            is_plain(&plain)
                && is_escaped(alloc, &plain)
                && is_with_colon(alloc, &plain)
                && is_name_alone(alloc, &plain)
        }
        Err(_) => false,
    }
}

fn are_no_specs(alloc: Global) -> bool {
    let mut all = true;
    for text in ["", "x@", "@1", ":1", "x@y"] {
        all = all && spec_of(alloc, text, 20).is_err();
    }
    all
}

#[test]
fn a_text_is_a_name_and_a_requirement(rt: HostRuntime) {
    assert!(rt; are_specs(rt.alloc()) && are_no_specs(rt.alloc()));
}

fn is_version(alloc: Global, text: &'static str, minor: u64, patch: u64) -> bool {
    match parse_semver(alloc, &mut text_value(text, 20)) {
        Ok(version) => version.major == 1 && version.minor == minor && version.patch == patch,
        Err(_) => false,
    }
}

fn is_unreadable(alloc: Global, text: &'static str) -> bool {
    match parse_semver(alloc, &mut text_value(text, 20)) {
        Err(DeserError::Faults(faults)) => match faults.as_slice() {
            [fault] => fault.kind == FaultKind::Unreadable && fault.span.start == 16,
            _ => false,
        },
        _ => false,
    }
}

fn are_versions(alloc: Global) -> bool {
    is_version(alloc, "1.70", 70, 0)
        && is_version(alloc, "1.70.0", 70, 0)
        && is_version(alloc, "01.02.4294967295", 2, 4294967295)
}

fn are_unreadable(alloc: Global) -> bool {
    let mut all = true;
    for text in ["1", "1.70.0.1", "1.+7", "1.4294967296", "1..2", ""] {
        all = all && is_unreadable(alloc, text);
    }
    all
}

#[test]
fn two_or_three_numbers_are_a_version(rt: HostRuntime) {
    assert!(rt; are_versions(rt.alloc()) && are_unreadable(rt.alloc()));
}

fn is_day(alloc: Global, text: &str, number: i32) -> bool {
    matches!(read_day(alloc, text), Ok(day) if day == Day(number))
}

/// Days by Python's `datetime`: the ordinal of the date, less that of 1970-01-01.
fn are_days(alloc: Global) -> bool {
    is_day(alloc, "2026-01-31", 20484)
        && is_day(alloc, "2024-02-29", 19782)
        && is_day(alloc, "2000-02-29", 11016)
        && is_day(alloc, "1970-01-01", 0)
        && is_day(alloc, "1969-12-31", -1)
        && is_day(alloc, "0001-01-01", -719162)
        && is_day(alloc, "9999-12-31", 2932896)
}

fn are_no_days(alloc: Global) -> bool {
    let mut all = true;
    for text in [
        "2025-02-29",
        "1900-02-29",
        "2026-02-30",
        "2026-13-01",
        "2026-00-01",
        "2026-01-00",
        "2026-2-3",
        "2026-01-31T00:00:00",
        "20260131",
        "+026-01-31",
        "2026-01-3a",
        "",
    ] {
        all = all && matches!(read_day(alloc, text), Err(DayError::Form));
    }
    all
}

#[test]
fn ten_bytes_are_a_day(rt: HostRuntime) {
    assert!(rt; are_days(rt.alloc()) && are_no_days(rt.alloc()));
}

const UPPER: &str = "ABABABABABABABABABABABABABABABABABABABABABABABABABABABABABABABAB";

const LOWER: &str = "abababababababababababababababababababababababababababababababab";

const SHORT: &str = "aaaaaaaaaaaaaaaaaaaaaaaaaaaaaaaaaaaaaaaaaaaaaaaaaaaaaaaaaaaaaaa";

const LETTERS: &str = "gggggggggggggggggggggggggggggggggggggggggggggggggggggggggggggggg";

fn prints(alloc: Global, checksum: &Checksum, digits: &str) -> bool {
    match format!(in alloc; "{checksum}") {
        Ok(printed) => printed.as_str() == digits,
        Err(_) => false,
    }
}

fn is_read(alloc: Global, text: &str, digits: &str) -> bool {
    match Checksum::from_str(text) {
        Ok(checksum) => prints(alloc, &checksum, digits),
        Err(_) => false,
    }
}

fn is_short() -> bool {
    matches!(
        Checksum::from_str(SHORT),
        Err(ChecksumParseError::InvalidLength(63))
    )
}

fn has_letter() -> bool {
    matches!(
        Checksum::from_str(LETTERS),
        Err(ChecksumParseError::InvalidValue('g'))
    )
}

#[test]
fn digits_of_either_case_are_read(rt: HostRuntime) {
    assert!(rt; is_read(rt.alloc(), UPPER, LOWER) && is_short() && has_letter());
}

fn shows(alloc: Global, error: ChecksumParseError, text: &str) -> bool {
    match format!(in alloc; "{error}") {
        Ok(printed) => printed.as_str() == text,
        Err(_) => false,
    }
}

fn shows_memory(alloc: Global) -> bool {
    let memory = PolicyError::Memory;
    match format!(in alloc; "{memory}") {
        Ok(printed) => printed.as_str() == "the memory did not suffice",
        Err(_) => false,
    }
}

fn faults_show_causes(alloc: Global) -> bool {
    shows(
        alloc,
        ChecksumParseError::InvalidLength(63),
        "a checksum has 64 hex digits, and not 63",
    ) && shows(
        alloc,
        ChecksumParseError::InvalidValue('g'),
        "`g` is no hex digit",
    )
}

#[test]
fn an_error_names_its_cause(rt: HostRuntime) {
    assert!(rt; faults_show_causes(rt.alloc()) && shows_memory(rt.alloc()));
}
