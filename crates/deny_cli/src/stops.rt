//! The line of a stop, which says why a run stopped.
ghost use Rattle.std.specs.Prelude.{◌≡◌, ◌<◌, ◌^◌, ◌∷◌, [], All, IfOk, IsUtf8, OnOk, codes, length, map};
ghost use Rattle.serde_json.specs.Data.{member, no_members, number, put as with_member, string, unsigned};
ghost use Rattle.serde_json.specs.View.{view};
ghost use Rattle.deny_cfg.specs.PolicyText.{policy_file};
ghost use Rattle.deny_gate_json.specs.Diagnostics.{diagnostic_value, reports};
ghost use Rattle.deny_gate_json.specs.Reading.{AreJsonLines};
ghost use Rattle.deny_cli.specs.Stops.{config_fields, fault_value, fault_detail};
ghost use Rattle.deny_cli.specs.private.Stops.{HasSpan, HasStopNumbers, IsTextOf};
ghost use Rattle.deny_cli.specs.Stops.{fault_fields, fault_word, file_word, invalid_fields, kind_word};
ghost use Rattle.deny_cli.specs.Stops.{memory_line, replacement_fields, stop_at_file, stop_line, stop_value, stop_word};

use crate::line_value::line_value;
use crate::outcome::Outcome;
use deny_base::{Diagnostic, Files, Which};
use deny_base_lists::{List, NoMemory, Text};
use deny_gate::GateError;
use deny_gate_json::{diagnostic_value, line};
use deny_krates::MetadataFault;
use deny_toml::{ConfigFault, FaultKind};
use serde_json::{Value, json};
use std::alloc::{AllocError, Global};

/// The word of an input.
fn file_word(which: Which) -> &'static str
    ensures { result.now ≡ file_word which }
{
    match which {
        Which::Policy => "policy",
        Which::Metadata => "metadata",
        Which::Replacements => "replacements",
    }
}

/// A stop as JSON: its word, and one more field.
fn stop_with(alloc: Global, name: &str, value: Value, word: &str) -> Result<Value, NoMemory>
    ensures { IfOk result (λ stop. view stop ≡ reports (codes "stop")
        (with_member (codes "stop") (string word.now) (with_member name.now (view value) no_members))) }
{
    line_value(alloc, "stop", json!(in alloc; {name: value, "stop": word})?)
}

/// A stop by an input, as JSON.
fn stop_at_file(alloc: Global, word: &str, which: Which) -> Result<Value, NoMemory>
    ensures { IfOk result (λ value. view value
        ≡ reports (codes "stop") (stop_at_file word.now which)) }
{
    let file = file_word(which);
    line_value(
        alloc,
        "stop",
        json!(in alloc; {"file": file, "stop": word})?,
    )
}

/// The word of a fault of the policy.
fn kind_word(kind: FaultKind) -> &'static str
    ensures { result.now ≡ kind_word kind }
{
    match kind {
        FaultKind::NotUtf8 => "not-utf8",
        FaultKind::Grammar => "grammar",
        FaultKind::Clash => "clash",
        FaultKind::Unknown => "unknown",
        FaultKind::Missing => "missing",
        FaultKind::WrongKind => "wrong-kind",
        FaultKind::Unreadable => "unreadable",
        FaultKind::NoToday => "no-today",
    }
}

/// A fault of the policy as JSON.
#[tactic(auto, unfolding(crate::specs::Stops::fault_value))]
fn fault_value(alloc: Global, fault: &ConfigFault) -> Result<Value, AllocError>
    ensures value { IfOk result (λ value. view value ≡ fault_value fault.now) }
    ensures fits { OnOk result (HasSpan fault.now) }
{
    let key = fault.key.as_str();
    let kind = kind_word(fault.kind);
    json!(in alloc; {
        "end": fault.span.end,
        "key": key,
        "kind": kind,
        "start": fault.span.start,
    })
}

/// Faults of the policy as JSON, in their order.
fn fault_values(alloc: Global, faults: &[ConfigFault]) -> Result<Vec<Value>, AllocError>
    ensures values { IfOk result (λ values. map view values.items ≡ map fault_value faults.now) }
    ensures fit { OnOk result (All HasSpan faults.now) }
{
    let mut values = Vec::new(alloc);
    for fault in faults {
        values.push(fault_value(alloc, fault)?)?;
    }
    Ok(values)
}

/// A stop by faults of the policy, as JSON.
fn config_value(alloc: Global, faults: &List<ConfigFault>) -> Result<Value, NoMemory>
    ensures value { IfOk result (λ value. view value ≡ reports (codes "stop") (config_fields faults.now)) }
    ensures fit { OnOk result (All HasSpan faults.now) }
{
    let faults = fault_values(alloc, faults.as_slice())?;
    stop_with(alloc, "faults", Value::from(faults), "config")
}

/// Diagnostics as JSON, in their order.
fn diagnostic_values(
    alloc: Global,
    files: &Files,
    clashes: &[Diagnostic],
) -> Result<Vec<Value>, AllocError>
    ensures { IfOk result (λ values. map view values.items ≡ map (diagnostic_value files.now) clashes.now) }
{
    let mut values = Vec::new(alloc);
    for diagnostic in clashes {
        values.push(diagnostic_value(alloc, files, diagnostic)?)?;
    }
    Ok(values)
}

/// The files that the labels of clashes lie in: the policy's text alone.
fn policy_files(alloc: Global, policy: &[u8]) -> Result<Files, NoMemory>
    requires text { IsUtf8 policy.now }
    requires small { length policy.now < 2 ^ 28 }
    ensures { IfOk result (λ files. files ≡ policy_file policy.now ∷ []) }
{
    let mut files = Files::new(alloc);
    match str::from_utf8(policy) {
        Ok(text) => {
            files.add("deny.toml", text)?;
            Ok(files)
        }
        Err(_) => unreachable!(),
    }
}

/// Clashes of the policy as JSON, in their order.
fn clash_values(
    alloc: Global,
    policy: &[u8],
    clashes: &[Diagnostic],
) -> Result<Vec<Value>, NoMemory>
    requires text { IsUtf8 policy.now }
    requires small { length policy.now < 2 ^ 28 }
    ensures { IfOk result (λ values. map view values.items
        ≡ map (diagnostic_value (policy_file policy.now ∷ [])) clashes.now) }
{
    let files = policy_files(alloc, policy)?;
    Ok(diagnostic_values(alloc, &files, clashes)?)
}

/// A stop by clashes of the policy, as JSON.
fn invalid_value(
    alloc: Global,
    policy: &[u8],
    clashes: &List<Diagnostic>,
) -> Result<Value, NoMemory>
    requires text { IsUtf8 policy.now }
    requires small { length policy.now < 2 ^ 28 }
    ensures { IfOk result (λ value. view value
        ≡ reports (codes "stop") (invalid_fields (policy_file policy.now ∷ []) clashes.now)) }
{
    let clashes = clash_values(alloc, policy, clashes.as_slice())?;
    stop_with(alloc, "diagnostics", Value::from(clashes), "invalid")
}

/// The word of a fault of the metadata.
fn fault_word(fault: &MetadataFault) -> &'static str
    ensures { result.now ≡ fault_word fault.now }
{
    match fault {
        MetadataFault::Json => "json",
        MetadataFault::Float => "float",
        MetadataFault::NoResolve => "no-resolve",
        MetadataFault::Shape(_) => "shape",
        MetadataFault::DuplicateId(_) => "duplicate-id",
        MetadataFault::DanglingId(_) => "dangling-id",
        MetadataFault::Version(_) => "version",
        MetadataFault::Requirement(_) => "requirement",
        MetadataFault::Source(_) => "source",
        MetadataFault::ManifestPath(_) => "manifest-path",
        MetadataFault::Memory => "memory",
    }
}

/// The text of a fault of the metadata: the path of a member, an id, or nothing.
fn fault_detail(fault: &MetadataFault) -> &str
    ensures { result.now ≡ fault_detail fault.now }
{
    match fault {
        MetadataFault::Json
        | MetadataFault::Float
        | MetadataFault::NoResolve
        | MetadataFault::Memory => "",
        MetadataFault::Shape(path) => path.as_str(),
        MetadataFault::DuplicateId(id)
        | MetadataFault::DanglingId(id)
        | MetadataFault::Version(id)
        | MetadataFault::Requirement(id)
        | MetadataFault::Source(id)
        | MetadataFault::ManifestPath(id) => id.as_str(),
    }
}

/// A stop by a fault of the metadata, as JSON.
fn metadata_value(alloc: Global, fault: &MetadataFault) -> Result<Value, NoMemory>
    ensures { IfOk result (λ value. view value
        ≡ reports (codes "stop") (fault_fields fault.now)) }
{
    let detail = fault_detail(fault);
    let word = fault_word(fault);
    let fields = json!(in alloc; {"detail": detail, "fault": word, "stop": "metadata"})?;
    line_value(alloc, "stop", fields)
}

/// A stop by a table of replacements, as JSON: its first break, or 0 where there is no table.
fn replacement_value(alloc: Global, offset: usize) -> Result<Value, NoMemory>
    ensures value { IfOk result (λ value. view value ≡ reports (codes "stop") (replacement_fields offset)) }
    ensures fits { offset < 2 ^ 64 }
{
    stop_with(alloc, "offset", Value::from(offset), "replacement")
}

/// A stop by arguments, as JSON: the index of the one that is not accepted.
fn usage_value(alloc: Global, at: usize) -> Result<Value, NoMemory>
    ensures value { IfOk result (λ value. view value ≡ reports (codes "stop")
        (member (codes "at") (number (unsigned at)) (stop_word (codes "usage")))) }
    ensures fits { at < 2 ^ 64 }
{
    stop_with(alloc, "at", Value::from(at), "usage")
}

/// A stop by the output, as JSON.
fn write_value(alloc: Global) -> Result<Value, NoMemory>
    ensures { IfOk result (λ value. view value ≡ reports (codes "stop") (stop_word (codes "write"))) }
{
    line_value(alloc, "stop", json!(in alloc; {"stop": "write"})?)
}

/// The stop of a run, as JSON. There is none of out of memory, which has a line of its own, and none of a
/// run that is done.
fn stop_value(alloc: Global, outcome: &Outcome, policy: &[u8]) -> Result<Value, NoMemory>
    requires { IsTextOf outcome.now policy.now }
    ensures value { IfOk result (λ value. view value ≡ stop_value policy.now outcome.now) }
    ensures fit { OnOk result (HasStopNumbers outcome.now) }
{
    match outcome {
        Outcome::Usage(at) => usage_value(alloc, *at),
        Outcome::Read(which) => stop_at_file(alloc, "read", *which),
        Outcome::Long(which) => stop_at_file(alloc, "long", *which),
        Outcome::Gate(GateError::Config(faults)) => config_value(alloc, faults),
        Outcome::Gate(GateError::Invalid(clashes)) => invalid_value(alloc, policy, clashes),
        Outcome::Gate(GateError::Metadata(fault)) => metadata_value(alloc, fault),
        Outcome::Gate(GateError::Replacement(at)) => replacement_value(alloc, *at),
        Outcome::Write(_) => write_value(alloc),
        Outcome::Done(_) | Outcome::Gate(GateError::Memory) | Outcome::Memory => Err(NoMemory),
    }
}

/// The line of a stop, JSON of one value. Where entries of the policy clash, labels lie in its text.
#[tactic(auto, unfolding(crate::specs::Stops::stop_line), using(crate::proofs::StopLemmas::json_stop))]
pub fn stop_line(alloc: Global, outcome: &Outcome, policy: &[u8]) -> Result<Text, NoMemory>
    requires { IsTextOf outcome.now policy.now }
    ensures text { IfOk result (λ text. text ≡ stop_line policy.now outcome.now) }
    ensures json { OnOk result
        (AreJsonLines (stop_line policy.now outcome.now) (stop_value policy.now outcome.now ∷ [])) }
{
    line(alloc, &stop_value(alloc, outcome, policy)?)
}

/// The line of a run that is out of memory.
pub fn memory_line() -> &'static str
    ensures { result.now ≡ memory_line }
{
    "{\"fields\":{\"stop\":\"memory\"},\"type\":\"stop\"}\n"
}
