//! The line that sums up a report on generated crates, and what a command writes of a report.
ghost use Rattle.std.specs.Prelude.{◌≡◌, ◌<◌, ◌^◌, All, codes, filter, length, IfOk, OnOk};
ghost use Rattle.serde_json.specs.Data.{member, no_members, number, object, string, unsigned};
ghost use Rattle.serde_json.specs.View.{view};
ghost use Rattle.deny_gate.specs.Report.{has_error};
ghost use Rattle.deny_cli.specs.private.Commands.{command_view};
ghost use Rattle.deny_cli.specs.Summary.{answer_lines, report_summary, summary_line};
ghost use Rattle.deny_cli.specs.Values.{answer_values};
ghost use Rattle.deny_gate_json.specs.Reading.{IsPlain};

use crate::arguments::Command;
use crate::line_value::line_value;
use crate::lines::{lines, verdict_word};
use deny_base_lists::{NoMemory, Text};
use deny_gate::{Finding, Report, has_error};
use deny_gate_json::line;
use deny_krates::Krates;
use serde_json::{Value, json};
use std::alloc::{AllocError, Global};

/// How many findings have severity error.
fn error_count(findings: &[Finding]) -> usize
    ensures count { result ≡ length (filter has_error findings.now) }
    ensures fits { length (filter has_error findings.now) < 2 ^ 64 }
{
    let mut errors = 0;
    for finding in findings {
        if has_error(finding) {
            errors += 1;
        }
    }
    errors
}

/// How many crates a graph has.
fn crate_count(krates: &Krates) -> usize
    ensures count { result ≡ length krates.now.crates }
    ensures fits { length krates.now.crates < 2 ^ 64 }
{
    krates.krates().len()
}

/// The fields of the summary of a report on generated crates, as JSON.
fn summary_fields(
    alloc: Global,
    made: u32,
    crates: usize,
    dead: usize,
    errors: usize,
    word: &str,
) -> Result<Value, AllocError>
    ensures { IfOk result (λ value. view value ≡ object
        (member (codes "crates") (number (unsigned crates))
        (member (codes "dead") (number (unsigned dead))
        (member (codes "errors") (number (unsigned errors))
        (member (codes "generated") (number (unsigned made))
        (member (codes "verdict") (string word.now) no_members)))))) }
{
    json!(in alloc; {
        "crates": crates, "dead": dead, "errors": errors, "generated": made, "verdict": word,
    })
}

/// The summary of a report on so many generated crates, as JSON.
#[tactic(auto, using(crate::proofs::ValueLemmas::summary_plain))]
fn report_summary(alloc: Global, made: u32, report: &Report) -> Result<Value, NoMemory>
    ensures value { IfOk result (λ value. view value ≡ report_summary made report.now) }
    ensures plain { OnOk result (IsPlain (report_summary made report.now)) }
{
    let crates = crate_count(&report.krates);
    let dead = report.dead.len();
    let errors = error_count(report.findings.as_slice());
    let word = verdict_word(report.verdict);
    let fields = summary_fields(alloc, made, crates, dead, errors, word)?;
    line_value(alloc, "summary", fields)
}

/// The line of the summary of a report on so many generated crates.
#[tactic(auto, unfolding(crate::specs::Summary::summary_line))]
fn summary_line(alloc: Global, made: u32, report: &Report) -> Result<Text, NoMemory>
    ensures text { IfOk result (λ text. text ≡ summary_line made report.now) }
    ensures plain { OnOk result (IsPlain (report_summary made report.now)) }
{
    line(alloc, &report_summary(alloc, made, report)?)
}

/// What a command writes of a report: its lines, or its summary where the crates were generated. All
/// numbers in it have 64 bits.
pub fn answer_lines(alloc: Global, command: Command<'_>, report: &Report) -> Result<Text, NoMemory>
    ensures text { IfOk result (λ text. text ≡ answer_lines (command_view command.entry) report.now) }
    ensures plain { OnOk result (All IsPlain (answer_values (command_view command.entry) report.now)) }
{
    match command {
        Command::Check(_) => lines(alloc, report),
        Command::Generate(crates) => summary_line(alloc, crates, report),
    }
}
