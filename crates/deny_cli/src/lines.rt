//! The lines of a report.
ghost use Rattle.std.specs.Prelude.{◌≡◌, ◌<◌, ◌^◌, ◌++◌, All, IfOk, OnOk};
ghost use Rattle.std.specs.List.{flat_map};
ghost use Rattle.serde_json.specs.View.{view};
ghost use Rattle.deny_cli.specs.Lines.{dead_line, finding_line, lines, malformed_line};
ghost use Rattle.deny_cli.specs.Lines.{unread_line, verdict_line, verdict_value, verdict_word};
ghost use Rattle.deny_cli.specs.Outcome.{bits_of};
ghost use Rattle.deny_cli.specs.Values.{HasNumbers, report_values};
ghost use Rattle.deny_cli.specs.private.Counted.{IsCounted};
ghost use Rattle.deny_gate_json.specs.Reading.{IsPlain};

use crate::dead::dead_value;
use crate::line_value::line_value;
use crate::outcome::bits;
use crate::unread::{malformed_value, unread_value};
use deny_base::{EntryId, Files};
use deny_base_lists::{NoMemory, Text};
use deny_base_unread::Unread;
use deny_gate::{Finding, Report, Verdict};
use deny_gate_json::{diag_line, line};
use deny_krates::Krates;
use deny_krates_trees::InclusionGrapher;
use serde_json::{Value, json};
use std::alloc::Global;

/// The word of a verdict.
pub fn verdict_word(verdict: Verdict) -> &'static str
    ensures { result.now ≡ verdict_word verdict }
{
    match verdict {
        Verdict::Pass => "pass",
        Verdict::Fail(_) => "fail",
    }
}

/// A verdict as JSON.
fn verdict_value(alloc: Global, verdict: Verdict) -> Result<Value, NoMemory>
    ensures value { IfOk result (λ value. view value ≡ verdict_value verdict) }
    ensures fits { OnOk result (bits_of verdict < 2 ^ 64) }
{
    let word = verdict_word(verdict);
    let fields = json!(in alloc; {"bits": bits(verdict), "verdict": word})?;
    line_value(alloc, "verdict", fields)
}

/// The line of a finding, with its trees.
#[tactic(auto, unfolding(crate::specs::Lines::finding_line, crate::specs::private::Counted::IsCounted))]
fn finding_line(
    alloc: Global,
    files: &Files,
    grapher: &InclusionGrapher<'_>,
    finding: &Finding,
) -> Result<Text, NoMemory>
    ensures text { IfOk result (λ text. text
        ≡ finding_line files.now grapher.now.krates.now finding.now) }
    ensures counted { OnOk result (IsCounted files.now finding.now) }
{
    diag_line(alloc, files, grapher, finding.kid.as_ref(), &finding.diag)
}

/// The line of a verdict.
#[tactic(auto, unfolding(crate::specs::Lines::verdict_line))]
fn verdict_line(alloc: Global, verdict: Verdict) -> Result<Text, NoMemory>
    ensures text { IfOk result (λ text. text ≡ verdict_line verdict) }
    ensures fits { OnOk result (bits_of verdict < 2 ^ 64) }
{
    line(alloc, &verdict_value(alloc, verdict)?)
}

/// The line of a dead entry.
#[tactic(auto, unfolding(crate::specs::Lines::dead_line))]
fn dead_line(alloc: Global, entry: EntryId) -> Result<Text, NoMemory>
    ensures text { IfOk result (λ text. text ≡ dead_line entry) }
    ensures fits { OnOk result (HasNumbers entry) }
{
    line(alloc, &dead_value(alloc, entry)?)
}

/// The line of what could not be read.
#[tactic(auto, unfolding(crate::specs::Lines::unread_line))]
fn unread_line(alloc: Global, krates: &Krates, entry: &Unread) -> Result<Text, NoMemory>
    ensures { IfOk result (λ text. text ≡ unread_line krates.now entry.now) }
{
    line(alloc, &unread_value(alloc, krates, entry)?)
}

/// The line of a malformed manifest.
#[tactic(auto, unfolding(crate::specs::Lines::malformed_line))]
fn malformed_line(alloc: Global, path: &str) -> Result<Text, NoMemory>
    ensures { IfOk result (λ text. text ≡ malformed_line path.now) }
{
    line(alloc, &malformed_value(alloc, path)?)
}

/// Adds the lines of findings, in their order.
fn push_findings(
    alloc: Global,
    files: &Files,
    grapher: &InclusionGrapher<'_>,
    findings: &[Finding],
    text: &mut Text,
) -> Result<(), NoMemory>
    ensures text { OnOk result (text.new
        ≡ text.old ++ flat_map (finding_line files.now grapher.now.krates.now) findings.now) }
    ensures counted { OnOk result (All (IsCounted files.now) findings.now) }
{
    for finding in findings {
        text.push_str(finding_line(alloc, files, grapher, finding)?.as_str())?;
    }
    Ok(())
}

/// Adds the lines of dead entries, in their order.
fn push_dead(alloc: Global, dead: &[EntryId], text: &mut Text) -> Result<(), NoMemory>
    ensures text { OnOk result (text.new ≡ text.old ++ flat_map dead_line dead.now) }
    ensures fits { OnOk result (All HasNumbers dead.now) }
{
    for entry in dead {
        text.push_str(dead_line(alloc, *entry)?.as_str())?;
    }
    Ok(())
}

/// Adds the lines of what could not be read, in their order.
fn push_unread(
    alloc: Global,
    krates: &Krates,
    unread: &[Unread],
    text: &mut Text,
) -> Result<(), NoMemory>
    ensures { OnOk result (text.new ≡ text.old ++ flat_map (unread_line krates.now) unread.now) }
{
    for entry in unread {
        text.push_str(unread_line(alloc, krates, entry)?.as_str())?;
    }
    Ok(())
}

/// Adds the lines of malformed manifests, in their order.
fn push_malformed(alloc: Global, malformed: &[Text], text: &mut Text) -> Result<(), NoMemory>
    ensures { OnOk result (text.new ≡ text.old ++ flat_map malformed_line malformed.now) }
{
    for path in malformed {
        text.push_str(malformed_line(alloc, path.as_str())?.as_str())?;
    }
    Ok(())
}

/// Adds the lines of a report.
#[tactic(auto, unfolding(crate::specs::Lines::lines))]
fn push_lines(alloc: Global, report: &Report, text: &mut Text) -> Result<(), NoMemory>
    ensures text { OnOk result (text.new ≡ text.old ++ lines report.now) }
    ensures plain { OnOk result (All IsPlain (report_values report.now)) }
{
    let grapher = InclusionGrapher::new(&report.krates);
    let findings = report.findings.as_slice();
    push_findings(alloc, &report.files, &grapher, findings, text)?;
    push_dead(alloc, report.dead.as_slice(), text)?;
    push_unread(alloc, &report.krates, report.unread.as_slice(), text)?;
    push_malformed(alloc, report.malformed.as_slice(), text)?;
    text.push_str(verdict_line(alloc, report.verdict)?.as_str())
}

/// The lines of a report: its findings in order, with their trees, its dead entries, what could not be
/// read, which manifests are malformed, and its verdict. All their numbers have 64 bits.
pub fn lines(alloc: Global, report: &Report) -> Result<Text, NoMemory>
    ensures text { IfOk result (λ text. text ≡ lines report.now) }
    ensures plain { OnOk result (All IsPlain (report_values report.now)) }
{
    let mut text = Text::new(alloc);
    push_lines(alloc, report, &mut text)?;
    Ok(text)
}
