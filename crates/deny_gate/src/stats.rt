//! How many findings of each severity a check has, and the code that a program exits with.
ghost use Rattle.std.specs.Prelude.{◌≡◌, ◌≤◌, Some, None, length, filter, if◌then◌else◌};
ghost use Rattle.deny_gate.specs.Stats.{all_stats, bit_of, counts_as, exit_code, number_of};
ghost use Rattle.deny_gate.specs.Stats.{same_severity, stats_of};

use crate::findings::same_check;
use crate::report::Finding;
use deny_base::{Check, Severity};

/// How many findings of a check have each severity, and 2^32 - 1 where there are more. Bugs count
/// nowhere.
#[derive(Clone, Copy, Default)]
pub struct Stats {
    pub errors: u32,
    pub warnings: u32,
    pub notes: u32,
    pub helps: u32,
}

/// The counts of each check; none of a check that is not made.
#[derive(Clone, Copy, Default)]
pub struct AllStats {
    pub advisories: Option<Stats>,
    pub bans: Option<Stats>,
    pub licenses: Option<Stats>,
    pub sources: Option<Stats>,
}

fn same_severity(a: Severity, b: Severity) -> bool
    ensures { result ≡ same_severity a b }
{
    a == b
}

/// Whether a finding is one of the check with this severity.
#[tactic(auto, unfolding(crate::specs::Stats::counts_as))]
fn counts_as(check: Check, severity: Severity, finding: &Finding) -> bool
    ensures { result ≡ counts_as check severity finding.now }
{
    same_severity(finding.diag.diag.severity, severity) && same_check(finding.check, check)
}

/// How many findings of a check have a severity.
fn count(check: Check, severity: Severity, findings: &[Finding]) -> usize
    ensures { result ≡ length (filter (counts_as check severity) findings.now) }
{
    findings
        .iter()
        .filter(|finding| counts_as(check, severity, finding))
        .count()
}

/// How many findings of a check have a severity, up to 2^32 - 1.
#[tactic(auto, unfolding(crate::specs::Stats::number_of))]
fn number_of(check: Check, severity: Severity, findings: &[Finding]) -> u32
    ensures { result ≡ number_of check severity findings.now }
{
    count(check, severity, findings).min(u32::MAX as usize) as u32
}

fn stats_of(check: Check, findings: &[Finding]) -> Stats
    ensures { result ≡ stats_of check findings.now }
{
    Stats {
        errors: number_of(check, Severity::Error, findings),
        warnings: number_of(check, Severity::Warning, findings),
        notes: number_of(check, Severity::Note, findings),
        helps: number_of(check, Severity::Help, findings),
    }
}

/// The counts of a check that is made.
fn stats_if(is_made: bool, check: Check, findings: &[Finding]) -> Option<Stats>
    ensures { result ≡ (if is_made then Some (stats_of check findings.now) else None) }
{
    if is_made {
        Some(stats_of(check, findings))
    } else {
        None
    }
}

/// The counts of the bans check, and of the licence check where it is made.
pub(crate) fn all_stats(has_licenses: bool, findings: &[Finding]) -> AllStats
    ensures { result ≡ all_stats has_licenses findings.now }
{
    AllStats {
        advisories: None,
        bans: Some(stats_of(Check::Bans, findings)),
        licenses: stats_if(has_licenses, Check::Licenses, findings),
        sources: None,
    }
}

/// The bit of a check that has errors.
fn bit_of(bit: u8, stats: Option<Stats>) -> u8
    ensures is { result ≡ bit_of bit stats }
    ensures small { result ≤ bit }
{
    match stats {
        Some(stats) => if stats.errors == 0 { 0 } else { bit },
        None => 0,
    }
}

/// The code that a program exits with: the sum over the checks that have errors of 1 for advisories,
/// 2 for bans, 4 for licenses and 8 for sources. None where no check has one.
pub fn stats_to_exit_code(stats: AllStats) -> Option<i32>
    ensures { result ≡ exit_code stats }
{
    let bits = bit_of(1, stats.advisories)
        + bit_of(2, stats.bans)
        + bit_of(4, stats.licenses)
        + bit_of(8, stats.sources);
    if bits == 0 {
        None
    } else {
        Some(i32::from(bits))
    }
}
