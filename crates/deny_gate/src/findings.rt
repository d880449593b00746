//! The findings of a report, and its verdict.
ghost use Rattle.std.specs.Prelude.{◌≡◌, ◌++◌, map, IfOk, OnOk};
ghost use Rattle.std.specs.List.{list_any, flat_map};
ghost use Rattle.deny_gate.specs.Report.{has_error, fails_as, verdict_of};
ghost use Rattle.deny_gate.specs.private.Report.{finding_of, findings_of};
ghost use Rattle.deny_gate.specs.Stats.{same_check};

use crate::report::{Finding, Verdict};
use deny_base::{Check, Diag, Kid, Pack, Severity};
use deny_base_lists::{List, NoMemory};

fn same_kid(kid: &Option<Kid>) -> Result<Option<Kid>, NoMemory>
    ensures { IfOk result (λ copy. copy ≡ kid.now) }
{
    match kid {
        Some(kid) => Ok(Some(kid.clone()?)),
        None => Ok(None),
    }
}

/// Adds the findings of a check about a crate.
fn add_diags(
    check: Check,
    kid: &Option<Kid>,
    diags: List<Diag>,
    findings: &mut List<Finding>,
) -> Result<(), NoMemory>
    ensures { OnOk result (findings.new ≡ findings.old ++ map (finding_of check kid.now) diags) }
{
    'diags: for diag in diags.vec {
        let kid = same_kid(kid)?;
        findings.push(Finding { check, kid, diag })?;
    }
    Ok(())
}

/// Adds the findings of a pack.
#[tactic(auto, unfolding(crate::specs::private::Report::findings_of))]
fn add_pack(pack: Pack, findings: &mut List<Finding>) -> Result<(), NoMemory>
    ensures { OnOk result (findings.new ≡ findings.old ++ findings_of pack) }
{
    let Pack { check, kid, diags } = pack;
    add_diags(check, &kid, diags, findings)
}

/// Adds the findings of packs, in their order.
pub fn add_findings(packs: List<Pack>, findings: &mut List<Finding>) -> Result<(), NoMemory>
    ensures { OnOk result (findings.new ≡ findings.old ++ flat_map findings_of packs) }
{
    'packs: for pack in packs.vec {
        add_pack(pack, findings)?;
    }
    Ok(())
}

/// Whether a finding has severity error.
#[tactic(auto, unfolding(crate::specs::Report::has_error))]
pub fn has_error(finding: &Finding) -> bool
    ensures { result ≡ has_error finding.now }
{
    matches!(finding.diag.diag.severity, Severity::Error)
}

pub(crate) fn same_check(a: Check, b: Check) -> bool
    ensures { result ≡ same_check a b }
{
    a == b
}

/// Whether a check fails by a finding.
#[tactic(auto, unfolding(crate::specs::Report::fails_as))]
fn fails_as(check: Check, finding: &Finding) -> bool
    ensures { result ≡ fails_as check finding.now }
{
    has_error(finding) && same_check(finding.check, check)
}

fn any_fails(check: Check, findings: &[Finding]) -> bool
    ensures { result ≡ list_any (fails_as check) findings.now }
{
    findings.iter().any(|finding| fails_as(check, finding))
}

/// The verdict on findings: a check fails where one of its findings has severity error.
pub fn verdict_of(findings: &[Finding]) -> Verdict
    ensures { result ≡ verdict_of findings.now }
{
    let bans = any_fails(Check::Bans, findings);
    let licenses = any_fails(Check::Licenses, findings);
    match (bans, licenses) {
        (false, false) => Verdict::Pass,
        (true, false) => Verdict::Fail(2),
        (false, true) => Verdict::Fail(4),
        (true, true) => Verdict::Fail(6),
    }
}
