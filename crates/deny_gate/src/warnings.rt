//! The findings of the policy's own warnings: about the older key that stands for the table `build`, and about each
//! waiver that expired.
ghost use Rattle.std.specs.Prelude.{◌≡◌, ◌++◌, IfOk, OnOk, map};
ghost use Rattle.deny_cfg.specs.PolicyView.{past_waiver_view};
ghost use Rattle.deny_spec_report.specs.Packages.{deprecated_key};
ghost use Rattle.deny_gate.specs.private.Warnings.{AreOwnWarnings, deprecated_warning, deprecated_warnings};
ghost use Rattle.deny_gate.specs.private.Warnings.{expired_warning, older_key_in, warning_for};

use crate::report::Finding;
use deny_base::{Check, Diag, Diagnostic, DiagnosticCode, FileId, Key, Section, Span, key_order};
use deny_base_lists::{Keyed, List, NoMemory, put_records_in_order};
use deny_cfg::bans::cfg::ValidConfig;
use deny_cfg::{ExpiredWaiver, Policy, deprecated_diag, expired_diag};
use deny_spec::key_of;
use std::alloc::Global;

impl Keyed for Finding {
    type Key = Key;

    ghost key = { λ finding. finding.diag.key };

    fn key(&self) -> &Key {
        &self.diag.key
    }
}

/// The finding of a key with a diagnostic, of the bans check and about no crate.
#[tactic(auto, unfolding(crate::specs::private::Warnings::warning_for))]
fn warning_for(alloc: Global, key: Key, diag: Diagnostic) -> Finding
    ensures { result ≡ warning_for key diag }
{
    Finding {
        check: Check::Bans,
        kid: None,
        diag: Diag {
            key,
            diag,
            graph_nodes: List::new(alloc),
            with_features: false,
        },
    }
}

#[tactic(auto, unfolding(deny_spec_report::specs::Packages::deprecated_key))]
fn deprecated_key(alloc: Global, span: Span) -> Key
    ensures { result ≡ deprecated_key span }
{
    key_of(
        alloc,
        Section::Deprecated,
        DiagnosticCode::Deprecated,
        0,
        span,
    )
}

/// The finding about the older key, by its span.
#[tactic(auto, unfolding(crate::specs::private::Warnings::deprecated_warning))]
fn deprecated_warning(alloc: Global, file: FileId, span: Span) -> Result<Finding, NoMemory>
    ensures { IfOk result (λ finding. finding ≡ deprecated_warning file span) }
{
    let diag = deprecated_diag(alloc, file, span)?;
    Ok(warning_for(alloc, deprecated_key(alloc, span), diag))
}

/// The finding about a waiver that expired.
#[tactic(auto, unfolding(crate::specs::private::Warnings::expired_warning, deny_spec::specs::Expired::expired_key))]
fn expired_warning(alloc: Global, file: FileId, waiver: &ExpiredWaiver) -> Result<Finding, NoMemory>
    ensures { IfOk result (λ finding. finding ≡ expired_warning file (past_waiver_view waiver.now)) }
{
    let diag = expired_diag(alloc, file, waiver)?;
    let key = key_of(
        alloc,
        Section::Deprecated,
        DiagnosticCode::Expired,
        0,
        waiver.spec.name.span,
    );
    Ok(warning_for(alloc, key, diag))
}

/// The older key of a configuration, where that stands for the table `build`.
fn older_key(cfg: &ValidConfig) -> Option<Span>
    ensures { result ≡ older_key_in cfg.now }
{
    match &cfg.build {
        Some(build) => build.older_key,
        None => None,
    }
}

/// The finding about the older key, where that stands for the table `build`.
fn deprecated_warnings(alloc: Global, cfg: &ValidConfig) -> Result<List<Finding>, NoMemory>
    ensures { IfOk result (λ findings. findings ≡ deprecated_warnings cfg.now.file_id (older_key_in cfg.now)) }
{
    let mut findings = List::new(alloc);
    if let Some(span) = older_key(cfg) {
        findings.push(deprecated_warning(alloc, cfg.file_id, span)?)?;
    }
    Ok(findings)
}

/// Adds the finding about each waiver that expired.
fn add_expired_warnings(
    alloc: Global,
    file: FileId,
    waivers: &[ExpiredWaiver],
    findings: &mut List<Finding>,
) -> Result<(), NoMemory>
    ensures { OnOk result (findings.new
        ≡ findings.old ++ map (expired_warning file) (map past_waiver_view waivers.now)) }
{
    for waiver in waivers {
        findings.push(expired_warning(alloc, file, waiver)?)?;
    }
    Ok(())
}

/// The findings of the policy's own warnings, in the order of their keys.
pub fn warnings_in(alloc: Global, policy: &Policy) -> Result<List<Finding>, NoMemory>
    requires file { policy.now.bans.file_id ≡ 0 }
    ensures { IfOk result (AreOwnWarnings policy.now) }
{
    key_order();
    let mut findings = deprecated_warnings(alloc, &policy.bans)?;
    add_expired_warnings(
        alloc,
        policy.bans.file_id,
        policy.expired_waivers.as_slice(),
        &mut findings,
    )?;
    put_records_in_order(&mut findings)?;
    Ok(findings)
}
