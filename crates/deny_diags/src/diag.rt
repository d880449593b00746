//! The message about each key, code by code.
ghost use Rattle.std.specs.Prelude.{◌≡◌, ◌++◌, ◌∷◌, [], IfOk, IsTrue, OnErr, OnOk, map};
ghost use Rattle.deny_base.specs.Code.{bans_reported_here, is_reported_here};
ghost use Rattle.deny_base.specs.declared.code.DiagnosticCode.TheVariants.{Bans};
ghost use Rattle.deny_diags_build.specs.AtHand.{IsAtHand};
ghost use Rattle.deny_cfg.specs.PolicyView.{policy_view};
ghost use Rattle.deny_spec_report.specs.EachCode.{HoldsAs, message_as, message_licensed};
ghost use Rattle.deny_spec_report.specs.Facts.{Facts};
ghost use Rattle.deny_spec_report.specs.Diags.{key_pack, key_message};
ghost use Rattle.deny_rules_manifests.specs.Uses.{AreUses};
ghost use Rattle.deny_spans.specs.SpansView.{AreSpansOf, spans_view};
ghost use Rattle.deny_diags.specs.Here.{AreReportedHere};
ghost use Rattle.deny_diags.specs.Reporting.{CanAllHold, CanHold, ReportsPrefix};
ghost use Rattle.deny_diags.specs.private.DiagWriter.{circumstances_from};
ghost use Rattle.deny_diags_parts.specs.Context.{circumstances_by};

use crate::allow_list::{allowed_diag, not_allowed_diag};
use crate::bans::{allowed_by_wrapper_diag, banned_diag, unmatched_wrapper_diag};
use crate::duplicates::duplicate_diag;
use crate::features::{
    default_enabled_diag, feature_banned_diag, feature_not_allowed_diag, mismatched_diag,
    unknown_feature_diag,
};
use crate::skipped_trees::{skipped_by_root_diag, unmatched_skip_root_diag};
use crate::skips::{skipped_diag, unmatched_skip_diag, unnecessary_skip_diag};
use crate::wrappers::unused_wrapper_diag;
use crate::writer::DiagWriter;
use deny_base::{Code, DiagnosticCode, Key, LicenseCode, Pack};
use deny_base_lists::{List, NoMemory};
use deny_diags_build::{
    AtHand, bypassed_by_glob_diag, checksum_match_diag, checksum_mismatch_diag,
    denied_by_extension_diag, detected_diag, features_enabled_diag, path_bypassed_diag,
    script_denied_diag, script_diag, unable_to_check_diag, unmatched_bypass_diag,
    unmatched_glob_diag, unmatched_path_diag,
};
use deny_diags_manifests::{
    unresolved_diag, unused_entry_diag, wildcard_diag, workspace_duplicate_diag,
};
use deny_diags_parts::DiagContext;
use deny_rules_manifests::Uses;
use deny_rules_match::Matches;
use deny_spans::KrateSpans;
use deny_spec::Package;
use deny_spec_report::{Message, pack_of};
use std::alloc::Global;

/// Appends the findings of keys that hold, in their order, one pack a key: of every code but those of what
/// the standard library replaces, those of licences, and those of the policy's own warnings. Where memory
/// runs out, the findings of the first keys were appended, or none.
pub fn report_all(
    alloc: Global,
    found: &Matches<'_>,
    spans: &KrateSpans<'_>,
    uses: &Uses<'_, '_>,
    packages: &[Package],
    keys: &[Key],
    sink: &mut List<Pack>,
) -> Result<(), NoMemory>
    requires reported_here { AreReportedHere keys.now }
    requires hold { CanAllHold
        (circumstances_by found.now.cfg.now found.now.krates.now spans.now packages.now) keys.now }
    requires spans { AreSpansOf found.now.krates.now spans.now }
    requires uses { AreUses (policy_view found.now.cfg.now) found.now.krates.now (spans_view spans.now) uses.now }
    ensures ok { OnOk result (sink.new ≡ sink.old
        ++ map (key_pack (circumstances_by found.now.cfg.now found.now.krates.now spans.now packages.now)) keys.now) }
    ensures prefix { OnErr result (ReportsPrefix
        (circumstances_by found.now.cfg.now found.now.krates.now spans.now packages.now) keys.now sink.old sink.new) }
{
    let ctx = DiagContext {
        cfg: found.cfg,
        krates: found.krates,
        spans,
        packages,
    };
    let writer = DiagWriter::new(alloc, ctx, found, uses)?;
    add_packs(alloc, &writer, keys, sink)
}

fn add_packs(
    alloc: Global,
    writer: &DiagWriter<'_>,
    keys: &[Key],
    sink: &mut List<Pack>,
) -> Result<(), NoMemory>
    requires reported_here { AreReportedHere keys.now }
    requires hold { CanAllHold (circumstances_from writer.now) keys.now }
    requires spans { AreSpansOf writer.now.ctx.krates.now writer.now.ctx.spans.now }
    ensures ok { OnOk result (sink.new ≡ sink.old ++ map (key_pack (circumstances_from writer.now)) keys.now) }
    ensures prefix { OnErr result (ReportsPrefix (circumstances_from writer.now) keys.now sink.old sink.new) }
{
    let packages = writer.ctx.packages;
    let mut at = AtHand::new(alloc, packages, 0)?;
    for key in keys {
        at = at.turn_to(alloc, packages, key.place)?;
        add_pack(alloc, writer, &at, key, sink)?;
    }
    Ok(())
}

// Appends the finding of a key.
fn add_pack(
    alloc: Global,
    writer: &DiagWriter<'_>,
    at: &AtHand<'_>,
    key: &Key,
    sink: &mut List<Pack>,
) -> Result<(), NoMemory>
    requires reported_here { IsTrue (is_reported_here key.now.code) }
    requires holds { CanHold (circumstances_from writer.now) key.now }
    requires spans { AreSpansOf writer.now.ctx.krates.now writer.now.ctx.spans.now }
    requires at_hand { IsAtHand writer.now.ctx.packages.now key.now.place at.now }
    ensures ok { OnOk result (sink.new ≡ sink.old ++ key_pack (circumstances_from writer.now) key.now ∷ []) }
    ensures err { OnErr result (sink.new ≡ sink.old) }
{
    let diag = key_message(alloc, writer, at, key)?;
    sink.push(pack_of(alloc, key.clone()?, diag)?)
}

#[tactic(auto, unfolding(deny_spec_report::specs::EachCode::message_licensed))]
fn key_message(
    alloc: Global,
    writer: &DiagWriter<'_>,
    at: &AtHand<'_>,
    key: &Key,
) -> Result<Message, NoMemory>
    requires reported_here { IsTrue (is_reported_here key.now.code) }
    requires holds { CanHold (circumstances_from writer.now) key.now }
    requires spans { AreSpansOf writer.now.ctx.krates.now writer.now.ctx.spans.now }
    requires at_hand { IsAtHand writer.now.ctx.packages.now key.now.place at.now }
    ensures { IfOk result (λ diag. diag ≡ key_message (circumstances_from writer.now) key.now) }
{
    match key.code {
        DiagnosticCode::Bans(code) => message_as(alloc, writer, at, code, key),
        DiagnosticCode::License(code) => match code {
            LicenseCode::Accepted
            | LicenseCode::Rejected
            | LicenseCode::Unlicensed
            | LicenseCode::ParseError
            | LicenseCode::SkippedPrivateWorkspaceCrate
            | LicenseCode::LicenseNotEncountered
            | LicenseCode::LicenseExceptionNotEncountered => unreachable!(),
        },
        DiagnosticCode::Deprecated | DiagnosticCode::Expired => unreachable!(),
    }
}

#[tactic(auto, unfolding(deny_spec_report::specs::EachCode::message_as))]
fn message_as(
    alloc: Global,
    writer: &DiagWriter<'_>,
    at: &AtHand<'_>,
    code: Code,
    key: &Key,
) -> Result<Message, NoMemory>
    requires reported_here { IsTrue (bans_reported_here code) }
    requires code { key.now.code ≡ Bans code }
    requires holds { (facts : Facts) × HoldsAs code (circumstances_from writer.now) facts key.now }
    requires spans { AreSpansOf writer.now.ctx.krates.now writer.now.ctx.spans.now }
    requires at_hand { IsAtHand writer.now.ctx.packages.now key.now.place at.now }
    ensures { IfOk result (λ diag. diag ≡ message_as code (circumstances_from writer.now) key.now) }
{
    let ctx = &writer.ctx;
    match code {
        Code::Banned => banned_diag(alloc, writer, key),
        Code::Allowed => allowed_diag(alloc, writer, key),
        Code::NotAllowed => not_allowed_diag(alloc, writer, key),
        Code::Duplicate => duplicate_diag(alloc, writer, key),
        Code::Skipped => skipped_diag(alloc, writer, key),
        Code::Wildcard => wildcard_diag(alloc, ctx, key),
        Code::UnmatchedSkip => unmatched_skip_diag(alloc, writer, key),
        Code::UnnecessarySkip => unnecessary_skip_diag(alloc, writer, key),
        Code::AllowedByWrapper => allowed_by_wrapper_diag(alloc, writer, key),
        Code::UnmatchedWrapper => unmatched_wrapper_diag(alloc, writer, key),
        Code::SkippedByRoot => skipped_by_root_diag(alloc, writer, key),
        Code::UnmatchedSkipRoot => unmatched_skip_root_diag(alloc, writer, key),
        Code::BuildScriptNotAllowed => script_denied_diag(alloc, ctx, key),
        Code::ExactFeaturesMismatch => mismatched_diag(alloc, writer, key),
        Code::FeatureNotExplicitlyAllowed => feature_not_allowed_diag(alloc, writer, key),
        Code::FeatureBanned => feature_banned_diag(alloc, writer, key),
        Code::UnknownFeature => unknown_feature_diag(alloc, writer, key),
        Code::DefaultFeatureEnabled => default_enabled_diag(alloc, writer, key),
        Code::PathBypassed => path_bypassed_diag(alloc, ctx, key),
        Code::PathBypassedByGlob => bypassed_by_glob_diag(alloc, ctx, at, key),
        Code::ChecksumMatch => checksum_match_diag(alloc, ctx, key),
        Code::ChecksumMismatch => checksum_mismatch_diag(alloc, ctx, &writer.sums, at, key),
        Code::DeniedByExtension => denied_by_extension_diag(alloc, ctx, at, key),
        Code::DetectedExecutable => detected_diag(alloc, ctx, at, key),
        Code::DetectedExecutableScript => script_diag(alloc, ctx, at, key),
        Code::UnableToCheckPath => unable_to_check_diag(alloc, ctx, at, key),
        Code::FeaturesEnabled => features_enabled_diag(alloc, ctx, key),
        Code::UnmatchedBypass => unmatched_bypass_diag(alloc, ctx, key),
        Code::UnmatchedPathBypass => unmatched_path_diag(alloc, ctx, key),
        Code::UnmatchedGlob => unmatched_glob_diag(alloc, ctx, key),
        Code::UnusedWrapper => unused_wrapper_diag(alloc, writer, key),
        Code::WorkspaceDuplicate => workspace_duplicate_diag(alloc, ctx, writer.uses, key),
        Code::UnresolvedWorkspaceDependency => unresolved_diag(alloc, ctx, key),
        Code::UnusedWorkspaceDependency => unused_entry_diag(alloc, ctx, &writer.unused, key),
        Code::ReplacedInStd | Code::UnmatchedReplacementIgnore => unreachable!(),
    }
}
