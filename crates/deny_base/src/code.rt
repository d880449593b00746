ghost use Rattle.std.specs.Prelude.{◌≡◌, ◌+◌, ◌==◌, Some, refl};
ghost use Rattle.std.specs.Cmp.{IsTotalOrder, nat_cmp_total, on_total, on_per};
ghost use Rattle.std.specs.Cmp.{on_equiv, nat_eq_equiv, partial_equiv_from_equiv};
ghost use Rattle.std.specs.Cmp.{partial_order_from_own_ties, partial_order_from_total, unsigned_ties};
ghost use Rattle.std.specs.FinMap.{IsAntisymmetric};
ghost use Rattle.deny_base.specs.Code.{code_name, code_number, code_cmp, diagnostic_code_name};
ghost use Rattle.deny_base.specs.Code.{diagnostic_code_number, diagnostic_code_cmp};
ghost use Rattle.deny_base.specs.Code.{bans_unused_kind, bans_is_of_path, unused_kind, is_of_path};
ghost use Rattle.deny_base.specs.LicenseCode.{license_code_cmp};
ghost use Rattle.deny_base.specs.declared.code.Code.{Code};
ghost use Rattle.deny_base.specs.declared.code.DiagnosticCode.{DiagnosticCode};
ghost use Rattle.deny_base.specs.declared.license_code.LicenseCode.{LicenseCode};

use crate::entry::EntryKind;
use crate::license_code::LicenseCode;
use std::cmp::Ordering;
use std::fmt;

/// A kind of finding of the bans check, by cargo-deny's names.
#[derive(Debug, Clone, Copy)]
pub enum Code {
    Banned,
    Allowed,
    NotAllowed,
    Duplicate,
    Skipped,
    Wildcard,
    UnmatchedSkip,
    UnnecessarySkip,
    AllowedByWrapper,
    UnmatchedWrapper,
    SkippedByRoot,
    UnmatchedSkipRoot,
    BuildScriptNotAllowed,
    ExactFeaturesMismatch,
    FeatureNotExplicitlyAllowed,
    FeatureBanned,
    UnknownFeature,
    DefaultFeatureEnabled,
    PathBypassed,
    PathBypassedByGlob,
    ChecksumMatch,
    ChecksumMismatch,
    DeniedByExtension,
    DetectedExecutable,
    DetectedExecutableScript,
    UnableToCheckPath,
    FeaturesEnabled,
    UnmatchedBypass,
    UnmatchedPathBypass,
    UnmatchedGlob,
    UnusedWrapper,
    WorkspaceDuplicate,
    UnresolvedWorkspaceDependency,
    UnusedWorkspaceDependency,
    ReplacedInStd,
    UnmatchedReplacementIgnore,
}

impl Code {
    /// The word that stands for the code in a report.
    #[tactic(auto, unfolding(crate::specs::Code::code_name))]
    pub fn name(self) -> &'static str
        ensures { result.now ≡ code_name self }
    {
        match self {
            Code::Banned => "banned",
            Code::Allowed => "allowed",
            Code::NotAllowed => "not-allowed",
            Code::Duplicate => "duplicate",
            Code::Skipped => "skipped",
            Code::Wildcard => "wildcard",
            Code::UnmatchedSkip => "unmatched-skip",
            Code::UnnecessarySkip => "unnecessary-skip",
            Code::AllowedByWrapper => "allowed-by-wrapper",
            Code::UnmatchedWrapper => "unmatched-wrapper",
            Code::SkippedByRoot => "skipped-by-root",
            Code::UnmatchedSkipRoot => "unmatched-skip-root",
            Code::BuildScriptNotAllowed => "build-script-not-allowed",
            Code::ExactFeaturesMismatch => "exact-features-mismatch",
            Code::FeatureNotExplicitlyAllowed => "feature-not-explicitly-allowed",
            Code::FeatureBanned => "feature-banned",
            Code::UnknownFeature => "unknown-feature",
            Code::DefaultFeatureEnabled => "default-feature-enabled",
            Code::PathBypassed => "path-bypassed",
            Code::PathBypassedByGlob => "path-bypassed-by-glob",
            Code::ChecksumMatch => "checksum-match",
            Code::ChecksumMismatch => "checksum-mismatch",
            Code::DeniedByExtension => "denied-by-extension",
            Code::DetectedExecutable => "detected-executable",
            Code::DetectedExecutableScript => "detected-executable-script",
            Code::UnableToCheckPath => "unable-to-check-path",
            Code::FeaturesEnabled => "features-enabled",
            Code::UnmatchedBypass => "unmatched-bypass",
            Code::UnmatchedPathBypass => "unmatched-path-bypass",
            Code::UnmatchedGlob => "unmatched-glob",
            Code::UnusedWrapper => "unused-wrapper",
            Code::WorkspaceDuplicate => "workspace-duplicate",
            Code::UnresolvedWorkspaceDependency => "unresolved-workspace-dependency",
            Code::UnusedWorkspaceDependency => "unused-workspace-dependency",
            Code::ReplacedInStd => "replaced-in-std",
            Code::UnmatchedReplacementIgnore => "unmatched-replacement-ignore",
        }
    }

    /// The number of the code in the order of declaration.
    #[tactic(auto, unfolding(crate::specs::Code::code_number))]
    fn number(self) -> u8
        ensures { result ≡ code_number self }
    {
        self as u8
    }

    /// The kind of entry that a finding of this code says is unused, if it says so of one.
    pub fn unused_kind(self) -> Option<EntryKind>
        ensures { result ≡ bans_unused_kind self }
    {
        match self {
            Code::UnmatchedSkip => Some(EntryKind::Skip),
            Code::UnmatchedSkipRoot => Some(EntryKind::SkipRoot),
            Code::UnusedWrapper => Some(EntryKind::Wrapper),
            Code::UnmatchedBypass => Some(EntryKind::Bypass),
            Code::UnmatchedPathBypass => Some(EntryKind::BypassPath),
            Code::UnmatchedGlob => Some(EntryKind::BypassGlob),
            Code::UnmatchedReplacementIgnore => Some(EntryKind::ReplacementIgnore),
            Code::Banned
            | Code::Allowed
            | Code::NotAllowed
            | Code::Duplicate
            | Code::Skipped
            | Code::Wildcard
            | Code::UnnecessarySkip
            | Code::AllowedByWrapper
            | Code::UnmatchedWrapper
            | Code::SkippedByRoot
            | Code::BuildScriptNotAllowed
            | Code::ExactFeaturesMismatch
            | Code::FeatureNotExplicitlyAllowed
            | Code::FeatureBanned
            | Code::UnknownFeature
            | Code::DefaultFeatureEnabled
            | Code::PathBypassed
            | Code::PathBypassedByGlob
            | Code::ChecksumMatch
            | Code::ChecksumMismatch
            | Code::DeniedByExtension
            | Code::DetectedExecutable
            | Code::DetectedExecutableScript
            | Code::UnableToCheckPath
            | Code::FeaturesEnabled
            | Code::WorkspaceDuplicate
            | Code::UnresolvedWorkspaceDependency
            | Code::UnusedWorkspaceDependency
            | Code::ReplacedInStd => None,
        }
    }

    /// Whether a finding of this code is about a file of a package, or about an entry for one.
    pub fn is_of_path(self) -> bool
        ensures { result ≡ bans_is_of_path self }
    {
        match self {
            Code::PathBypassed
            | Code::PathBypassedByGlob
            | Code::ChecksumMatch
            | Code::ChecksumMismatch
            | Code::DeniedByExtension
            | Code::DetectedExecutable
            | Code::DetectedExecutableScript
            | Code::UnableToCheckPath
            | Code::FeaturesEnabled
            | Code::UnmatchedBypass
            | Code::UnmatchedPathBypass
            | Code::UnmatchedGlob => true,
            Code::Banned
            | Code::Allowed
            | Code::NotAllowed
            | Code::Duplicate
            | Code::Skipped
            | Code::Wildcard
            | Code::UnmatchedSkip
            | Code::UnnecessarySkip
            | Code::AllowedByWrapper
            | Code::UnmatchedWrapper
            | Code::SkippedByRoot
            | Code::UnmatchedSkipRoot
            | Code::BuildScriptNotAllowed
            | Code::ExactFeaturesMismatch
            | Code::FeatureNotExplicitlyAllowed
            | Code::FeatureBanned
            | Code::UnknownFeature
            | Code::DefaultFeatureEnabled
            | Code::UnusedWrapper
            | Code::WorkspaceDuplicate
            | Code::UnresolvedWorkspaceDependency
            | Code::UnusedWorkspaceDependency
            | Code::ReplacedInStd
            | Code::UnmatchedReplacementIgnore => false,
        }
    }
}

impl fmt::Display for Code {
    ghost output = { λ code. Some (code_name code) };

    fn fmt<W: fmt::Write>(&self, f: &mut fmt::Formatter<W>) -> fmt::Result {
        f.write_str(self.name())
    }
}

impl PartialEq for Code {
    ghost eq = { λ a b. code_number a == code_number b };

    ghost laws = { on_per code_number (partial_equiv_from_equiv nat_eq_equiv) };

    fn eq(&self, other: &Self) -> bool {
        self.number() == other.number()
    }
}

impl Eq for Code {
    ghost laws = { on_equiv code_number nat_eq_equiv };
}

impl PartialOrd for Code {
    ghost partial_cmp = { λ a b. Some (code_cmp a b) };

    ghost laws = { partial_order_from_own_ties (partial_order_from_total (on_total code_number nat_cmp_total))
        (λ a b. unsigned_ties (code_number a) (code_number b)) };

    fn partial_cmp(&self, other: &Self) -> Option<Ordering> {
        Some(self.cmp(other))
    }
}

impl Ord for Code {
    ghost cmp = { code_cmp };

    ghost total = { on_total code_number nat_cmp_total };

    ghost matches_partial_cmp = { λ a b. refl };

    ghost matches_eq = { λ a b. unsigned_ties (code_number a) (code_number b) };

    fn cmp(&self, other: &Self) -> Ordering {
        self.number().cmp(&other.number())
    }
}

/// The kind of a finding, whichever check it comes from.
#[derive(Debug, Clone, Copy)]
pub enum DiagnosticCode {
    /// The policy has a key in a place that is no longer its own.
    Deprecated,
    Bans(Code),
    License(LicenseCode),
    /// A waiver of the policy counts no longer: the day that it names is past.
    Expired,
}

impl DiagnosticCode {
    /// The word that stands for the code in a report.
    pub fn name(self) -> &'static str
        ensures { result.now ≡ diagnostic_code_name self }
    {
        match self {
            DiagnosticCode::Deprecated => "deprecated",
            DiagnosticCode::Bans(code) => code.name(),
            DiagnosticCode::License(code) => code.name(),
            DiagnosticCode::Expired => "waiver-expired",
        }
    }

    /// The number of the code in the order of declaration.
    #[tactic(auto, unfolding(crate::specs::Code::diagnostic_code_number))]
    fn number(self) -> u32
        ensures { result ≡ diagnostic_code_number self }
    {
        match self {
            DiagnosticCode::Deprecated => 0,
            DiagnosticCode::Bans(code) => 1 + u32::from(code.number()),
            DiagnosticCode::License(code) => {
                let last = Code::UnmatchedReplacementIgnore.number();
                2 + u32::from(last) + u32::from(code.number())
            },
            DiagnosticCode::Expired => {
                let last = Code::UnmatchedReplacementIgnore.number();
                let last_license = LicenseCode::LicenseExceptionNotEncountered.number();
                3 + u32::from(last) + u32::from(last_license)
            },
        }
    }

    /// The kind of entry that a finding of this code says is unused, if it says so of one.
    pub fn unused_kind(self) -> Option<EntryKind>
        ensures { result ≡ unused_kind self }
    {
        match self {
            DiagnosticCode::Deprecated | DiagnosticCode::Expired => None,
            DiagnosticCode::Bans(code) => code.unused_kind(),
            DiagnosticCode::License(code) => code.unused_kind(),
        }
    }

    /// Whether a finding of this code is about a file of a package, or about an entry for one.
    #[tactic(auto, unfolding(crate::specs::Code::is_of_path))]
    pub fn is_of_path(self) -> bool
        ensures { result ≡ is_of_path self }
    {
        match self {
            DiagnosticCode::Deprecated | DiagnosticCode::License(_) | DiagnosticCode::Expired => {
                false
            },
            DiagnosticCode::Bans(code) => code.is_of_path(),
        }
    }
}

impl fmt::Display for DiagnosticCode {
    ghost output = { λ code. Some (diagnostic_code_name code) };

    fn fmt<W: fmt::Write>(&self, f: &mut fmt::Formatter<W>) -> fmt::Result {
        f.write_str(self.name())
    }
}

impl PartialEq for DiagnosticCode {
    ghost eq = { λ a b. diagnostic_code_number a == diagnostic_code_number b };

    ghost laws = { on_per diagnostic_code_number (partial_equiv_from_equiv nat_eq_equiv) };

    fn eq(&self, other: &Self) -> bool {
        self.number() == other.number()
    }
}

impl Eq for DiagnosticCode {
    ghost laws = { on_equiv diagnostic_code_number nat_eq_equiv };
}

impl PartialOrd for DiagnosticCode {
    ghost partial_cmp = { λ a b. Some (diagnostic_code_cmp a b) };

    ghost laws = { partial_order_from_own_ties
        (partial_order_from_total (on_total diagnostic_code_number nat_cmp_total))
        (λ a b. unsigned_ties (diagnostic_code_number a) (diagnostic_code_number b)) };

    fn partial_cmp(&self, other: &Self) -> Option<Ordering> {
        Some(self.cmp(other))
    }
}

impl Ord for DiagnosticCode {
    ghost cmp = { diagnostic_code_cmp };

    ghost total = { on_total diagnostic_code_number nat_cmp_total };

    ghost matches_partial_cmp = { λ a b. refl };

    ghost matches_eq = { λ a b. unsigned_ties (diagnostic_code_number a) (diagnostic_code_number b) };

    fn cmp(&self, other: &Self) -> Ordering {
        self.number().cmp(&other.number())
    }
}

/// The order of codes is the order of declaration: deprecated, the codes of bans, those of
/// licences. It is total, only equal codes tie, and no two codes have the same word.
pub fn code_order()
    ensures order { (a b : DiagnosticCode) → ⟦<DiagnosticCode as Ord>⟧.cmp a b ≡ diagnostic_code_cmp a b }
    ensures bans_order { (a b : Code) → ⟦<Code as Ord>⟧.cmp a b ≡ code_cmp a b }
    ensures licenses_order { (a b : LicenseCode) → ⟦<LicenseCode as Ord>⟧.cmp a b ≡ license_code_cmp a b }
    ensures total { IsTotalOrder diagnostic_code_cmp }
    ensures equal { IsAntisymmetric diagnostic_code_cmp }
    ensures bans { IsAntisymmetric code_cmp }
    ensures licenses { IsAntisymmetric license_code_cmp }
    ensures words { (a b : DiagnosticCode) → diagnostic_code_name a ≡ diagnostic_code_name b → a ≡ b }
{}
