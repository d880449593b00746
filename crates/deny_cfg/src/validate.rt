//! Validation of configurations.
ghost use Rattle.std.specs.Prelude.{◌≡◌, ◌++◌, ◌<◌, ◌^◌, ℕ, List, IfOk, OnErr, OnOk, length};
ghost use Rattle.deny_base.specs.declared.files.File as file;
ghost use Rattle.deny_base.specs.declared.finding.Diagnostic as finding;
ghost use Rattle.deny_cfg_build.specs.Build.{HasFiles};
ghost use Rattle.deny_base_lists.specs.Prefix.{Gains, GainsPrefixOf};
ghost use Rattle.deny_cfg.specs.Validating.{diagnostics_left, files_left, source_in};

use deny_base::{Diagnostic, FileId, Files};
use deny_base_lists::{List, NoMemory};
use std::alloc::Global;

/// Where a configuration is read from, and where its diagnostics are collected.
pub struct ValidationContext<'a> {
    /// The allocator of the diagnostics.
    pub alloc: Global,
    /// The number of the file that the configuration is read from.
    pub cfg_id: FileId,
    /// The known files. Where the configuration's own file is not among them, faults of extensions are reported with
    /// larger spans.
    pub files: &'a mut Files,
    /// The diagnostics are added behind those that are here.
    pub diagnostics: &'a mut List<Diagnostic>,
}

/// A configuration as it is written, whose entries may clash.
pub trait UnvalidatedConfig: Sized {
    /// The configuration as the rules take it.
    type ValidCfg;

    ghost is_valid_of: { Self → ℕ → ℕ → Self.ValidCfg → Type 0 };

    ghost are_reported: { Self → List ℕ → ℕ → List finding.Diagnostic → Type 0 };

    ghost files_asked: { Self → List file.File };

    /// Adds the clashes, in order, behind the diagnostics, and behind them what is deprecated; and returns the
    /// configuration, also where entries clash. There have to be fewer than 2^31 files. The files that the
    /// configuration asks for are added behind them.
    ///
    /// When out of memory, the diagnostics are unchanged or have a prefix of those that would be added, and the
    /// files are unchanged or have all that are asked for.
    fn validate(self, ctx: ValidationContext<'_>) -> Result<Self::ValidCfg, NoMemory>
        requires few { length ctx.files.now < 2 ^ 31 }
        ensures valid { IfOk result (is_valid_of self ctx.entry.cfg_id (length ctx.entry.files.now)) }
        ensures files { OnOk result ((files_left ctx.exit).now ≡ ctx.entry.files.now ++ files_asked self) }
        ensures files_too { OnErr result (HasFiles (files_asked self) ctx.entry.files.now (files_left ctx.exit).now) }
        ensures reported { OnOk result (Gains
            (are_reported self (source_in ctx.entry.files.now ctx.entry.cfg_id) ctx.entry.cfg_id)
            ctx.entry.diagnostics.now (diagnostics_left ctx.exit).now) }
        ensures reported_in_part { OnErr result (GainsPrefixOf
            (are_reported self (source_in ctx.entry.files.now ctx.entry.cfg_id) ctx.entry.cfg_id)
            ctx.entry.diagnostics.now (diagnostics_left ctx.exit).now) };
}
