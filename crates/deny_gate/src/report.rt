use crate::stats::AllStats;
use deny_base::{Check, Diag, Diagnostic, EntryId, Files, Hit, Kid};
use deny_base_lists::{List, NoMemory, Text};
use deny_base_unread::Unread;
use deny_cfg::Day;
use deny_krates::{Krates, MetadataFault};
use deny_rules::DupEdges;
use deny_spans::Registry;
use deny_toml::ConfigFault;
use thiserror::Error;

/// The texts that the gate reads, as bytes, and its other inputs.
#[derive(Drop)]
pub struct Inputs {
    pub policy: Vec<u8>,
    /// What `cargo metadata` printed.
    pub metadata: Vec<u8>,
    /// A table of what the standard library replaces, for policies that ask for one.
    pub replacements: Option<Vec<u8>>,
    /// The folder that the paths of package files are shown from, where they lie in it.
    pub home: Option<Text>,
    /// The registries that manifests can name; of one name the first counts.
    pub registries: List<Registry>,
    /// The day of which the policy is judged: entries whose last day is before it count nowhere. A policy whose
    /// entries have last days needs one.
    pub today: Option<Day>,
}

/// A finding: its check, the crate that it is about, if any, and its diagnostics.
#[derive(Drop)]
pub struct Finding {
    pub check: Check,
    pub kid: Option<Kid>,
    pub diag: Diag,
}

/// The verdict of a report. `Fail` holds the bits of the checks that have an error: 2 for the bans, 4 for
/// the licences, 6 for both.
#[derive(Clone, Copy)]
pub enum Verdict {
    Pass,
    Fail(u8),
}

/// The report of the gate.
#[derive(Drop)]
pub struct Report {
    /// The files that labels point into: the policy as `deny.toml`, the built-in globs of scripts as
    /// `builtin_globs.toml` where the policy asks for them, the lock text of the graph as
    /// `Cargo.lock` in the folder of the workspace, and each manifest that was read and is UTF-8, at
    /// its path: those of crates in the order of the graph, and behind them that of the workspace
    /// where it is no crate's.
    pub files: Files,
    /// The graph that was judged.
    pub krates: Krates,
    /// The findings, ascending by their keys, of which no two are equal.
    pub findings: List<Finding>,
    /// The edges above each duplicate, in the order of their findings.
    pub dup_edges: List<DupEdges>,
    /// What could not be read of manifests and packages, by crate, path and purpose, each once: an entry
    /// has the id of the crate, and none for the workspace's manifest where it is no crate's.
    pub unread: List<Unread>,
    /// The paths of manifests that were read and are no TOML in UTF-8 within its limits, in byte
    /// order, each once.
    pub malformed: List<Text>,
    /// A hit for each entry of the policy that is hit, by span and kind: its first crate in graph order,
    /// and then that crate's first dependent or file.
    pub hits: List<Hit>,
    /// The entries that a finding names as unused and that have no hit, by span and kind.
    pub dead: List<EntryId>,
    /// How many findings of each severity a check has: the bans check always, and the licence check where
    /// the policy writes `licenses`; no other check.
    pub stats: AllStats,
    pub verdict: Verdict,
}

/// Why the gate gives no report: the first of these that applies.
#[derive(Debug, Drop, Error)]
pub enum GateError {
    /// The policy's text has these faults, in order.
    #[error("the policy has faults")]
    Config(List<ConfigFault>),
    /// Entries of the policy clash. Labels lie in the policy's text, which is file 0.
    #[error("entries of the policy contradict each other")]
    Invalid(List<Diagnostic>),
    /// The metadata has no graph: its first fault, which is never out of memory.
    #[error("{0}")]
    Metadata(MetadataFault),
    /// The policy asks for a table of replacements, and there is none: 0 where no bytes came, and otherwise
    /// the byte offset of the first break in them.
    #[error("there is no table of replacements, or it breaks at byte {0}")]
    Replacement(usize),
    /// Memory ran out.
    #[error("memory ran out")]
    Memory,
}

impl From<NoMemory> for GateError {
    ghost use Rattle.std.specs.Prelude.{◌≡◌};
    ghost use Rattle.deny_gate.specs.declared.report.GateError.TheVariants.{Memory};

    ghost from_gives = { λ _ e. e ≡ Memory };

    fn from(_error: NoMemory) -> GateError {
        GateError::Memory
    }
}
