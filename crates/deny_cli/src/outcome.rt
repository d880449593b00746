ghost use Rattle.std.specs.Prelude.{◌≡◌, ◌<◌, ◌^◌};
ghost use Rattle.deny_cli.specs.Outcome.{bits_of, status_of};

use deny_base::Which;
use deny_gate::{GateError, Report, Verdict};

/// The outcome of a run.
#[derive(Drop)]
pub enum Outcome {
    /// The report was written whole.
    Done(Report),
    /// The arguments are not accepted: no accepted list goes on at the argument of this index, or the
    /// arguments end too early, and this is how many there are.
    Usage(usize),
    /// Reading this input failed.
    Read(Which),
    /// This input has 2^28 bytes or more.
    Long(Which),
    /// The gate gave no report.
    Gate(GateError),
    /// The output took only the first bytes of this report's lines.
    Write(Report),
    /// Memory ran out.
    Memory,
}

impl Outcome {
    /// The status that a program ends with: the bits of the verdict where the run is done, and otherwise 16
    /// for the arguments, 17 for reading, 18 for an input that is too long, 19 for faults of the policy, 20
    /// for entries of it that clash, 21 for a fault of the metadata, 22 for a table of replacements that is
    /// asked for and not there, 23 for writing, 24 for memory.
    pub fn status(&self) -> u8
        ensures { result ≡ status_of self.now }
    {
        match self {
            Outcome::Done(report) => bits(report.verdict),
            Outcome::Usage(_) => 16,
            Outcome::Read(_) => 17,
            Outcome::Long(_) => 18,
            Outcome::Gate(GateError::Config(_)) => 19,
            Outcome::Gate(GateError::Invalid(_)) => 20,
            Outcome::Gate(GateError::Metadata(_)) => 21,
            Outcome::Gate(GateError::Replacement(_)) => 22,
            Outcome::Write(_) => 23,
            Outcome::Gate(GateError::Memory) | Outcome::Memory => 24,
        }
    }
}

/// A bit for each check that has an error.
pub(crate) fn bits(verdict: Verdict) -> u8
    ensures bits { result ≡ bits_of verdict }
    ensures fits { bits_of verdict < 2 ^ 64 }
{
    match verdict {
        Verdict::Pass => 0,
        Verdict::Fail(bits) => bits,
    }
}

/// The outcome of a run, and the status that the program ends with.
#[derive(Drop)]
pub struct Ended {
    pub status: u8,
    pub outcome: Outcome,
}
