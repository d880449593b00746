//! The status of a run, for a program that needs nothing else of it.
ghost use Rattle.std.specs.Prelude.{◌≡◌, ℕ, List};
ghost use Rattle.deny_cli.specs.Causes.{ComesBy, IsTextOfClashes};
ghost use Rattle.deny_cli.specs.Outcome.{status_of};
ghost use Rattle.deny_cli.specs.Outputs.{LeavesErr, LeavesOut};
ghost use Rattle.deny_cli.specs.Arguments.{asked_by, texts};
ghost use Rattle.deny_cli.specs.declared.outcome.Outcome.{Outcome};

use crate::program::run;
use deny_base_disk::{Out, PackageFiles};
use std::alloc::Global;

/// Runs the program on these arguments, as `run` does, and gives the status that it ends with.
pub fn status_of_run<D: PackageFiles, W: Out, E: Out>(
    alloc: Global,
    arguments: &[String],
    disk: &mut D,
    out: &mut W,
    err: &mut E,
) -> u8
    // The status is that of an outcome, which has its cause and leaves its results in the outputs.
    ensures { (outcome : Outcome) × (result ≡ status_of outcome)
        × ComesBy (D.seen disk.old) (D.seen disk.new) (texts arguments.now) outcome
        × LeavesOut W.written W.faults out.old out.new (asked_by (texts arguments.now)) outcome
        × ((policy : List ℕ) × IsTextOfClashes (D.seen disk.old) (texts arguments.now) outcome policy
        × LeavesErr E.written E.faults err.old err.new outcome policy) }
{
    let ended = run(alloc, arguments, disk, out, err);
    let status = ended.status;
    // Dropped by a call: that each variant can be dropped is proved once for the type, and not here again.
    drop(ended);
    status
}
