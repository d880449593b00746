ghost use Rattle.std.specs.Prelude.{◌≡◌, ◌==◌, ◌≤◌, ℕ, All, List, [], Some, IfOk, IfErr, not, option_map};
ghost use Rattle.std.specs.List.{list_any};
ghost use Rattle.deny_base.specs.declared.check.Which.TheVariants.{Replacements};
ghost use Rattle.deny_base_disk.specs.Count.{Rose};
ghost use Rattle.deny_base_disk.specs.Disk.{Disk, IsLater};
ghost use Rattle.deny_gate.specs.Gating.{AreShort, IsCausedReport, IsReportOf, texts_in};
ghost use Rattle.deny_gate.specs.Labels.{AreLabelled};
ghost use Rattle.deny_gate.specs.Report.{has_error};
ghost use Rattle.deny_cli.specs.Causes.{IsCausedForCommand, IsCausedForArguments, AreInputsOf, ComesBy};
ghost use Rattle.deny_cli.specs.private.Causes.{StopsRun, StopsCommand};
ghost use Rattle.deny_cli.specs.Causes.{IsHeadlineOn, CanDoWithoutDeadOn, IsReadAt, IsReadIfNamed};
ghost use Rattle.deny_cli.specs.private.Causes.{IsReadStop};
ghost use Rattle.deny_cli.specs.Causes.{IsReportOfCommand, IsReportOfArguments, IsValidRun, IsRefusedRun, IsReadable};
ghost use Rattle.deny_cli.specs.Causes.{IsTextOfClashes, made_files, made_inputs};
ghost use Rattle.deny_cli.specs.private.Causes.{IsGateStop, end_stop};
ghost use Rattle.deny_cli.specs.private.Commands.{check_view, command_view};
ghost use Rattle.deny_cli.specs.Outcome.{IfDone, IfReported, IsUsage, IsDoneOrMemory};
ghost use Rattle.deny_cli.specs.Outcome.{IsStopOrMemory, failing_bits, status_of};
ghost use Rattle.deny_cli.specs.declared.outcome.Outcome.{Outcome};
ghost use Rattle.deny_cli.specs.private.Stops.{IsTextOf};
ghost use Rattle.deny_cli.specs.Outputs.{LeavesOut, LeavesErr, PutsLine};
ghost use Rattle.deny_cli.specs.private.Outputs.{WritesReport};
ghost use Rattle.deny_cli.specs.Values.{ReportsJson, answer_values, values_for};
ghost use Rattle.deny_gate_json.specs.Reading.{IsPlain};
ghost use Rattle.deny_cli.specs.Arguments.{check, generate, texts, Asks, IsAccepted, asked_by, most_crates};
ghost use Rattle.deny_cli.specs.private.Arguments.{AsksForFew};

use crate::arguments::{CheckArguments, Command, read_arguments};
use crate::outcome::{Ended, Outcome};
use crate::registries::registries_in;
use crate::stops::{memory_line, stop_line};
use crate::summary::answer_lines;
use deny_base::Which;
use deny_base_disk::{Out, OutFault, PackageFiles, ReadEnd, read_whole};
use deny_base_lists::{List, NoMemory, Text};
use deny_cli_generator::{disk_of, metadata_of, policy_of};
use deny_gate::{Inputs, Report, gate};
use std::alloc::Global;

/// The outcome of a run, and the policy's text, in which the labels of clashes lie; it is empty where it
/// was not read, or is not needed any more.
#[derive(Drop)]
struct RunResult {
    outcome: Outcome,
    policy: Vec<u8>,
}

/// A command, and the report on it.
#[derive(Drop)]
struct Answer<'w> {
    command: Command<'w>,
    report: Report,
}

/// The stop of an input that was not read to its end.
fn end_stop(which: Which, end: ReadEnd) -> Outcome
    ensures { result ≡ end_stop which end }
{
    match end {
        ReadEnd::Fault => Outcome::Read(which),
        ReadEnd::Long => Outcome::Long(which),
        ReadEnd::Memory => Outcome::Memory,
    }
}

/// A result without the policy's text.
fn without_policy(alloc: Global, outcome: Outcome) -> RunResult
    ensures outcome { result.outcome ≡ outcome }
    ensures policy { result.policy.items ≡ [] }
{
    RunResult {
        outcome,
        policy: Vec::new(alloc),
    }
}

/// The input at a path of a command, or the outcome of the run.
fn read_text<D: PackageFiles>(
    alloc: Global,
    which: Which,
    path: &str,
    disk: &mut D,
) -> Result<Vec<u8>, Outcome>
    ensures read { IfOk result (λ text. IsReadAt (D.seen disk.old) path.now text.items) }
    ensures stop { IfErr result (IsReadStop (D.seen disk.old) (D.seen disk.new) which path.now) }
    ensures later { IsLater (D.seen disk.old) (D.seen disk.new) }
{
    match read_whole(alloc, disk, path) {
        Ok(text) => Ok(text),
        Err(end) => Err(end_stop(which, end)),
    }
}

/// The table of replacements that a check names, if it names one, or the outcome of the run.
fn read_replacements<D: PackageFiles>(
    alloc: Global,
    asked: CheckArguments<'_>,
    disk: &mut D,
) -> Result<Option<Vec<u8>>, Outcome>
    ensures read { IfOk result (λ table. IsReadIfNamed (D.seen disk.old) (check_view asked.entry).replacements
        (option_map (λ bytes. bytes.items) table)) }
    ensures stop { IfErr result (λ outcome. (path : List ℕ)
        × ((check_view asked.entry).replacements ≡ Some path)
        × IsReadStop (D.seen disk.old) (D.seen disk.new) Replacements path outcome) }
    ensures later { IsLater (D.seen disk.old) (D.seen disk.new) }
{
    match asked.replacements {
        Some(path) => match read_text(alloc, Which::Replacements, path, disk) {
            Ok(table) => Ok(Some(table)),
            Err(outcome) => Err(outcome),
        },
        None => Ok(None),
    }
}

/// The home that a check names.
fn asked_home(alloc: Global, asked: CheckArguments<'_>) -> Result<Option<Text>, NoMemory>
    ensures { IfOk result (λ home. home ≡ (check_view asked.entry).home) }
{
    match asked.home {
        Some(path) => Ok(Some(Text::from_str(alloc, path)?)),
        None => Ok(None),
    }
}

/// The inputs of the gate: these texts, and what else a check names.
fn inputs_with(
    alloc: Global,
    asked: CheckArguments<'_>,
    policy: Vec<u8>,
    metadata: Vec<u8>,
    replacements: Option<Vec<u8>>,
) -> Result<Inputs, NoMemory>
    ensures { IfOk result (λ inputs. texts_in inputs ≡ record {
      policy = policy.items;
      metadata = metadata.items;
      replacements = option_map (λ bytes. bytes.items) replacements;
      home = (check_view asked.entry).home;
      registries = (check_view asked.entry).registries;
      today = (check_view asked.entry).today;
    }) }
{
    let home = asked_home(alloc, asked)?;
    let registries = registries_in(alloc, asked.arguments)?;
    Ok(Inputs {
        policy,
        metadata,
        replacements,
        home,
        registries,
        today: asked.today,
    })
}

/// The inputs of a check, or the outcome of the run. An input is read once those before it are.
fn read_inputs<D: PackageFiles>(
    alloc: Global,
    asked: CheckArguments<'_>,
    disk: &mut D,
) -> Result<Inputs, Outcome>
    ensures read { IfOk result (λ inputs.
        AreInputsOf (D.seen disk.old) (check (check_view asked.entry)) (texts_in inputs)) }
    ensures stop { IfErr result (λ outcome.
        StopsCommand (D.seen disk.old) (D.seen disk.new) (check (check_view asked.entry)) outcome []) }
    ensures later { IsLater (D.seen disk.old) (D.seen disk.new) }
{
    let policy = read_text(alloc, Which::Policy, asked.policy, disk)?;
    let metadata = read_text(alloc, Which::Metadata, asked.metadata, disk)?;
    let replacements = read_replacements(alloc, asked, disk)?;
    match inputs_with(alloc, asked, policy, metadata, replacements) {
        Ok(inputs) => Ok(inputs),
        Err(NoMemory) => Err(Outcome::Memory),
    }
}

/// The report on inputs, or the result of the run.
fn report_on_inputs<D: PackageFiles>(
    alloc: Global,
    inputs: Inputs,
    disk: &mut D,
) -> Result<Report, RunResult>
    requires { AreShort (texts_in inputs) }
    ensures report { IfOk result (IsReportOf (D.seen disk.old).files (texts_in inputs)) }
    ensures caused { IfOk result (IsCausedReport (D.seen disk.old) (D.seen disk.new) (texts_in inputs)) }
    ensures labels { IfOk result (λ report. AreLabelled report.files report.findings) }
    ensures stop { IfErr result (λ run_result. IsGateStop (texts_in inputs) run_result.outcome) }
    ensures policy { IfErr result (λ run_result. run_result.policy.items ≡ inputs.policy.items) }
    ensures later { IsLater (D.seen disk.old) (D.seen disk.new) }
{
    match gate(alloc, &inputs, disk) {
        Ok(report) => Ok(report),
        Err(error) => Err(RunResult {
            outcome: Outcome::Gate(error),
            policy: inputs.policy,
        }),
    }
}

/// The inputs that are generated for so many crates.
fn made_inputs(alloc: Global, crates: u32) -> Result<Inputs, NoMemory>
    ensures { IfOk result (λ inputs. texts_in inputs ≡ made_inputs crates) }
{
    let policy = policy_of(alloc, crates)?;
    let metadata = metadata_of(alloc, crates)?;
    Ok(Inputs {
        policy: Vec::from_slice(alloc, policy.as_str().as_bytes())?,
        metadata: Vec::from_slice(alloc, metadata.as_str().as_bytes())?,
        replacements: None,
        home: None,
        registries: List::new(alloc),
        today: None,
    })
}

/// The report on so many generated crates, or the result of the run. It is made on a generated disk.
fn made_report(alloc: Global, crates: u32) -> Result<Report, RunResult>
    requires { crates ≤ most_crates }
    ensures report { IfOk result (IsReportOf (Some made_files) (made_inputs crates)) }
    ensures caused { IfOk result (λ report. report.unread ≡ []) }
    ensures labels { IfOk result (λ report. AreLabelled report.files report.findings) }
    ensures stop { IfErr result (λ run_result. (old new : Disk)
        → StopsCommand old new (generate crates) run_result.outcome run_result.policy.items) }
{
    let Ok(inputs) = made_inputs(alloc, crates) else {
        return Err(without_policy(alloc, Outcome::Memory));
    };
    let Ok(mut disk) = disk_of(alloc) else {
        return Err(without_policy(alloc, Outcome::Memory));
    };
    report_on_inputs(alloc, inputs, &mut disk)
}

/// The report on the inputs of a command, or the result of the run.
fn report_for_command<D: PackageFiles>(
    alloc: Global,
    command: Command<'_>,
    disk: &mut D,
) -> Result<Report, RunResult>
    requires { AsksForFew (command_view command) }
    ensures report { IfOk result (IsReportOfCommand (D.seen disk.old) (command_view command.entry)) }
    ensures caused { IfOk result (IsCausedForCommand (D.seen disk.old) (D.seen disk.new) (command_view command.entry)) }
    ensures labels { IfOk result (λ report. AreLabelled report.files report.findings) }
    ensures stop { IfErr result (λ run_result. StopsCommand (D.seen disk.old) (D.seen disk.new)
        (command_view command.entry) run_result.outcome run_result.policy.items) }
    ensures later { IsLater (D.seen disk.old) (D.seen disk.new) }
    ensures untouched { (crates : ℕ) → command_view command.entry ≡ generate crates
        → disk.new ≡ disk.old }
{
    match command {
        Command::Check(asked) => match read_inputs(alloc, asked, disk) {
            Ok(inputs) => report_on_inputs(alloc, inputs, disk),
            Err(outcome) => Err(without_policy(alloc, outcome)),
        },
        Command::Generate(crates) => made_report(alloc, crates),
    }
}

/// The command of arguments and the report on it, or the result of the run.
fn answer_to<'w, D: PackageFiles>(
    alloc: Global,
    arguments: &'w [String],
    disk: &mut D,
) -> Result<Answer<'w>, RunResult>
    ensures asks { IfOk result (λ answer. Asks (texts arguments.now) (command_view answer.command)) }
    ensures report { IfOk result (λ answer.
        IsReportOfArguments (D.seen disk.old) (texts arguments.now) answer.report) }
    ensures caused { IfOk result (λ answer.
        IsCausedForArguments (D.seen disk.old) (D.seen disk.new) (texts arguments.now) answer.report) }
    ensures labels { IfOk result (λ answer. AreLabelled answer.report.files answer.report.findings) }
    ensures stop { IfErr result (λ run_result.
        StopsRun (D.seen disk.old) (D.seen disk.new) (texts arguments.now) run_result.outcome) }
    ensures policy { IfErr result (λ run_result.
        IsTextOfClashes (D.seen disk.old) (texts arguments.now) run_result.outcome run_result.policy.items) }
    ensures later { IsLater (D.seen disk.old) (D.seen disk.new) }
    ensures untouched { (crates : ℕ) → Asks (texts arguments.now) (generate crates) → disk.new ≡ disk.old }
{
    let command = match read_arguments(alloc, arguments) {
        Ok(command) => command,
        Err(at) => return Err(without_policy(alloc, Outcome::Usage(at))),
    };
    match report_for_command(alloc, command, disk) {
        Ok(report) => Ok(Answer { command, report }),
        Err(run_result) => Err(run_result),
    }
}

/// Writes what a command writes of its report, all at once.
fn write_answer<W: Out>(alloc: Global, answer: Answer<'_>, out: &mut W) -> Outcome
    ensures wrote { WritesReport W.written W.faults out.old out.new
        (command_view answer.entry.command) answer.entry.report result }
    ensures plain { IfReported result (λ report.
        All IsPlain (answer_values (command_view answer.entry.command) report)) }
{
    match answer_lines(alloc, answer.command, &answer.report) {
        Ok(text) => match out.put(text.as_str().as_bytes()) {
            Ok(()) => Outcome::Done(answer.report),
            Err(OutFault) => Outcome::Write(answer.report),
        },
        Err(NoMemory) => {
            drop(answer);
            Outcome::Memory
        }
    }
}

/// The result of a run, before a stop is reported.
fn result_of<D: PackageFiles, W: Out>(
    alloc: Global,
    arguments: &[String],
    disk: &mut D,
    out: &mut W,
) -> RunResult
    ensures cause { ComesBy (D.seen disk.old) (D.seen disk.new) (texts arguments.now) result.outcome }
    ensures caused { IfReported result.outcome
        (IsCausedForArguments (D.seen disk.old) (D.seen disk.new) (texts arguments.now)) }
    ensures labels { IfReported result.outcome (λ report. AreLabelled report.files report.findings) }
    ensures policy { IsTextOfClashes (D.seen disk.old) (texts arguments.now) result.outcome result.policy.items }
    ensures out { LeavesOut W.written W.faults out.old out.new (asked_by (texts arguments.now)) result.outcome }
    ensures plain { IfReported result.outcome (λ report.
        All IsPlain (values_for (asked_by (texts arguments.now)) report)) }
    ensures later { IsLater (D.seen disk.old) (D.seen disk.new) }
    ensures untouched { (crates : ℕ) → Asks (texts arguments.now) (generate crates) → disk.new ≡ disk.old }
{
    match answer_to(alloc, arguments, disk) {
        Ok(answer) => without_policy(alloc, write_answer(alloc, answer, out)),
        Err(run_result) => run_result,
    }
}

/// Writes one line. A failing output changes nothing else.
fn put_line<E: Out>(line: &str, err: &mut E)
    ensures { PutsLine E.written E.faults err.old err.new line.now }
{
    let _ = err.put(line.as_bytes());
}

/// Reports why a run stopped; of a run that is done nothing is reported.
fn report_stop<E: Out>(alloc: Global, outcome: &Outcome, policy: &[u8], err: &mut E)
    requires { IsTextOf outcome.now policy.now }
    ensures { LeavesErr E.written E.faults err.old err.new outcome.now policy.now }
{
    if let Outcome::Done(_) = outcome {
        return;
    }
    match stop_line(alloc, outcome, policy) {
        Ok(line) => put_line(line.as_str(), err),
        Err(NoMemory) => put_line(memory_line(), err),
    }
}

/// Runs the program on these arguments, without the program's own name: `check [OPTION].. POLICY METADATA
/// [REPLACEMENTS]`, or `generate N` with N from 0 to 20000.
///
/// An option `--registry=NAME=ADDRESS` names a registry for the manifests of a workspace: the first `=`
/// behind the prefix divides the two, and neither is empty. There may be any number, and of one name the
/// first counts. An option `--home=PATH` names the folder that the paths of package files are shown from;
/// it is not empty, and stands at most once. An option `--today=DAY` names the day of which the policy is
/// judged, as `2026-01-31`: a day of the calendar, at most once. No other option is accepted.
///
/// For a check the inputs at these paths are read from `disk`, in this order, then the manifests of the
/// graph, and then what the policy asks of packages; the lines of the report go to `out`. For `generate N`
/// a policy and the metadata of N crates are generated, the report on them is made on a disk of its own,
/// and one line that sums it up goes to `out`. What goes to `out` goes there in one piece, and the one line
/// of a stop to `err`; a failing `err` changes nothing else.
///
/// The order of the causes is: arguments, reading the policy, its length, reading the metadata, its length,
/// the same of the table of replacements where one is named, the error of the gate for them (in the same
/// order), the output. Out of memory can come at any point but the first. A manifest or a file of a package
/// that cannot be read is no cause: the report lists it.
pub fn run<D: PackageFiles, W: Out, E: Out>(
    alloc: Global,
    arguments: &[String],
    disk: &mut D,
    out: &mut W,
    err: &mut E,
) -> Ended
    // Each outcome comes by its cause alone: a report is that of the inputs and files that were read.
    ensures cause { ComesBy (D.seen disk.old) (D.seen disk.new) (texts arguments.now) result.outcome }
    ensures usage { (¬ IsAccepted (texts arguments.now)) → IsUsage result.outcome }
    // Valid inputs end with a report, unless reading an input or writing the output fails.
    ensures completes { IsValidRun (D.seen disk.old) (texts arguments.now)
        → IsReadable (D.seen disk.old) (D.seen disk.new) (texts arguments.now)
        → (¬ Rose (W.faults out.old) (W.faults out.new))
        → IsDoneOrMemory result.outcome }
    // Generated inputs end with a report, whatever the disk is, unless writing the output fails.
    ensures generates { (crates : ℕ) → Asks (texts arguments.now) (generate crates)
        → (¬ Rose (W.faults out.old) (W.faults out.new))
        → IsDoneOrMemory result.outcome }
    // Inputs that are too long, or that the gate refuses, end with their stop, unless reading an input
    // fails.
    ensures refuses { (stop : Outcome)
        → IsRefusedRun (D.seen disk.old) (texts arguments.now) stop
        → IsReadable (D.seen disk.old) (D.seen disk.new) (texts arguments.now)
        → IsStopOrMemory stop result.outcome }

    // What is reported at level deny is exactly what violates a rule without cover.
    ensures headline { IfReported result.outcome (IsHeadlineOn (D.seen disk.old) (texts arguments.now)) }
    // Dead entries can go, as long as no list of wrappers is emptied: the report without them is the same,
    // except for what names one of them as unused.
    ensures dead_can_go { IfReported result.outcome
        (CanDoWithoutDeadOn (D.seen disk.old) (texts arguments.now)) }
    // What is listed as unread was not read by a bound or by a failed call, and at least as many calls
    // failed as no bound explains.
    ensures caused { IfReported result.outcome
        (IsCausedForArguments (D.seen disk.old) (D.seen disk.new) (texts arguments.now)) }
    ensures labels { IfReported result.outcome (λ report. AreLabelled report.files report.findings) }

    ensures status { result.status ≡ status_of result.outcome }
    // A run that is done fails exactly where a finding is an error.
    ensures fails { IfDone result.outcome (λ report.
        not (result.status == 0) ≡ list_any has_error report.findings) }
    // The status of a run that is done is 2 where the bans check has an error, 4 where the licence check
    // has one, and their sum where both have.
    ensures bits { IfDone result.outcome (λ report. result.status ≡ failing_bits report.findings) }

    ensures out { LeavesOut W.written W.faults out.old out.new (asked_by (texts arguments.now)) result.outcome }
    // What is written of a report is a value a line: split at its newlines it is the texts of these values,
    // and each of them is read back as its value, by the grammar of JSON and by `serde_json`.
    ensures json { IfReported result.outcome (ReportsJson (texts arguments.now)) }
    ensures err { (policy : List ℕ) × IsTextOfClashes (D.seen disk.old) (texts arguments.now) result.outcome policy
        × LeavesErr E.written E.faults err.old err.new result.outcome policy }
    ensures later { IsLater (D.seen disk.old) (D.seen disk.new) }
    // Generated crates are checked on a generated disk.
    ensures untouched { (crates : ℕ) → Asks (texts arguments.now) (generate crates) → disk.new ≡ disk.old }
{
    deny_cfg::one_policy();
    deny_gate::headline();
    deny_gate::dead_can_go();
    deny_gate::one_answer();
    deny_cli_generator_laws::made_policies();
    deny_cli_generator_laws::made_metadata();
    let run_result = result_of(alloc, arguments, disk, out);
    report_stop(
        alloc,
        &run_result.outcome,
        run_result.policy.as_slice(),
        err,
    );
    Ended {
        status: run_result.outcome.status(),
        outcome: run_result.outcome,
    }
}
