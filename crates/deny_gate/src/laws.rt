//! Laws that follow from the contract of the gate.
ghost use Rattle.std.specs.Prelude.{◌≡◌, ◌≢◌, List, [], None, Option, Some};
ghost use Rattle.deny_base.specs.declared.entry.EntryId.{EntryId};
ghost use Rattle.deny_spec.specs.declared.package.Package.{Package};
ghost use Rattle.deny_cfg.specs.PolicyView.{building_of};
ghost use Rattle.deny_spec_report.specs.Circumstances.{Circumstances};
ghost use Rattle.deny_spec_report.specs.Saying.{HasTable};
ghost use Rattle.deny_spec_removal.specs.Dead.{AreAmong};
ghost use Rattle.deny_spec_removal.specs.Removal.{EmptyNone, HaveNoHit, without_in};
ghost use Rattle.deny_spec.specs.View.{View};
ghost use Rattle.deny_base_disk.specs.Disk.{Files};
ghost use Rattle.deny_build_scan.specs.Failures.{failures_in};
ghost use Rattle.deny_gate.specs.Dead.{CanDoWithoutDead, CanDoWithoutUnhit, LosesOnly};
ghost use Rattle.deny_gate.specs.Gating.{AreAlikeUnseen, AreOneCause, AreReportedAlike, AsksForTable, HasGraph};
ghost use Rattle.deny_gate.specs.Gating.{HasPolicy, IsCause, IsReportBy, IsReportOf, InputTexts};
ghost use Rattle.deny_gate.specs.Headline.{IsHeadlineOf};
ghost use Rattle.deny_gate.specs.Report.{IsReport};
ghost use Rattle.deny_gate.specs.Stats.{code_of, exit_code};
ghost use Rattle.deny_gate.specs.declared.report.GateError.{GateError};
ghost use Rattle.deny_gate.specs.declared.report.GateError.TheVariants as gate;
ghost use Rattle.deny_gate.specs.declared.report.Report.{Report};

/// Inputs have one answer, except for out of memory: a policy, a graph and the table that the policy asks
/// for give no error, and other inputs give one error.
pub fn one_answer()
    ensures cause { (texts : InputTexts) → (a b : GateError) → a ≢ gate.Memory → b ≢ gate.Memory
        → IsCause texts a → IsCause texts b → AreOneCause a b }
    ensures valid { (texts : InputTexts) → (error : GateError) → error ≢ gate.Memory
        → HasPolicy texts.today texts.policy → HasGraph texts.metadata
        → (AsksForTable texts.today texts.policy → HasTable texts.replacements) → IsCause texts error → ⊥ }
{
    deny_cfg::one_refusal();
}

/// Inputs have one report on a disk that tells its files, as far as what could not be read is the same, and
/// how that failed of packages; where the policy says nothing of builds, nothing of packages can fail. On
/// every disk one view of manifests and one of packages give the same findings, and findings that depend on
/// no files are the same for all views.
pub fn one_report()
    ensures one { (files : Files) → (texts : InputTexts) → (a b : Report)
        → (this : IsReportOf (Some files) texts a) → (that : IsReportOf (Some files) texts b)
        → a.unread ≡ b.unread → failures_in this.packages ≡ failures_in that.packages → a ≡ b }
    ensures by_view { (told other : Option Files) → (texts : InputTexts) → (view : View) → (packages : List Package)
        → (a b : Report) → IsReportBy told texts view packages a → IsReportBy other texts view packages b
        → AreReportedAlike a b }
    // Where the policy says nothing of builds, no package is walked.
    ensures unbuilt { (told : Option Files) → (texts : InputTexts) → (report : Report)
        → (of : IsReportOf told texts report) → building_of of.by.said.bans ≡ None → failures_in of.packages ≡ [] }
    ensures unseen { (told other : Option Files) → (texts : InputTexts) → (a b : Report)
        → IsReportOf told texts a → IsReportOf other texts b → AreAlikeUnseen a b }
{
    deny_spec_report::one_report();
    deny_spec_report::one_unseen();
    deny_spec_report::message_unseen();
    deny_cfg::one_policy();
    deny_build_scan::one_sight();
}

/// The report of any inputs has the properties of the headline.
pub fn headline()
    ensures { (told : Option Files) → (texts : InputTexts) → (report : Report)
        → IsReportOf told texts report → IsHeadlineOf texts report }
{}

/// Any entries without a hit in a report can go, reported as unused or not, as long as no list of wrappers is
/// emptied. The report of the policy without them has the same keys with the same severities, except for those
/// that name one of them as unused, and the same hits.
pub fn unhit_can_go()
    ensures texts { (told : Option Files) → (texts : InputTexts) → (report : Report)
        → IsReportOf told texts report → CanDoWithoutUnhit told texts report }
    ensures reports { (c : Circumstances) → (taken : List EntryId) → (report other : Report)
        → IsReport c report → HaveNoHit report.hits taken → EmptyNone c.policy taken
        → IsReport (without_in c taken) other → LosesOnly taken report other }
{
    deny_base::entry_order();
    deny_spec_report::one_report();
    deny_spec_removal::entries_can_go();
    deny_spec_removal::packages_stay();
}

/// Any of a report's dead entries can go, as long as no list of wrappers is emptied: they have no hit.
pub fn dead_can_go()
    ensures texts { (told : Option Files) → (texts : InputTexts) → (report : Report)
        → IsReportOf told texts report → CanDoWithoutDead told texts report }
    ensures reports { (c : Circumstances) → (taken : List EntryId) → (report other : Report)
        → IsReport c report → AreAmong report.dead taken → EmptyNone c.policy taken
        → IsReport (without_in c taken) other → LosesOnly taken report other }
{
    unhit_can_go();
}

/// The code that a program exits with, by the counts of a report, is that of its verdict: there is one
/// exactly where the report fails, and it is the bits of the verdict.
pub fn exit_codes()
    ensures { (told : Option Files) → (texts : InputTexts) → (report : Report) → IsReportOf told texts report
        → exit_code report.stats ≡ code_of report.verdict }
{}
