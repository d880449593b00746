//! The crates of a graph that a table of replacements replaces.
ghost use Rattle.std.specs.Prelude.{◌≡◌, OnErr, OnOk};
ghost use Rattle.deny_spec_report.specs.Circumstances.{Circumstances};
ghost use Rattle.deny_spec_report.specs.Saying.{Saying};
ghost use Rattle.deny_spec_report.specs.StdReplacements.{ignore_hits};
ghost use Rattle.deny_spec.specs.Graph.{Graph};
ghost use Rattle.deny_spec.specs.Policy.{Replacing};
ghost use Rattle.deny_std.specs.Found.{IsFoundFrom, IsFoundIn, ReportsStd, ReportsStdPrefix};

use crate::diags::{Unmatched, report_replaced, report_unmatched};
use deny_base::{FileId, Hit, LintLevel, Pack};
use deny_base_lists::{List, NoMemory};
use deny_krates::Krates;
use deny_std_table::ReplacementData;
use std::alloc::Global;

/// The crates of a graph that the standard library replaces, and the ignores that they hit.
#[derive(Drop)]
pub struct Replacements<'d> {
    pub(crate) table: ReplacementData<'d>,
    pub(crate) level: LintLevel,
    pub(crate) unmatched: List<Unmatched>,
    pub(crate) replaced: List<u32>,
    pub(crate) hits: List<Hit>,
}

impl<'d> Replacements<'d> {
    /// The hits of the ignores, in the policy's order, each by the first crate in graph order.
    pub fn hits(&self) -> &[Hit]
        ensures { (r : Replacing) → (g : Graph) → (said : Saying) → IsFoundFrom r g said self.now
            → result.now ≡ ignore_hits r g said }
    {
        self.hits.as_slice()
    }

    /// Appends one pack for each ignore that was not hit, and then one for each replaced crate,
    /// in the order of their keys. `krates` has to be the graph that this was found in, and `id`
    /// the policy's file.
    ///
    /// Where memory runs out, a prefix of the packs was appended, which may be empty.
    pub fn emit_diagnostics(
        self,
        alloc: Global,
        krates: &Krates,
        sink: &mut List<Pack>,
        id: FileId,
    ) -> Result<(), NoMemory>
        ensures reported { OnOk result ((c : Circumstances) → c.graph ≡ krates.now
            → IsFoundIn c id self.entry
            → ReportsStd c sink.old sink.new) }
        ensures prefix { OnErr result ((c : Circumstances) → c.graph ≡ krates.now
            → IsFoundIn c id self.entry
            → ReportsStdPrefix c sink.old sink.new) }
    {
        self.report(alloc, krates, sink, id)
    }

    /// Appends the packs, as `emit_diagnostics`, of what is kept.
    fn report(
        &self,
        alloc: Global,
        krates: &Krates,
        sink: &mut List<Pack>,
        id: FileId,
    ) -> Result<(), NoMemory>
        ensures reported { OnOk result ((c : Circumstances) → c.graph ≡ krates.now
            → IsFoundIn c id self.now
            → ReportsStd c sink.old sink.new) }
        ensures prefix { OnErr result ((c : Circumstances) → c.graph ≡ krates.now
            → IsFoundIn c id self.now
            → ReportsStdPrefix c sink.old sink.new) }
    {
        report_unmatched(alloc, self.unmatched.as_slice(), id, sink)?;
        report_replaced(
            alloc,
            &self.table,
            self.level,
            krates,
            self.replaced.as_slice(),
            sink,
        )
    }
}
