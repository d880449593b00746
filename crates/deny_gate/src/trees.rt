//! The trees that a report shows with a finding.
ghost use Rattle.std.specs.Prelude.{◌≡◌, IfOk};
ghost use Rattle.deny_krates_trees.specs.Shown.{graphs_shown};

use crate::report::{Finding, Report};
use deny_base_lists::{List, NoMemory};
use deny_krates_trees::grapher::GraphNode;
use deny_krates_trees::{InclusionGrapher, graphs_of};
use std::alloc::Global;

impl Report {
    /// The trees that lead to what a finding of the report is about, as its line has them. They are made when
    /// they are asked for: those of all findings at once would take memory with the square of the graph.
    /// `NoMemory` where an allocation fails.
    pub fn graphs_shown(
        &self,
        alloc: Global,
        finding: &Finding,
    ) -> Result<List<GraphNode>, NoMemory>
        ensures { IfOk result (λ trees. trees ≡ graphs_shown self.now.krates finding.now.kid finding.now.diag) }
    {
        let grapher = InclusionGrapher::new(&self.krates);
        graphs_of(alloc, &grapher, finding.kid.as_ref(), &finding.diag)
    }
}
