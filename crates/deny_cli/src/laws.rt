//! The law on the lines of a report. Its body does nothing; its clause is what is proved.
ghost use Rattle.deny_cli.specs.Lines.{lines};
ghost use Rattle.deny_cli.specs.Values.{AreNumbers, report_values};
ghost use Rattle.deny_gate.specs.declared.report.Report.{Report};
ghost use Rattle.deny_gate_json.specs.Reading.{AreJsonLines};

/// The lines of a report are JSON, a value a line: split at newlines they are the texts of the report's
/// values, and of each text the grammar reads this value, however deep its trees nest, and `serde_json`
/// reads it where it nests no deeper than 127 levels.
pub fn lines_are_json()
    ensures { (report : Report) → AreNumbers report → AreJsonLines (lines report) (report_values report) }
{}
