//! Laws on reading the lines as JSON, with empty bodies.
ghost use Rattle.std.specs.Prelude.{All, List};
ghost use Rattle.std.specs.List.{flat_map};
ghost use Rattle.serde_json.specs.Data.{Data};
ghost use Rattle.serde_json.specs.Written.{compact_text};
ghost use Rattle.deny_base.specs.declared.files.File.{File};
ghost use Rattle.deny_base.specs.declared.finding.Diagnostic.{Diagnostic};
ghost use Rattle.deny_krates_trees.specs.declared.node.GraphNode.{GraphNode};
ghost use Rattle.deny_gate_json.specs.Diagnostics.{diagnostic_value};
ghost use Rattle.deny_gate_json.specs.Findings.{finding_value};
ghost use Rattle.deny_gate_json.specs.Lines.{line};
ghost use Rattle.deny_gate_json.specs.Reading.{AreJsonLines, AreShort, IsJsonOf, IsPlain};

/// The text of a value whose keys ascend, with whole numbers of 64 bits alone, is that value in JSON.
pub fn text_is_json()
    ensures { (value : Data) → IsPlain value → IsJsonOf (compact_text value) value }
{}

/// The lines of plain values, split at their newlines, are the texts of these values, each of which is its value in
/// JSON: no text contains a newline.
pub fn lines_are_json()
    ensures { (values : List Data) → All IsPlain values → AreJsonLines (flat_map line values) values }
{}

/// The values of a diagnostic and of a finding with its trees are plain, where labels are in files of less than
/// 2^63 bytes.
pub fn findings_are_plain()
    ensures diagnostic { (files : List File) → (d : Diagnostic) → AreShort files
        → IsPlain (diagnostic_value files d) }
    ensures finding { (files : List File) → (d : Diagnostic) → (graphs : List GraphNode) → AreShort files
        → IsPlain (finding_value files d graphs) }
{}
