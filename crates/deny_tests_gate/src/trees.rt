//! The trees that a report shows with a finding.
use crate::gate::report_on;
use crate::graphs::{APP_X_Y, TWO_X};
use deny_base_lists::{NoMemory, Text};
use deny_gate::{Report, write_graph_as_text};
use std::alloc::Global;

/// The trees of a report's only finding as text, one behind the other.
fn trees_of(alloc: Global, report: &Report) -> Result<Text, NoMemory> {
    let mut text = Text::new(alloc);
    if let [finding] = report.findings.as_slice() {
        for tree in report.graphs_shown(alloc, finding)?.as_slice() {
            text.push_str(write_graph_as_text(alloc, tree)?.as_str())?;
        }
    }
    Ok(text)
}

/// The trees that the report on a policy and metadata shows with its only finding.
fn shown(alloc: Global, policy: &str, metadata: &str) -> Result<Text, NoMemory> {
    let report = report_on(alloc, policy, metadata, &[("/w/Cargo.toml", "[package]\n")])?;
    trees_of(alloc, &report)
}

const ABOVE_X: &str = "x v1.0.0\n├── app v0.1.0\n└── y v1.0.0\n    └── app v0.1.0 (*)\n";

#[test]
fn a_ban_shows_what_needs_the_crate(rt: HostRuntime) -> Result<(), NoMemory> {
    let text = shown(rt.alloc(), "[bans]\ndeny = [\"x\"]\n", APP_X_Y)?;
    assert!(rt; text.as_str() == ABOVE_X);
    Ok(())
}

const ABOVE_BOTH: &str = "x v1.0.0\n└── app v0.1.0\nx v2.0.0\n└── app v0.1.0\n";

#[test]
fn duplicates_show_what_needs_each(rt: HostRuntime) -> Result<(), NoMemory> {
    let text = shown(rt.alloc(), "[bans]\nmultiple-versions = \"deny\"\n", TWO_X)?;
    assert!(rt; text.as_str() == ABOVE_BOTH);
    Ok(())
}
