//! Diagnostics as JSON.
use crate::graphs::APP_X;
use crate::krates::built;
use deny_base::{
    Code, Diag, Diagnostic, DiagnosticCode, Files, GraphNode, Key, Kid, Label, LabelStyle, Section,
    Severity, Span,
};
use deny_base_lists::{List, NoMemory, Text};
use deny_cfg::{PolicyError, read_policy};
use deny_gate_json::{cs_diag_to_json, diag_to_json};
use deny_krates::Krates;
use deny_krates_trees::InclusionGrapher;
use std::alloc::Global;

const BANNED: &str = "[bans]\ndeny = [\"x\"]\n";

fn label(alloc: Global) -> Result<Label, NoMemory> {
    Ok(Label {
        style: LabelStyle::Primary,
        file_id: 0,
        span: Span { start: 16, end: 17 },
        message: Text::from_str(alloc, "banned here")?,
    })
}

/// The message of the ban of `x`.
fn diagnostic(alloc: Global) -> Result<Diagnostic, NoMemory> {
    let mut labels = List::new(alloc);
    labels.push(label(alloc)?)?;
    Ok(Diagnostic {
        severity: Severity::Error,
        code: Some(DiagnosticCode::Bans(Code::Banned)),
        message: Text::from_str(alloc, "crate 'x = 1.0.0' is explicitly banned")?,
        labels,
        notes: List::new(alloc),
    })
}

fn key(alloc: Global) -> Key {
    Key {
        section: Section::Crates,
        place: 1,
        code: DiagnosticCode::Bans(Code::Banned),
        entry: Span { start: 16, end: 17 },
        text: Text::new(alloc),
        other: 0,
        places: List::new(alloc),
    }
}

/// The finding of this ban, which shows the tree of `x`.
fn finding(alloc: Global) -> Result<Diag, NoMemory> {
    let mut graph_nodes = List::new(alloc);
    graph_nodes.push(GraphNode {
        kid: Kid(Text::from_str(alloc, "x")?),
        feature: None,
    })?;
    Ok(Diag {
        key: key(alloc),
        diag: diagnostic(alloc)?,
        graph_nodes,
        with_features: false,
    })
}

fn files_of(alloc: Global) -> Result<Files, NoMemory> {
    let mut files = Files::new(alloc);
    files.add("deny.toml", BANNED)?;
    Ok(files)
}

/// The finding as JSON, with trees where a graph is given.
fn finding_json(alloc: Global, grapher: Option<&InclusionGrapher<'_>>) -> Result<String, NoMemory> {
    let files = files_of(alloc)?;
    let value = diag_to_json(alloc, finding(alloc)?, &files, grapher)?;
    Ok(format!(in alloc; "{value}")?)
}

fn is_json(json: Result<String, NoMemory>, wanted: &str) -> bool {
    match json {
        Ok(json) => json.as_str() == wanted,
        Err(NoMemory) => false,
    }
}

fn is_json_with_trees(alloc: Global, krates: &Krates, wanted: &str) -> bool {
    let grapher = InclusionGrapher::new(krates);
    is_json(finding_json(alloc, Some(&grapher)), wanted)
}

fn has_trees(alloc: Global, wanted: &str) -> bool {
    match built(alloc, APP_X) {
        Ok(krates) => is_json_with_trees(alloc, &krates, wanted),
        Err(_) => false,
    }
}

const WITH_TREES: &str = "{\"fields\":{\"code\":\"banned\",\"graphs\":\
    [{\"Krate\":{\"name\":\"x\",\"version\":\"1.0.0\"},\
    \"parents\":[{\"Krate\":{\"name\":\"app\",\"version\":\"0.1.0\"}}]}],\
    \"labels\":[{\"column\":10,\"line\":2,\"message\":\"banned here\",\"span\":\"x\"}],\
    \"message\":\"crate 'x = 1.0.0' is explicitly banned\",\"severity\":\"error\"},\"type\":\"diagnostic\"}";

const WITHOUT_TREES: &str = "{\"fields\":{\"code\":\"banned\",\
    \"labels\":[{\"column\":10,\"line\":2,\"message\":\"banned here\",\"span\":\"x\"}],\
    \"message\":\"crate 'x = 1.0.0' is explicitly banned\",\"severity\":\"error\"},\"type\":\"diagnostic\"}";

#[test]
fn a_finding_is_written_with_its_trees(rt: HostRuntime) {
    assert!(rt; has_trees(rt.alloc(), WITH_TREES));
    assert!(rt; is_json(finding_json(rt.alloc(), None), WITHOUT_TREES));
}

const CLASHING: &str = "[bans]\ndeny = [\"x\"]\nskip = [\"x\"]\n";

/// The clashes of this policy, each as JSON on a line.
fn clashes_json(
    alloc: Global,
    clashes: List<Diagnostic>,
    files: &Files,
) -> Result<String, NoMemory> {
    let mut lines = String::new(alloc);
    for clash in clashes.vec {
        let value = cs_diag_to_json(alloc, clash, files)?;
        lines.push_str(format!(in alloc; "{value}\n")?.as_str())?;
    }
    Ok(lines)
}

fn policy_json(alloc: Global) -> Result<String, NoMemory> {
    let mut files = Files::new(alloc);
    match read_policy(alloc, CLASHING.as_bytes(), &mut files, None) {
        Err(PolicyError::Invalid(clashes)) => clashes_json(alloc, clashes, &files),
        _ => Ok(String::new(alloc)),
    }
}

const CLASH: &str = "{\"fields\":{\"labels\":[\
    {\"column\":10,\"line\":2,\"message\":\"marked as `deny`\",\"span\":\"x\"},\
    {\"column\":10,\"line\":3,\"message\":\"marked as `skip`\",\"span\":\"x\"}],\
    \"message\":\"a crate was specified in both `skip` and `deny`\",\"severity\":\"error\"},\"type\":\"diagnostic\"}\n";

#[test]
fn a_clash_is_written_without_trees(rt: HostRuntime) {
    assert!(rt; is_json(policy_json(rt.alloc()), CLASH));
}
