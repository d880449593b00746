//! What is shown of duplicates.
ghost use Rattle.std.specs.Prelude.{◌<◌, ◌^◌, length};

use crate::graphs::TWO_X;
use crate::krates::built;
use deny_base::{Code, DepKind, DiagnosticCode, Edge, Files, Key, Section, Span};
use deny_base_lists::{List, NoMemory, Text};
use deny_cfg::bans::cfg::ValidConfig;
use deny_cfg::read_policy;
use deny_krates::Krates;
use deny_rules_dup_edges::{DupEdges, DupSet, dup_edges_of};
use std::alloc::Global;

// `app` leads to `a` and to `c` 1.0.0, and `a` to `c` 2.0.0, for itself and for its tests.
const GRAPH: &str = "{\"packages\":[\
    {\"name\":\"a\",\"version\":\"1.0.0\",\"id\":\"a\",\"manifest_path\":\"/a/Cargo.toml\"},\
    {\"name\":\"app\",\"version\":\"1.0.0\",\"id\":\"app\",\"manifest_path\":\"/app/Cargo.toml\"},\
    {\"name\":\"c\",\"version\":\"1.0.0\",\"id\":\"c1\",\"manifest_path\":\"/c1/Cargo.toml\"},\
    {\"name\":\"c\",\"version\":\"2.0.0\",\"id\":\"c2\",\"manifest_path\":\"/c2/Cargo.toml\"}],\
    \"workspace_members\":[\"app\"],\"workspace_root\":\"/app\",\"resolve\":{\"nodes\":[\
    {\"id\":\"a\",\"deps\":[{\"pkg\":\"c2\",\"dep_kinds\":[{\"kind\":null},{\"kind\":\"dev\"}]}]},\
    {\"id\":\"app\",\"deps\":[{\"pkg\":\"a\"},{\"pkg\":\"c1\"}]},\
    {\"id\":\"c1\"},{\"id\":\"c2\"}]}}";

const POLICY: &[u8] = b"[bans]\nmultiple-versions = \"deny\"\nhighlight = \"all\"\n";

// The key of the two versions of a crate, whose places follow each other.
fn duplicate(alloc: Global, first: u32, second: u32) -> Result<Key, NoMemory> {
    let mut places = List::new(alloc);
    places.push(first)?;
    places.push(second)?;
    Ok(Key {
        section: Section::Groups,
        place: first,
        code: DiagnosticCode::Bans(Code::Duplicate),
        entry: Span { start: 0, end: 0 },
        text: Text::new(alloc),
        other: 0,
        places,
    })
}

fn edges_in(
    alloc: Global,
    cfg: &ValidConfig,
    krates: &Krates,
    key: Key,
) -> Result<List<DupEdges>, NoMemory> {
    let keys = [key];
    dup_edges_of(alloc, cfg, krates, &keys)
}

fn edges_by_policy(
    alloc: Global,
    cfg: &ValidConfig,
    graph: &str,
    key: Key,
) -> Result<List<DupEdges>, NoMemory> {
    match built(alloc, graph) {
        Ok(krates) => edges_in(alloc, cfg, &krates, key),
        Err(_) => Ok(List::new(alloc)),
    }
}

// The edges that are shown, apart from all else, so that no test holds a policy or a graph.
fn edges_shown(
    alloc: Global,
    policy: &'static [u8],
    graph: &str,
    key: Key,
) -> Result<List<DupEdges>, NoMemory>
    requires { length policy.now < 2 ^ 28 }
{
    let mut files = Files::new(alloc);
    match read_policy(alloc, policy, &mut files, None) {
        Ok(policy) => edges_by_policy(alloc, &policy.bans, graph, key),
        Err(_) => Ok(List::new(alloc)),
    }
}

fn edges_of_both(alloc: Global) -> Result<List<DupEdges>, NoMemory> {
    edges_shown(alloc, POLICY, GRAPH, duplicate(alloc, 2, 3)?)
}

fn edge(parent: u32, child: u32, kind: DepKind) -> Edge {
    Edge {
        parent,
        child,
        kind,
    }
}

// The edges above both of `c`, by parent, child and kind.
fn are_in_order(shown: &DupEdges) -> bool {
    let wanted = [
        edge(0, 3, DepKind::Normal),
        edge(0, 3, DepKind::Dev),
        edge(1, 0, DepKind::Normal),
        edge(1, 2, DepKind::Normal),
    ];
    shown.edges.as_slice() == wanted.as_slice()
}

fn is_set(set: &DupSet, place: u32, wanted: &[u32]) -> bool {
    set.place == place && set.edges.as_slice() == wanted
}

// Each version has the edges above it.
fn are_sets(shown: &DupEdges) -> bool {
    matches!(shown.sets.as_slice(), [one, two] if is_set(one, 2, &[3]) && is_set(two, 3, &[0, 1, 2]))
}

fn is_shown(shown: &DupEdges) -> bool {
    shown.name.as_str() == "c" && shown.simplest == Some(0) && shown.lowest == Some(0)
}

#[test]
fn edges_ascend_by_parent_child_and_kind(rt: HostRuntime) -> Result<(), NoMemory> {
    let edges = edges_of_both(rt.alloc())?;
    assert!(rt; matches!(edges.as_slice(), [shown] if are_in_order(shown)));
    Ok(())
}

#[test]
fn a_set_has_the_edges_above_its_crate(rt: HostRuntime) -> Result<(), NoMemory> {
    let edges = edges_of_both(rt.alloc())?;
    assert!(rt; matches!(edges.as_slice(), [shown] if is_shown(shown) && are_sets(shown)));
    Ok(())
}

// ---- the simplest path to one of two versions of `x`, each of which `app` needs

const SIMPLEST: &[u8] = b"[bans]\nmultiple-versions = \"deny\"\nhighlight = \"simplest-path\"\n";

// The edges from `app` to each version, each in a set of its own.
fn has_edge_each(shown: &DupEdges) -> bool {
    let wanted = [edge(0, 1, DepKind::Normal), edge(0, 2, DepKind::Normal)];
    shown.edges.as_slice() == wanted.as_slice()
        && matches!(shown.sets.as_slice(), [one, two] if is_set(one, 1, &[0]) && is_set(two, 2, &[1]))
}

// Of sets with as many edges the first is the simplest.
fn has_first(shown: &DupEdges) -> bool {
    shown.name.as_str() == "x" && shown.simplest == Some(0) && shown.lowest.is_none()
}

#[test]
fn of_sets_with_as_many_edges_the_first_is_the_simplest(rt: HostRuntime) -> Result<(), NoMemory> {
    let edges = edges_shown(rt.alloc(), SIMPLEST, TWO_X, duplicate(rt.alloc(), 1, 2)?)?;
    assert!(rt; matches!(edges.as_slice(), [shown] if has_edge_each(shown) && has_first(shown)));
    Ok(())
}
