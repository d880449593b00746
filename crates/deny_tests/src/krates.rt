//! Calls on a graph, the reference of a git source, and the texts of faults.
ghost use Rattle.std.specs.Prelude.{◌<◌, IsTrue, length};

use deny_base::Kid;
use deny_base_lists::{List, NoMemory, Text};
use deny_krates::{
    DepKind, Dependency, DirectDependent, GitSpec, Krate, Krates, MetadataFault, Source, Target,
};
use semver::Version;
use std::alloc::Global;

// `app` needs `x` 1.9.0 as a normal and as a build dependency, and `y` for its tests; `y` needs
// both versions of `x`; nothing needs `z`.
pub(crate) const GRAPH: &str = r#"{"packages":[
{"name":"x","version":"1.10.0","id":"r#x@1.10.0","manifest_path":"/r/x-1.10.0/Cargo.toml","source":"registry+https://github.com/rust-lang/crates.io-index","license":"MIT"},
{"name":"x","version":"1.9.0","id":"g#x@1.9.0","manifest_path":"/g/x/Cargo.toml","source":"git+https://example.com/x?tag=v1#0123","features":{"std":["alloc"],"alloc":[]}},
{"name":"y","version":"0.1.0-rc.1","id":"y","manifest_path":"/y","source":"sparse+https://example.com/index/","publish":["here","there"]},
{"name":"app","version":"0.1.0","id":"app","manifest_path":"/w/app/Cargo.toml","rust_version":"1.70","publish":[],
"targets":[{"kind":["custom-build"],"src_path":"/w/app/build.rs"}],
"dependencies":[{"name":"x","req":"^1.9","kind":null,"rename":"ex","features":["std"],"uses_default_features":false},{"name":"y","req":"*","kind":"dev"}]},
{"name":"z","version":"2.0.0","id":"z","manifest_path":"/z/Cargo.toml"}],
"workspace_members":["app"],"workspace_root":"/w",
"resolve":{"nodes":[
{"id":"z","deps":[{"pkg":"app"}]},
{"id":"app","features":["two","one","two"],"deps":[{"pkg":"g#x@1.9.0","dep_kinds":[{"kind":"build"},{"kind":null,"target":"cfg(unix)"}]},{"pkg":"y","dep_kinds":[{"kind":"dev"}]}]},
{"id":"y","deps":[{"pkg":"r#x@1.10.0","dep_kinds":[]},{"pkg":"g#x@1.9.0"}]},
{"id":"g#x@1.9.0","features":["std"],"deps":[]},
{"id":"r#x@1.10.0","deps":[]}]}}"#;

pub(crate) fn built(alloc: Global, text: &str) -> Result<Krates, MetadataFault> {
    if text.len() >= 1 << 28 {
        return Err(MetadataFault::Memory);
    }
    Krates::build(alloc, text.as_bytes())
}

fn kid(alloc: Global, id: &str) -> Result<Kid, NoMemory> {
    Ok(Kid(Text::from_str(alloc, id)?))
}

fn is_crate(krate: Option<&Krate>, id: &str) -> bool {
    match krate {
        Some(krate) => krate.id.0.as_str() == id,
        None => false,
    }
}

fn are_crates(krates: &[Krate], ids: &[&str]) -> bool {
    let mut all = krates.len() == ids.len();
    for (place, id) in ids.iter().enumerate() {
        all = all && is_crate(krates.get(place), id);
    }
    all
}

// The crates ascend by name, version text, source and id; `z` is none of them.
fn are_in_order(krates: &Krates) -> bool {
    are_crates(krates.krates(), &["app", "r#x@1.10.0", "g#x@1.9.0", "y"])
        && are_crates(krates.krates_by_name("x"), &["r#x@1.10.0", "g#x@1.9.0"])
        && are_crates(krates.krates_by_name("z"), &[])
        && krates.workspace_members() == [0].as_slice()
        && krates.workspace_root() == "/w"
}

pub(crate) fn are_neighbours(found: &[DirectDependent], expected: &[(u32, DepKind)]) -> bool {
    let mut all = found.len() == expected.len();
    for (place, (neighbour, kind)) in expected.iter().enumerate() {
        all = all
            && found.get(place)
                == Some(&DirectDependent {
                    place: *neighbour,
                    kind: *kind,
                });
    }
    all
}

pub(crate) fn is_place(krates: &Krates, place: u32) -> bool
    ensures { IsTrue result → place < length krates.now.crates }
{
    (place as usize) < krates.krates().len()
}

fn needed_by(krates: &Krates, place: u32, expected: &[(u32, DepKind)]) -> bool {
    is_place(krates, place) && are_neighbours(krates.direct_dependents(place), expected)
}

fn needs(krates: &Krates, place: u32, expected: &[(u32, DepKind)]) -> bool {
    is_place(krates, place) && are_neighbours(krates.direct_dependencies(place), expected)
}

fn has_edge(krates: &Krates, parent: u32, child: u32, kind: DepKind) -> bool {
    is_place(krates, parent) && is_place(krates, child) && krates.has_edge(parent, child, kind)
}

fn have_dependents(krates: &Krates) -> bool {
    needed_by(krates, 0, &[])
        && needed_by(krates, 2, &[(0, DepKind::Normal), (3, DepKind::Normal)])
        && needed_by(krates, 3, &[(0, DepKind::Dev)])
}

// The id of `x` 1.9.0 is below that of `y`, and a build dependency counts after a normal one.
fn have_dependencies(krates: &Krates) -> bool {
    needs(krates, 0, &[(2, DepKind::Normal), (3, DepKind::Dev)])
        && needs(krates, 3, &[(2, DepKind::Normal), (1, DepKind::Normal)])
}

fn have_edges(krates: &Krates) -> bool {
    has_edge(krates, 0, 2, DepKind::Normal)
        && has_edge(krates, 0, 2, DepKind::Build)
        && !has_edge(krates, 0, 2, DepKind::Dev)
        && !has_edge(krates, 2, 0, DepKind::Normal)
}

fn are_texts(found: Option<&[Text]>, expected: &[&str]) -> bool {
    match found {
        None => false,
        Some(texts) => {
            let mut all = texts.len() == expected.len();
            for (place, text) in expected.iter().enumerate() {
                all = all && texts.get(place).map(Text::as_str) == Some(*text);
            }
            all
        }
    }
}

// The enabled features of `app` ascend, each once.
fn is_app(krates: &Krates, id: &Kid) -> bool {
    is_crate(krates.node_for_kid(id), "app")
        && are_texts(krates.get_enabled_features(id), &["one", "two"])
}

fn is_unknown(krates: &Krates, id: &Kid) -> bool {
    krates.nid_for_kid(id).is_none()
        && krates.node_for_kid(id).is_none()
        && krates.get_enabled_features(id).is_none()
}

fn are_known(krates: &Krates, app: &Kid, x: &Kid, z: &Kid) -> bool {
    is_app(krates, app) && krates.nid_for_kid(x) == Some(2) && is_unknown(krates, z)
}

fn are_known_by_id(alloc: Global, krates: &Krates) -> Result<bool, NoMemory> {
    let app = kid(alloc, "app")?;
    let x = kid(alloc, "g#x@1.9.0")?;
    let z = kid(alloc, "z")?;
    Ok(are_known(krates, &app, &x, &z))
}

fn leaves(alloc: Global, krates: &Krates, without: DepKind, marks: &[bool]) -> bool {
    match krates.krates_filtered(alloc, without) {
        Ok(left) => left.as_slice() == marks,
        Err(NoMemory) => false,
    }
}

// Without dev edges `app` reaches neither `y` nor what `y` alone needs.
fn are_filtered(alloc: Global, krates: &Krates) -> bool {
    leaves(alloc, krates, DepKind::Dev, &[true, false, true, false])
        && leaves(alloc, krates, DepKind::Build, &[true, true, true, true])
}

fn at(krates: &Krates, place: usize) -> Option<&Krate> {
    krates.krates().get(place)
}

fn needs_rust(krate: &Krate) -> bool {
    krate.rust_version == Some(Version::new(1, 70, 0))
}

fn is_held(krate: &Krate) -> bool {
    krate.license.is_none()
        && krate.source_text.is_none()
        && needs_rust(krate)
        && krate.manifest_path.as_str() == "/w/app/Cargo.toml"
        && krate.folder() == "/w/app"
        && is_build_script(krate.targets.as_slice())
        && are_declared(krate.deps.as_slice())
}

fn is_build_script(targets: &[Target]) -> bool {
    match targets.first() {
        Some(target) => {
            are_texts(Some(target.kind.as_slice()), &["custom-build"])
                && target.src_path.as_str() == "/w/app/build.rs"
        }
        None => false,
    }
}

fn takes_version(dep: &Dependency, major: u64, minor: u64) -> bool {
    dep.req.matches(&Version::new(major, minor, 0))
}

fn is_x(dep: &Dependency) -> bool {
    dep.rename.as_ref().map(Text::as_str) == Some("ex")
        && dep.kind == DepKind::Normal
        && takes_version(dep, 1, 10)
        && !takes_version(dep, 2, 0)
        && are_texts(Some(dep.features.as_slice()), &["std"])
        && !dep.uses_default_features
}

fn is_y(dep: &Dependency) -> bool {
    dep.kind == DepKind::Dev && dep.uses_default_features && dep.rename.is_none()
}

fn are_declared(deps: &[Dependency]) -> bool {
    matches!(deps, [x, y] if is_x(x) && is_y(y))
}

fn is_of_crates_io(krate: &Krate) -> bool {
    krate.is_crates_io() && krate.is_registry() && !krate.is_git_source()
}

fn is_of_git(krate: &Krate) -> bool {
    krate.is_git_source()
        && !krate.is_registry()
        && are_texts(krate.features.get("std").map(List::as_slice), &["alloc"])
}

fn is_of_another_registry(krate: &Krate) -> bool {
    krate.is_registry() && !krate.is_crates_io() && krate.folder() == "/"
}

fn have_fields(krates: &Krates) -> bool {
    match krates.krates() {
        [app, x, older, y] => {
            is_held(app) && is_of_crates_io(x) && is_of_git(older) && is_of_another_registry(y)
        }
        _ => false,
    }
}

fn is_private(krates: &Krates, place: usize, registries: &[Text]) -> bool {
    match at(krates, place) {
        Some(krate) => krate.is_private(registries),
        None => false,
    }
}

// A crate that may be published nowhere is private, and one that does not say is not.
fn are_private(krates: &Krates, one: &[Text], both: &[Text]) -> bool {
    is_private(krates, 0, &[])
        && !is_private(krates, 1, both)
        && !is_private(krates, 3, one)
        && is_private(krates, 3, both)
}

fn texts_of(alloc: Global, texts: &[&str]) -> Result<List<Text>, NoMemory> {
    let mut list = List::new(alloc);
    for text in texts {
        list.push(Text::from_str(alloc, text)?)?;
    }
    Ok(list)
}

fn are_private_by_registry(alloc: Global, krates: &Krates) -> Result<bool, NoMemory> {
    let one = texts_of(alloc, &["here"])?;
    let both = texts_of(alloc, &["there", "here"])?;
    Ok(are_private(krates, one.as_slice(), both.as_slice()))
}

fn prints(alloc: Global, krates: &Krates) -> Result<bool, NoMemory> {
    match at(krates, 3) {
        Some(krate) => Ok(format!(in alloc; "{krate}")?.as_str() == "y = 0.1.0-rc.1"),
        None => Ok(false),
    }
}

fn answers(alloc: Global, krates: &Krates) -> Result<bool, NoMemory> {
    Ok(
        are_filtered(alloc, krates)
            && are_known_by_id(alloc, krates)?
            && are_private_by_registry(alloc, krates)?
            && prints(alloc, krates)?,
    )
}

fn is_graph(krates: &Krates) -> bool {
    are_in_order(krates)
        && have_dependents(krates)
        && have_dependencies(krates)
        && have_edges(krates)
        && have_fields(krates)
}

fn all_answer(alloc: Global) -> bool {
    match built(alloc, GRAPH) {
        Ok(krates) => is_answered(alloc, &krates),
        Err(_) => false,
    }
}

fn is_answered(alloc: Global, krates: &Krates) -> bool {
    is_graph(krates) && matches!(answers(alloc, krates), Ok(true))
}

#[test]
fn each_call_answers_of_the_graph(rt: HostRuntime) {
    assert!(rt; all_answer(rt.alloc()));
}

// `app` needs `x` in one version on Unix and in another on Windows, `y` under another name and, in a
// later version, for its build script, and two versions of `z`; `y` alone needs `w`. By name and
// version the places are `app` 0, `w` 1, `x` 2 and 3, `y` 4 and 5, `z` 6 and 7.
const RESOLVED: &str = r#"{"packages":[
{"name":"app","version":"0.1.0","id":"app","manifest_path":"/w/Cargo.toml","dependencies":[
{"name":"x","req":"*","target":"cfg(unix)"},
{"name":"x","req":"^1","target":"cfg(windows)"},
{"name":"x","req":"^1","target":"cfg(target_os = \"macos\")"},
{"name":"x","req":"^1"},
{"name":"y","req":"^1","rename":"why"},
{"name":"y","req":"^1","kind":"build"},
{"name":"y","req":"^1","kind":"dev"},
{"name":"z","req":"^2"},
{"name":"z","req":"^3"},
{"name":"w","req":"*"}]},
{"name":"w","version":"1.0.0","id":"w","manifest_path":"/w/Cargo.toml"},
{"name":"x","version":"1.0.0","id":"x1","manifest_path":"/x/Cargo.toml"},
{"name":"x","version":"2.0.0","id":"x2","manifest_path":"/x/Cargo.toml"},
{"name":"y","version":"1.0.0","id":"y1","manifest_path":"/y/Cargo.toml","dependencies":[{"name":"w","req":"*"}]},
{"name":"y","version":"1.1.0","id":"y2","manifest_path":"/y/Cargo.toml"},
{"name":"z","version":"1.0.0","id":"z1","manifest_path":"/z/Cargo.toml"},
{"name":"z","version":"2.0.0","id":"z2","manifest_path":"/z/Cargo.toml"}],
"workspace_members":["app"],"workspace_root":"/w",
"resolve":{"nodes":[
{"id":"app","deps":[
{"pkg":"z2"},
{"pkg":"z1","dep_kinds":[{"kind":null,"target":null}]},
{"pkg":"y2","dep_kinds":[{"kind":"build"}]},
{"pkg":"y1","dep_kinds":[{"kind":"normal"}]},
{"pkg":"x1","dep_kinds":[{"kind":null,"target":"cfg(unix)"}]},
{"pkg":"x2","dep_kinds":[{"kind":null,"target":"cfg(windows)"},{"kind":null,"target":"cfg(windows)"}]}]},
{"id":"w"},{"id":"x1"},{"id":"x2"},{"id":"y1","deps":[{"pkg":"w"}]},{"id":"y2"},{"id":"z1"},{"id":"z2"}]}}"#;

// The declarations of `app`: two targets, then a target that no node names and none; another name; kinds; the
// version that matches, or else the first; a dependency of another crate, and no declaration.
fn are_resolved(krates: &Krates) -> bool {
    let places = [
        Some(2),
        Some(3),
        None,
        None,
        Some(4),
        Some(5),
        None,
        Some(7),
        Some(6),
        None,
        None,
    ];
    let mut all = krates.resolved_dependency(4, 0) == Some(1);
    for (index, place) in places.iter().enumerate() {
        all = all && krates.resolved_dependency(0, index) == *place;
    }
    all
}

fn all_resolve(alloc: Global) -> bool {
    match built(alloc, RESOLVED) {
        Ok(krates) => are_resolved(&krates),
        Err(_) => false,
    }
}

#[test]
fn a_declaration_resolves_by_name_kind_target_and_version(rt: HostRuntime) {
    assert!(rt; all_resolve(rt.alloc()));
}

// A workspace of one package, which comes from `source`.
fn text_from(alloc: Global, source: &str) -> Result<Text, NoMemory> {
    let mut text = Text::from_str(
        alloc,
        r#"{"packages":[{"name":"a","version":"1.0.0","id":"a","manifest_path":"/a","source":""#,
    )?;
    text.push_str(source)?;
    text.push_str(
        r#""}],"workspace_members":["a"],"workspace_root":"/","resolve":{"nodes":[{"id":"a"}]}}"#,
    )?;
    Ok(text)
}

// The reference that a git source names, and its address.
fn is_git(alloc: Global, source: &str, address: &str, named: GitSpec, value: Option<&str>) -> bool {
    match text_from(alloc, source) {
        Ok(text) => is_git_in(alloc, text.as_str(), address, named, value),
        Err(NoMemory) => false,
    }
}

fn is_git_in(
    alloc: Global,
    text: &str,
    address: &str,
    named: GitSpec,
    value: Option<&str>,
) -> bool {
    match built(alloc, text) {
        Ok(krates) => comes_from(&krates, address, named, value),
        Err(_) => false,
    }
}

fn comes_from(krates: &Krates, address: &str, named: GitSpec, value: Option<&str>) -> bool {
    match at(krates, 0) {
        Some(krate) => names(krate.source.as_ref(), address, named, value),
        None => false,
    }
}

fn names(source: Option<&Source>, address: &str, named: GitSpec, value: Option<&str>) -> bool {
    match source {
        Some(
            Source::Git {
                url,
                spec,
                spec_value,
            },
        ) => {
            url.as_str() == address
                && *spec == named
                && spec_value.as_ref().map(Text::as_str) == value
        }
        _ => false,
    }
}

fn have_references(alloc: Global) -> bool {
    is_git(
        alloc,
        "git+https://a.b/c?x=1&tag=v%201+2&rev=3#4",
        "https://a.b/c?x=1&tag=v%201+2&rev=3",
        GitSpec::Tag,
        Some("v 1 2"),
    ) && is_git(
        alloc,
        "git+ssh://git@a.b/c?b%72anch=%ff",
        "ssh://git@a.b/c?b%72anch=%ff",
        GitSpec::Branch,
        Some("%ff"),
    ) && is_git(
        alloc,
        "git+https://a.b/c?&rev=",
        "https://a.b/c?&rev=",
        GitSpec::Rev,
        Some(""),
    )
}

#[test]
fn a_git_source_names_its_reference(rt: HostRuntime) {
    let plain = "git+https://a.b/c?x=1";
    assert!(rt;
        have_references(rt.alloc())
            && is_git(rt.alloc(), plain, "https://a.b/c?x=1", GitSpec::Any, None)
    );
}

fn shows(alloc: Global, fault: &MetadataFault, text: &str) -> bool {
    match format!(in alloc; "{fault}") {
        Ok(printed) => printed.as_str() == text,
        Err(_) => false,
    }
}

fn fails_with(alloc: Global, metadata: &str, text: &str) -> bool {
    match built(alloc, metadata) {
        Ok(_) => false,
        Err(fault) => shows(alloc, &fault, text),
    }
}

fn faults_show_causes(alloc: Global) -> bool {
    fails_with(alloc, "{", "the metadata is no JSON")
        && fails_with(
            alloc,
            r#"{"resolve":1,"packages":1}"#,
            "the member `packages` of the metadata is missing or of another kind",
        )
        && fails_with(
            alloc,
            r#"{"resolve":{"nodes":[]},"packages":[],"workspace_members":["b"],"workspace_root":"/"}"#,
            "the id `b` has no package or no node in the metadata",
        )
}

#[test]
fn a_fault_reports_its_cause(rt: HostRuntime) {
    assert!(rt; faults_show_causes(rt.alloc()));
}
