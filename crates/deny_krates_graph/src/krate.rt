ghost use Rattle.std.specs.Prelude.{◌≡◌, IfOk, Some, unwrap_or};
ghost use Rattle.std.specs.List.{list_all, list_any};
ghost use Rattle.semver.specs.Identifiers.{parts_of, parts_text};
ghost use Rattle.deny_krates_graph.specs.Crates.{crate_view};
ghost use Rattle.deny_spec.specs.Crates.{is_git_source, is_registry, is_crates_io};
ghost use Rattle.deny_spec.specs.Crates.{is_private, folder, folder_of, or_root};
ghost use Rattle.deny_spec.specs.Graph.{crate_text};
ghost use Rattle.deny_spec.specs.Text.{same_text};

use deny_base::{DepKind, Kid};
use deny_base_lists::{List, NoMemory, Text, TextMap};
use deny_krates_metadata::Target;
use deny_krates_sources::Source;
use semver::{Version, VersionReq};
use std::alloc::Global;
use std::fmt;

/// A dependency as the crate's manifest declares it.
#[derive(Drop)]
pub struct Dependency {
    pub name: Text,
    pub req: VersionReq,
    pub kind: DepKind,
    /// The name that the crate has in the manifest, where it is another.
    pub rename: Option<Text>,
    /// The target that it is for; none for all.
    pub target: Option<Text>,
    /// Its folder, where the manifest names one.
    pub path: Option<Text>,
    /// The features that it asks for.
    pub features: List<Text>,
    /// Whether it asks for the feature `default` too.
    pub uses_default_features: bool,
}

/// A crate of the graph. It prints as `name = version`.
#[derive(Drop)]
pub struct Krate {
    pub name: Text,
    /// The text by which the metadata names its package.
    pub id: Kid,
    pub version: Version,
    /// Where it comes from; none for a crate of this workspace or of a folder.
    pub source: Option<Source>,
    /// The source as the metadata writes it.
    pub source_text: Option<Text>,
    pub license: Option<Text>,
    /// The path of its manifest, which has a `/`.
    pub manifest_path: Text,
    /// The registries that it may be published to; none where the manifest does not say.
    pub publish: Option<List<Text>>,
    /// The least version of Rust that it needs.
    pub rust_version: Option<Version>,
    /// The list of what each of its features enables.
    pub features: TextMap<List<Text>>,
    pub targets: List<Target>,
    pub deps: List<Dependency>,
    /// Its features that are enabled.
    pub enabled: List<Text>,
}

impl Krate {
    /// Whether it comes from a git repository.
    pub fn is_git_source(&self) -> bool
        ensures { result ≡ is_git_source (crate_view 0 self.now) }
    {
        matches!(&self.source, Some(Source::Git { .. }))
    }

    /// Whether it comes from a registry, crates.io or another.
    pub fn is_registry(&self) -> bool
        ensures { result ≡ is_registry (crate_view 0 self.now) }
    {
        matches!(
            &self.source,
            Some(Source::CratesIo(_) | Source::Registry(_) | Source::Sparse(_))
        )
    }

    /// Whether it comes from crates.io.
    pub fn is_crates_io(&self) -> bool
        ensures { result ≡ is_crates_io (crate_view 0 self.now) }
    {
        matches!(&self.source, Some(Source::CratesIo(_)))
    }

    /// Whether its manifest says where it may be published, and names only these registries.
    pub fn is_private(&self, registries: &[Text]) -> bool
        ensures { result ≡ is_private registries.now (crate_view 0 self.now) }
    {
        match &self.publish {
            Some(names) => are_among(names.as_slice(), registries),
            None => false,
        }
    }

    /// The folder of its manifest.
    pub fn folder(&self) -> &str
        ensures { result.now ≡ folder (crate_view 0 self.now) }
    {
        parent_folder(self.manifest_path.as_str())
    }

    /// Its source as the metadata writes it, or the folder of its manifest where it has none.
    pub fn source_or_folder(&self) -> &str
        ensures { result.now ≡ unwrap_or self.now.source_text (folder (crate_view 0 self.now)) }
    {
        match &self.source_text {
            Some(text) => text.as_str(),
            None => self.folder(),
        }
    }

    /// Its version as text.
    pub fn version_text(&self, alloc: Global) -> Result<Text, NoMemory>
        ensures { IfOk result (λ text. text ≡ parts_text (parts_of self.now.version)) }
    {
        Ok(Text::from_string(format!(in alloc; "{}", self.version)?))
    }
}

// Whether all names are among others.
fn are_among(names: &[Text], others: &[Text]) -> bool
    ensures { result ≡ list_all (λ name. list_any (same_text name) others.now) names.now }
{
    names.iter().all(|name| is_among(name, others))
}

fn is_among(name: &Text, others: &[Text]) -> bool
    ensures { result ≡ list_any (same_text name.now) others.now }
{
    others.iter().any(|other| name == other)
}

// The prefix of a path before its last `/`; `/` where it is empty or there is none.
fn parent_folder(path: &str) -> &str
    ensures { result.now ≡ folder_of path.now }
{
    match path.rfind('/') {
        Some(end) => or_root(&path[..end]),
        None => "/",
    }
}

fn or_root(folder: &str) -> &str
    ensures { result.now ≡ or_root folder.now }
{
    if folder.is_empty() { "/" } else { folder }
}

impl fmt::Display for Krate {
    ghost output = { λ k. Some (crate_text (crate_view 0 k)) };

    fn fmt<W: fmt::Write>(&self, f: &mut fmt::Formatter<W>) -> fmt::Result {
        write!(f, "{} = {}", self.name, self.version)
    }
}

/// A neighbour of a crate: a crate that depends on it, or on which it depends, by its place, with the least
/// kind (in the order normal, dev, build) of the dependencies between the two.
#[derive(Clone, Copy, PartialEq, Eq)]
pub struct DirectDependent {
    pub place: u32,
    pub kind: DepKind,
}
