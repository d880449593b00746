//! When the repository of an entry is that of a crate.
ghost use Rattle.std.specs.Prelude.{◌≡◌, IfOk, option_copied};
ghost use Rattle.std.specs.Option.{option_eq};
ghost use Rattle.deny_spec.specs.Text.{same_text};
ghost use Rattle.deny_krates.specs.Crates.{git_spec_view, source_view};
ghost use Rattle.deny_spans_workspace.specs.Repositories.{is_at_address, is_master, is_repository};
ghost use Rattle.deny_spans_workspace.specs.Repositories.{is_same_kind, is_same_address, refers_alike, without_git};

use crate::origin::{DeclaredReference, address_in};
use deny_base_lists::{NoMemory, Text};
use deny_krates::{GitSpec, Source};
use std::alloc::Global;
use url::Url;

/// A path without the `.git` suffixes at its end.
fn without_git(path: &[u8]) -> &[u8]
    ensures { result.now ≡ without_git path.now }
{
    let mut rest = path;
    while let Some(shorter) = rest.strip_suffix(b".git") {
        rest = shorter;
    }
    rest
}

/// Whether two addresses have equal hosts, and equal paths apart from `.git` suffixes.
#[tactic(auto, unfolding(crate::specs::Repositories::is_same_address))]
fn is_same_address(a: &Url, b: &Url) -> bool
    ensures { result ≡ is_same_address a.now b.now }
{
    is_same_host(a.host_str(), b.host_str())
        && without_git(a.path().as_bytes()) == without_git(b.path().as_bytes())
}

fn is_same_host(a: Option<&str>, b: Option<&str>) -> bool
    ensures { result ≡ option_eq same_text (option_copied a.entry) (option_copied b.entry) }
{
    match (a, b) {
        (Some(a), Some(b)) => a == b,
        (None, None) => true,
        (Some(_), None) | (None, Some(_)) => false,
    }
}

fn is_same_kind(a: GitSpec, b: GitSpec) -> bool
    ensures { result ≡ is_same_kind (git_spec_view a) (git_spec_view b) }
{
    match a {
        GitSpec::Any => matches!(b, GitSpec::Any),
        GitSpec::Branch => matches!(b, GitSpec::Branch),
        GitSpec::Tag => matches!(b, GitSpec::Tag),
        GitSpec::Rev => matches!(b, GitSpec::Rev),
    }
}

fn is_same_value(a: &Option<Text>, b: &Option<Text>) -> bool
    ensures { result ≡ option_eq same_text a.now b.now }
{
    match (a, b) {
        (Some(a), Some(b)) => a == b,
        (None, None) => true,
        (Some(_), None) | (None, Some(_)) => false,
    }
}

/// Whether a reference is the default branch `master`.
fn is_master(spec: GitSpec, value: &Option<Text>) -> bool
    ensures { result ≡ is_master (git_spec_view spec) value.now }
{
    match value {
        Some(value) => matches!(spec, GitSpec::Branch) && value.as_str() == "master",
        None => false,
    }
}

/// Whether a crate's reference is the entry's, or the entry has none and the crate is of branch `master`.
#[tactic(auto, unfolding(crate::specs::Repositories::refers_alike))]
fn refers_alike(reference: &DeclaredReference, spec: GitSpec, value: &Option<Text>) -> bool
    ensures { result ≡ refers_alike reference.now (git_spec_view spec) value.now }
{
    (is_same_kind(reference.spec, spec) && is_same_value(&reference.value, value))
        || (matches!(reference.spec, GitSpec::Any) && is_master(spec, value))
}

fn is_at_address(alloc: Global, url: &Url, address: &str) -> Result<bool, NoMemory>
    ensures { IfOk result (λ is. is ≡ is_at_address url.now address.now) }
{
    match address_in(alloc, address)? {
        Some(other) => Ok(is_same_address(url, &other)),
        None => Ok(false),
    }
}

/// Whether a source is a repository at this address with this reference.
#[tactic(auto, unfolding(crate::specs::Repositories::is_repository))]
pub fn is_repository(
    alloc: Global,
    url: &Url,
    reference: &DeclaredReference,
    source: &Source,
) -> Result<bool, NoMemory>
    ensures { IfOk result (λ is. is ≡ is_repository url.now reference.now (source_view source.now)) }
{
    match source {
        Source::Git {
            url: other,
            spec,
            spec_value,
        } => Ok(
            refers_alike(reference, *spec, spec_value)
                && is_at_address(alloc, url, other.as_str())?,
        ),
        Source::CratesIo(_) | Source::Registry(_) | Source::Sparse(_) => Ok(false),
    }
}
