//! Where an entry says that its crate comes from.
ghost use Rattle.std.specs.Prelude.{◌≡◌, IfOk, None, Some, is_some, option_and_then, option_copied, option_map};
ghost use Rattle.deny_spans_workspace.specs.Origin.{address_of, has, origin_in, reference_in, refers_to};
ghost use Rattle.deny_spans_workspace.specs.Origin.{repository_in, text_at, unnamed_registry, value_at_key};

use crate::manifest_key::ManifestKey;
use deny_base_lists::{NoMemory, Text};
use deny_krates::GitSpec;
use deny_spans_manifest::below;
use deny_toml::Value;
use std::alloc::Global;
use url::{ParseError, Url};

/// The reference of a git source: its kind, and what it names.
#[derive(Drop)]
pub struct DeclaredReference {
    pub spec: GitSpec,
    pub value: Option<Text>,
}

/// The source of an entry.
#[derive(Drop)]
pub enum Origin {
    /// A registry by its name; crates.io where there is none.
    Registry(Option<Text>),
    /// A folder.
    Path(Text),
    /// A git repository by its address.
    Git(Url, DeclaredReference),
}

/// The value at a key of a table.
pub fn value_at<'v, 't>(value: &'v Value<'t>, key: ManifestKey) -> Option<&'v Value<'t>>
    ensures { option_copied result ≡ value_at_key key value.now }
{
    below(value, key.name())
}

/// Whether a value is a table with a key.
pub fn has(value: &Value<'_>, key: ManifestKey) -> bool
    ensures { result ≡ has key value.now }
{
    value.has_key(key.name())
}

/// The text at a key.
fn text_at<'v>(value: &'v Value<'_>, key: ManifestKey) -> Option<&'v str>
    ensures { option_copied result ≡ text_at key value.now }
{
    value_at(value, key)?.as_str()
}

fn owned(alloc: Global, text: Option<&str>) -> Result<Option<Text>, NoMemory>
    ensures { IfOk result (λ copy. copy ≡ option_copied text.entry) }
{
    match text {
        Some(text) => Ok(Some(Text::from_str(alloc, text)?)),
        None => Ok(None),
    }
}

/// The reference of a kind that the text at a key names.
fn reference_of_kind(
    alloc: Global,
    value: &Value<'_>,
    key: ManifestKey,
    spec: GitSpec,
) -> Result<Option<DeclaredReference>, NoMemory>
    ensures { IfOk result (λ reference. reference ≡ option_map (refers_to spec) (text_at key value.now)) }
{
    match owned(alloc, text_at(value, key))? {
        Some(text) => Ok(Some(DeclaredReference {
            spec,
            value: Some(text),
        })),
        None => Ok(None),
    }
}

#[tactic(auto, unfolding(crate::specs::Origin::reference_in))]
fn reference_in(alloc: Global, value: &Value<'_>) -> Result<Option<DeclaredReference>, NoMemory>
    ensures { IfOk result (λ reference. reference ≡ reference_in value.now) }
{
    if has(value, ManifestKey::Rev) {
        return reference_of_kind(alloc, value, ManifestKey::Rev, GitSpec::Rev);
    }
    if has(value, ManifestKey::Branch) {
        return reference_of_kind(alloc, value, ManifestKey::Branch, GitSpec::Branch);
    }
    if has(value, ManifestKey::Tag) {
        return reference_of_kind(alloc, value, ManifestKey::Tag, GitSpec::Tag);
    }
    Ok(Some(DeclaredReference {
        spec: GitSpec::Any,
        value: None,
    }))
}

/// The address that a text is, if it is one.
pub fn address_in(alloc: Global, text: &str) -> Result<Option<Url>, NoMemory>
    ensures { IfOk result (λ url. url ≡ address_of text.now) }
{
    match Url::parse(alloc, text) {
        Ok(url) => Ok(Some(url)),
        Err(ParseError::OutOfMemory) => Err(NoMemory),
        Err(ParseError::Overflow) => Err(NoMemory),
        Err(_) => Ok(None),
    }
}

/// The address at the key `git`.
fn address_at_git(alloc: Global, value: &Value<'_>) -> Result<Option<Url>, NoMemory>
    ensures { IfOk result (λ url. url ≡ option_and_then address_of (text_at ManifestKey.Git value.now)) }
{
    match text_at(value, ManifestKey::Git) {
        Some(text) => address_in(alloc, text),
        None => Ok(None),
    }
}

#[tactic(auto, unfolding(crate::specs::Origin::repository_in))]
fn repository_in(alloc: Global, value: &Value<'_>) -> Result<Option<Origin>, NoMemory>
    ensures { IfOk result (λ origin. origin ≡ repository_in value.now) }
{
    let Some(url) = address_at_git(alloc, value)? else {
        return Ok(None);
    };
    let Some(reference) = reference_in(alloc, value)? else {
        return Ok(None);
    };
    Ok(Some(Origin::Git(url, reference)))
}

/// A registry without a name, where a requirement stands alone.
fn unnamed_registry(value: &Value<'_>) -> Option<Origin>
    ensures { result ≡ unnamed_registry value.now }
{
    if has(value, ManifestKey::Version) || value.as_str().is_some() {
        Some(Origin::Registry(None))
    } else {
        None
    }
}

/// The source of an entry: the first of `registry`, `path`, `git` and `version` that it has, if that
/// parses.
#[tactic(auto, unfolding(crate::specs::Origin::origin_in))]
pub fn origin_in(alloc: Global, value: &Value<'_>) -> Result<Option<Origin>, NoMemory>
    ensures { IfOk result (λ origin. origin ≡ origin_in value.now) }
{
    if has(value, ManifestKey::Registry) {
        let name = owned(alloc, text_at(value, ManifestKey::Registry))?;
        return Ok(name.map(|name| Origin::Registry(Some(name))));
    }
    if has(value, ManifestKey::Path) {
        let path = owned(alloc, text_at(value, ManifestKey::Path))?;
        return Ok(path.map(Origin::Path));
    }
    if has(value, ManifestKey::Git) {
        return repository_in(alloc, value);
    }
    Ok(unnamed_registry(value))
}
