//! Which crate an entry resolves to.
ghost use Rattle.std.specs.Prelude.{◌≡◌, ◌&&◌, ◌+◌, ◌<◌, ◌^◌, IfOk, IfSome, find, length, option_map};
ghost use Rattle.deny_krates.specs.Crates.{crate_view, crates_from, source_view};
ghost use Rattle.deny_spec.specs.Groups.{has_name};
ghost use Rattle.deny_spec.specs.Match.{meets};
ghost use Rattle.deny_spans_workspace.specs.Agreement.{comes_from, fits, home_by_name, home_of};
ghost use Rattle.deny_spans_workspace.specs.Agreement.{is_folder, is_of_registry, is_registered};
ghost use Rattle.deny_spans_manifest.specs.Found.{requirement_read};

use crate::manifest_key::ManifestKey;
use crate::origin::{DeclaredReference, Origin};
use crate::paths::{components, folder_named};
use crate::registries::{Registry, is_same_source, source_of_registry};
use crate::repositories::is_repository;
use deny_base_lists::{List, NoMemory, Text};
use deny_krates::{Krate, Krates, Source};
use semver::VersionReq;
use std::alloc::Global;
use url::Url;

/// Where the crate of an entry has to come from.
#[derive(Drop)]
pub enum Home {
    CratesIo,
    /// Another registry, by its source; none where that is not known.
    Registered(Option<Source>),
    /// A folder, by its components.
    Folder(List<Text>),
    Repository(Url, DeclaredReference),
}

/// Where the crate of an entry has to come from, by the root of the workspace and the known registries.
#[tactic(auto, unfolding(crate::specs::Agreement::home_of))]
pub fn home_of(
    alloc: Global,
    root: &str,
    registries: &[Registry],
    origin: Origin,
) -> Result<Home, NoMemory>
    ensures { IfOk result (λ home. home ≡ home_of root.now registries.now origin) }
{
    match origin {
        Origin::Registry(None) => Ok(Home::CratesIo),
        Origin::Registry(Some(name)) => home_by_name(alloc, registries, name.as_str()),
        Origin::Path(path) => Ok(Home::Folder(folder_named(alloc, root, path.as_str())?)),
        Origin::Git(url, reference) => Ok(Home::Repository(url, reference)),
    }
}

fn home_by_name(alloc: Global, registries: &[Registry], name: &str) -> Result<Home, NoMemory>
    ensures { IfOk result (λ home. home ≡ home_by_name registries.now name.now) }
{
    if name == ManifestKey::CratesIo.name() {
        return Ok(Home::CratesIo);
    }
    Ok(Home::Registered(source_of_registry(alloc, registries, name)?))
}

fn is_registered(known: &Option<Source>, source: &Option<Source>) -> bool
    ensures { result ≡ is_registered known.now (option_map source_view source.now) }
{
    match (known, source) {
        (Some(known), Some(source)) => is_same_source(known, source),
        (None, _) | (Some(_), None) => false,
    }
}

fn is_folder(alloc: Global, parts: &List<Text>, krate: &Krate) -> Result<bool, NoMemory>
    ensures { IfOk result (λ is. is ≡ is_folder parts.now (crate_view 0 krate.now)) }
{
    if krate.source.is_some() {
        return Ok(false);
    }
    Ok(components(alloc, krate.folder())? == *parts)
}

/// Whether a crate comes from a home.
#[tactic(auto, unfolding(crate::specs::Agreement::comes_from))]
pub fn comes_from(alloc: Global, home: &Home, krate: &Krate) -> Result<bool, NoMemory>
    ensures { IfOk result (λ is. is ≡ comes_from home.now (crate_view 0 krate.now)) }
{
    match home {
        Home::CratesIo => Ok(krate.is_crates_io()),
        Home::Registered(source) => Ok(is_registered(source, &krate.source)),
        Home::Folder(parts) => is_folder(alloc, parts, krate),
        Home::Repository(url, reference) => match &krate.source {
            Some(source) => is_repository(alloc, url, reference, source),
            None => Ok(false),
        },
    }
}

/// Whether the requirement of an entry counts: for crates of registries alone.
pub fn is_of_registry(origin: &Origin) -> bool
    ensures { result ≡ is_of_registry origin.now }
{
    match origin {
        Origin::Registry(_) => true,
        Origin::Path(_) | Origin::Git(_, _) => false,
    }
}

/// Whether the version of a crate meets a requirement; without one every version does.
fn meets(requirement: Option<&VersionReq>, krate: &Krate) -> bool
    ensures { result
        ≡ meets (option_map (λ r. requirement_read r.now) requirement.entry) (crate_view 0 krate.now).version }
{
    match requirement {
        Some(requirement) => requirement.matches(&krate.version),
        None => true,
    }
}

/// Whether a crate comes from a home and its version meets a requirement.
#[tactic(auto, unfolding(crate::specs::Agreement::fits))]
fn fits(
    alloc: Global,
    home: &Home,
    requirement: Option<&VersionReq>,
    krate: &Krate,
) -> Result<bool, NoMemory>
    ensures { IfOk result (λ is. is
        ≡ fits home.now (option_map (λ r. requirement_read r.now) requirement.entry) (crate_view 0 krate.now)) }
{
    if !meets(requirement, krate) {
        return Ok(false);
    }
    comes_from(alloc, home, krate)
}

/// The place of the first crate that fits, of adjacent crates from a place on.
fn first_fitting(
    alloc: Global,
    krates: &[Krate],
    start: u32,
    home: &Home,
    requirement: Option<&VersionReq>,
) -> Result<Option<u32>, NoMemory>
    requires { start + length krates.now < 2 ^ 32 }
    ensures { IfOk result (λ place. place ≡ option_map (λ c. c.place)
        (find (fits home.now (option_map (λ r. requirement_read r.now) requirement.entry))
        (crates_from start krates.now))) }
{
    for (index, krate) in krates.iter().enumerate() {
        if fits(alloc, home, requirement, krate)? {
            return Ok(Some(start + index as u32));
        }
    }
    Ok(None)
}

/// The place of the first crate of a name that comes from a home and meets a requirement.
pub fn place_of(
    alloc: Global,
    krates: &Krates,
    name: &str,
    home: &Home,
    requirement: Option<&VersionReq>,
) -> Result<Option<u32>, NoMemory>
    ensures place { IfOk result (λ place. place ≡ option_map (λ c. c.place) (find (λ c.
        fits home.now (option_map (λ r. requirement_read r.now) requirement.entry) c && has_name name.now c)
        krates.now.crates)) }
    ensures within { IfOk result (λ place. IfSome place (λ p. p < length krates.now.crates)) }
{
    let places = krates.places_by_name(name);
    let named = &krates.krates()[places.start as usize..places.end as usize];
    first_fitting(alloc, named, places.start, home, requirement)
}
