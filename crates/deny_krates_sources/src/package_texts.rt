ghost use Rattle.std.specs.Prelude.{◌≡◌, IfOk, Some, map, option_map};
ghost use Rattle.semver.specs.Identifiers.{parts_of};
ghost use Rattle.deny_base_lists.specs.Reader.{Passes, each_passes};
ghost use Rattle.deny_krates_sources.specs.Checked.{optional_reads, requirement_reads};
ghost use Rattle.deny_krates_sources.specs.Checked.{requirements_read, source_reads, version_reads};
ghost use Rattle.deny_krates_sources.specs.PackageTexts.{parsed_requirement, requirement_view, parsed_requirements};
ghost use Rattle.deny_krates_sources.specs.PackageTexts.{parsed_rust_version, parsed_source, parsed_version};
ghost use Rattle.deny_krates_sources.specs.Versions.{rust_version_of};

use crate::source::{Source, source_in};
use crate::versions::{requirement_in, rust_version_in, version_in};
use deny_base_lists::{List, Text};
use deny_krates_metadata::{Declaration, MetadataFault, MetadataPackage};
use semver::{Version, VersionReq};
use std::alloc::Global;

/// The versions that a package writes, parsed.
#[derive(Drop)]
pub struct PackageVersions {
    pub version: Version,
    /// The least version of Rust that it needs, where it writes one.
    pub rust_version: Option<Version>,
}

/// The texts of packages, parsed, in the order of the packages.
#[derive(Drop)]
pub struct PackageTexts {
    pub versions: List<PackageVersions>,
    /// For each package the requirements of its declarations, in their order.
    pub requirements: List<List<VersionReq>>,
    pub sources: List<Option<Source>>,
}

/// Parses the versions of packages, or gives the fault of the first that is none.
pub fn versions_of(
    alloc: Global,
    packages: &[MetadataPackage],
) -> Result<List<PackageVersions>, MetadataFault>
    ensures faults { Passes MetadataFault.Memory (each_passes version_reads packages.now) result }
    ensures versions { IfOk result (λ read.
        map (λ v. Some (parts_of v.version)) read ≡ map parsed_version packages.now) }
    ensures rust_versions { IfOk result (λ read.
        map (λ v. option_map parts_of v.rust_version) read ≡ map parsed_rust_version packages.now) }
{
    let mut read = List::new(alloc);
    for listed in packages {
        read.push(read_versions(alloc, listed)?)?;
    }
    Ok(read)
}

// Parses the versions of a package, or gives the fault of the first that is none.
#[tactic(auto, unfolding(crate::specs::Checked::version_reads, crate::specs::Checked::read_or))]
fn read_versions(alloc: Global, listed: &MetadataPackage) -> Result<PackageVersions, MetadataFault>
    ensures faults { Passes MetadataFault.Memory (version_reads listed.now) result }
    ensures version { IfOk result (λ read. Some (parts_of read.version) ≡ parsed_version listed.now) }
    ensures rust_version { IfOk result (λ read.
        option_map parts_of read.rust_version ≡ parsed_rust_version listed.now) }
{
    let Some(version) = version_in(alloc, listed.version.as_str())? else {
        return Err(MetadataFault::Version(listed.id.clone()?));
    };
    let rust_version = read_rust_version(listed)?;
    Ok(PackageVersions {
        version,
        rust_version,
    })
}

// Parses the version of Rust of a package that writes one, or gives the fault that it is none.
#[tactic(auto, unfolding(crate::specs::Checked::read_or, crate::specs::Checked::optional_reads))]
fn read_rust_version(listed: &MetadataPackage) -> Result<Option<Version>, MetadataFault>
    ensures faults { Passes MetadataFault.Memory
        (optional_reads (MetadataFault.Version listed.now.id) rust_version_of listed.now.rust_version) result }
    ensures read { IfOk result (λ read. option_map parts_of read ≡ parsed_rust_version listed.now) }
{
    match &listed.rust_version {
        None => Ok(None),
        Some(text) => match rust_version_in(text.as_str()) {
            None => Err(MetadataFault::Version(listed.id.clone()?)),
            Some(version) => Ok(Some(version)),
        },
    }
}

/// Parses the requirements of packages, or gives the fault of the first that is none.
pub fn requirements_of(
    alloc: Global,
    packages: &[MetadataPackage],
) -> Result<List<List<VersionReq>>, MetadataFault>
    ensures faults { Passes MetadataFault.Memory (each_passes requirements_read packages.now) result }
    ensures read { IfOk result (λ read. map (map requirement_view) read ≡ map parsed_requirements packages.now) }
{
    let mut read = List::new(alloc);
    for listed in packages {
        read.push(read_requirements(alloc, &listed.id, listed.dependencies.as_slice())?)?;
    }
    Ok(read)
}

// Parses the requirements that the package of this id declares, or gives the fault of the first that is none.
fn read_requirements(
    alloc: Global,
    id: &Text,
    declarations: &[Declaration],
) -> Result<List<VersionReq>, MetadataFault>
    ensures faults { Passes MetadataFault.Memory (each_passes (requirement_reads id.now) declarations.now) result }
    ensures read { IfOk result (λ read. map requirement_view read ≡ map parsed_requirement declarations.now) }
{
    let mut read = List::new(alloc);
    for declaration in declarations {
        read.push(read_requirement(alloc, id, declaration)?)?;
    }
    Ok(read)
}

// Parses the requirement of a declaration, or gives the fault that it is none.
#[tactic(auto, unfolding(crate::specs::Checked::requirement_reads, crate::specs::Checked::read_or))]
fn read_requirement(
    alloc: Global,
    id: &Text,
    declaration: &Declaration,
) -> Result<VersionReq, MetadataFault>
    ensures faults { Passes MetadataFault.Memory (requirement_reads id.now declaration.now) result }
    ensures read { IfOk result (λ read. requirement_view read ≡ parsed_requirement declaration.now) }
{
    match requirement_in(alloc, declaration.req.as_str())? {
        None => Err(MetadataFault::Requirement(id.clone()?)),
        Some(requirement) => Ok(requirement),
    }
}

/// Parses the sources of the packages that write one, or gives the fault of the first that is none.
pub fn sources_of(
    alloc: Global,
    packages: &[MetadataPackage],
) -> Result<List<Option<Source>>, MetadataFault>
    ensures faults { Passes MetadataFault.Memory (each_passes source_reads packages.now) result }
    ensures read { IfOk result (λ read. read ≡ map parsed_source packages.now) }
{
    let mut read = List::new(alloc);
    for listed in packages {
        read.push(read_source(alloc, listed)?)?;
    }
    Ok(read)
}

// Parses the source of a package that writes one, or gives the fault that it is none.
#[tactic(auto, unfolding(crate::specs::Checked::source_reads, crate::specs::Checked::read_or, crate::specs::Checked::optional_reads))]
fn read_source(alloc: Global, listed: &MetadataPackage) -> Result<Option<Source>, MetadataFault>
    ensures faults { Passes MetadataFault.Memory (source_reads listed.now) result }
    ensures read { IfOk result (λ read. read ≡ parsed_source listed.now) }
{
    match &listed.source {
        None => Ok(None),
        Some(text) => match source_in(alloc, text.as_str())? {
            None => Err(MetadataFault::Source(listed.id.clone()?)),
            Some(source) => Ok(Some(source)),
        },
    }
}
