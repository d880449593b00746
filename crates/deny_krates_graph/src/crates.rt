ghost use Rattle.std.specs.Prelude.{◌≡◌, ◌≢◌, ◌<◌, [], IfOk, None, Some, All, AllPairs};
ghost use Rattle.std.specs.Prelude.{Contains, length, map, option_map, slice_get};
ghost use Rattle.std.specs.Cmp.Lexicographic.{slice_cmp};
ghost use Rattle.std.specs.List.{AllZip};
ghost use Rattle.std.specs.Ordering.{nat_cmp};
ghost use Rattle.semver.specs.Identifiers.{parts_of};
ghost use Rattle.deny_base_lists.specs.Ascending.{Lists};
ghost use Rattle.deny_krates_graph.specs.Crates.{dependency_view};
ghost use Rattle.deny_krates_graph.specs.private.Graph.{IsKrateAs, IsKrateOf, no_package};
ghost use Rattle.deny_krates_graph.specs.private.Taken.{IsRead, IsWithout, dependency_with, requirement_held};
ghost use Rattle.deny_krates_graph.specs.Listed.{dependency_at, features_of, requirement_read};
ghost use Rattle.deny_krates_sources.specs.PackageTexts.{AreTextsOf};

use crate::graph::KeptPackage;
use crate::krate::{Dependency, Krate};
use deny_base::Kid;
use deny_base_lists::{List, NoMemory, Text, TextMap, put_in_order};
use deny_krates_metadata::{Declaration, Feature, MetadataNode, MetadataPackage};
use deny_krates_sources::{PackageTexts, PackageVersions, Source};
use semver::{Version, VersionReq};
use std::alloc::Global;
use std::mem;

// A package, and its texts parsed.
#[derive(Drop)]
struct ReadPackage {
    listed: MetadataPackage,
    versions: PackageVersions,
    requirements: List<VersionReq>,
    source: Option<Source>,
}

/// The crates of the kept packages, given the parsed texts of all packages. The kept packages and their
/// parsed texts are moved into the crates, and empty ones are left in their places.
pub fn krates_of(
    alloc: Global,
    packages: &mut List<MetadataPackage>,
    texts: &mut PackageTexts,
    nodes: &[MetadataNode],
    kept: &[KeptPackage],
) -> Result<List<Krate>, NoMemory>
    requires packages { All (λ k. k.owner < length packages.old) kept.now }
    requires texts { AreTextsOf packages.old texts.old }
    requires apart { AllPairs (λ m n. m ≢ n) (map (λ k. k.owner) kept.now) }
    requires nodes { All (λ k. k.node < length nodes.now) kept.now }
    ensures { IfOk result (AllZip (IsKrateOf packages.old nodes.now) kept.now) }
{
    let mut krates = List::new(alloc);
    for each in kept {
        let read = take_read(alloc, packages, texts, each.owner);
        let node = &nodes[each.node as usize];
        krates.push(krate_of(alloc, read, &node.features)?)?;
    }
    Ok(krates)
}

// Moves a package and its parsed texts out of the lists that hold them.
fn take_read(
    alloc: Global,
    packages: &mut List<MetadataPackage>,
    texts: &mut PackageTexts,
    number: u32,
) -> ReadPackage
    requires packages { number < length packages.old }
    requires versions { number < length texts.old.versions }
    requires requirements { number < length texts.old.requirements }
    requires sources { number < length texts.old.sources }
    ensures listed { slice_get packages.old number ≡ Some result.listed }
    ensures versions { slice_get texts.old.versions number ≡ Some result.versions }
    ensures requirements { slice_get texts.old.requirements number ≡ Some result.requirements }
    ensures source { slice_get texts.old.sources number ≡ Some result.source }
    ensures other_packages { IsWithout number packages.old packages.new }
    ensures other_versions { IsWithout number texts.old.versions texts.new.versions }
    ensures other_requirements { IsWithout number texts.old.requirements texts.new.requirements }
    ensures other_sources { IsWithout number texts.old.sources texts.new.sources }
{
    let listed = take(packages, number, no_package(alloc));
    let versions = take(&mut texts.versions, number, no_versions());
    let requirements = take(&mut texts.requirements, number, List::new(alloc));
    let source = take(&mut texts.sources, number, None);
    ReadPackage {
        listed,
        versions,
        requirements,
        source,
    }
}

// Moves an item out of a list, and leaves `empty` in its place.
fn take<T>(list: &mut List<T>, number: u32, empty: T) -> T
    requires { number < length list.old }
    ensures taken { slice_get list.old number ≡ Some result }
    ensures others { IsWithout number list.old list.new }
{
    mem::replace(&mut list.vec[number as usize], empty)
}

fn no_package(alloc: Global) -> MetadataPackage
    ensures { result ≡ no_package }
{
    MetadataPackage {
        name: Text::new(alloc),
        version: Text::new(alloc),
        id: Text::new(alloc),
        manifest_path: Text::new(alloc),
        source: None,
        license: None,
        rust_version: None,
        publish: None,
        features: List::new(alloc),
        targets: List::new(alloc),
        dependencies: List::new(alloc),
    }
}

fn no_versions() -> PackageVersions
    ensures version { parts_of result.version ≡ (0, 0, 0, [], []) }
    ensures rust_version { option_map parts_of result.rust_version ≡ None }
{
    PackageVersions {
        version: Version::new(0, 0, 0),
        rust_version: None,
    }
}

fn krate_of(alloc: Global, read: ReadPackage, enabled: &List<Text>) -> Result<Krate, NoMemory>
    requires { IsRead read }
    ensures { IfOk result (IsKrateAs read.listed enabled.now) }
{
    let ReadPackage {
        listed,
        versions,
        requirements,
        source,
    } = read;
    let lists = lists_of(
        alloc,
        listed.features,
        listed.dependencies,
        requirements,
        enabled,
    )?;
    Ok(Krate {
        version: versions.version,
        source,
        rust_version: versions.rust_version,
        features: lists.features,
        deps: lists.deps,
        enabled: lists.enabled,
        name: listed.name,
        id: Kid(listed.id),
        source_text: listed.source,
        license: listed.license,
        manifest_path: listed.manifest_path,
        publish: listed.publish,
        targets: listed.targets,
    })
}

// The features and dependencies of a crate.
#[derive(Drop)]
struct KrateLists {
    features: TextMap<List<Text>>,
    deps: List<Dependency>,
    enabled: List<Text>,
}

fn lists_of(
    alloc: Global,
    features: List<Feature>,
    declarations: List<Declaration>,
    requirements: List<VersionReq>,
    enabled: &List<Text>,
) -> Result<KrateLists, NoMemory>
    requires { map requirement_held requirements ≡ map (λ d. requirement_read d.req) declarations }
    ensures features { IfOk result (λ lists. lists.features ≡ features_of features) }
    ensures deps { IfOk result (λ lists. map dependency_view lists.deps ≡ map dependency_at declarations) }
    ensures enabled { IfOk result (λ lists. Lists (slice_cmp nat_cmp) (Contains enabled.now) lists.enabled) }
{
    let features = features_in(alloc, features)?;
    let deps = declared_dependencies(alloc, declarations, requirements)?;
    let enabled = in_order(enabled)?;
    Ok(KrateLists {
        features,
        deps,
        enabled,
    })
}

// The lists of what each feature enables, by the names of the features.
fn features_in(alloc: Global, listed: List<Feature>) -> Result<TextMap<List<Text>>, NoMemory>
    ensures { IfOk result (λ features. features ≡ features_of listed) }
{
    let mut features = TextMap::new(alloc);
    for feature in listed.vec {
        features.insert(feature.name, feature.enables)?;
    }
    Ok(features)
}

// The dependencies of declarations, given their parsed requirements.
fn declared_dependencies(
    alloc: Global,
    declarations: List<Declaration>,
    requirements: List<VersionReq>,
) -> Result<List<Dependency>, NoMemory>
    requires { map requirement_held requirements ≡ map (λ d. requirement_read d.req) declarations }
    ensures { IfOk result (λ deps. map dependency_view deps ≡ map dependency_at declarations) }
{
    let mut deps = List::new(alloc);
    for (declaration, req) in declarations.vec.into_iter().zip(requirements.vec) {
        deps.push(dependency_in(declaration, req))?;
    }
    Ok(deps)
}

fn dependency_in(declaration: Declaration, req: VersionReq) -> Dependency
    ensures { dependency_view result ≡ dependency_with declaration (requirement_held req) }
{
    Dependency {
        name: declaration.name,
        req,
        kind: declaration.kind,
        rename: declaration.rename,
        target: declaration.target,
        path: declaration.path,
        features: declaration.features,
        uses_default_features: declaration.uses_default_features,
    }
}

// Texts in ascending order, each once.
fn in_order(texts: &List<Text>) -> Result<List<Text>, NoMemory>
    ensures { IfOk result (Lists (slice_cmp nat_cmp) (Contains texts.now)) }
{
    let mut texts = texts.clone()?;
    put_in_order(&mut texts)?;
    Ok(texts)
}
