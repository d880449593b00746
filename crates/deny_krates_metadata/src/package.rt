//! The packages that the metadata lists.
ghost use Rattle.deny_base_lists.specs.Reader.{Answers};
ghost use Rattle.deny_krates_metadata.specs.Document.{package_at, target_at};
ghost use Rattle.deny_krates_metadata.specs.private.Borrowed.{view};
ghost use Rattle.deny_krates_metadata.specs.private.Parts.{contents_at, identity_at, terms_at};

use crate::declaration::Declaration;
use crate::elements::{
    Element, each_given, object, optional_text_in, optional_texts_in, required_text, required_texts,
};
use crate::fault::MetadataFault;
use crate::feature::{Feature, package_features};
use crate::member::MetadataMember;
use deny_base_lists::{List, Text};
use json::Value;
use std::alloc::Global;

/// A target of a package: its kinds, and the path of its first file.
#[derive(Drop)]
pub struct Target {
    pub kind: List<Text>,
    pub src_path: Text,
}

impl Element for Target {
    ghost read_at = { target_at };

    #[tactic(auto, unfolding(crate::specs::Document::target_at))]
    fn from_value(alloc: Global, path: &str, value: &Value<'_>) -> Result<Target, MetadataFault> {
        object(alloc, path, value)?;
        let kind = required_texts(alloc, path, value, MetadataMember::Kind)?;
        let src_path = required_text(alloc, path, value, MetadataMember::SrcPath)?;
        Ok(Target { kind, src_path })
    }
}

/// A package as the metadata lists it.
#[derive(Drop)]
pub struct MetadataPackage {
    pub name: Text,
    pub version: Text,
    pub id: Text,
    pub manifest_path: Text,
    pub source: Option<Text>,
    pub license: Option<Text>,
    pub rust_version: Option<Text>,
    pub publish: Option<List<Text>>,
    /// In byte order of their names.
    pub features: List<Feature>,
    pub targets: List<Target>,
    pub dependencies: List<Declaration>,
}

impl Element for MetadataPackage {
    ghost read_at = { package_at };

    fn from_value(
        alloc: Global,
        path: &str,
        value: &Value<'_>,
    ) -> Result<MetadataPackage, MetadataFault> {
        let identity = identity_in(alloc, path, value)?;
        let terms = terms_in(alloc, path, value)?;
        let contents = contents_in(alloc, path, value)?;
        Ok(MetadataPackage {
            name: identity.name,
            version: identity.version,
            id: identity.id,
            manifest_path: identity.manifest_path,
            source: terms.source,
            license: terms.license,
            rust_version: terms.rust_version,
            publish: terms.publish,
            features: contents.features,
            targets: contents.targets,
            dependencies: contents.dependencies,
        })
    }
}

// The texts that identify a package. Every package has them.
#[derive(Drop)]
struct Identity {
    name: Text,
    version: Text,
    id: Text,
    manifest_path: Text,
}

// The identity of the package that a value is.
#[tactic(auto, unfolding(crate::specs::private::Parts::identity_at))]
fn identity_in(alloc: Global, path: &str, value: &Value<'_>) -> Result<Identity, MetadataFault>
    ensures { Answers MetadataFault.Memory (identity_at path.now (view value.now)) result }
{
    object(alloc, path, value)?;
    let name = required_text(alloc, path, value, MetadataMember::Name)?;
    let version = required_text(alloc, path, value, MetadataMember::Version)?;
    let id = required_text(alloc, path, value, MetadataMember::Id)?;
    let manifest_path = required_text(alloc, path, value, MetadataMember::ManifestPath)?;
    Ok(Identity {
        name,
        version,
        id,
        manifest_path,
    })
}

// Where a package comes from, and the terms on which it may be used. A package may leave out each of them.
#[derive(Drop)]
struct Terms {
    source: Option<Text>,
    license: Option<Text>,
    rust_version: Option<Text>,
    publish: Option<List<Text>>,
}

// The terms of the package that a value is.
#[tactic(auto, unfolding(crate::specs::private::Parts::terms_at))]
fn terms_in(alloc: Global, path: &str, value: &Value<'_>) -> Result<Terms, MetadataFault>
    ensures { Answers MetadataFault.Memory (terms_at path.now (view value.now)) result }
{
    let source = optional_text_in(alloc, path, value, MetadataMember::Source)?;
    let license = optional_text_in(alloc, path, value, MetadataMember::License)?;
    let rust_version = optional_text_in(alloc, path, value, MetadataMember::RustVersion)?;
    let publish = optional_texts_in(alloc, path, value, MetadataMember::Publish)?;
    Ok(Terms {
        source,
        license,
        rust_version,
        publish,
    })
}

// The lists that a package holds.
#[derive(Drop)]
struct Contents {
    features: List<Feature>,
    targets: List<Target>,
    dependencies: List<Declaration>,
}

// The lists of the package that a value is.
#[tactic(auto, unfolding(crate::specs::private::Parts::contents_at))]
fn contents_in(alloc: Global, path: &str, value: &Value<'_>) -> Result<Contents, MetadataFault>
    ensures { Answers MetadataFault.Memory (contents_at path.now (view value.now)) result }
{
    let features = package_features(alloc, path, value)?;
    let targets = each_given(alloc, path, value, MetadataMember::Targets)?;
    let dependencies = each_given(alloc, path, value, MetadataMember::Dependencies)?;
    Ok(Contents {
        features,
        targets,
        dependencies,
    })
}
