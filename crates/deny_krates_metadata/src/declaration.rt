//! The dependencies that a package declares.
ghost use Rattle.deny_base_lists.specs.Reader.{Answers};
ghost use Rattle.deny_krates_metadata.specs.Document.{declaration_at};
ghost use Rattle.deny_krates_metadata.specs.private.Borrowed.{view};
ghost use Rattle.deny_krates_metadata.specs.private.Parts.{requested_at, usage_at};

use crate::elements::{
    Element, each_text_given, flag_or_default, object, optional_text_in, required_text,
};
use crate::fault::MetadataFault;
use crate::kind::dependency_kind;
use crate::member::MetadataMember;
use deny_base::DepKind;
use deny_base_lists::{List, Text};
use json::Value;
use std::alloc::Global;

/// A dependency as the manifest declares it.
#[derive(Drop)]
pub struct Declaration {
    pub name: Text,
    pub req: Text,
    pub kind: DepKind,
    pub rename: Option<Text>,
    pub target: Option<Text>,
    pub path: Option<Text>,
    pub features: List<Text>,
    pub uses_default_features: bool,
}

impl Element for Declaration {
    ghost read_at = { declaration_at };

    fn from_value(
        alloc: Global,
        path: &str,
        value: &Value<'_>,
    ) -> Result<Declaration, MetadataFault> {
        let requested = requested_in(alloc, path, value)?;
        let usage = usage_in(alloc, path, value)?;
        Ok(Declaration {
            name: requested.name,
            req: requested.req,
            kind: requested.kind,
            rename: requested.rename,
            target: usage.target,
            path: usage.path,
            features: usage.features,
            uses_default_features: usage.uses_default_features,
        })
    }
}

// What a dependency is: which versions of which package, of which kind, and by which name.
#[derive(Drop)]
struct Requested {
    name: Text,
    req: Text,
    kind: DepKind,
    rename: Option<Text>,
}

// The part of a declaration that says what is requested.
#[tactic(auto, unfolding(crate::specs::private::Parts::requested_at))]
fn requested_in(alloc: Global, path: &str, value: &Value<'_>) -> Result<Requested, MetadataFault>
    ensures { Answers MetadataFault.Memory (requested_at path.now (view value.now)) result }
{
    object(alloc, path, value)?;
    let name = required_text(alloc, path, value, MetadataMember::Name)?;
    let req = required_text(alloc, path, value, MetadataMember::Req)?;
    let kind = dependency_kind(alloc, path, value)?;
    let rename = optional_text_in(alloc, path, value, MetadataMember::Rename)?;
    Ok(Requested {
        name,
        req,
        kind,
        rename,
    })
}

// How a dependency is used: for which target, from which folder, and with which features.
#[derive(Drop)]
struct Usage {
    target: Option<Text>,
    path: Option<Text>,
    features: List<Text>,
    uses_default_features: bool,
}

// The part of a declaration that says how the dependency is used.
#[tactic(auto, unfolding(crate::specs::private::Parts::usage_at))]
fn usage_in(alloc: Global, path: &str, value: &Value<'_>) -> Result<Usage, MetadataFault>
    ensures { Answers MetadataFault.Memory (usage_at path.now (view value.now)) result }
{
    let target = optional_text_in(alloc, path, value, MetadataMember::Target)?;
    let folder = optional_text_in(alloc, path, value, MetadataMember::Path)?;
    let features = each_text_given(alloc, path, value, MetadataMember::Features)?;
    let uses_default_features = flag_or_default(
        alloc,
        path,
        value,
        MetadataMember::UsesDefaultFeatures,
        true,
    )?;
    Ok(Usage {
        target,
        path: folder,
        features,
        uses_default_features,
    })
}
