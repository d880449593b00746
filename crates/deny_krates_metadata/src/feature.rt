//! The features of a package.
ghost use Rattle.std.specs.Prelude.{◌≡◌, ◌++◌, [], ◌∷◌, IfOk, Ok};
ghost use Rattle.deny_base_lists.specs.Reader.{Answers, Gives, IsFault};
ghost use Rattle.deny_krates_metadata.specs.Document.{feature_at, features_from, features_member};
ghost use Rattle.deny_krates_metadata.specs.private.Borrowed.{members_view, sorted_view, view};
ghost use Rattle.deny_krates_metadata.specs.declared.feature.Feature.{Feature};

use crate::borrowed::members_in;
use crate::elements::{given_member, path_of, refuse_member, texts};
use crate::fault::MetadataFault;
use crate::member::MetadataMember;
use deny_base_lists::{List, NoMemory, Text};
use json::Value;
use std::alloc::Global;
use std::collections::BTreeMap;

/// A feature of a package, and what it enables.
#[derive(Drop)]
pub struct Feature {
    pub name: Text,
    pub enables: List<Text>,
}

/// The features of a package; none where it writes none.
#[tactic(auto, unfolding(crate::specs::Document::features_member, crate::specs::Document::features_given, crate::specs::Document::features_at, crate::specs::Elements::required))]
pub fn package_features(
    alloc: Global,
    path: &str,
    value: &Value<'_>,
) -> Result<List<Feature>, MetadataFault>
    ensures { Answers MetadataFault.Memory (features_member path.now (view value.now)) result }
{
    match given_member(value, MetadataMember::Features) {
        None => Ok(List::new(alloc)),
        Some(features) => match members_in(features) {
            None => refuse_member(alloc, path, MetadataMember::Features),
            Some(members) => {
                let at = path_of(alloc, path, MetadataMember::Features.name())?;
                member_features(alloc, at.as_str(), members)
            }
        },
    }
}

// Reads the members of an object as features.
fn member_features<'t>(
    alloc: Global,
    path: &str,
    members: &[(&'t str, Value<'t>)],
) -> Result<List<Feature>, MetadataFault>
    ensures { Answers MetadataFault.Memory (features_from path.now (members_view members.now)) result }
{
    let sorted = by_name(alloc, members)?;
    sorted_features(alloc, path, &sorted)
}

// The members of an object in the order of their names; of members of one name the last counts.
fn by_name<'v, 't>(
    alloc: Global,
    members: &'v [(&'t str, Value<'t>)],
) -> Result<BTreeMap<&'t str, &'v Value<'t>>, NoMemory>
    ensures { IfOk result (λ sorted. sorted_view sorted.entries ≡ members_view members.now) }
{
    let mut sorted = BTreeMap::new(alloc);
    for member in members {
        sorted.insert(member.0, &member.1)?;
    }
    Ok(sorted)
}

// Reads members that are in the order of their names as features.
fn sorted_features<'v, 't>(
    alloc: Global,
    path: &str,
    sorted: &BTreeMap<&'t str, &'v Value<'t>>,
) -> Result<List<Feature>, MetadataFault>
    ensures { Answers MetadataFault.Memory (features_from path.now (sorted_view sorted.now.entries)) result }
{
    let mut features = List::new(alloc);
    for (name, value) in sorted.iter() {
        push_feature(alloc, path, name, value, &mut features)?;
    }
    Ok(features)
}

// Appends the feature of this name.
fn push_feature(
    alloc: Global,
    path: &str,
    name: &str,
    value: &Value<'_>,
    features: &mut List<Feature>,
) -> Result<(), MetadataFault>
    ensures { Gives MetadataFault.Memory
        (λ _. (f : Feature) × (feature_at path.now name.now (view value.now) ≡ Ok f)
        × (features.new ≡ features.old ++ f ∷ []))
        (IsFault (feature_at path.now name.now (view value.now))) result }
{
    features.push(feature_of(alloc, path, name, value)?)?;
    Ok(())
}

// The feature of this name, which enables the texts of a value.
#[tactic(auto, unfolding(crate::specs::Document::feature_at))]
fn feature_of(
    alloc: Global,
    path: &str,
    name: &str,
    value: &Value<'_>,
) -> Result<Feature, MetadataFault>
    ensures { Answers MetadataFault.Memory (feature_at path.now name.now (view value.now)) result }
{
    let enables = texts(alloc, path, name, value)?;
    let name = Text::from_str(alloc, name)?;
    Ok(Feature { name, enables })
}
