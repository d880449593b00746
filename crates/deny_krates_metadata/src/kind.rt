//! The kind of a dependency.
ghost use Rattle.std.specs.Prelude.{◌≡◌};
ghost use Rattle.deny_base_lists.specs.Reader.{Answers};
ghost use Rattle.deny_krates_metadata.specs.Document.{kind_member, kind_named};
ghost use Rattle.deny_krates_metadata.specs.private.Borrowed.{view};

use crate::borrowed::text_in;
use crate::elements::{given_member, refuse_member};
use crate::fault::MetadataFault;
use crate::member::MetadataMember;
use deny_base::DepKind;
use json::Value;
use std::alloc::Global;

// A kind by its name.
#[tactic(auto, unfolding(crate::specs::Document::kind_named))]
fn kind_by_name(name: &str) -> Option<DepKind>
    ensures { result ≡ kind_named name.now }
{
    if name == "normal" {
        Some(DepKind::Normal)
    } else if name == "dev" {
        Some(DepKind::Dev)
    } else if name == "build" {
        Some(DepKind::Build)
    } else {
        None
    }
}

/// The kind that a dependency writes; normal where it writes none.
#[tactic(auto, unfolding(crate::specs::Document::kind_member, crate::specs::Document::kind_given, crate::specs::Elements::required))]
pub fn dependency_kind(
    alloc: Global,
    path: &str,
    dependency: &Value<'_>,
) -> Result<DepKind, MetadataFault>
    ensures { Answers MetadataFault.Memory (kind_member path.now (view dependency.now)) result }
{
    match given_member(dependency, MetadataMember::Kind) {
        None => Ok(DepKind::Normal),
        Some(value) => match text_in(value).and_then(kind_by_name) {
            Some(kind) => Ok(kind),
            None => refuse_member(alloc, path, MetadataMember::Kind),
        },
    }
}
