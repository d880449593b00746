//! The metadata as a document: its packages, its workspace and its nodes.
ghost use Rattle.std.specs.Prelude.{◌≡◌, true};
ghost use Rattle.std.specs.Str.{is_utf8};
ghost use Rattle.deny_base_lists.specs.Reader.{Answers};
ghost use Rattle.deny_krates_metadata.specs.Document.{document_at, document_of, resolve_given};
ghost use Rattle.deny_krates_metadata.specs.private.Borrowed.{items_view, view};
ghost use Rattle.deny_krates_metadata.specs.private.Parts.{document_of_packages, document_of_workspace};

use crate::elements::{
    array_in, each_of, elements, given_member, object, refuse_member, required_object,
    required_text, required_texts,
};
use crate::fault::MetadataFault;
use crate::member::MetadataMember;
use crate::node::MetadataNode;
use crate::package::MetadataPackage;
use crate::text::{pruned_in, value_in};
use deny_base_lists::{List, Text};
use json::{Scratch, Value};
use std::alloc::Global;

/// The members of the metadata that the graph is made of, as the text writes them.
#[derive(Drop)]
pub struct Document {
    pub packages: List<MetadataPackage>,
    pub members: List<Text>,
    pub workspace_root: Text,
    pub nodes: List<MetadataNode>,
}

// Checks that the root has a `resolve` that is not null.
#[tactic(auto, unfolding(crate::specs::Document::resolve_given))]
fn check_resolve(root: &Value<'_>) -> Result<(), MetadataFault>
    ensures { Answers MetadataFault.Memory (resolve_given (view root.now)) result }
{
    if given_member(root, MetadataMember::Resolve).is_none() {
        return Err(MetadataFault::NoResolve);
    }
    Ok(())
}

// The metadata that a value is, or its first fault.
#[tactic(auto, unfolding(crate::specs::Document::document_of, crate::specs::private::Parts::document_of_packages, crate::specs::private::Parts::document_of_workspace, crate::specs::Elements::array_member, crate::specs::Elements::required))]
fn document_of_root(alloc: Global, root: &Value<'_>) -> Result<Document, MetadataFault>
    ensures { Answers MetadataFault.Memory (document_of (view root.now)) result }
{
    object(alloc, "", root)?;
    check_resolve(root)?;
    match array_in(root, MetadataMember::Packages) {
        Some(packages) => document_of_packages(alloc, root, packages),
        None => refuse_member(alloc, "", MetadataMember::Packages),
    }
}

// The metadata that a value is, given the elements of its array of packages.
#[tactic(auto, unfolding(crate::specs::private::Parts::document_of_packages, crate::specs::Elements::object_member, crate::specs::Elements::required))]
fn document_of_packages(
    alloc: Global,
    root: &Value<'_>,
    packages: &[Value<'_>],
) -> Result<Document, MetadataFault>
    ensures { Answers MetadataFault.Memory (document_of_packages (view root.now) (items_view packages.now)) result }
{
    let members = required_texts(alloc, "", root, MetadataMember::WorkspaceMembers)?;
    let workspace_root = required_text(alloc, "", root, MetadataMember::WorkspaceRoot)?;
    match required_object(root, MetadataMember::Resolve) {
        Some(resolve) => document_of_workspace(alloc, members, workspace_root, packages, resolve),
        None => refuse_member(alloc, "", MetadataMember::Resolve),
    }
}

// The metadata of a workspace, given its members and its folder, the elements of its array of packages,
// and the object that holds its nodes.
#[tactic(auto, unfolding(crate::specs::private::Parts::document_of_workspace, crate::specs::Elements::part_of))]
fn document_of_workspace(
    alloc: Global,
    members: List<Text>,
    workspace_root: Text,
    packages: &[Value<'_>],
    resolve: &Value<'_>,
) -> Result<Document, MetadataFault>
    ensures { Answers MetadataFault.Memory
        (document_of_workspace members workspace_root (items_view packages.now) (view resolve.now)) result }
{
    let packages = elements(alloc, MetadataMember::Packages.name(), packages)?;
    let nodes = each_of(
        alloc,
        MetadataMember::Resolve.name(),
        resolve,
        MetadataMember::Nodes,
    )?;
    Ok(Document {
        packages,
        members,
        workspace_root,
        nodes,
    })
}

/// Reads metadata from a text in UTF-8: the document, or the first fault.
pub fn document_at(alloc: Global, bytes: &[u8]) -> Result<Document, MetadataFault>
    ensures { Answers MetadataFault.Memory (document_at bytes.now) result }
{
    match simdutf8::compat::from_utf8(bytes) {
        Ok(text) => document_of_text(alloc, bytes, text),
        Err(_) => Err(MetadataFault::Json),
    }
}

// Reads metadata from bytes, given the text that they are. Members that are never read get no value. Where
// the text cannot be read so, its whole value is read, which gives the fault.
fn document_of_text(alloc: Global, bytes: &[u8], text: &str) -> Result<Document, MetadataFault>
    requires text { is_utf8 bytes.now ≡ true }
    requires same { text.now ≡ bytes.now }
    ensures { Answers MetadataFault.Memory (document_at bytes.now) result }
{
    let mut scratch = Scratch::new(alloc);
    match pruned_in(alloc, text, &mut scratch) {
        Some(value) => document_of_root(alloc, &value),
        None => document_of_all(alloc, bytes, text),
    }
}

// Reads metadata from the value of the whole text.
#[tactic(auto, unfolding(crate::specs::Document::document_at))]
fn document_of_all(alloc: Global, bytes: &[u8], text: &str) -> Result<Document, MetadataFault>
    requires text { is_utf8 bytes.now ≡ true }
    requires same { text.now ≡ bytes.now }
    ensures { Answers MetadataFault.Memory (document_at bytes.now) result }
{
    let mut scratch = Scratch::new(alloc);
    let value = value_in(alloc, bytes, text, &mut scratch)?;
    document_of_root(alloc, &value)
}
