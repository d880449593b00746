ghost use Rattle.std.specs.Prelude.{◌≡◌};
ghost use Rattle.deny_krates_metadata.specs.private.Selection.{all_if, has, is_nothing, member_selected};
ghost use Rattle.deny_krates_metadata.specs.private.Selection.{metadata_member, package_member, target_member};
ghost use Rattle.deny_krates_metadata.specs.private.Selection.{declaration_member, resolve_member};
ghost use Rattle.deny_krates_metadata.specs.private.Selection.{node_member, dependency_member};

use crate::member::MetadataMember;

/// Which members of a value are read. For an array it applies to each of the elements.
#[derive(Clone, Copy)]
pub enum Selection {
    All,
    Nothing,
    Metadata,
    Package,
    Target,
    Declaration,
    Resolve,
    Node,
    NodeDependency,
}

impl Selection {
    /// Whether nothing is read.
    pub fn is_nothing(self) -> bool
        ensures { result ≡ is_nothing self }
    {
        matches!(self, Selection::Nothing)
    }

    /// What is read of the member of this name, in an object of which `self` is read.
    pub fn of_member(self, name: &str) -> Selection
        ensures { result ≡ member_selected self name.now }
    {
        match self {
            Selection::All => Selection::All,
            Selection::Nothing => Selection::Nothing,
            Selection::Metadata => metadata_member(name),
            Selection::Package => package_member(name),
            Selection::Target => target_member(name),
            Selection::Declaration => declaration_member(name),
            Selection::Resolve => resolve_member(name),
            Selection::Node => node_member(name),
            Selection::NodeDependency => dependency_member(name),
        }
    }
}

fn all_if(is_read: bool) -> Selection
    ensures { result ≡ all_if is_read }
{
    if is_read {
        Selection::All
    } else {
        Selection::Nothing
    }
}

// Whether a name is that of the member.
fn is(name: &str, member: MetadataMember) -> bool
    ensures { result ≡ has name.now member }
{
    name == member.name()
}

#[tactic(auto, unfolding(crate::specs::private::Selection::metadata_member))]
fn metadata_member(name: &str) -> Selection
    ensures { result ≡ metadata_member name.now }
{
    if is(name, MetadataMember::Packages) {
        Selection::Package
    } else if is(name, MetadataMember::Resolve) {
        Selection::Resolve
    } else {
        all_if(
            is(name, MetadataMember::WorkspaceMembers) || is(name, MetadataMember::WorkspaceRoot),
        )
    }
}

#[tactic(auto, unfolding(crate::specs::private::Selection::package_member))]
fn package_member(name: &str) -> Selection
    ensures { result ≡ package_member name.now }
{
    if is(name, MetadataMember::Targets) {
        Selection::Target
    } else if is(name, MetadataMember::Dependencies) {
        Selection::Declaration
    } else {
        all_if(
            is(name, MetadataMember::Name)
                || is(name, MetadataMember::Version)
                || is(name, MetadataMember::Id)
                || is(name, MetadataMember::ManifestPath)
                || is(name, MetadataMember::Source)
                || is(name, MetadataMember::License)
                || is(name, MetadataMember::RustVersion)
                || is(name, MetadataMember::Publish)
                || is(name, MetadataMember::Features),
        )
    }
}

#[tactic(auto, unfolding(crate::specs::private::Selection::target_member))]
fn target_member(name: &str) -> Selection
    ensures { result ≡ target_member name.now }
{
    all_if(is(name, MetadataMember::Kind) || is(name, MetadataMember::SrcPath))
}

#[tactic(auto, unfolding(crate::specs::private::Selection::declaration_member))]
fn declaration_member(name: &str) -> Selection
    ensures { result ≡ declaration_member name.now }
{
    all_if(
        is(name, MetadataMember::Name)
            || is(name, MetadataMember::Req)
            || is(name, MetadataMember::Kind)
            || is(name, MetadataMember::Rename)
            || is(name, MetadataMember::Target)
            || is(name, MetadataMember::Path)
            || is(name, MetadataMember::Features)
            || is(name, MetadataMember::UsesDefaultFeatures),
    )
}

#[tactic(auto, unfolding(crate::specs::private::Selection::resolve_member))]
fn resolve_member(name: &str) -> Selection
    ensures { result ≡ resolve_member name.now }
{
    if is(name, MetadataMember::Nodes) {
        Selection::Node
    } else {
        Selection::Nothing
    }
}

#[tactic(auto, unfolding(crate::specs::private::Selection::node_member))]
fn node_member(name: &str) -> Selection
    ensures { result ≡ node_member name.now }
{
    if is(name, MetadataMember::Deps) {
        Selection::NodeDependency
    } else {
        all_if(is(name, MetadataMember::Id) || is(name, MetadataMember::Features))
    }
}

#[tactic(auto, unfolding(crate::specs::private::Selection::dependency_member))]
fn dependency_member(name: &str) -> Selection
    ensures { result ≡ dependency_member name.now }
{
    all_if(is(name, MetadataMember::Pkg) || is(name, MetadataMember::DepKinds))
}
