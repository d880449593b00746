ghost use Rattle.std.specs.Prelude.{◌≡◌};
ghost use Rattle.deny_krates_metadata.specs.Member.{name_of};

/// A member of one of the metadata's objects that is read.
#[derive(Clone, Copy)]
pub enum MetadataMember {
    Packages,
    WorkspaceMembers,
    WorkspaceRoot,
    Resolve,
    Nodes,
    Name,
    Version,
    Id,
    ManifestPath,
    Source,
    License,
    RustVersion,
    Publish,
    Features,
    Targets,
    Dependencies,
    Req,
    Kind,
    Rename,
    Target,
    Path,
    UsesDefaultFeatures,
    SrcPath,
    Deps,
    Pkg,
    DepKinds,
}

impl MetadataMember {
    /// The member's name in the text.
    #[tactic(auto, unfolding(crate::specs::Member::name_of))]
    pub fn name(self) -> &'static str
        ensures { result.now ≡ name_of self }
    {
        match self {
            MetadataMember::Packages => "packages",
            MetadataMember::WorkspaceMembers => "workspace_members",
            MetadataMember::WorkspaceRoot => "workspace_root",
            MetadataMember::Resolve => "resolve",
            MetadataMember::Nodes => "nodes",
            MetadataMember::Name => "name",
            MetadataMember::Version => "version",
            MetadataMember::Id => "id",
            MetadataMember::ManifestPath => "manifest_path",
            MetadataMember::Source => "source",
            MetadataMember::License => "license",
            MetadataMember::RustVersion => "rust_version",
            MetadataMember::Publish => "publish",
            MetadataMember::Features => "features",
            MetadataMember::Targets => "targets",
            MetadataMember::Dependencies => "dependencies",
            MetadataMember::Req => "req",
            MetadataMember::Kind => "kind",
            MetadataMember::Rename => "rename",
            MetadataMember::Target => "target",
            MetadataMember::Path => "path",
            MetadataMember::UsesDefaultFeatures => "uses_default_features",
            MetadataMember::SrcPath => "src_path",
            MetadataMember::Deps => "deps",
            MetadataMember::Pkg => "pkg",
            MetadataMember::DepKinds => "dep_kinds",
        }
    }
}
