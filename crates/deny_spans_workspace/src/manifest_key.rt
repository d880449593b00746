ghost use Rattle.std.specs.Prelude.{◌≡◌};
ghost use Rattle.deny_spans_workspace.specs.ManifestKey.{name_of};

/// A key that leads to the entries of a workspace, or that an entry has.
#[derive(Clone, Copy)]
pub enum ManifestKey {
    Branch,
    CratesIo,
    Dependencies,
    Git,
    Patch,
    Path,
    Registry,
    Rev,
    Tag,
    Version,
    Workspace,
}

impl ManifestKey {
    /// The key as a manifest writes it.
    #[tactic(auto, unfolding(crate::specs::ManifestKey::name_of))]
    pub fn name(self) -> &'static str
        ensures { result.now ≡ name_of self }
    {
        match self {
            ManifestKey::Branch => "branch",
            ManifestKey::CratesIo => "crates-io",
            ManifestKey::Dependencies => "dependencies",
            ManifestKey::Git => "git",
            ManifestKey::Patch => "patch",
            ManifestKey::Path => "path",
            ManifestKey::Registry => "registry",
            ManifestKey::Rev => "rev",
            ManifestKey::Tag => "tag",
            ManifestKey::Version => "version",
            ManifestKey::Workspace => "workspace",
        }
    }
}
