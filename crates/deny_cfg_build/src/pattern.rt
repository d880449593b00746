//! Patterns of paths, with their spans.
ghost use Rattle.std.specs.Prelude.{◌≡◌, IfOk};
ghost use Rattle.deny_cfg_build.specs.Globs.{extension_text};

use deny_base::{FileId, Spanned};
use deny_base_lists::{NoMemory, Text};
use std::alloc::Global;

/// A pattern of paths: a glob, or the extension of a file.
#[derive(Drop)]
pub enum GlobPattern {
    /// A built-in glob, with its span in the file of this number.
    Builtin((Spanned<Text>, FileId)),
    /// What a policy writes, with its span there: an extension of `script-extensions`, without the dot,
    /// or a glob of `allow-globs`.
    User(Spanned<Text>),
}

impl GlobPattern {
    /// The glob of a pattern of `script-extensions`: the built-in glob, or `*.` and the extension.
    pub fn extension_text(&self, alloc: Global) -> Result<Text, NoMemory>
        ensures { IfOk result (λ text. text ≡ extension_text self.now) }
    {
        match self {
            GlobPattern::Builtin((glob, _)) => Ok(glob.value.clone()?),
            GlobPattern::User(extension) => {
                let mut text = Text::from_str(alloc, "*.")?;
                text.push_str(extension.value.as_str())?;
                Ok(text)
            }
        }
    }
}
