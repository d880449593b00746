//! Globs that are read one after another.
ghost use Rattle.std.specs.Prelude.{◌≡◌, [], OnOk, IfOk, map};
ghost use Rattle.deny_cfg_build.specs.Globs.{AreGlobsOf, extension_text, own_text};
ghost use Rattle.deny_cfg_build.specs.private.Globs.{Gathers};
ghost use Rattle.deny_cfg_build.specs.declared.pattern.GlobPattern.TheVariants.{User};

use crate::pattern::GlobPattern;
use deny_base::Spanned;
use deny_base_lists::{List, NoMemory, Text};
use deny_globs::{Glob, GlobError, GlobSet};
use std::alloc::Global;

/// Globs so far, and the pattern of each.
#[derive(Drop)]
pub(crate) struct GatheredGlobs {
    pub set: GlobSet,
    pub patterns: List<GlobPattern>,
}

impl GatheredGlobs {
    pub(crate) fn new(alloc: Global) -> GatheredGlobs
        ensures set { result.set ≡ [] }
        ensures patterns { result.patterns ≡ [] }
    {
        GatheredGlobs {
            set: GlobSet::empty(alloc),
            patterns: List::new(alloc),
        }
    }

    /// Adds the glob that a text writes, and its pattern; a text that is no glob is left out.
    pub(crate) fn gather(
        &mut self,
        alloc: Global,
        pattern: GlobPattern,
        text: &str,
    ) -> Result<(), NoMemory>
        ensures { OnOk result (Gathers text.now pattern self.old.patterns self.old.set self.new.patterns self.new.set) }
    {
        match Glob::parse(alloc, text) {
            Ok(glob) => {
                self.set.add(glob)?;
                self.patterns.push(pattern)?;
                Ok(())
            }
            Err(GlobError::Bad(_)) => Ok(()),
            Err(GlobError::Memory) => Err(NoMemory),
        }
    }
}

/// Reads the globs that a policy writes.
pub(crate) fn own_globs(
    alloc: Global,
    globs: List<Spanned<Text>>,
) -> Result<GatheredGlobs, NoMemory>
    ensures { IfOk result (λ all. AreGlobsOf own_text (map User globs) all.patterns all.set) }
{
    let mut all = GatheredGlobs::new(alloc);
    'globs: for glob in globs.vec {
        let text = glob.value.clone()?;
        all.gather(alloc, GlobPattern::User(glob), text.as_str())?;
    }
    Ok(all)
}

/// Reads the globs of the extensions that a policy writes.
pub(crate) fn extension_globs(
    alloc: Global,
    extensions: List<Spanned<Text>>,
) -> Result<GatheredGlobs, NoMemory>
    ensures { IfOk result (λ all. AreGlobsOf extension_text (map User extensions) all.patterns all.set) }
{
    let mut all = GatheredGlobs::new(alloc);
    'extensions: for extension in extensions.vec {
        let pattern = GlobPattern::User(extension);
        let text = pattern.extension_text(alloc)?;
        all.gather(alloc, pattern, text.as_str())?;
    }
    Ok(all)
}
