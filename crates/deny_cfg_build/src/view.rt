//! The file of the built-in globs of a table `build`.
ghost use Rattle.std.specs.Prelude.{◌≡◌};
ghost use Rattle.deny_cfg_build.specs.BuildingView.{builtin_file_in, globs_file};
ghost use Rattle.deny_cfg_build.specs.private.BuildingView.{file_of};

use crate::pattern::GlobPattern;
use crate::valid::ValidBuildConfig;
use deny_base::FileId;

/// The file of a built-in pattern.
fn file_of(pattern: &GlobPattern) -> Option<FileId>
    ensures { result ≡ file_of pattern.now }
{
    match pattern {
        GlobPattern::Builtin((_, file)) => Some(*file),
        GlobPattern::User(_) => None,
    }
}

/// The file of the first built-in pattern.
fn builtin_file_in(patterns: &[GlobPattern]) -> Option<FileId>
    ensures { result ≡ builtin_file_in patterns.now }
{
    for pattern in patterns {
        let file = file_of(pattern);
        if file.is_some() {
            return file;
        }
    }
    None
}

/// The file of the built-in globs, where the table has some.
pub fn globs_file(build: &ValidBuildConfig) -> Option<FileId>
    ensures { result ≡ globs_file build.now }
{
    builtin_file_in(build.script_extensions.patterns.as_slice())
}
