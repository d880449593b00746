//! The built-in globs, and the file that holds them.
ghost use Rattle.std.specs.Prelude.{◌≡◌, ◌<◌, ◌^◌, ◌++◌, ◌∷◌, [], IfOk, OnErr, OnOk, length, map};
ghost use Rattle.deny_cfg_build.specs.Builtin.{builtin_file, builtin_patterns};
ghost use Rattle.deny_cfg_build.specs.private.Builtin.{builtin_of};
ghost use Rattle.deny_cfg_build.specs.Globs.{extension_text};
ghost use Rattle.deny_cfg_build.specs.private.Globs.{GathersMore};

use crate::gathered::GatheredGlobs;
use crate::pattern::GlobPattern;
use deny_base::{FileId, Files, Span, Spanned};
use deny_base_lists::{NoMemory, Text};
use std::alloc::Global;

/// A built-in glob, with its span in the file.
pub(crate) struct BuiltinGlob<'t> {
    pub text: &'t str,
    pub span: Span,
}

const BUILTIN_GLOBS: [BuiltinGlob<'static>; 12] = [
    BuiltinGlob {
        text: "*.bash",
        span: Span { start: 10, end: 16 },
    },
    BuiltinGlob {
        text: "*.bat",
        span: Span { start: 20, end: 25 },
    },
    BuiltinGlob {
        text: "*.cmd",
        span: Span { start: 29, end: 34 },
    },
    BuiltinGlob {
        text: "*.fish",
        span: Span { start: 38, end: 44 },
    },
    BuiltinGlob {
        text: "*.js",
        span: Span { start: 48, end: 52 },
    },
    BuiltinGlob {
        text: "*.pl",
        span: Span { start: 56, end: 60 },
    },
    BuiltinGlob {
        text: "*.ps1",
        span: Span { start: 64, end: 69 },
    },
    BuiltinGlob {
        text: "*.py",
        span: Span { start: 73, end: 77 },
    },
    BuiltinGlob {
        text: "*.rb",
        span: Span { start: 81, end: 85 },
    },
    BuiltinGlob {
        text: "*.sh",
        span: Span { start: 89, end: 93 },
    },
    BuiltinGlob {
        text: "*.vbs",
        span: Span {
            start: 97,
            end: 102,
        },
    },
    BuiltinGlob {
        text: "*.zsh",
        span: Span {
            start: 106,
            end: 111,
        },
    },
];

/// Adds the file of the built-in globs behind the others, and returns its number. When out of memory, the files are
/// unchanged.
#[tactic(auto, unfolding(crate::specs::Builtin::builtin_file))]
pub(crate) fn add_builtin_file(files: &mut Files) -> Result<FileId, NoMemory>
    requires few { length files.old < 2 ^ 31 }
    ensures id { IfOk result (λ id. id ≡ length files.old) }
    ensures ok { OnOk result (files.new ≡ files.old ++ builtin_file ∷ []) }
    ensures err { OnErr result (files.new ≡ files.old) }
{
    files.add(
        "builtin_globs.toml",
        concat!(
            "globs = [\"*.bash\", \"*.bat\", \"*.cmd\", \"*.fish\", \"*.js\", \"*.pl\", ",
            "\"*.ps1\", \"*.py\", \"*.rb\", \"*.sh\", \"*.vbs\", \"*.zsh\"]\n",
        ),
    )
}

fn builtin_of(alloc: Global, file: FileId, glob: &BuiltinGlob<'_>) -> Result<GlobPattern, NoMemory>
    ensures { IfOk result (λ pattern. pattern ≡ builtin_of file glob.now) }
{
    let word = Spanned {
        value: Text::from_str(alloc, glob.text)?,
        span: glob.span,
    };
    Ok(GlobPattern::Builtin((word, file)))
}

/// Adds some of the built-in globs to those so far.
fn gather_some(
    alloc: Global,
    file: FileId,
    globs: &[BuiltinGlob<'_>],
    all: &mut GatheredGlobs,
) -> Result<(), NoMemory>
    ensures { OnOk result (GathersMore extension_text (map (builtin_of file) globs.now)
        all.old.patterns all.old.set all.new.patterns all.new.set) }
{
    for glob in globs {
        all.gather(alloc, builtin_of(alloc, file, glob)?, glob.text)?;
    }
    Ok(())
}

/// Adds the built-in globs, whose file has this number, to those so far.
#[tactic(auto, unfolding(crate::specs::Builtin::builtin_words, crate::specs::Builtin::builtin_texts))]
pub(crate) fn gather_builtin(
    alloc: Global,
    file: FileId,
    all: &mut GatheredGlobs,
) -> Result<(), NoMemory>
    ensures { OnOk result (GathersMore extension_text (builtin_patterns file)
        all.old.patterns all.old.set all.new.patterns all.new.set) }
{
    gather_some(alloc, file, &BUILTIN_GLOBS, all)
}
