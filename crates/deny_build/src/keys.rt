//! The keys of the build check that show a path.
ghost use Rattle.std.specs.Prelude.{◌≡◌, IfOk};
ghost use Rattle.deny_spec_report.specs.Packages.{path_key};

use deny_base::{Code, DiagnosticCode, Key, Section, Span};
use deny_base_lists::{List, NoMemory, Text};
use std::alloc::Global;

/// The key of a crate, the span of an entry, and a path as it is shown.
#[tactic(auto, unfolding(deny_spec::specs::Keys::key_of, deny_spec_report::specs::Packages::path_key))]
pub fn path_key(
    alloc: Global,
    code: Code,
    place: u32,
    entry: Span,
    shown: &Text,
) -> Result<Key, NoMemory>
    ensures { IfOk result (λ key. key ≡ path_key code place entry shown.now) }
{
    Ok(Key {
        section: Section::Crates,
        place,
        code: DiagnosticCode::Bans(code),
        entry,
        text: shown.clone()?,
        other: 0,
        places: List::new(alloc),
    })
}
