//! Keys of what a workspace shares.
ghost use Rattle.std.specs.Prelude.{◌≡◌};
ghost use Rattle.deny_base.specs.declared.key.Section.TheVariants as section;
ghost use Rattle.deny_spec.specs.Keys.{key_of};

use deny_base::{Code, DiagnosticCode, Key, Section, Span};
use deny_spec::key_of;
use std::alloc::Global;

/// The key of a finding about what a workspace shares, of the crate at a place and an entry.
#[tactic(auto, unfolding(deny_spec::specs::Keys::key_of))]
pub fn workspace_key(alloc: Global, code: Code, place: u32, entry: Span) -> Key
    ensures { result ≡ key_of section.Workspace code place entry 0 }
{
    key_of(
        alloc,
        Section::Workspace,
        DiagnosticCode::Bans(code),
        place,
        entry,
    )
}
