//! The keys of findings about crates and entries of the policy.
ghost use Rattle.std.specs.Prelude.{◌≡◌};
ghost use Rattle.deny_spec.specs.Keys.{crate_key, no_span, plain_key, unused_key};

use deny_base::{Code, DiagnosticCode, Key, Section, Span};
use deny_base_lists::{List, Text};
use std::alloc::Global;

/// The span of a key that is about no entry.
pub fn no_span() -> Span
    ensures { result ≡ no_span }
{
    Span { start: 0, end: 0 }
}

/// The key of a finding of any check about the crate at a place and an entry of the policy.
pub fn key_of(alloc: Global, section: Section, code: DiagnosticCode, place: u32, entry: Span) -> Key
    ensures { result ≡ plain_key section code place entry }
{
    Key {
        section,
        place,
        code,
        entry,
        text: Text::new(alloc),
        other: 0,
        places: List::new(alloc),
    }
}

/// The key of a finding of the bans check about the crate at a place and an entry of the policy.
#[tactic(auto, unfolding(crate::specs::Keys::key_of))]
pub fn crate_key(alloc: Global, code: Code, place: u32, entry: Span) -> Key
    ensures { result ≡ crate_key code place entry }
{
    key_of(
        alloc,
        Section::Crates,
        DiagnosticCode::Bans(code),
        place,
        entry,
    )
}

/// The key of an entry of the policy that has no effect.
#[tactic(auto, unfolding(crate::specs::Keys::key_of))]
pub fn unused_key(alloc: Global, code: Code, entry: Span) -> Key
    ensures { result ≡ unused_key code entry }
{
    key_of(alloc, Section::Unused, DiagnosticCode::Bans(code), 0, entry)
}
