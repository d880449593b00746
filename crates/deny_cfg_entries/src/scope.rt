ghost use Rattle.std.specs.Prelude.{◌≡◌};
ghost use Rattle.deny_cfg_entries.specs.Words.{faults_as, scope_of, ReadsAs};

use deny_toml::{DeserError, Deserialize, Value};
use std::alloc::Global;

/// The crates that a rule checks. A policy writes the variants in small letters.
#[derive(Clone, Copy)]
pub enum Scope {
    /// Every crate.
    All,
    /// The members of the workspace.
    Workspace,
    /// The crates that are no members.
    Transitive,
    /// No crate: the rule is off.
    None,
}

impl Deserialize for Scope {
    ghost reads = { ReadsAs scope_of };

    ghost faults_of = { faults_as scope_of };

    fn deserialize(alloc: Global, value: &mut Value<'_>) -> Result<Scope, DeserError> {
        let Some(text) = value.as_str() else {
            return Err(DeserError::wrong_kind(alloc, value.span));
        };
        match scope_of(text) {
            Some(scope) => Ok(scope),
            None => Err(DeserError::unreadable(alloc, value.span)),
        }
    }
}

#[tactic(auto, unfolding(crate::specs::Words::scope_of))]
fn scope_of(text: &str) -> Option<Scope>
    ensures { result ≡ scope_of text.now }
{
    if text == "all" {
        Some(Scope::All)
    } else if text == "workspace" {
        Some(Scope::Workspace)
    } else if text == "transitive" {
        Some(Scope::Transitive)
    } else if text == "none" {
        Some(Scope::None)
    } else {
        None
    }
}
