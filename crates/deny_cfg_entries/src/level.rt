ghost use Rattle.std.specs.Prelude.{◌≡◌, IfOk, OnOk};
ghost use Rattle.deny_cfg_entries.specs.Table.{ReadsIfThere, ReadsOr, ReadAt, state_of, after};
ghost use Rattle.deny_cfg_entries.specs.Table as spec;
ghost use Rattle.deny_cfg_entries.specs.Words.{faults_as, level_of, ReadsAs};
ghost use Rattle.deny_toml.specs.Value.{span_in};

use crate::policy_key::PolicyKey;
use crate::table;
use deny_base::{LintLevel, Spanned};
use deny_base_lists::NoMemory;
use deny_toml::{DeserError, Deserialize, TableHelper, Value};
use std::alloc::Global;

/// A level, as a value of the policy writes it.
#[derive(Drop)]
struct WrittenLevel(LintLevel);

impl Deserialize for WrittenLevel {
    ghost reads = { λ v read. ReadsAs level_of v read.0 };

    ghost faults_of = { faults_as level_of };

    fn deserialize(alloc: Global, value: &mut Value<'_>) -> Result<WrittenLevel, DeserError> {
        let Some(text) = value.as_str() else {
            return Err(DeserError::wrong_kind(alloc, value.span));
        };
        match level_of(text) {
            Some(level) => Ok(WrittenLevel(level)),
            None => Err(DeserError::unreadable(alloc, value.span)),
        }
    }
}

#[tactic(auto, unfolding(crate::specs::Words::level_of))]
fn level_of(text: &str) -> Option<LintLevel>
    ensures { result ≡ level_of text.now }
{
    if text == "allow" {
        Some(LintLevel::Allow)
    } else if text == "warn" {
        Some(LintLevel::Warn)
    } else if text == "deny" {
        Some(LintLevel::Deny)
    } else {
        None
    }
}

/// Reads a key that holds a level; the default stands for a key that is left out.
pub fn level_or(
    helper: &mut TableHelper<'_>,
    key: PolicyKey,
    default: LintLevel,
) -> Result<LintLevel, NoMemory>
    ensures next { OnOk result (state_of helper.new
        ≡ after (spec.optional key (faults_as level_of)) (state_of helper.old)) }
    ensures read { IfOk result (λ x. ReadAt (spec.optional key (faults_as level_of)) (state_of helper.old)
        (λ v. ReadsOr default (ReadsAs level_of) v x)) }
{
    match table::optional::<WrittenLevel>(helper, key)? {
        Some(level) => Ok(level.0),
        None => Ok(default),
    }
}

/// Reads a key that may hold a level and has no default.
pub fn level_if_set(
    helper: &mut TableHelper<'_>,
    key: PolicyKey,
) -> Result<Option<Spanned<LintLevel>>, NoMemory>
    ensures next { OnOk result (state_of helper.new
        ≡ after (spec.optional key (faults_as level_of)) (state_of helper.old)) }
    ensures read { IfOk result (λ x. ReadAt (spec.optional key (faults_as level_of)) (state_of helper.old)
        (λ v. ReadsIfThere (λ w s. (s.span ≡ span_in w) × ReadsAs level_of w s.value) v x)) }
{
    match table::optional::<Spanned<WrittenLevel>>(helper, key)? {
        Some(level) => Ok(Some(Spanned {
            value: level.value.0,
            span: level.span,
        })),
        None => Ok(None),
    }
}
