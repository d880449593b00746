ghost use Rattle.std.specs.Prelude.{◌≡◌};
ghost use Rattle.deny_toml.specs.Value.{span_in};
ghost use Rattle.deny_cfg_entries.specs.Apart.{reason_entry-apart};
ghost use Rattle.deny_cfg_entries.specs.Reasons.{reason_fields, ReadsReasonKey};
ghost use Rattle.deny_cfg_entries.specs.Depends.{reason-depends};
ghost use Rattle.deny_cfg_entries.specs.Words.{faults_of_any_text, ReadsText};

use crate::extended::Extended;
use crate::policy_key::PolicyKey;
use crate::table;
use deny_base::Spanned;
use deny_base_lists::{NoMemory, Text};
use deny_toml::{DeserError, Deserialize, TableHelper, Value};
use std::alloc::Global;

/// The reason that an entry gives.
#[derive(Drop)]
pub struct Reason(pub Spanned<Text>);

impl Deserialize for Reason {
    ghost reads = { λ v read. (read.0.span ≡ span_in v) × ReadsText v read.0.value };

    ghost faults_of = { faults_of_any_text };

    fn deserialize(alloc: Global, value: &mut Value<'_>) -> Result<Reason, DeserError> {
        Ok(Reason(Spanned::<Text>::deserialize(alloc, value)?))
    }
}

impl Extended for Reason {
    ghost fields = { reason_fields };

    ghost reads_in = { ReadsReasonKey };

    fn read_keys(_alloc: Global, helper: &mut TableHelper<'_>) -> Result<Option<Reason>, NoMemory> {
        table::optional(helper, PolicyKey::Reason)
    }

    ghost apart = { reason_entry-apart };

    ghost depends = { reason-depends };
}
