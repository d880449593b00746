ghost use Rattle.std.specs.Prelude.{◌≡◌, false, IfOk, OnOk};
ghost use Rattle.deny_cfg_entries.specs.Table.{ReadAt, ReadsOr, after, state_of};
ghost use Rattle.deny_cfg_entries.specs.Table as spec;
ghost use Rattle.deny_cfg_entries.specs.Words.{faults_of_bool, ReadsBool};

use crate::policy_key::PolicyKey;
use crate::table;
use deny_base_lists::NoMemory;
use deny_toml::TableHelper;

/// Reads a key that may hold a boolean; a key that is left out reads as false.
pub fn is_set(helper: &mut TableHelper<'_>, key: PolicyKey) -> Result<bool, NoMemory>
    ensures next { OnOk result (state_of helper.new ≡ after (spec.optional key faults_of_bool) (state_of helper.old)) }
    ensures read { IfOk result (λ x. ReadAt (spec.optional key faults_of_bool) (state_of helper.old)
        (λ v. ReadsOr false ReadsBool v x)) }
{
    table::optional_or(helper, key, false)
}
