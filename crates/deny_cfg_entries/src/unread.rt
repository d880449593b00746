ghost use Rattle.std.specs.Prelude.{◌≡◌, []};
ghost use Rattle.deny_cfg_entries.specs.Table.{after, state_of};
ghost use Rattle.deny_cfg_entries.specs.Table as spec;

use crate::policy_key::PolicyKey;
use deny_toml::TableHelper;

/// Takes a key out of the table without reading its value.
pub fn pass_unread(helper: &mut TableHelper<'_>, key: PolicyKey)
    ensures { state_of helper.new ≡ after (spec.optional key (λ v. [])) (state_of helper.old) }
{
    helper.take(key.name());
}
