ghost use Rattle.deny_cfg_entries.specs.Apart.{waiver-apart, waiver_entry-apart};
ghost use Rattle.deny_cfg_entries.specs.Depends.{waiver-depends};
ghost use Rattle.deny_cfg_entries.specs.Entry.{ReadsSome};
ghost use Rattle.deny_cfg_entries.specs.Waivers.{ReadsWaiver, waiver_fields};

use crate::expiry::Expiry;
use crate::extended::Extended;
use crate::from_table::FromTable;
use crate::policy_key::PolicyKey;
use crate::reason::Reason;
use crate::table;
use deny_base::Spanned;
use deny_base_lists::NoMemory;
use deny_toml::TableHelper;
use std::alloc::Global;

/// What an entry that lets something pass gives beside its spec.
#[derive(Drop)]
pub struct Waiver {
    /// Why the entry is there.
    pub reason: Option<Reason>,
    /// The last day on which the entry counts; without it, it counts on every day.
    pub expires: Option<Spanned<Expiry>>,
}

impl FromTable for Waiver {
    ghost fields = { waiver_fields };

    ghost reads_in = { ReadsWaiver };

    fn read_keys(_alloc: Global, helper: &mut TableHelper<'_>) -> Result<Option<Waiver>, NoMemory> {
        let reason = table::optional(helper, PolicyKey::Reason)?;
        let expires = table::optional(helper, PolicyKey::Expires)?;
        Ok(Some(Waiver { reason, expires }))
    }

    ghost apart = { waiver-apart };
}

impl Extended for Waiver {
    ghost fields = { waiver_fields };

    ghost reads_in = { ReadsSome waiver_fields ReadsWaiver };

    fn read_keys(alloc: Global, helper: &mut TableHelper<'_>) -> Result<Option<Waiver>, NoMemory> {
        match <Waiver as FromTable>::read_keys(alloc, helper)? {
            Some(waiver) => if waiver.reason.is_none() && waiver.expires.is_none() {
                Ok(None)
            } else {
                Ok(Some(waiver))
            },
            None => Ok(None),
        }
    }

    ghost apart = { waiver_entry-apart };

    ghost depends = { waiver-depends };
}
