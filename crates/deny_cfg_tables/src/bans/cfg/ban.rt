ghost use Rattle.std.specs.Prelude.{◌≡◌};
ghost use Rattle.deny_cfg_tables.specs.Apart.{ban-apart, ban_entry-apart};
ghost use Rattle.deny_cfg_tables.specs.Bans.{ban_fields, ReadsBan, says_nothing};
ghost use Rattle.deny_cfg_tables.specs.Depends.{ban-depends};
ghost use Rattle.deny_cfg_entries.specs.Entry.{ReadsSome};
ghost use Rattle.deny_cfg_entries.specs.Table.{ReadsTable, faults_of_table};

use deny_base::Spanned;
use deny_base_lists::{List, NoMemory, Text};
use deny_cfg_entries::{Extended, FromTable, PolicyKey, Reason, read_table, table};
use deny_toml::{DeserError, Deserialize, TableHelper, Value};
use std::alloc::Global;

/// What an entry of `deny` gives beside its spec.
#[derive(Drop)]
pub struct CrateBanExtended {
    /// The crates that may depend on the banned crate.
    pub wrappers: Option<Spanned<List<Spanned<Text>>>>,
    /// Whether only several versions of the crate are denied; default false.
    pub deny_multiple_versions: Option<Spanned<bool>>,
    /// Why the crate is banned.
    pub reason: Option<Reason>,
    /// What to use in its place: a crate, or an address.
    pub use_instead: Option<Spanned<Text>>,
}

impl CrateBanExtended {
    fn says_nothing(&self) -> bool
        ensures { result ≡ says_nothing self.now }
    {
        self.wrappers.is_none()
            && self.deny_multiple_versions.is_none()
            && self.reason.is_none()
            && self.use_instead.is_none()
    }
}

impl FromTable for CrateBanExtended {
    ghost fields = { ban_fields };

    ghost reads_in = { ReadsBan };

    fn read_keys(
        _alloc: Global,
        helper: &mut TableHelper<'_>,
    ) -> Result<Option<CrateBanExtended>, NoMemory> {
        let wrappers = table::optional(helper, PolicyKey::Wrappers)?;
        let deny_multiple_versions = table::optional(helper, PolicyKey::DenyMultipleVersions)?;
        let reason = table::optional(helper, PolicyKey::Reason)?;
        let use_instead = table::optional(helper, PolicyKey::UseInstead)?;
        Ok(Some(CrateBanExtended {
            wrappers,
            deny_multiple_versions,
            reason,
            use_instead,
        }))
    }

    ghost apart = { ban-apart };
}

impl Extended for CrateBanExtended {
    ghost fields = { ban_fields };

    ghost reads_in = { ReadsSome ban_fields ReadsBan };

    fn read_keys(
        alloc: Global,
        helper: &mut TableHelper<'_>,
    ) -> Result<Option<CrateBanExtended>, NoMemory> {
        match <CrateBanExtended as FromTable>::read_keys(alloc, helper)? {
            Some(ban) => if ban.says_nothing() {
                Ok(None)
            } else {
                Ok(Some(ban))
            },
            None => Ok(None),
        }
    }

    ghost apart = { ban_entry-apart };

    ghost depends = { ban-depends };
}

impl Deserialize for CrateBanExtended {
    ghost reads = { ReadsTable ReadsBan };

    ghost faults_of = { faults_of_table (λ entries. ban_fields) };

    fn deserialize(alloc: Global, value: &mut Value<'_>) -> Result<CrateBanExtended, DeserError> {
        read_table(alloc, value)
    }
}
