ghost use Rattle.std.specs.Prelude.{◌≡◌};
ghost use Rattle.deny_cfg_tables.specs.Apart.{tree_skip-apart, tree_skip_entry-apart};
ghost use Rattle.deny_cfg_tables.specs.Bans.{tree_skip_fields, ReadsTreeSkip, says_no_tree};
ghost use Rattle.deny_cfg_tables.specs.Depends.{tree_skip-depends};
ghost use Rattle.deny_cfg_entries.specs.Entry.{ReadsSome};
ghost use Rattle.deny_cfg_entries.specs.Table.{ReadsTable, faults_of_table};

use deny_base::Spanned;
use deny_base_lists::NoMemory;
use deny_cfg_entries::{Expiry, Extended, FromTable, PolicyKey, Reason, read_table, table};
use deny_toml::{DeserError, Deserialize, TableHelper, Value};
use std::alloc::Global;

/// What an entry of `skip-tree` gives beside its spec.
#[derive(Drop)]
pub struct TreeSkipExtended {
    /// Crates are skipped that fewer edges than this separate from a crate that the entry matches, where 0 counts
    /// as 1; without it, at any distance.
    pub depth: Option<u32>,
    /// Why they are skipped.
    pub reason: Option<Reason>,
    /// The last day on which the entry counts; without it, it counts on every day.
    pub expires: Option<Spanned<Expiry>>,
}

impl TreeSkipExtended {
    fn says_nothing(&self) -> bool
        ensures { result ≡ says_no_tree self.now }
    {
        self.depth.is_none() && self.reason.is_none() && self.expires.is_none()
    }
}

impl FromTable for TreeSkipExtended {
    ghost fields = { tree_skip_fields };

    ghost reads_in = { ReadsTreeSkip };

    fn read_keys(
        _alloc: Global,
        helper: &mut TableHelper<'_>,
    ) -> Result<Option<TreeSkipExtended>, NoMemory> {
        let depth = table::optional(helper, PolicyKey::Depth)?;
        let reason = table::optional(helper, PolicyKey::Reason)?;
        let expires = table::optional(helper, PolicyKey::Expires)?;
        Ok(Some(TreeSkipExtended {
            depth,
            reason,
            expires,
        }))
    }

    ghost apart = { tree_skip-apart };
}

impl Extended for TreeSkipExtended {
    ghost fields = { tree_skip_fields };

    ghost reads_in = { ReadsSome tree_skip_fields ReadsTreeSkip };

    fn read_keys(
        alloc: Global,
        helper: &mut TableHelper<'_>,
    ) -> Result<Option<TreeSkipExtended>, NoMemory> {
        match <TreeSkipExtended as FromTable>::read_keys(alloc, helper)? {
            Some(skip) => if skip.says_nothing() {
                Ok(None)
            } else {
                Ok(Some(skip))
            },
            None => Ok(None),
        }
    }

    ghost apart = { tree_skip_entry-apart };

    ghost depends = { tree_skip-depends };
}

impl Deserialize for TreeSkipExtended {
    ghost reads = { ReadsTable ReadsTreeSkip };

    ghost faults_of = { faults_of_table (λ entries. tree_skip_fields) };

    fn deserialize(alloc: Global, value: &mut Value<'_>) -> Result<TreeSkipExtended, DeserError> {
        read_table(alloc, value)
    }
}
