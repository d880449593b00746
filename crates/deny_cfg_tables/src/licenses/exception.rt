ghost use Rattle.std.specs.Prelude.{IsSomeAnd};
ghost use Rattle.deny_cfg_tables.specs.Apart.{exception_entry-apart};
ghost use Rattle.deny_cfg_tables.specs.Depends.{exception-depends};
ghost use Rattle.deny_cfg_tables.specs.Licenses.{ReadsException, ReadsExceptionKeys, exception_fields};
ghost use Rattle.deny_cfg_tables.specs.Licenses.{faults_of_exception};

use deny_base::Spanned;
use deny_base_lists::{List, NoMemory};
use deny_cfg_entries::{Expiry, Extended, PackageSpec, PolicyKey, licences, read_entry, table};
use deny_spdx::Requirement;
use deny_toml::{DeserError, Deserialize, TableHelper, Value};
use std::alloc::Global;

/// An entry of `exceptions`: the licences that some crates may ask for beside those that all crates may.
#[derive(Drop)]
pub struct Exception {
    /// The crates that the entry matches.
    pub spec: PackageSpec,
    /// The licences that these crates may ask for.
    pub allow: List<Spanned<Requirement>>,
    /// The last day on which the entry counts; without it, it counts on every day.
    pub expires: Option<Spanned<Expiry>>,
}

/// What an entry of `exceptions` gives beside its spec.
#[derive(Drop)]
pub(crate) struct ExceptionKeys {
    /// The key `allow`.
    pub allow: List<Spanned<Requirement>>,
    /// The key `expires`.
    pub expires: Option<Spanned<Expiry>>,
}

impl Extended for ExceptionKeys {
    ghost fields = { exception_fields };

    ghost reads_in = { λ entries said. IsSomeAnd said (ReadsExceptionKeys entries) };

    fn read_keys(
        alloc: Global,
        helper: &mut TableHelper<'_>,
    ) -> Result<Option<ExceptionKeys>, NoMemory> {
        let allow = licences(alloc, helper, PolicyKey::Allow)?;
        let expires = table::optional(helper, PolicyKey::Expires)?;
        match allow {
            Some(allow) => Ok(Some(ExceptionKeys { allow, expires })),
            None => Ok(None),
        }
    }

    ghost apart = { exception_entry-apart };

    ghost depends = { exception-depends };
}

/// A table that has the keys of a spec, the keys of `ExceptionKeys` and no others.
impl Deserialize for Exception {
    ghost reads = { ReadsException };

    ghost faults_of = { faults_of_exception };

    fn deserialize(alloc: Global, value: &mut Value<'_>) -> Result<Exception, DeserError> {
        match read_entry::<ExceptionKeys>(alloc, value)? {
            (spec, Some(keys)) => Ok(Exception {
                spec,
                allow: keys.allow,
                expires: keys.expires,
            }),
            (_, None) => unreachable!(),
        }
    }
}
