ghost use Rattle.std.specs.Prelude.{IsSomeAnd};
ghost use Rattle.deny_cfg_tables.specs.Apart.{bypass_path-apart, bypass_entry-apart};
ghost use Rattle.deny_cfg_tables.specs.Build.{bypass_path_fields, ReadsBypassPath, faults_of_bypass_path};
ghost use Rattle.deny_cfg_tables.specs.Build.{bypass_fields, ReadsBypassKeys, faults_of_bypass, ReadsBypass};
ghost use Rattle.deny_cfg_tables.specs.Depends.{bypass-depends};
ghost use Rattle.deny_cfg_entries.specs.Table.{ReadsTable};

use crate::bans::cfg::checksum::Checksum;
use deny_base::Spanned;
use deny_base_lists::{List, NoMemory, Text};
use deny_cfg_entries::{
    Expiry, Extended, FromTable, PackageSpec, PolicyKey, read_entry, read_table, table,
};
use deny_toml::{DeserError, Deserialize, TableHelper, Value};
use std::alloc::Global;

/// A file of a package that may be executable: an entry of `allow` in an entry of `bypass`.
#[derive(Drop)]
pub struct BypassPath {
    /// The file's path, relative to the package's folder.
    pub path: Spanned<Text>,
    /// The digest that the file has to have; without it, the file may have any content.
    pub checksum: Option<Spanned<Checksum>>,
}

impl FromTable for BypassPath {
    ghost fields = { bypass_path_fields };

    ghost reads_in = { ReadsBypassPath };

    fn read_keys(
        _alloc: Global,
        helper: &mut TableHelper<'_>,
    ) -> Result<Option<BypassPath>, NoMemory> {
        let path = table::required(helper, PolicyKey::Path)?;
        let checksum = table::optional(helper, PolicyKey::Checksum)?;
        match path {
            Some(path) => Ok(Some(BypassPath { path, checksum })),
            None => Ok(None),
        }
    }

    ghost apart = { bypass_path-apart };
}

impl Deserialize for BypassPath {
    ghost reads = { ReadsTable ReadsBypassPath };

    ghost faults_of = { faults_of_bypass_path };

    fn deserialize(alloc: Global, value: &mut Value<'_>) -> Result<BypassPath, DeserError> {
        read_table(alloc, value)
    }
}

/// An entry of `bypass`: what the build check allows a crate.
#[derive(Drop)]
pub struct Bypass {
    /// The crates that the entry matches.
    pub spec: PackageSpec,
    /// The digest of a build script; where the crate's build script has it, the whole package passes.
    pub build_script: Option<Spanned<Checksum>>,
    /// Features of the crate: where one of them is enabled, the files are checked all the same;
    /// default none.
    pub required_features: List<Spanned<Text>>,
    /// The globs of paths that are allowed.
    pub allow_globs: Option<List<Spanned<Text>>>,
    /// The single files that are allowed; default none.
    pub allow: List<BypassPath>,
    /// The last day on which the entry counts; without it, it counts on every day.
    pub expires: Option<Spanned<Expiry>>,
}

/// What an entry of `bypass` gives beside its spec.
#[derive(Drop)]
pub(crate) struct BypassKeys {
    /// The key `build-script`; see `Bypass`.
    pub build_script: Option<Spanned<Checksum>>,
    /// The key `required-features`; default none.
    pub required_features: List<Spanned<Text>>,
    /// The key `allow-globs`.
    pub allow_globs: Option<List<Spanned<Text>>>,
    /// The key `allow`; default none.
    pub allow: List<BypassPath>,
    /// The key `expires`.
    pub expires: Option<Spanned<Expiry>>,
}

impl Extended for BypassKeys {
    ghost fields = { bypass_fields };

    ghost reads_in = { λ entries said. IsSomeAnd said (ReadsBypassKeys entries) };

    fn read_keys(
        alloc: Global,
        helper: &mut TableHelper<'_>,
    ) -> Result<Option<BypassKeys>, NoMemory> {
        let build_script = table::optional(helper, PolicyKey::BuildScript)?;
        let required_features = table::optional_list(alloc, helper, PolicyKey::RequiredFeatures)?;
        let allow_globs = table::optional(helper, PolicyKey::AllowGlobs)?;
        let allow = table::optional_list(alloc, helper, PolicyKey::Allow)?;
        let expires = table::optional(helper, PolicyKey::Expires)?;
        Ok(Some(BypassKeys {
            build_script,
            required_features,
            allow_globs,
            allow,
            expires,
        }))
    }

    ghost apart = { bypass_entry-apart };

    ghost depends = { bypass-depends };
}

/// A table that has the keys of a spec, the keys of `BypassKeys` and no others.
impl Deserialize for Bypass {
    ghost reads = { ReadsBypass };

    ghost faults_of = { faults_of_bypass };

    fn deserialize(alloc: Global, value: &mut Value<'_>) -> Result<Bypass, DeserError> {
        match read_entry::<BypassKeys>(alloc, value)? {
            (spec, Some(keys)) => Ok(Bypass {
                spec,
                build_script: keys.build_script,
                required_features: keys.required_features,
                allow_globs: keys.allow_globs,
                allow: keys.allow,
                expires: keys.expires,
            }),
            (_, None) => unreachable!(),
        }
    }
}
