ghost use Rattle.deny_cfg_entries.specs.Entry.{ReadsEntry, faults_of_entry};

use crate::extended::{Extended, read_entry};
use crate::package_spec::PackageSpec;
use crate::spec::read_spec_text;
use deny_toml::{DeserError, Deserialize, Value};
use std::alloc::Global;

/// An entry: a spec, and what its table gives beside the spec.
#[derive(Drop)]
pub struct PackageSpecOrExtended<T> {
    /// The crates that the entry matches.
    pub spec: PackageSpec,
    /// What the table gives beside the spec; None where it gives nothing, and where the entry is a text.
    pub inner: Option<T>,
}

impl<T: Extended> Deserialize for PackageSpecOrExtended<T> {
    ghost reads = { λ v entry. ReadsEntry T.reads_in v entry.spec entry.inner };

    ghost faults_of = { faults_of_entry T.fields };

    fn deserialize(
        alloc: Global,
        value: &mut Value<'_>,
    ) -> Result<PackageSpecOrExtended<T>, DeserError> {
        if let Some(spec) = read_spec_text(alloc, value)? {
            return Ok(PackageSpecOrExtended { spec, inner: None });
        }
        let (spec, inner) = read_entry::<T>(alloc, value)?;
        Ok(PackageSpecOrExtended { spec, inner })
    }
}
