//! What the value of an entry, or of a patch, specifies.
ghost use Rattle.std.specs.Prelude.{◌≡◌, IfOk, is_some, option_map};
ghost use Rattle.deny_spans_workspace.specs.DepSpec.{is_readable, dep_spec_in};
ghost use Rattle.deny_spans_workspace.specs.private.DepSpec.{dep_spec_view};
ghost use Rattle.deny_spans_manifest.specs.Found.{version_of};

use crate::manifest_key::ManifestKey;
use crate::origin::{Origin, has, origin_in};
use deny_base::Spanned;
use deny_base_lists::{NoMemory, Text};
use deny_spans_manifest::{rename_of, version_of};
use deny_toml::Value;
use semver::VersionReq;
use std::alloc::Global;

/// The specification of a dependency: its source, the requirement and the package's name.
#[derive(Drop)]
pub struct DepSpec {
    pub origin: Origin,
    pub version: Option<Spanned<VersionReq>>,
    /// The name of the package, where it differs from the key.
    pub rename: Option<Spanned<Text>>,
}

/// Whether the requirement of a value parses, where there is one, if it is known whether one was read.
fn is_readable(value: &Value<'_>, is_read: bool) -> bool
    requires { is_read ≡ is_some (version_of value.now) }
    ensures { result ≡ is_readable value.now }
{
    is_read || !(value.as_str().is_some() || has(value, ManifestKey::Version))
}

/// The specification of a value. None where it is passed over: it has no source, or its source, its
/// reference or its requirement is of another kind or does not parse.
#[tactic(auto, unfolding(crate::specs::DepSpec::dep_spec_in))]
pub fn dep_spec_in(alloc: Global, value: &Value<'_>) -> Result<Option<DepSpec>, NoMemory>
    ensures { IfOk result (λ spec. option_map dep_spec_view spec ≡ dep_spec_in value.now) }
{
    let version = version_of(alloc, value)?;
    if !is_readable(value, version.is_some()) {
        return Ok(None);
    }
    let rename = rename_of(alloc, value)?;
    match origin_in(alloc, value)? {
        Some(origin) => Ok(Some(DepSpec {
            origin,
            version,
            rename,
        })),
        None => Ok(None),
    }
}
