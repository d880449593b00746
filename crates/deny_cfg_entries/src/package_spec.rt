ghost use Rattle.deny_cfg_entries.specs.Requirement.{IsReadIn};

use deny_base::Spanned;
use deny_base_lists::Text;
use semver::VersionReq;

/// The crates that an entry matches: those of a name, or those of a name whose versions meet a
/// requirement. A policy writes it as `name`, `name@requirement` or `name:requirement`, or as a
/// table with the key `crate`, or with `name` and an optional `version`.
#[derive(Drop)]
pub struct PackageSpec {
    /// The name. Its span tells entries apart.
    pub name: Spanned<Text>,
    /// The requirement that versions have to meet; without it, every version matches.
    pub version_req: Option<VersionReq>,
    /// The text of `version_req`, as it is written.
    pub req_text: Option<Text>,
    ghost read: { IsReadIn req_text version_req },
}
