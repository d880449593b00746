ghost use Rattle.std.specs.Prelude.{Some};
ghost use Rattle.deny_cfg_entries.specs.Requirement.{IsReadIn};

use deny_base_lists::Text;
use semver::VersionReq;

/// A requirement and the text that writes it.
#[derive(Drop)]
pub(crate) struct WrittenRequirement {
    pub(crate) requirement: VersionReq,
    pub(crate) text: Text,
    ghost read: { IsReadIn (Some text) (Some requirement) },
}
