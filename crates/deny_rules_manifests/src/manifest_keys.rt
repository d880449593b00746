//! The keys of the rules on manifests.
ghost use Rattle.std.specs.Prelude.{OnOk};
ghost use Rattle.deny_base_lists.specs.Ascending.{Adds};
ghost use Rattle.deny_cfg.specs.PolicyView.{policy_view};
ghost use Rattle.deny_rules_match.specs.Marks.{facts_of};
ghost use Rattle.deny_spans.specs.SpansView.{AreSpansOf, spans_view};
ghost use Rattle.deny_rules_manifests.specs.ManifestKeys.{IsOfManifests};
ghost use Rattle.deny_rules_manifests.specs.Uses.{AreUses};

use crate::sharing::{add_duplicate_keys, add_unused_keys};
use crate::uses::Uses;
use crate::wildcard_keys::add_wildcard_keys;
use deny_base::Key;
use deny_base_lists::{List, NoMemory};
use deny_rules_match::Matches;
use deny_spans::KrateSpans;
use std::alloc::Global;

/// Adds the keys of the rules on manifests: of dependencies whose requirement any version meets, of those
/// that the workspace is to declare and does not, of crates that members declare several times, and of shared
/// entries that no crate comes from. The declarations that count for the workspace are handed in, as
/// `uses_of` gives them for this policy and these spans.
pub fn add_manifest_keys(
    alloc: Global,
    found: &Matches<'_>,
    spans: &KrateSpans<'_>,
    uses: &Uses<'_, '_>,
    keys: &mut List<Key>,
) -> Result<(), NoMemory>
    requires spans { AreSpansOf found.now.krates.now spans.now }
    requires uses { AreUses (policy_view found.now.cfg.now) found.now.krates.now (spans_view spans.now) uses.now }
    ensures { OnOk result (Adds (IsOfManifests (policy_view found.now.cfg.now) found.now.krates.now
        (facts_of found.now.marks) (spans_view spans.now)) keys.old keys.new) }
{
    let cfg = found.cfg;
    add_wildcard_keys(alloc, found, spans, keys)?;
    add_duplicate_keys(alloc, cfg, found.krates, uses, keys)?;
    add_unused_keys(alloc, cfg, spans, keys)
}
