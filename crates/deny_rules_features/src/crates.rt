//! The features of a crate, by its place.
ghost use Rattle.std.specs.Prelude.{◌≡◌, []};
ghost use Rattle.std.specs.Cmp.Lexicographic.{slice_cmp};
ghost use Rattle.std.specs.List.{list_any};
ghost use Rattle.std.specs.List.Sorted.{IsStrictlySortedBy};
ghost use Rattle.std.specs.Option.{option_copied, option_map_or};
ghost use Rattle.std.specs.Ordering.{nat_cmp};
ghost use Rattle.deny_cfg.specs.PolicyView.{policy_view};
ghost use Rattle.deny_spec_report.specs.Features.{default_feature};
ghost use Rattle.deny_krates.specs.Ids.{crate_of};
ghost use Rattle.deny_spec.specs.Text.{same_text};
ghost use Rattle.deny_rules_features.specs.Crates.{default_level_at, enabled_at, is_member_at};
ghost use Rattle.deny_rules_features.specs.private.Crates.{has_feature_at};

use deny_base::{Kid, LintLevel, Spanned};
use deny_base_lists::Text;
use deny_cfg::bans::cfg::ValidConfig;
use deny_krates::{Krates, krate_at};

/// The enabled features of the crate at a place, ascending.
pub fn enabled_at(krates: &Krates, place: u32) -> &[Text]
    ensures enabled { result.now ≡ enabled_at krates.now place }
    ensures ascending { IsStrictlySortedBy (slice_cmp nat_cmp) result.now }
{
    let _orderly = krates.krates();
    match krate_at(krates, place) {
        Some(krate) => enabled_of_kid(krates, &krate.id),
        None => &[],
    }
}

fn enabled_of_kid<'k>(krates: &'k Krates, kid: &Kid) -> &'k [Text]
    ensures { result.now ≡ option_map_or (λ c. c.enabled) (crate_of krates.now kid.now.0) [] }
{
    match krates.get_enabled_features(kid) {
        Some(features) => features,
        None => &[],
    }
}

/// Whether an ascending list contains a feature.
pub fn has(features: &[Text], feature: &Text) -> bool
    requires { IsStrictlySortedBy (slice_cmp nat_cmp) features.now }
    ensures { result ≡ list_any (same_text feature.now) features.now }
{
    features.binary_search(feature).is_ok()
}

/// Whether a text is the name of the feature `default`.
pub fn is_default(text: &Text) -> bool
    ensures { result ≡ same_text text.now default_feature }
{
    text.as_str() == "default"
}

fn is_member(krates: &Krates, place: u32) -> bool
    ensures { result ≡ is_member_at krates.now place }
{
    krates.workspace_members().binary_search(&place).is_ok()
}

/// The level of the feature `default` of the crate at a place, where the policy writes one.
pub fn default_level_at<'c>(
    cfg: &'c ValidConfig,
    krates: &Krates,
    place: u32,
) -> Option<&'c Spanned<LintLevel>>
    ensures { option_copied result ≡ default_level_at (policy_view cfg.now) krates.now place }
{
    if is_member(krates, place) {
        cfg.workspace_default_features.as_ref()
    } else {
        cfg.external_default_features.as_ref()
    }
}

/// Whether the crate at a place has a feature in its table.
#[tactic(auto, unfolding(deny_spec_report::specs::Features::has_feature))]
pub fn has_feature_at(krates: &Krates, place: u32, feature: &Text) -> bool
    ensures { result ≡ has_feature_at krates.now place feature.now }
{
    match krate_at(krates, place) {
        Some(krate) => krate.features.contains_key(feature.as_str()),
        None => false,
    }
}
