ghost use Rattle.std.specs.Prelude.{◌≡◌, Some, None, IsSomeAnd};
ghost use Rattle.deny_cfg_tables.specs.Apart.{feature_entry-apart};
ghost use Rattle.deny_cfg_tables.specs.Depends.{feature_lists-depend};
ghost use Rattle.deny_cfg_entries.specs.Entry.{entry_fields};
ghost use Rattle.deny_cfg_tables.specs.Features.{feature_fields, ReadsFeatures, ReadsCrateFeatures, nowhere};
ghost use Rattle.std.specs.Prelude.{[], false, IfOk, OnOk};
ghost use Rattle.deny_cfg_entries.specs.Table.{ReadAt, ReadsOr, after, faults_of_table, state_of};
ghost use Rattle.deny_cfg_entries.specs.Table as spec;
ghost use Rattle.deny_cfg_entries.specs.Words.{faults_of_bool, faults_of_texts, ReadsBool, ReadsSpanned, ReadsTexts};
ghost use Rattle.deny_cfg_entries.specs.declared.policy_key.PolicyKey.TheVariants as key;

use deny_base::{Span, Spanned};
use deny_base_lists::{List, NoMemory, Text};
use deny_cfg_entries::{Extended, PackageSpec, PolicyKey, Reason, read_entry, table};
use deny_toml::{DeserError, Deserialize, TableHelper, Value};
use std::alloc::Global;

/// An entry of `features`: which features of a crate may be enabled.
#[derive(Drop)]
pub struct CrateFeatures {
    /// The crates that the entry matches.
    pub spec: PackageSpec,
    /// The features that may be enabled. An empty list allows all features, but none where `exact` is set.
    /// Default empty, with the span 0..0.
    pub allow: Spanned<List<Spanned<Text>>>,
    /// The features that may not be enabled; default none.
    pub deny: List<Spanned<Text>>,
    /// Whether exactly the features of `allow` have to be enabled; default false, with the span 0..0.
    pub exact: Spanned<bool>,
    /// Why other features may not be enabled.
    pub reason: Option<Reason>,
}

/// What an entry of `features` gives beside its spec.
#[derive(Drop)]
pub(crate) struct FeatureLists {
    /// The key `allow`; see `CrateFeatures`.
    pub allow: Spanned<List<Spanned<Text>>>,
    /// The key `deny`; default none.
    pub deny: List<Spanned<Text>>,
    /// The key `exact`; default false.
    pub exact: Spanned<bool>,
    /// The key `reason`.
    pub reason: Option<Reason>,
}

/// A default value, with the span 0..0.
fn nowhere<T>(value: T) -> Spanned<T>
    ensures { result ≡ nowhere value }
{
    Spanned {
        value,
        span: Span { start: 0, end: 0 },
    }
}

/// Reads the key `allow`.
fn allowed(
    alloc: Global,
    helper: &mut TableHelper<'_>,
) -> Result<Spanned<List<Spanned<Text>>>, NoMemory>
    ensures next { OnOk result (state_of helper.new
        ≡ after (spec.optional key.Allow faults_of_texts) (state_of helper.old)) }
    ensures read { IfOk result (λ x. ReadAt (spec.optional key.Allow faults_of_texts) (state_of helper.old)
        (λ v. ReadsOr (nowhere []) (ReadsSpanned ReadsTexts) v x)) }
{
    match table::optional::<Spanned<List<Spanned<Text>>>>(helper, PolicyKey::Allow)? {
        Some(read) => Ok(read),
        None => Ok(nowhere(List::new(alloc))),
    }
}

/// Reads the key `exact`.
fn exact(helper: &mut TableHelper<'_>) -> Result<Spanned<bool>, NoMemory>
    ensures next { OnOk result (state_of helper.new
        ≡ after (spec.optional key.Exact faults_of_bool) (state_of helper.old)) }
    ensures read { IfOk result (λ x. ReadAt (spec.optional key.Exact faults_of_bool) (state_of helper.old)
        (λ v. ReadsOr (nowhere false) (ReadsSpanned ReadsBool) v x)) }
{
    match table::optional::<Spanned<bool>>(helper, PolicyKey::Exact)? {
        Some(read) => Ok(read),
        None => Ok(nowhere(false)),
    }
}

impl Extended for FeatureLists {
    ghost fields = { feature_fields };

    ghost reads_in = { λ entries said. IsSomeAnd said (ReadsFeatures entries) };

    fn read_keys(
        alloc: Global,
        helper: &mut TableHelper<'_>,
    ) -> Result<Option<FeatureLists>, NoMemory> {
        let allow = allowed(alloc, helper)?;
        let deny = table::optional_list(alloc, helper, PolicyKey::Deny)?;
        let exact = exact(helper)?;
        let reason = table::optional(helper, PolicyKey::Reason)?;
        Ok(Some(FeatureLists {
            allow,
            deny,
            exact,
            reason,
        }))
    }

    ghost apart = { feature_entry-apart };

    ghost depends = { feature_lists-depend };
}

/// A table that has the keys of a spec, the keys of `FeatureLists` and no others.
impl Deserialize for CrateFeatures {
    ghost reads = { ReadsCrateFeatures };

    ghost faults_of = { faults_of_table (entry_fields feature_fields) };

    fn deserialize(alloc: Global, value: &mut Value<'_>) -> Result<CrateFeatures, DeserError> {
        match read_entry::<FeatureLists>(alloc, value)? {
            (spec, Some(lists)) => Ok(CrateFeatures {
                spec,
                allow: lists.allow,
                deny: lists.deny,
                exact: lists.exact,
                reason: lists.reason,
            }),
            (_, None) => unreachable!(),
        }
    }
}
