//! The clashes between entries of a policy, and the faults of its table `build`.
ghost use Rattle.std.specs.Prelude.{◌≡◌, ◌++◌, [], IfOk, None, OnOk, Some};
ghost use Rattle.std.specs.Prelude.{if◌then◌else◌, filter, filter_map, map, option_map};
ghost use Rattle.std.specs.List.{cons_option, flat_map};
ghost use Rattle.deny_base_lists.specs.Ascending.{Adds, Lists};
ghost use Rattle.deny_cfg.specs.Clashes.{IsBuildClash, IsClash, build_clash, clash_cmp};
ghost use Rattle.deny_cfg.specs.Clashes.{clash_with, clashes_in, feature_clashes};
ghost use Rattle.deny_cfg.specs.Clashes.{is_ban, specs_of, two_spans, wrappers_clash, wrappers_clash_by};
ghost use Rattle.deny_cfg.specs.Clashes as spec;
ghost use Rattle.deny_cfg.specs.private.FirstSpans.{first_span, plain_wording, spec_wording};

use crate::clash::{Clash, ClashKind, clash_order};
use crate::first_spans::{FirstSpans, Wording};
use deny_base::{Span, Spanned};
use deny_base_lists::{List, NoMemory, Text, put_in_order};
use deny_cfg_build::{BuildFault, wrong_in};
use deny_cfg_entries::{PackageSpec, PackageSpecOrExtended};
use deny_cfg_tables::bans::cfg::{
    BuildConfig, Config, CrateAllow, CrateBan, CrateBanExtended, CrateFeatures, CrateSkip,
};
use std::alloc::Global;

/// Whether an entry of `deny` bans crates, and does not deny only several versions.
#[tactic(auto, unfolding(crate::specs::Clashes::is_ban))]
pub fn is_ban(entry: &CrateBan) -> bool
    ensures { result ≡ is_ban entry.now }
{
    match &entry.inner {
        Some(said) => match &said.deny_multiple_versions {
            Some(flag) => !flag.value,
            None => true,
        },
        None => true,
    }
}

/// The clash of wrappers with the flag of their entry, which then denies only several versions.
fn flag_clash(flag: &Spanned<bool>, wrappers: &Spanned<List<Spanned<Text>>>) -> Option<Clash>
    ensures { result ≡ wrappers_clash_by (Some flag.now) (Some wrappers.now) }
{
    let count = wrappers.value.len();
    if !flag.value || count == 0 {
        return None;
    }
    Some(Clash {
        number: count as u64,
        ..Clash::of(ClashKind::WrappersOfMultiple, wrappers.span, flag.span)
    })
}

fn extended_clash(said: &CrateBanExtended) -> Option<Clash>
    ensures { result ≡ wrappers_clash_by said.now.deny_multiple_versions said.now.wrappers }
{
    match &said.deny_multiple_versions {
        Some(flag) => match &said.wrappers {
            Some(wrappers) => flag_clash(flag, wrappers),
            None => None,
        },
        None => None,
    }
}

/// The clash of an entry that denies only several versions and has wrappers too.
#[tactic(auto, unfolding(crate::specs::Clashes::wrappers_clash))]
fn wrappers_clash(entry: &CrateBan) -> Option<Clash>
    ensures { result ≡ wrappers_clash entry.now }
{
    match &entry.inner {
        Some(said) => extended_clash(said),
        None => None,
    }
}

/// Adds a clash behind the others, if there is one.
fn put_clash(clash: Option<Clash>, clashes: &mut List<Clash>) -> Result<(), NoMemory>
    ensures { OnOk result (clashes.new ≡ clashes.old ++ cons_option clash []) }
{
    match clash {
        Some(clash) => clashes.push(clash),
        None => Ok(()),
    }
}

fn put_wrappers_clashes(deny: &[CrateBan], clashes: &mut List<Clash>) -> Result<(), NoMemory>
    ensures { OnOk result (clashes.new ≡ clashes.old ++ filter_map wrappers_clash deny.now) }
{
    for entry in deny {
        put_clash(wrappers_clash(entry), clashes)?;
    }
    Ok(())
}

/// The clash of a spec with the first equal one of others.
fn clash_with(
    kind: ClashKind,
    others: &FirstSpans,
    spec: &PackageSpec,
) -> Result<Option<Clash>, NoMemory>
    ensures { IfOk result (λ clash. clash
        ≡ option_map (two_spans kind spec.now.name.span) (first_span others.now (spec_wording spec.now))) }
{
    match others.find(&Wording::of_spec(spec)?) {
        Some(span) => Ok(Some(Clash::of(kind, spec.name.span, span))),
        None => Ok(None),
    }
}

/// The clash of an entry of `deny`, if it bans crates, with the first equal one of others.
fn ban_clash(
    kind: ClashKind,
    others: &FirstSpans,
    entry: &CrateBan,
) -> Result<Option<Clash>, NoMemory>
    ensures { IfOk result (λ clash. clash ≡ (if is_ban entry.now
        then option_map (two_spans kind entry.now.spec.name.span) (first_span others.now (spec_wording entry.now.spec))
        else None)) }
{
    if is_ban(entry) {
        clash_with(kind, others, &entry.spec)
    } else {
        Ok(None)
    }
}

/// Adds the clashes of bans with other entries.
fn put_ban_clashes<T>(
    alloc: Global,
    kind: ClashKind,
    deny: &[CrateBan],
    others: &[PackageSpecOrExtended<T>],
    clashes: &mut List<Clash>,
) -> Result<(), NoMemory>
    ensures { OnOk result (clashes.new
        ≡ clashes.old ++ filter_map (clash_with kind (specs_of others.now)) (specs_of (filter is_ban deny.now))) }
{
    let others = FirstSpans::of_specs(alloc, others)?;
    for entry in deny {
        put_clash(ban_clash(kind, &others, entry)?, clashes)?;
    }
    Ok(())
}

/// Adds the clashes of entries of `allow` with those of `skip`.
fn put_allow_clashes(
    alloc: Global,
    allow: &[CrateAllow],
    skip: &[CrateSkip],
    clashes: &mut List<Clash>,
) -> Result<(), NoMemory>
    ensures { OnOk result (clashes.new
        ≡ clashes.old ++ filter_map (clash_with ClashKind.AllowAndSkip (specs_of skip.now)) (specs_of allow.now)) }
{
    let skip = FirstSpans::of_specs(alloc, skip)?;
    for entry in allow {
        put_clash(
            clash_with(ClashKind::AllowAndSkip, &skip, &entry.spec)?,
            clashes,
        )?;
    }
    Ok(())
}

/// The clash of an allowed feature with the first equal denied feature.
fn feature_clash(
    name: Span,
    denied: &FirstSpans,
    allowed: &Spanned<Text>,
) -> Result<Option<Clash>, NoMemory>
    ensures { IfOk result (λ clash. clash
        ≡ option_map (spec.feature_at name allowed.now) (first_span denied.now (plain_wording allowed.now.value))) }
{
    match denied.find(&Wording::of_word(&allowed.value)?) {
        Some(span) => Ok(Some(Clash {
            third: span,
            ..Clash::of(ClashKind::FeatureTwice, name, allowed.span)
        })),
        None => Ok(None),
    }
}

/// Adds the clashes between the features of an entry.
#[tactic(auto, unfolding(crate::specs::Clashes::feature_clashes))]
fn put_feature_clashes(
    alloc: Global,
    entry: &CrateFeatures,
    clashes: &mut List<Clash>,
) -> Result<(), NoMemory>
    ensures { OnOk result (clashes.new ≡ clashes.old ++ feature_clashes entry.now) }
{
    let denied = FirstSpans::of_words(alloc, entry.deny.as_slice())?;
    for allowed in entry.allow.value.as_slice() {
        put_clash(
            feature_clash(entry.spec.name.span, &denied, allowed)?,
            clashes,
        )?;
    }
    Ok(())
}

fn put_features_clashes(
    alloc: Global,
    features: &[CrateFeatures],
    clashes: &mut List<Clash>,
) -> Result<(), NoMemory>
    ensures { OnOk result (clashes.new ≡ clashes.old ++ flat_map feature_clashes features.now) }
{
    for entry in features {
        put_feature_clashes(alloc, entry, clashes)?;
    }
    Ok(())
}

/// The clashes of a configuration, one kind after another.
#[tactic(auto, unfolding(crate::specs::Clashes::clashes_in, crate::specs::Clashes::banned_specs))]
fn clashes_in(alloc: Global, config: &Config) -> Result<List<Clash>, NoMemory>
    ensures { IfOk result (λ clashes. clashes ≡ clashes_in config.now) }
{
    let deny = config.deny.as_slice();
    let allow = config.allow.as_slice();
    let skip = config.skip.as_slice();
    let mut clashes = List::new(alloc);
    put_wrappers_clashes(deny, &mut clashes)?;
    put_ban_clashes(alloc, ClashKind::DenyAndAllow, deny, allow, &mut clashes)?;
    put_ban_clashes(alloc, ClashKind::DenyAndSkip, deny, skip, &mut clashes)?;
    put_allow_clashes(alloc, allow, skip, &mut clashes)?;
    put_features_clashes(alloc, config.features.as_slice(), &mut clashes)?;
    Ok(clashes)
}

/// Adds the faults of a table `build` behind the other clashes.
fn put_faults(faults: &[BuildFault], clashes: &mut List<Clash>) -> Result<(), NoMemory>
    ensures { OnOk result (clashes.new ≡ clashes.old ++ map build_clash faults.now) }
{
    for fault in faults {
        clashes.push(Clash::of_build(*fault))?;
    }
    Ok(())
}

/// Adds the faults of the table `build` that is written in the text, if there is one.
fn add_build_clashes(
    alloc: Global,
    source: &str,
    build: &Option<BuildConfig>,
    clashes: &mut List<Clash>,
) -> Result<(), NoMemory>
    ensures { OnOk result (Adds (IsBuildClash source.now build.now) clashes.old clashes.new) }
{
    match build {
        Some(build) => put_faults(wrong_in(alloc, source, build)?.as_slice(), clashes),
        None => Ok(()),
    }
}

/// The clashes of a configuration that is read from the text, in order, each once.
pub fn ordered_clashes(
    alloc: Global,
    source: &str,
    config: &Config,
) -> Result<List<Clash>, NoMemory>
    ensures { IfOk result (Lists clash_cmp (IsClash source.now config.now)) }
{
    let mut clashes = clashes_in(alloc, config)?;
    add_build_clashes(alloc, source, &config.build, &mut clashes)?;
    clash_order();
    put_in_order(&mut clashes)?;
    Ok(clashes)
}
