//! The entries of a policy that let something pass, and of which the last day has passed.
ghost use Rattle.std.specs.Prelude.{◌≡◌, ◌++◌, ◌∷◌, [], IfOk, OnOk, Option, filter, filter_map, map};
ghost use Rattle.std.specs.Prelude.{false, option_and_then, option_copied, option_map};
ghost use Rattle.std.specs.Option.{option_map_or};
ghost use Rattle.deny_cfg.specs.Current.{counts, current_bans, current_build, current_licenses, current_std, expired_as};
ghost use Rattle.deny_cfg.specs.Current.{expired_id, expired_in_bans, expired_in_build, expired_in_licenses};
ghost use Rattle.deny_cfg.specs.Current.{expired_in_std};
ghost use Rattle.deny_cfg.specs.Current as spec;
ghost use Rattle.deny_base.specs.declared.span.Spanned.{Spanned};
ghost use Rattle.deny_cfg_entries.specs.declared.expiry.Expiry.{Expiry};
ghost use Rattle.deny_cfg_entries.specs.declared.package_spec.PackageSpec.{PackageSpec};
ghost use Rattle.deny_cfg_entries.specs.declared.reason.Reason.{Reason};

use crate::bans::cfg::ValidConfig;
use crate::licenses;
use deny_base::{EntryId, EntryKind, Span, Spanned};
use deny_base_lists::{Keyed, List, NoMemory};
use deny_cfg_build::{ValidBuildConfig, ValidBypass};
use deny_cfg_entries::{Day, Expiry, PackageSpec, PackageSpecOrExtended, Reason, Waiver};
use deny_cfg_tables::bans::cfg::{StdReplacementConfig, TreeSkipExtended};
use deny_cfg_tables::licenses::Exception;
use std::alloc::Global;
use std::mem;

/// An entry whose last day has passed.
#[derive(Drop)]
pub struct ExpiredWaiver {
    /// Which entry it is.
    pub id: EntryId,
    /// The crates that the entry matched.
    pub spec: PackageSpec,
    /// Why the entry was there.
    pub reason: Option<Reason>,
    /// Its last day.
    pub expires: Spanned<Expiry>,
}

impl Keyed for ExpiredWaiver {
    type Key = EntryId;

    ghost key = { expired_id };

    fn key(&self) -> &EntryId {
        &self.id
    }
}

/// Whether an entry with this last day counts today: it counts through that day.
fn counts(today: Option<Day>, last: Option<&Spanned<Expiry>>) -> bool
    ensures { result ≡ counts today (option_copied last.entry) }
{
    match (today, last) {
        (Some(today), Some(last)) => today.0 <= last.value.day.0,
        _ => true,
    }
}

/// What an entry gives beside its spec that may have a last day.
trait Dated: Sized + Drop {
    ghost expires: { Self → Option (Spanned Expiry) };

    ghost reason: { Self → Option Reason };

    /// The last day on which the entry counts.
    fn expires(&self) -> Option<&Spanned<Expiry>>
        ensures { option_copied result ≡ expires self.now };

    /// Why the entry is there, and the last day on which it counts.
    fn into_parts(self) -> (Option<Reason>, Option<Spanned<Expiry>>)
        ensures { result ≡ (reason self, expires self) };
}

impl Dated for Waiver {
    ghost expires = { λ waiver. waiver.expires };

    ghost reason = { λ waiver. waiver.reason };

    fn expires(&self) -> Option<&Spanned<Expiry>> {
        self.expires.as_ref()
    }

    fn into_parts(self) -> (Option<Reason>, Option<Spanned<Expiry>>) {
        (self.reason, self.expires)
    }
}

impl Dated for TreeSkipExtended {
    ghost expires = { λ skip. skip.expires };

    ghost reason = { λ skip. skip.reason };

    fn expires(&self) -> Option<&Spanned<Expiry>> {
        self.expires.as_ref()
    }

    fn into_parts(self) -> (Option<Reason>, Option<Spanned<Expiry>>) {
        (self.reason, self.expires)
    }
}

/// An entry that may have a last day.
pub trait Expiring: Sized + Drop {
    ghost last_day: { Self → Option (Spanned Expiry) };

    ghost spec: { Self → PackageSpec };

    ghost reason_of: { Self → Option Reason };

    /// The last day on which the entry counts.
    fn last_day(&self) -> Option<&Spanned<Expiry>>
        ensures { option_copied result ≡ last_day self.now };

    /// The entry's spec, why the entry is there, and the last day on which it counts.
    fn into_parts(self) -> (PackageSpec, Option<Reason>, Option<Spanned<Expiry>>)
        ensures { result ≡ (spec self, reason_of self, last_day self) };
}

impl<T: Dated> Expiring for PackageSpecOrExtended<T> {
    ghost last_day = { λ entry. option_and_then T.expires entry.inner };

    ghost spec = { λ entry. entry.spec };

    ghost reason_of = { λ entry. option_and_then T.reason entry.inner };

    fn last_day(&self) -> Option<&Spanned<Expiry>> {
        match &self.inner {
            Some(inner) => inner.expires(),
            None => None,
        }
    }

    fn into_parts(self) -> (PackageSpec, Option<Reason>, Option<Spanned<Expiry>>) {
        let PackageSpecOrExtended { spec, inner } = self;
        match inner {
            Some(inner) => {
                let (reason, expires) = inner.into_parts();
                (spec, reason, expires)
            }
            None => (spec, None, None),
        }
    }
}

impl Expiring for ValidBypass {
    ghost use Rattle.std.specs.Prelude.{None};

    ghost last_day = { λ bypass. bypass.expires };

    ghost spec = { λ bypass. bypass.spec };

    ghost reason_of = { λ bypass. None };

    fn last_day(&self) -> Option<&Spanned<Expiry>> {
        self.expires.as_ref()
    }

    fn into_parts(self) -> (PackageSpec, Option<Reason>, Option<Spanned<Expiry>>) {
        (self.spec, None, self.expires)
    }
}

impl Expiring for Exception {
    ghost use Rattle.std.specs.Prelude.{None};

    ghost last_day = { λ exception. exception.expires };

    ghost spec = { λ exception. exception.spec };

    ghost reason_of = { λ exception. None };

    fn last_day(&self) -> Option<&Spanned<Expiry>> {
        self.expires.as_ref()
    }

    fn into_parts(self) -> (PackageSpec, Option<Reason>, Option<Spanned<Expiry>>) {
        (self.spec, None, self.expires)
    }
}

/// Puts an entry of a kind, whose last day has passed, behind those that have expired.
fn add_expired<T: Expiring>(
    today: Option<Day>,
    kind: EntryKind,
    entry: T,
    expired: &mut List<ExpiredWaiver>,
) -> Result<(), NoMemory>
    requires passed { counts today (T.last_day entry) ≡ false }
    ensures { OnOk result (expired.new ≡ expired.old
        ++ filter_map (λ e. option_map (expired_as kind (T.spec e) (T.reason_of e)) (spec.passed today (T.last_day e)))
        (entry ∷ [])) }
{
    let (spec, reason, last) = entry.into_parts();
    match last {
        Some(expires) => expired.push(ExpiredWaiver {
            id: EntryId {
                kind,
                range: spec.name.span,
            },
            spec,
            reason,
            expires,
        }),
        None => Ok(()),
    }
}

/// Puts an entry behind those that count, or behind those that have expired.
fn divide<T: Expiring>(
    today: Option<Day>,
    kind: EntryKind,
    entry: T,
    counting: &mut List<T>,
    expired: &mut List<ExpiredWaiver>,
) -> Result<(), NoMemory>
    ensures counting { OnOk result (counting.new
        ≡ counting.old ++ filter (λ e. counts today (T.last_day e)) (entry ∷ [])) }
    ensures expired { OnOk result (expired.new ≡ expired.old
        ++ filter_map (λ e. option_map (expired_as kind (T.spec e) (T.reason_of e)) (spec.passed today (T.last_day e)))
        (entry ∷ [])) }
{
    if counts(today, entry.last_day()) {
        counting.push(entry)
    } else {
        add_expired(today, kind, entry, expired)
    }
}

/// Takes the entries of a kind whose last day has passed out of a list, and puts them behind those that have expired.
fn take_expired<T: Expiring>(
    alloc: Global,
    today: Option<Day>,
    kind: EntryKind,
    entries: &mut List<T>,
    expired: &mut List<ExpiredWaiver>,
) -> Result<(), NoMemory>
    ensures counting { OnOk result (entries.new ≡ filter (λ e. counts today (T.last_day e)) entries.old) }
    ensures expired { OnOk result (expired.new ≡ expired.old
        ++ filter_map (λ e. option_map (expired_as kind (T.spec e) (T.reason_of e)) (spec.passed today (T.last_day e)))
        entries.old) }
{
    let all = mem::replace(entries, List::new(alloc));
    'all: for entry in all.vec {
        divide(today, kind, entry, entries, expired)?;
    }
    Ok(())
}

fn take_from_std(
    alloc: Global,
    today: Option<Day>,
    std: &mut Option<StdReplacementConfig>,
    expired: &mut List<ExpiredWaiver>,
) -> Result<(), NoMemory>
    ensures current { OnOk result (std.new ≡ option_map (current_std today) std.old) }
    ensures expired { OnOk result (expired.new ≡ expired.old ++ option_map_or (expired_in_std today) std.old []) }
{
    match std {
        Some(std) => take_expired(
            alloc,
            today,
            EntryKind::ReplacementIgnore,
            &mut std.ignore,
            expired,
        ),
        None => Ok(()),
    }
}

fn take_from_build(
    alloc: Global,
    today: Option<Day>,
    build: &mut Option<ValidBuildConfig>,
    expired: &mut List<ExpiredWaiver>,
) -> Result<(), NoMemory>
    ensures current { OnOk result (build.new ≡ option_map (current_build today) build.old) }
    ensures expired { OnOk result (expired.new ≡ expired.old ++ option_map_or (expired_in_build today) build.old []) }
{
    match build {
        Some(build) => take_expired(alloc, today, EntryKind::Bypass, &mut build.bypass, expired),
        None => Ok(()),
    }
}

/// Takes the entries whose last day has passed out of the table `bans`.
#[tactic(auto, unfolding(crate::specs::Current::current_bans, crate::specs::Current::expired_in_bans))]
pub fn take_from_bans(
    alloc: Global,
    today: Option<Day>,
    bans: &mut ValidConfig,
    expired: &mut List<ExpiredWaiver>,
) -> Result<(), NoMemory>
    ensures current { OnOk result (bans.new ≡ current_bans today bans.old) }
    ensures expired { OnOk result (expired.new ≡ expired.old ++ expired_in_bans today bans.old) }
{
    take_expired(alloc, today, EntryKind::Skip, &mut bans.skipped, expired)?;
    take_expired(
        alloc,
        today,
        EntryKind::SkipRoot,
        &mut bans.tree_skipped,
        expired,
    )?;
    take_from_std(alloc, today, &mut bans.std_replacements, expired)?;
    take_from_build(alloc, today, &mut bans.build, expired)
}

/// Takes the entries whose last day has passed out of the table `licenses`.
pub fn take_from_licenses(
    alloc: Global,
    today: Option<Day>,
    licenses: &mut Option<licenses::ValidConfig>,
    expired: &mut List<ExpiredWaiver>,
) -> Result<(), NoMemory>
    ensures current { OnOk result (licenses.new ≡ option_map (current_licenses today) licenses.old) }
    ensures expired { OnOk result (expired.new ≡ expired.old ++ expired_in_licenses today licenses.old) }
{
    match licenses {
        Some(config) => take_expired(
            alloc,
            today,
            EntryKind::LicenseException,
            &mut config.exceptions,
            expired,
        ),
        None => Ok(()),
    }
}

/// Which entries have expired.
pub fn ids_of(alloc: Global, expired: &[ExpiredWaiver]) -> Result<List<EntryId>, NoMemory>
    ensures { IfOk result (λ ids. ids ≡ map expired_id expired.now) }
{
    let mut ids = List::new(alloc);
    for waiver in expired {
        ids.push(waiver.id)?;
    }
    Ok(ids)
}
