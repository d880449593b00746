//! The hits of bypasses, and of their paths and globs.
ghost use Rattle.std.specs.Prelude.{◌≡◌, ◌++◌, IfOk, OnOk, find, map, option_map, slice_get};
ghost use Rattle.std.specs.FinMap as finite;
ghost use Rattle.std.specs.List.{flat_map};
ghost use Rattle.std.specs.Option.{option_copied};
ghost use Rattle.deny_base.specs.declared.entry.EntryKind.TheVariants.{Bypass};
ghost use Rattle.deny_base.specs.declared.entry.Witness.TheVariants.{Krate};
ghost use Rattle.deny_cfg_build.specs.BuildingView.{bypass_view, path_view, words_of};
ghost use Rattle.deny_spec.specs.Unseen.{unseen_package};
ghost use Rattle.deny_spec_report.specs.Packages.{bypass_hit, bypass_hits, bypass_hits_of, if_hit};
ghost use Rattle.deny_spec.specs.Graph.{kid_of};
ghost use Rattle.deny_spec.specs.Hits.{hit_of};
ghost use Rattle.deny_build.specs.ScanningOf.{scanning_of};
ghost use Rattle.deny_build.specs.private.Hits.{glob_hit_in, hit_by, path_hit_in};
ghost use Rattle.deny_build.specs.private.ScannedKrates.{krate_of, scanned_view};
ghost use Rattle.deny_build.specs.private.FileMatch.{IsFirstAt, matches_glob, matches_path, matched_view, number_at};
ghost use Rattle.deny_build.specs.private.Users.{matched_of_users, matched_walked};
ghost use Rattle.deny_build.specs.private.UsersOf.{AreUsers};

use crate::ctx::{BuildCtx, unseen_package};
use crate::glob_texts::{globs_of, words_of};
use crate::matched::{FileMatch, firsts_by_glob, firsts_by_path, match_files};
use crate::scanned_krate::ScannedKrate;
use crate::scanning::scan_each;
use crate::users::{Users, first_user, users_of};
use deny_base::{EntryId, EntryKind, Hit, Span, Spanned, Witness};
use deny_base_lists::{List, NoMemory, Text, TextMap};
use deny_build_bypass::Allowed;
use deny_cfg_build::{GlobPattern, ValidBypass};
use deny_cfg_tables::bans::cfg::BypassPath;
use deny_spec::Package;
use std::alloc::Global;
use std::collections::BTreeMap;

fn hit_by(kind: EntryKind, span: Span, matched: &FileMatch<'_>) -> Result<Hit, NoMemory>
    ensures { IfOk result (λ hit. hit ≡ hit_by kind span (matched_view matched.now)) }
{
    Ok(Hit {
        entry: EntryId { kind, range: span },
        witness: Witness::File {
            krate: matched.kid.clone()?,
            path: matched.file.path.clone()?,
        },
    })
}

fn krate_hit(span: Span, at: &ScannedKrate<'_>) -> Result<Hit, NoMemory>
    ensures { IfOk result (λ hit. hit ≡ hit_of Bypass span (Krate (kid_of (krate_of at.now)))) }
{
    Ok(Hit {
        entry: EntryId {
            kind: EntryKind::Bypass,
            range: span,
        },
        witness: Witness::Krate(at.krate.id.clone()?),
    })
}

/// Adds the hit of a bypass, by the first checked crate that uses it.
fn add_bypass_hit(
    _ctx: &BuildCtx<'_>,
    users: &Users<'_, '_>,
    bypass: &ValidBypass,
    hits: &mut List<Hit>,
) -> Result<(), NoMemory>
    requires { AreUsers (scanning_of _ctx.now) users.now }
    ensures { OnOk result (hits.new ≡ hits.old ++ if_hit (bypass_hit (scanning_of _ctx.now) (bypass_view bypass.now))) }
{
    match first_user(users, bypass) {
        Some(at) => hits.push(krate_hit(bypass.spec.name.span, at)?),
        None => Ok(()),
    }
}

/// Appends the files of a crate with the paths of a bypass that match them, if the crate is walked.
#[tactic(auto, unfolding(crate::specs::private::Users::matched_walked))]
fn match_walked<'a>(
    alloc: Global,
    at: &ScannedKrate<'a>,
    bypass: &'a ValidBypass,
    matched: &mut Vec<FileMatch<'a>>,
) -> Result<(), NoMemory>
    ensures { OnOk result (map matched_view matched.new.items
        ≡ map matched_view matched.old.items ++ matched_walked (bypass_view bypass.now) (scanned_view at.now)) }
{
    if at.walked {
        let allowed = Allowed::new(alloc, Some(bypass))?;
        let files = at.contents.files.as_slice();
        return match_files(alloc, &allowed, &at.krate.id, files, matched);
    }
    Ok(())
}

/// The files of the walked ones of some crates, with the paths of a bypass that match them.
fn matched_of_group<'a>(
    alloc: Global,
    group: &[&ScannedKrate<'a>],
    bypass: &'a ValidBypass,
) -> Result<Vec<FileMatch<'a>>, NoMemory>
    ensures { IfOk result (λ matched. map matched_view matched.items
        ≡ flat_map (matched_walked (bypass_view bypass.now)) (map (λ at. scanned_view at.now) group.now)) }
{
    let mut matched = Vec::new(alloc);
    for at in group {
        match_walked(alloc, at, bypass, &mut matched)?;
    }
    Ok(matched)
}

/// The files of all walked crates that use a bypass, in the order of the crates.
fn matched_of_users<'a>(
    alloc: Global,
    _ctx: &BuildCtx<'_>,
    users: &Users<'_, 'a>,
    bypass: &'a ValidBypass,
) -> Result<Vec<FileMatch<'a>>, NoMemory>
    requires { AreUsers (scanning_of _ctx.now) users.now }
    ensures { IfOk result (λ matched. map matched_view matched.items
        ≡ matched_of_users (scanning_of _ctx.now) (bypass_view bypass.now)) }
{
    match users.of(bypass) {
        Some(group) => matched_of_group(alloc, group.as_slice(), bypass),
        None => Ok(Vec::new(alloc)),
    }
}

fn nth_match<'m, 'a>(matched: &'m [FileMatch<'a>], number: usize) -> Option<&'m FileMatch<'a>>
    ensures { option_copied result ≡ slice_get matched.now number }
{
    matched.get(number)
}

/// The first file that the allowed path of a span matches; `firsts` has its index.
fn first_by_path<'m, 'a>(
    span: Span,
    matched: &'m [FileMatch<'a>],
    firsts: &BTreeMap<Span, usize>,
) -> Option<&'m FileMatch<'a>>
    requires { IsFirstAt (matches_path span) (map matched_view matched.now) (number_at firsts.now span) }
    ensures { option_map matched_view (option_copied result) ≡ find (matches_path span) (map matched_view matched.now) }
{
    match firsts.get(&span) {
        Some(number) => nth_match(matched, *number),
        None => None,
    }
}

/// Adds the hit of an allowed path, by the first file that it matches.
fn add_path_hit(
    path: &BypassPath,
    matched: &[FileMatch<'_>],
    firsts: &BTreeMap<Span, usize>,
    hits: &mut List<Hit>,
) -> Result<(), NoMemory>
    requires { IsFirstAt (matches_path path.now.path.span) (map matched_view matched.now)
        (number_at firsts.now path.now.path.span) }
    ensures { OnOk result (hits.new ≡ hits.old ++ if_hit (path_hit_in (map matched_view matched.now)
        (path_view path.now))) }
{
    let span = path.path.span;
    match first_by_path(span, matched, firsts) {
        Some(first) => hits.push(hit_by(EntryKind::BypassPath, span, first)?),
        None => Ok(()),
    }
}

fn add_path_hits(
    alloc: Global,
    paths: &[BypassPath],
    matched: &[FileMatch<'_>],
    hits: &mut List<Hit>,
) -> Result<(), NoMemory>
    ensures { OnOk result (hits.new
        ≡ hits.old ++ flat_map (λ a. if_hit (path_hit_in (map matched_view matched.now) a)) (map path_view paths.now)) }
{
    let firsts = firsts_by_path(alloc, matched)?;
    for path in paths {
        add_path_hit(path, matched, &firsts, hits)?;
    }
    Ok(())
}

/// The first file that a glob lets pass; `firsts` has its index.
fn first_by_glob<'m, 'a>(
    glob: &Text,
    matched: &'m [FileMatch<'a>],
    firsts: &TextMap<usize>,
) -> Option<&'m FileMatch<'a>>
    requires { IsFirstAt (matches_glob glob.now) (map matched_view matched.now) (finite.get firsts.now glob.now) }
    ensures { option_map matched_view (option_copied result) ≡ find (matches_glob glob.now)
        (map matched_view matched.now) }
{
    match firsts.get(glob.as_str()) {
        Some(number) => nth_match(matched, *number),
        None => None,
    }
}

/// Adds the hit of a glob, by the first file that it lets pass.
fn add_glob_hit(
    glob: &Spanned<Text>,
    matched: &[FileMatch<'_>],
    firsts: &TextMap<usize>,
    hits: &mut List<Hit>,
) -> Result<(), NoMemory>
    requires { IsFirstAt (matches_glob glob.now.value) (map matched_view matched.now)
        (finite.get firsts.now glob.now.value) }
    ensures { OnOk result (hits.new ≡ hits.old ++ if_hit (glob_hit_in (map matched_view matched.now) glob.now)) }
{
    match first_by_glob(&glob.value, matched, firsts) {
        Some(first) => hits.push(hit_by(EntryKind::BypassGlob, glob.span, first)?),
        None => Ok(()),
    }
}

fn add_glob_hits(
    alloc: Global,
    globs: &[GlobPattern],
    matched: &[FileMatch<'_>],
    hits: &mut List<Hit>,
) -> Result<(), NoMemory>
    ensures { OnOk result (hits.new
        ≡ hits.old ++ flat_map (λ w. if_hit (glob_hit_in (map matched_view matched.now) w)) (map words_of globs.now)) }
{
    let firsts = firsts_by_glob(alloc, matched)?;
    for pattern in globs {
        add_glob_hit(words_of(pattern), matched, &firsts, hits)?;
    }
    Ok(())
}

/// Adds the hits of a bypass, and of its paths and globs.
fn add_hits_of<'a>(
    alloc: Global,
    ctx: &BuildCtx<'_>,
    users: &Users<'_, 'a>,
    bypass: &'a ValidBypass,
    hits: &mut List<Hit>,
) -> Result<(), NoMemory>
    requires { AreUsers (scanning_of ctx.now) users.now }
    ensures { OnOk result (hits.new ≡ hits.old ++ bypass_hits_of (scanning_of ctx.now) (bypass_view bypass.now)) }
{
    add_bypass_hit(ctx, users, bypass, hits)?;
    let matched = matched_of_users(alloc, ctx, users, bypass)?;
    add_path_hits(alloc, bypass.allow.as_slice(), matched.as_slice(), hits)?;
    add_glob_hits(alloc, globs_of(bypass), matched.as_slice(), hits)
}

/// The hits of the bypasses that crates use, and of the paths and globs by which files pass, in the
/// order of the policy. The witness of each is the first crate, or the first file of the first such
/// crate.
pub fn bypass_hits(alloc: Global, ctx: &BuildCtx<'_>) -> Result<List<Hit>, NoMemory>
    ensures { IfOk result (λ hits. hits ≡ bypass_hits (scanning_of ctx.now)) }
{
    let unseen = unseen_package(alloc);
    hits_of_all(alloc, ctx, &unseen)
}

/// The hits of all bypasses; `unseen` is the package of a crate that was not scanned.
fn hits_of_all<'a>(
    alloc: Global,
    ctx: &'a BuildCtx<'a>,
    unseen: &'a Package,
) -> Result<List<Hit>, NoMemory>
    requires { unseen.now ≡ unseen_package }
    ensures { IfOk result (λ hits. hits ≡ bypass_hits (scanning_of ctx.now)) }
{
    let all = scan_each(alloc, ctx, unseen)?;
    let users = users_of(alloc, ctx, all.as_slice())?;
    hits_by(alloc, ctx, &users)
}

/// The hits of all bypasses, by the crates that use them.
pub fn hits_by<'a>(
    alloc: Global,
    ctx: &'a BuildCtx<'a>,
    users: &Users<'_, 'a>,
) -> Result<List<Hit>, NoMemory>
    requires { AreUsers (scanning_of ctx.now) users.now }
    ensures { IfOk result (λ hits. hits ≡ bypass_hits (scanning_of ctx.now)) }
{
    let entries = ctx.config.bypass.as_slice();
    let mut hits = List::new(alloc);
    for bypass in entries {
        add_hits_of(alloc, ctx, users, bypass, &mut hits)?;
    }
    Ok(hits)
}
