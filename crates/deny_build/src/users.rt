//! The checked crates, by the bypasses that they use.
ghost use Rattle.std.specs.Prelude.{◌≡◌, ◌++◌, ◌∷◌, [], IfOk, None, OnOk, cond, filter, length, map, nat_lt, slice_get};
ghost use Rattle.std.specs.Option.{option_copied, option_map_or};
ghost use Rattle.std.specs.BTreeMap as tree;
ghost use Rattle.deny_base.specs.KeyOrder.{span_cmp};
ghost use Rattle.deny_base.specs.declared.span.Span.{Span};
ghost use Rattle.deny_cfg_build.specs.BuildingView.{bypass_view};
ghost use Rattle.deny_spec_report.specs.BuildScripts.{bypass_span};
ghost use Rattle.deny_spec.specs.Wrappers.{same_span};
ghost use Rattle.deny_build.specs.ScanningOf.{scanning_of};
ghost use Rattle.deny_build.specs.private.ScannedKrates.{AreScannedKrates};
ghost use Rattle.deny_build.specs.private.UsersOf.{AreUsers, span_used, uses_span, users_at};

use crate::ctx::BuildCtx;
use crate::scanned_krate::ScannedKrate;
use deny_base::Span;
use deny_base_lists::NoMemory;
use deny_cfg_build::ValidBypass;
use std::alloc::Global;
use std::collections::BTreeMap;

/// The checked crates, by the span of the bypass that each uses, in their order.
#[derive(Drop)]
pub struct Users<'l, 'a> {
    groups: BTreeMap<Span, Vec<&'l ScannedKrate<'a>>>,
}

impl<'l, 'a> Users<'l, 'a> {
    /// Groups the checked crates by the bypass that they use.
    pub fn new(alloc: Global, all: &'l [ScannedKrate<'a>]) -> Result<Users<'l, 'a>, NoMemory>
        ensures { IfOk result (λ users. (span : Span) → users_at users.groups span
            ≡ filter (uses_span span) all.now) }
    {
        let mut groups = BTreeMap::new(alloc);
        for at in all {
            add(alloc, at, &mut groups)?;
        }
        Ok(Users { groups })
    }

    /// The crates that use a bypass, if there are any.
    pub fn of(&self, bypass: &ValidBypass) -> Option<&Vec<&'l ScannedKrate<'a>>>
        ensures { option_map_or (λ group. map (λ at. at.now) group.now.items) result []
            ≡ users_at self.now.groups (bypass_span (bypass_view bypass.now)) }
    {
        self.groups.get(&bypass.spec.name.span)
    }
}

/// The first crate that uses a bypass.
pub fn first_user<'l, 'a>(
    users: &Users<'l, 'a>,
    bypass: &ValidBypass,
) -> Option<&'l ScannedKrate<'a>>
    ensures { option_copied result
        ≡ slice_get (users_at users.now.groups (bypass_span (bypass_view bypass.now))) 0 }
{
    match users.of(bypass) {
        Some(group) => group.first().copied(),
        None => None,
    }
}

/// Whether a crate uses a bypass.
pub fn has_user(users: &Users<'_, '_>, bypass: &ValidBypass) -> bool
    ensures { result ≡ nat_lt 0 (length (users_at users.now.groups (bypass_span (bypass_view bypass.now)))) }
{
    match users.of(bypass) {
        Some(group) => group.len() > 0,
        None => false,
    }
}

/// The crates of a graph that use a bypass.
pub fn users_of<'l, 'a>(
    alloc: Global,
    _ctx: &BuildCtx<'_>,
    all: &'l [ScannedKrate<'a>],
) -> Result<Users<'l, 'a>, NoMemory>
    requires { AreScannedKrates (scanning_of _ctx.now) all.now }
    ensures { IfOk result (AreUsers (scanning_of _ctx.now)) }
{
    Users::new(alloc, all)
}

/// The span of the bypass that a crate uses, if the crate is checked.
fn span_used(at: &ScannedKrate<'_>) -> Option<Span>
    ensures { result ≡ span_used at.now }
{
    if !at.checked {
        return None;
    }
    match at.bypass {
        Some(bypass) => Some(bypass.spec.name.span),
        None => None,
    }
}

/// Adds a crate to those that use its bypass.
fn add<'l, 'a>(
    alloc: Global,
    at: &'l ScannedKrate<'a>,
    groups: &mut BTreeMap<Span, Vec<&'l ScannedKrate<'a>>>,
) -> Result<(), NoMemory>
    ensures { OnOk result ((span : Span) → users_at groups.new span
        ≡ users_at groups.old span ++ filter (uses_span span) (at.now ∷ [])) }
{
    match span_used(at) {
        Some(span) => add_spanned(alloc, span, at, groups),
        None => Ok(()),
    }
}

fn add_spanned<'l, 'a>(
    alloc: Global,
    span: Span,
    at: &'l ScannedKrate<'a>,
    groups: &mut BTreeMap<Span, Vec<&'l ScannedKrate<'a>>>,
) -> Result<(), NoMemory>
    ensures { OnOk result ((asked : Span) → users_at groups.new asked
        ≡ users_at groups.old asked ++ cond (same_span span asked) (at.now ∷ []) []) }
{
    if let Some(group) = groups.get_mut(&span) {
        group.push(at)?;
        return Ok(());
    }
    begin(alloc, span, at, groups)
}

fn begin<'l, 'a>(
    alloc: Global,
    span: Span,
    at: &'l ScannedKrate<'a>,
    groups: &mut BTreeMap<Span, Vec<&'l ScannedKrate<'a>>>,
) -> Result<(), NoMemory>
    requires { tree.get span_cmp groups.old span ≡ None }
    ensures { OnOk result ((asked : Span) → users_at groups.new asked
        ≡ users_at groups.old asked ++ cond (same_span span asked) (at.now ∷ []) []) }
{
    let mut group = Vec::new(alloc);
    group.push(at)?;
    groups.insert(span, group)?;
    Ok(())
}
