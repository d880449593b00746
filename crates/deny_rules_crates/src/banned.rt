//! The keys of bans and of their wrappers.
ghost use Rattle.std.specs.Prelude.{◌≡◌, ◌++◌, ◌<◌, All, Contains, IfOk, IsTrue};
ghost use Rattle.std.specs.Prelude.{OnOk, filter, is_some, length, map, not};
ghost use Rattle.std.specs.Cmp.{IsTotalOrder};
ghost use Rattle.std.specs.FinMap.{IsAntisymmetric};
ghost use Rattle.std.specs.List.{flat_map};
ghost use Rattle.std.specs.List.Sorted.{IsStrictlySortedBy};
ghost use Rattle.deny_base_lists.specs.Ascending.{Adds, Lists};
ghost use Rattle.deny_base.specs.KeyOrder.{span_cmp};
ghost use Rattle.deny_base.specs.declared.code.Code.TheVariants.{UnusedWrapper};
ghost use Rattle.deny_base.specs.declared.span.Span.{Span};
ghost use Rattle.deny_cfg.specs.PolicyView.{policy_view};
ghost use Rattle.deny_spec.specs.Bans.{has_wrappers};
ghost use Rattle.deny_spec.specs.Keys.{dependent_key, unused_key};
ghost use Rattle.deny_spec.specs.Policy.{Policy};
ghost use Rattle.deny_rules_match.specs.Matches.{IsBanMatch, ban_of};
ghost use Rattle.deny_rules_match.specs.Wrappers.{span_at};
ghost use Rattle.deny_rules_crates.specs.private.Banned.{hits_at, is_hit, is_waived_at};
ghost use Rattle.deny_rules_crates.specs.private.Banned.{keys_of_ban, reported_code, reported_keys_at};

use deny_base::{Code, DiagnosticCode, Key, Section, Span, Spanned};
use deny_base_lists::{List, NoMemory, Text, TextMap, put_in_order};
use deny_krates::Krates;
use deny_rules_match::{BanMatch, Matches, add_crate_keys, are_placed, span_at, wrappers_of};
use deny_spec::unused_key;
use std::alloc::Global;

/// Adds the keys of bans, entry by entry.
pub fn add_banned_keys(
    alloc: Global,
    found: &Matches<'_>,
    keys: &mut List<Key>,
) -> Result<(), NoMemory>
    ensures { OnOk result (Adds (Contains (flat_map (keys_of_ban (policy_view found.now.cfg.now) found.now.krates.now)
        (policy_view found.now.cfg.now).deny)) keys.old keys.new) }
{
    are_placed(found.krates);
    let bans = found.bans.as_slice();
    for ban in bans {
        add_keys_of_ban(alloc, found.krates, ban, keys)?;
    }
    Ok(())
}

/// Adds the keys of a ban, by the crates that it concerns.
fn add_keys_of_ban(
    alloc: Global,
    krates: &Krates,
    ban: &BanMatch<'_>,
    keys: &mut List<Key>,
) -> Result<(), NoMemory>
    requires { All (λ place. place < length krates.now.crates) ban.now.places }
    ensures { (p : Policy) → IsBanMatch p krates.now ban.now
        → OnOk result (Adds (Contains (keys_of_ban p krates.now (ban_of ban.now))) keys.old keys.new) }
{
    let wrappers = wrappers_of(ban.ban);
    if wrappers.is_empty() {
        return add_crate_keys(
            alloc,
            Code::Banned,
            ban.places.as_slice(),
            ban.ban.spec.name.span,
            keys,
        );
    }
    add_wrapped_keys(alloc, krates, ban, keys)
}

/// Adds the keys of a ban with wrappers, by the crates that it concerns.
fn add_wrapped_keys(
    alloc: Global,
    krates: &Krates,
    ban: &BanMatch<'_>,
    keys: &mut List<Key>,
) -> Result<(), NoMemory>
    requires wrapped { IsTrue (has_wrappers (ban_of ban.now)) }
    requires within { All (λ place. place < length krates.now.crates) ban.now.places }
    ensures { (p : Policy) → IsBanMatch p krates.now ban.now
        → OnOk result (Adds (Contains (keys_of_ban p krates.now (ban_of ban.now))) keys.old keys.new) }
{
    let entry = ban.ban.spec.name.span;
    let places = ban.places.as_slice();
    let wrappers = wrappers_of(ban.ban);
    let banned = not_waived(alloc, krates, &ban.spans, places)?;
    add_crate_keys(alloc, Code::Banned, banned.as_slice(), entry, keys)?;
    add_reported_keys(alloc, krates, &ban.spans, places, entry, keys)?;
    let hits = hit_spans(alloc, krates, &ban.spans, places)?;
    add_unused_keys(alloc, wrappers, hits.as_slice(), keys)
}

/// Whether the crate at a place has the name of a wrapper.
fn is_wrapper_at(krates: &Krates, spans: &TextMap<Span>, place: u32) -> bool
    ensures { result ≡ is_some (span_at krates.now spans.now place) }
{
    span_at(krates, spans, place).is_some()
}

/// Those of some places whose crates have a direct dependent that is no wrapper.
fn not_waived(
    alloc: Global,
    krates: &Krates,
    spans: &TextMap<Span>,
    places: &[u32],
) -> Result<List<u32>, NoMemory>
    requires { All (λ place. place < length krates.now.crates) places.now }
    ensures { IfOk result (λ banned. banned ≡ filter (λ place. not
        (is_waived_at krates.now spans.now place)) places.now) }
{
    let mut banned = List::new(alloc);
    for place in places {
        if !is_waived_at(krates, spans, *place) {
            banned.push(*place)?;
        }
    }
    Ok(banned)
}

/// Whether all direct dependents of the crate at a place are wrappers.
fn is_waived_at(krates: &Krates, spans: &TextMap<Span>, place: u32) -> bool
    requires { place < length krates.now.crates }
    ensures { result ≡ is_waived_at krates.now spans.now place }
{
    are_placed(krates);
    let dependents = krates.direct_dependents(place);
    for dependent in dependents {
        if !is_wrapper_at(krates, spans, dependent.place) {
            return false;
        }
    }
    true
}

/// Adds the keys of the direct dependents of the crates at some places.
fn add_reported_keys(
    alloc: Global,
    krates: &Krates,
    spans: &TextMap<Span>,
    places: &[u32],
    entry: Span,
    keys: &mut List<Key>,
) -> Result<(), NoMemory>
    requires { All (λ place. place < length krates.now.crates) places.now }
    ensures { OnOk result
        (Adds (Contains (flat_map (reported_keys_at krates.now spans.now entry) places.now)) keys.old keys.new) }
{
    for place in places {
        add_reported_keys_at(alloc, krates, spans, *place, entry, keys)?;
    }
    Ok(())
}

/// Adds the keys of the direct dependents of the crate at a place.
fn add_reported_keys_at(
    alloc: Global,
    krates: &Krates,
    spans: &TextMap<Span>,
    place: u32,
    entry: Span,
    keys: &mut List<Key>,
) -> Result<(), NoMemory>
    requires { place < length krates.now.crates }
    ensures { OnOk result (Adds (Contains (reported_keys_at krates.now spans.now entry place)) keys.old keys.new) }
{
    are_placed(krates);
    let dependents = krates.direct_dependents(place);
    for dependent in dependents {
        let code = code_at(krates, spans, dependent.place);
        keys.push(dependent_key(alloc, code, place, entry, dependent.place))?;
    }
    Ok(())
}

/// The key of a crate, an entry that matches it, and a direct dependent.
#[tactic(auto, unfolding(deny_spec::specs::Keys::key_of))]
fn dependent_key(alloc: Global, code: Code, place: u32, entry: Span, parent: u32) -> Key
    ensures { result ≡ dependent_key code place entry parent }
{
    Key {
        section: Section::Crates,
        place,
        code: DiagnosticCode::Bans(code),
        entry,
        text: Text::new(alloc),
        other: parent,
        places: List::new(alloc),
    }
}

/// The code of a direct dependent: of a wrapper, or of another.
#[tactic(auto, unfolding(crate::specs::private::Banned::reported_code))]
fn code_at(krates: &Krates, spans: &TextMap<Span>, place: u32) -> Code
    ensures { result ≡ reported_code (is_some (span_at krates.now spans.now place)) }
{
    if is_wrapper_at(krates, spans, place) {
        Code::AllowedByWrapper
    } else {
        Code::UnmatchedWrapper
    }
}

/// The spans of the wrappers that are hit by the crates at some places, ascending.
fn hit_spans(
    alloc: Global,
    krates: &Krates,
    spans: &TextMap<Span>,
    places: &[u32],
) -> Result<List<Span>, NoMemory>
    requires { All (λ place. place < length krates.now.crates) places.now }
    ensures { IfOk result (Lists span_cmp (Contains (flat_map (hits_at krates.now spans.now) places.now))) }
{
    let mut hits = List::new(alloc);
    for place in places {
        add_hits_at(krates, spans, *place, &mut hits)?;
    }
    span_order();
    put_in_order(&mut hits)?;
    Ok(hits)
}

/// Adds the spans of the wrappers among the direct dependents of the crate at a place.
fn add_hits_at(
    krates: &Krates,
    spans: &TextMap<Span>,
    place: u32,
    hits: &mut List<Span>,
) -> Result<(), NoMemory>
    requires { place < length krates.now.crates }
    ensures { OnOk result (Adds (Contains (hits_at krates.now spans.now place)) hits.old hits.new) }
{
    are_placed(krates);
    let dependents = krates.direct_dependents(place);
    for dependent in dependents {
        if let Some(span) = span_at(krates, spans, dependent.place) {
            hits.push(span)?;
        }
    }
    Ok(())
}

/// Adds the keys of the wrappers that are not hit.
fn add_unused_keys(
    alloc: Global,
    wrappers: &[Spanned<Text>],
    hits: &[Span],
    keys: &mut List<Key>,
) -> Result<(), NoMemory>
    requires { IsStrictlySortedBy span_cmp hits.now }
    ensures { OnOk result (keys.new ≡ keys.old ++ map (λ w. unused_key UnusedWrapper w.span)
        (filter (λ w. not (is_hit hits.now w.span)) wrappers.now)) }
{
    for wrapper in wrappers {
        if !is_hit(hits, &wrapper.span) {
            keys.push(unused_key(alloc, Code::UnusedWrapper, wrapper.span))?;
        }
    }
    Ok(())
}

fn is_hit(hits: &[Span], span: &Span) -> bool
    requires { IsStrictlySortedBy span_cmp hits.now }
    ensures { result ≡ is_hit hits.now span.now }
{
    span_order();
    hits.binary_search(span).is_ok()
}

// The order of spans is by start and end; it is total, and only equal spans tie.
fn span_order()
    ensures fields { (a b : Span) → ⟦<Span as Ord>⟧.cmp a b ≡ span_cmp a b }
    ensures total { IsTotalOrder span_cmp }
    ensures equal { IsAntisymmetric span_cmp }
{}
