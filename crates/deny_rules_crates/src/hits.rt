//! Which entries are hit, each with its first witness.
ghost use Rattle.std.specs.Prelude.{◌≡◌, ◌++◌, ◌<◌, map, filter_map, length, slice_get, IfOk, OnOk, All};
ghost use Rattle.std.specs.List.{flat_map};
ghost use Rattle.deny_cfg.specs.PolicyView.{policy_view};
ghost use Rattle.deny_spec.specs.Graph.{dependents};
ghost use Rattle.deny_spec.specs.Hits.{all_hits};
ghost use Rattle.deny_spec.specs.Policy.{Policy};
ghost use Rattle.deny_rules_match.specs.Marks.{facts_of};
ghost use Rattle.deny_rules_match.specs.Matches.{IsBanMatch, ban_of};
ghost use Rattle.deny_rules_crates.specs.private.EntryHits.{entry_hit};
ghost use Rattle.deny_rules_crates.specs.private.WrappedEdges.{LeadToFirsts, hit_at, hit_by_edge, wrapped_edge_at};
ghost use Rattle.deny_rules_crates.specs.private.WrappedEdges.{wrapped_edges_at, wrapper_hits};

use deny_base::{EntryId, EntryKind, Hit, Span, Spanned, Witness};
use deny_base_lists::{List, NoMemory, Text, TextMap, put_in_order};
use deny_krates::{DirectDependent, Krates, krate_at};
use deny_rules_match::{BanMatch, EntryMatch, Matches, are_placed, span_at, wrappers_of};
use std::alloc::Global;
use std::collections::BTreeMap;

/// One hit for each skip, entry of `skip-tree` and wrapper that is hit, in their order: by the first
/// crate, and of its direct dependents by the first.
pub fn hits_of(alloc: Global, found: &Matches<'_>) -> Result<List<Hit>, NoMemory>
    ensures { IfOk result (λ hits. hits ≡ all_hits (policy_view found.now.cfg.now) found.now.krates.now
        (facts_of found.now.marks)) }
{
    let mut hits = List::new(alloc);
    let krates = found.krates;
    are_placed(krates);
    add_entry_hits(krates, EntryKind::Skip, found.skips.as_slice(), &mut hits)?;
    add_entry_hits(
        krates,
        EntryKind::SkipRoot,
        found.roots.as_slice(),
        &mut hits,
    )?;
    add_wrapper_hits(alloc, found, &mut hits)?;
    Ok(hits)
}

fn add_entry_hits(
    krates: &Krates,
    kind: EntryKind,
    entries: &[EntryMatch],
    hits: &mut List<Hit>,
) -> Result<(), NoMemory>
    ensures { OnOk result (hits.new ≡ hits.old ++ filter_map (entry_hit krates.now kind) entries.now) }
{
    for entry in entries {
        if let Some(hit) = entry_hit(krates, kind, entry)? {
            hits.push(hit)?;
        }
    }
    Ok(())
}

/// The hit of an entry by the first crate that it matches.
#[tactic(auto, unfolding(crate::specs::private::EntryHits::entry_hit))]
fn entry_hit(krates: &Krates, kind: EntryKind, entry: &EntryMatch) -> Result<Option<Hit>, NoMemory>
    ensures { IfOk result (λ hit. hit ≡ entry_hit krates.now kind entry.now) }
{
    let Some(place) = first_place(entry.places.as_slice()) else {
        return Ok(None);
    };
    let Some(krate) = krate_at(krates, place) else {
        return Ok(None);
    };
    Ok(Some(Hit {
        entry: EntryId {
            kind,
            range: entry.span,
        },
        witness: Witness::Krate(krate.id.clone()?),
    }))
}

fn first_place(places: &[u32]) -> Option<u32>
    ensures { result ≡ slice_get places.now 0 }
{
    places.first().copied()
}

/// An edge that leads to a crate that a ban concerns from one that has the name of a wrapper: the wrapper's
/// span, and the places of the two.
#[derive(Clone, Copy)]
struct WrappedEdge {
    pub span: Span,
    pub place: u32,
    pub parent: u32,
}

fn add_wrapper_hits(
    alloc: Global,
    found: &Matches<'_>,
    hits: &mut List<Hit>,
) -> Result<(), NoMemory>
    ensures { OnOk result (hits.new ≡ hits.old ++ flat_map (wrapper_hits (policy_view found.now.cfg.now)
        found.now.krates.now) (policy_view found.now.cfg.now).deny) }
{
    are_placed(found.krates);
    let bans = found.bans.as_slice();
    for ban in bans {
        add_hits_of_ban(alloc, found.krates, ban, hits)?;
    }
    Ok(())
}

/// Adds the hits of a ban's wrappers.
fn add_hits_of_ban(
    alloc: Global,
    krates: &Krates,
    ban: &BanMatch<'_>,
    hits: &mut List<Hit>,
) -> Result<(), NoMemory>
    requires { All (λ place. place < length krates.now.crates) ban.now.places }
    ensures { (p : Policy) → IsBanMatch p krates.now ban.now
        → OnOk result (hits.new ≡ hits.old ++ wrapper_hits p krates.now (ban_of ban.now)) }
{
    are_placed(krates);
    let wrappers = wrappers_of(ban.ban);
    if wrappers.is_empty() {
        return Ok(());
    }
    let edges = wrapped_edges_of(alloc, krates, &ban.spans, ban.places.as_slice())?;
    let firsts = firsts_by_span(alloc, edges.as_slice())?;
    add_first_hits(krates, &firsts, wrappers, hits)?;
    Ok(())
}

/// The first wrapped edge of each span.
fn firsts_by_span(
    alloc: Global,
    edges: &[WrappedEdge],
) -> Result<BTreeMap<Span, WrappedEdge>, NoMemory>
    ensures { IfOk result (LeadToFirsts edges.now) }
{
    let mut firsts = BTreeMap::new(alloc);
    for edge in edges {
        if !firsts.contains_key(&edge.span) {
            firsts.insert(edge.span, *edge)?;
        }
    }
    Ok(firsts)
}

/// Adds the hit of each wrapper by its first wrapped edge.
fn add_first_hits(
    krates: &Krates,
    firsts: &BTreeMap<Span, WrappedEdge>,
    wrappers: &[Spanned<Text>],
    hits: &mut List<Hit>,
) -> Result<(), NoMemory>
    ensures { OnOk result (hits.new ≡ hits.old ++ filter_map (hit_at krates.now firsts.now) wrappers.now) }
{
    for wrapper in wrappers {
        if let Some(hit) = hit_at(krates, firsts, wrapper)? {
            hits.push(hit)?;
        }
    }
    Ok(())
}

/// The hit of a wrapper by its first wrapped edge.
#[tactic(auto, unfolding(crate::specs::private::WrappedEdges::hit_at))]
fn hit_at(
    krates: &Krates,
    firsts: &BTreeMap<Span, WrappedEdge>,
    wrapper: &Spanned<Text>,
) -> Result<Option<Hit>, NoMemory>
    ensures { IfOk result (λ hit. hit ≡ hit_at krates.now firsts.now wrapper.now) }
{
    match firsts.get(&wrapper.span) {
        Some(edge) => hit_by_edge(krates, edge),
        None => Ok(None),
    }
}

/// The hit by a wrapped edge.
#[tactic(auto, unfolding(crate::specs::private::WrappedEdges::hit_by_edge))]
fn hit_by_edge(krates: &Krates, edge: &WrappedEdge) -> Result<Option<Hit>, NoMemory>
    ensures { IfOk result (λ hit. hit ≡ hit_by_edge krates.now edge.now) }
{
    let Some(krate) = krate_at(krates, edge.place) else {
        return Ok(None);
    };
    let Some(parent) = krate_at(krates, edge.parent) else {
        return Ok(None);
    };
    Ok(Some(Hit {
        entry: EntryId {
            kind: EntryKind::Wrapper,
            range: edge.span,
        },
        witness: Witness::Parent {
            krate: krate.id.clone()?,
            parent: parent.id.clone()?,
        },
    }))
}

/// The edges that lead from wrappers to the crates at some places, by these places and then by those of the
/// wrappers.
fn wrapped_edges_of(
    alloc: Global,
    krates: &Krates,
    spans: &TextMap<Span>,
    places: &[u32],
) -> Result<List<WrappedEdge>, NoMemory>
    requires { All (λ place. place < length krates.now.crates) places.now }
    ensures { IfOk result (λ edges. edges ≡ flat_map (wrapped_edges_at krates.now spans.now) places.now) }
{
    let mut edges = List::new(alloc);
    for place in places {
        add_wrapped_edges_at(alloc, krates, spans, *place, &mut edges)?;
    }
    Ok(edges)
}

/// Adds the edges that lead from wrappers to the crate at a place.
#[tactic(auto, unfolding(crate::specs::private::WrappedEdges::wrapped_edges_at))]
fn add_wrapped_edges_at(
    alloc: Global,
    krates: &Krates,
    spans: &TextMap<Span>,
    place: u32,
    edges: &mut List<WrappedEdge>,
) -> Result<(), NoMemory>
    requires { place < length krates.now.crates }
    ensures { OnOk result (edges.new ≡ edges.old ++ wrapped_edges_at krates.now spans.now place) }
{
    let parents = dependents_by_place(alloc, krates, place)?;
    add_wrapped_edges(krates, spans, place, parents.as_slice(), edges)
}

/// Adds the edges that lead from those of some dependents that are wrappers to the crate at a place.
fn add_wrapped_edges(
    krates: &Krates,
    spans: &TextMap<Span>,
    place: u32,
    parents: &[u32],
    edges: &mut List<WrappedEdge>,
) -> Result<(), NoMemory>
    ensures { OnOk result (edges.new ≡ edges.old ++ filter_map
        (wrapped_edge_at krates.now spans.now place) parents.now) }
{
    for parent in parents {
        if let Some(edge) = wrapped_edge_at(krates, spans, place, *parent) {
            edges.push(edge)?;
        }
    }
    Ok(())
}

/// The places of the direct dependents of the crate at a place, ascending.
fn dependents_by_place(alloc: Global, krates: &Krates, place: u32) -> Result<List<u32>, NoMemory>
    requires { place < length krates.now.crates }
    ensures { IfOk result (λ places. places ≡ map (λ c. c.place) (dependents krates.now place)) }
{
    are_placed(krates);
    let mut places = places_of(alloc, krates.direct_dependents(place))?;
    put_in_order(&mut places)?;
    Ok(places)
}

fn places_of(alloc: Global, dependents: &[DirectDependent]) -> Result<List<u32>, NoMemory>
    ensures { IfOk result (λ places. places ≡ map (λ d. d.place) dependents.now) }
{
    let mut places = List::new(alloc);
    for dependent in dependents {
        places.push(dependent.place)?;
    }
    Ok(places)
}

/// The edge from a dependent, where its name is a wrapper's.
#[tactic(auto, unfolding(crate::specs::private::WrappedEdges::wrapped_edge_at))]
fn wrapped_edge_at(
    krates: &Krates,
    spans: &TextMap<Span>,
    place: u32,
    parent: u32,
) -> Option<WrappedEdge>
    ensures { result ≡ wrapped_edge_at krates.now spans.now place parent }
{
    let span = span_at(krates, spans, parent)?;
    Some(WrappedEdge {
        span,
        place,
        parent,
    })
}
