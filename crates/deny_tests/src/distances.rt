//! The two ways along the edges of a graph, and how far crates are along them.
use crate::krates::{GRAPH, are_neighbours, built, is_place};
use deny_base_lists::{List, Neighbours, NoMemory};
use deny_krates::{
    DepKind, Dependencies, Dependents, DirectDependent, Krates, dependent_distances, distances_from,
};
use std::alloc::Global;

fn are_distances(found: Result<List<Option<u32>>, NoMemory>, expected: &[Option<u32>]) -> bool {
    match found {
        Ok(distances) => distances.as_slice() == expected,
        Err(NoMemory) => false,
    }
}

fn are_from(
    alloc: Global,
    krates: &Krates,
    root: u32,
    other: u32,
    expected: &[Option<u32>],
) -> bool {
    is_place(krates, root)
        && is_place(krates, other)
        && are_distances(distances_from(alloc, krates, &[root, other]), expected)
}

fn are_above(
    alloc: Global,
    krates: &Krates,
    target: u32,
    other: u32,
    expected: &[Option<u32>],
) -> bool {
    is_place(krates, target)
        && is_place(krates, other)
        && are_distances(
            dependent_distances(alloc, krates, &[target, other]),
            expected,
        )
}

// `app` 0 needs `x` 1.9.0, which is 2, and `y` 3; `y` needs both versions of `x`, 1 and 2.
fn are_far(alloc: Global, krates: &Krates) -> bool {
    are_from(alloc, krates, 0, 0, &[Some(0), Some(2), Some(1), Some(1)])
        && are_from(alloc, krates, 3, 2, &[None, Some(1), Some(0), Some(0)])
        && are_above(alloc, krates, 1, 1, &[Some(2), Some(0), None, Some(1)])
        && are_above(alloc, krates, 0, 2, &[Some(0), None, Some(0), Some(1)])
}

fn leads_down(krates: &Krates, place: u32, expected: &[(u32, DepKind)]) -> bool {
    let ways = Dependencies { krates };
    ways.count() == 4 && is_place(krates, place) && are_neighbours(ways.neighbours(place), expected)
}

fn leads_up(krates: &Krates, place: u32, expected: &[(u32, DepKind)]) -> bool {
    let ways = Dependents { krates };
    ways.count() == 4 && is_place(krates, place) && are_neighbours(ways.neighbours(place), expected)
}

fn have_places(neighbour: &DirectDependent) -> bool {
    Dependencies::place_of(neighbour) == 3 && Dependents::place_of(neighbour) == 3
}

fn are_ways(krates: &Krates) -> bool {
    leads_down(krates, 0, &[(2, DepKind::Normal), (3, DepKind::Dev)])
        && leads_down(krates, 2, &[])
        && leads_up(krates, 2, &[(0, DepKind::Normal), (3, DepKind::Normal)])
        && leads_up(krates, 0, &[])
        && have_places(&DirectDependent {
            place: 3,
            kind: DepKind::Dev,
        })
}

fn all_lead(alloc: Global) -> bool {
    match built(alloc, GRAPH) {
        Ok(krates) => are_ways(&krates) && are_far(alloc, &krates),
        Err(_) => false,
    }
}

#[test]
fn distances_follow_edges_either_way(rt: HostRuntime) {
    assert!(rt; all_lead(rt.alloc()));
}
