//! The crates of a name, which are consecutive.
ghost use Rattle.std.specs.Prelude.{◌≡◌, ◌≤◌, ◌<◌, ◌^◌, ◌-◌, ℕ, true, false, length, take, drop, filter};
ghost use Rattle.std.specs.Cmp.Lexicographic.{slice_cmp};
ghost use Rattle.std.specs.List.Sorted.{IsPartitionPoint, IsSortedByKey};
ghost use Rattle.std.specs.Ordering.{nat_cmp, is_lt, is_le};
ghost use Rattle.deny_krates_graph.specs.Crates.{crates_from};
ghost use Rattle.deny_spec.specs.Groups.{has_name};
ghost use Rattle.deny_spec.specs.Resolution.{passes_at};

use deny_krates_graph::Krate;
use std::ops::Range;

/// The places of the crates of a name, given the crates in the order of their names.
pub fn run_of(krates: &[Krate], name: &str) -> Range<u32>
    requires few { length krates.now < 2 ^ 28 }
    requires ordered { IsSortedByKey (λ k. k.name) (slice_cmp nat_cmp) krates.now }
    ensures upward { result.start ≤ result.end }
    ensures within { result.end ≤ length krates.now }
    ensures named { take (result.end - result.start) (drop result.start (crates_from 0 krates.now))
        ≡ filter (has_name name.now) (crates_from 0 krates.now) }
    ensures all { (place : ℕ) → passes_at (has_name name.now) (crates_from 0 krates.now) place ≡ true
        → result.start ≤ place × place < result.end }
{
    let start = first_at_least(krates, name);
    let end = first_above(krates, name);
    start as u32..end as u32
}

fn first_at_least(krates: &[Krate], name: &str) -> usize
    requires { IsSortedByKey (λ k. k.name) (slice_cmp nat_cmp) krates.now }
    ensures within { result ≤ length krates.now }
    ensures point { IsPartitionPoint (λ k. is_lt (slice_cmp nat_cmp k.name name.now) ≡ true)
        (λ k. is_lt (slice_cmp nat_cmp k.name name.now) ≡ false) krates.now result }
{
    krates.partition_point(|krate| krate.name.as_str() < name)
}

fn first_above(krates: &[Krate], name: &str) -> usize
    requires { IsSortedByKey (λ k. k.name) (slice_cmp nat_cmp) krates.now }
    ensures within { result ≤ length krates.now }
    ensures point { IsPartitionPoint (λ k. is_le (slice_cmp nat_cmp k.name name.now) ≡ true)
        (λ k. is_le (slice_cmp nat_cmp k.name name.now) ≡ false) krates.now result }
{
    krates.partition_point(|krate| krate.name.as_str() <= name)
}
