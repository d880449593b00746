ghost use Rattle.std.specs.Prelude.{◌≡◌, ◌<◌, ◌^◌, ℕ, IfOk, All, length};
ghost use Rattle.deny_krates_graph.specs.private.Reach.{AreReached, links_at};

use deny_base_lists::{List, Neighbours, NoMemory};
use deny_krates_sources::{Link, ResolvedNode};
use std::alloc::Global;

// The nodes as a graph whose edges are their links.
#[derive(Drop)]
struct LinkedNodes<'r> {
    rows: &'r [ResolvedNode],
}

impl<'r> Neighbours for LinkedNodes<'r> {
    ghost use Rattle.std.specs.Prelude.{◌≡◌, length};
    ghost use Rattle.deny_krates_graph.specs.private.Reach.{links_at, link_leads};

    type Neighbour = Link;

    ghost count = { λ nodes. length nodes.rows.now };

    ghost leads = { λ nodes. link_leads nodes.rows.now };

    ghost degree = { λ nodes node. length (links_at nodes.rows.now node) };

    ghost place_of = { λ link. link.node };

    fn count(&self) -> usize {
        self.rows.len()
    }

    fn neighbours(&self, place: u32) -> &[Link] {
        self.rows[place as usize].links.as_slice()
    }

    fn place_of(neighbour: &Link) -> u32
        ensures { result ≡ neighbour.now.node }
    {
        neighbour.node
    }
}

/// For each node whether links lead to it from a start.
pub fn reach(alloc: Global, rows: &[ResolvedNode], starts: &[u32]) -> Result<List<bool>, NoMemory>
    requires few { length rows.now < 2 ^ 28 }
    requires starts { All (λ start. start < length rows.now) starts.now }
    requires links { (node : ℕ) → All (λ l. l.node < length rows.now) (links_at rows.now node) }
    ensures { IfOk result (AreReached rows.now starts.now) }
{
    deny_base_lists::reach(alloc, &LinkedNodes { rows }, starts)
}
