ghost use Rattle.std.specs.Prelude.{◌≡◌, ◌<◌, ◌≢◌, ◌^◌, AllPairs, IfOk, OnOk, length, map};
ghost use Rattle.deny_krates.specs.Crates.{crates_from};
ghost use Rattle.deny_krates_lock.specs.Order.{in_lock_order, lock_cmp};
ghost use Rattle.deny_krates_lock.specs.private.Placed.{placed_view};

use deny_base_lists::NoMemory;
use deny_krates::Krate;
use std::alloc::Global;
use std::cmp::Ordering;

/// A crate and its place in graph order.
#[derive(Clone, Copy)]
pub struct Placed<'k> {
    pub place: u32,
    pub krate: &'k Krate,
}

/// Crates with their places.
pub fn placed_of<'k>(alloc: Global, krates: &'k [Krate]) -> Result<Vec<Placed<'k>>, NoMemory>
    requires { length krates.now < 2 ^ 32 }
    ensures { IfOk result (λ placed. map placed_view placed.items ≡ crates_from 0 krates.now) }
{
    let mut placed = Vec::new(alloc);
    for (place, krate) in krates.iter().enumerate() {
        placed.push(Placed {
            place: place as u32,
            krate,
        })?;
    }
    Ok(placed)
}

/// Puts crates in the order of their lines: by name, precedence of versions, and id.
pub fn put_in_lock_order(placed: &mut Vec<Placed<'_>>) -> Result<(), NoMemory>
    requires { AllPairs (λ c d. c.id ≢ d.id) (map placed_view placed.old.items) }
    ensures { OnOk result
        (map placed_view placed.new.items ≡ in_lock_order (map placed_view placed.old.items)) }
{
    placed.sort_by(|a, b| by_line(a, b))?;
    Ok(())
}

// The order of lines.
fn by_line(a: &Placed<'_>, b: &Placed<'_>) -> Ordering
    ensures { result ≡ lock_cmp (placed_view a.now) (placed_view b.now) }
{
    a.krate
        .name
        .cmp(&b.krate.name)
        .then(a.krate.version.cmp_precedence(&b.krate.version))
        .then(a.krate.id.cmp(&b.krate.id))
}
