ghost use Rattle.std.specs.Prelude.{◌≡◌, ℕ, List, Contains};
ghost use Rattle.deny_base_lists.specs.Ascending.{Lists};
ghost use Rattle.deny_spec.specs.Facts.{Facts};
ghost use Rattle.deny_spec.specs.Graph.{Crate, Graph};
ghost use Rattle.deny_spec.specs.Groups.{unmarked};
ghost use Rattle.deny_spec.specs.Policy.{Policy};
ghost use Rattle.deny_spec.specs.VersionOrder.{version_cmp};

/// The unmarked crates of a name have one order: by version, and by id where versions tie.
pub fn one_group()
    ensures { (p : Policy) → (g : Graph) → (facts : Facts) → (name : List ℕ) → (xs ys : List Crate)
        → Lists version_cmp (Contains (unmarked p g facts name)) xs
        → Lists version_cmp (Contains (unmarked p g facts name)) ys → xs ≡ ys }
{}
