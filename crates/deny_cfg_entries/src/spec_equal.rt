//! Equality of specs: by the name and the written requirement, without spans.
ghost use Rattle.std.specs.Prelude.{◌≡◌, true};
ghost use Rattle.std.specs.Cmp.{on_equiv, and_equiv, partial_equiv_from_equiv};
ghost use Rattle.std.specs.Cmp.Lexicographic.{nat_list_eq_equiv, options_equiv};
ghost use Rattle.deny_spec.specs.Graph.{Crate};
ghost use Rattle.deny_spec.specs.Match.{matches};
ghost use Rattle.deny_cfg_entries.specs.SpecView.{same_spec, spec_view};
ghost use Rattle.deny_cfg_entries.specs.declared.package_spec.PackageSpec.{PackageSpec};

use crate::package_spec::PackageSpec;

impl PartialEq for PackageSpec {
    ghost eq = { same_spec };

    ghost laws = { partial_equiv_from_equiv
        (and_equiv (on_equiv (λ (spec : PackageSpec). spec.name.value) nat_list_eq_equiv)
        (on_equiv (λ (spec : PackageSpec). spec.req_text) (options_equiv nat_list_eq_equiv))) };

    fn eq(&self, other: &Self) -> bool {
        self.name.value == other.name.value && self.req_text == other.req_text
    }
}

impl Eq for PackageSpec {
    ghost laws = { and_equiv (on_equiv (λ (spec : PackageSpec). spec.name.value) nat_list_eq_equiv)
        (on_equiv (λ (spec : PackageSpec). spec.req_text) (options_equiv nat_list_eq_equiv)) };
}

/// Equal specs match the same crates.
pub fn equal_specs_match_alike()
    ensures { (a b : PackageSpec) → same_spec a b ≡ true → (c : Crate)
        → matches (spec_view a) c ≡ matches (spec_view b) c }
{}
