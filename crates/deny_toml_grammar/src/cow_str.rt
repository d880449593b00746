ghost use Rattle.std.specs.Prelude.{◌≡◌, IfOk, Some, nat_eq, refl, string_bytes};
ghost use Rattle.std.specs.Cmp.{partial_equiv_from_equiv};
ghost use Rattle.std.specs.Cmp.Lexicographic.{slice_cmp, pointwise, nat_list_cmp_total};
ghost use Rattle.std.specs.Cmp.Lexicographic.{nat_list_eq_equiv, texts_po, texts_ties};
ghost use Rattle.std.specs.Ordering.{nat_cmp};

use deny_base_lists::{NoMemory, Text};
use std::alloc::Global;
use std::borrow;
use std::cmp::Ordering;
use std::marker::Model;

/// A text that is borrowed from the input where it occurs there unchanged, and else owned.
///
/// Contracts see its bytes, so that a borrowed and an owned text with the same bytes are equal.
#[derive(Drop)]
pub struct CowStr<'t> {
    text: borrow::CowStr<'t>,
}

impl<'t> Model for CowStr<'t> {
    ghost use Rattle.std.specs.Prelude.{List, ℕ};
    ghost use Rattle.std.specs.Coded.{coded_ℕ, coded_list};
    ghost use Rattle.std.specs.Cow.{cow_str_bytes};

    ghost Value = { List ℕ };

    ghost coded = { coded_list coded_ℕ };

    ghost view = { λ t. cow_str_bytes t.text };
}

impl<'t> CowStr<'t> {
    /// A text that is borrowed from the input.
    pub fn borrowed(text: &'t str) -> CowStr<'t>
        ensures { result ≡ text.now }
    {
        CowStr {
            text: borrow::CowStr::Borrowed(text),
        }
    }

    /// An owned text.
    pub fn owned(text: String) -> CowStr<'t>
        ensures { result ≡ string_bytes text }
    {
        CowStr {
            text: borrow::CowStr::Owned(text),
        }
    }

    /// The text.
    pub fn as_str(&self) -> &str
        ensures { result.now ≡ self.now }
    {
        self.text.as_str()
    }

    /// The text as an owned one: it is copied where it was borrowed.
    pub fn into_text(self, alloc: Global) -> Result<Text, NoMemory>
        ensures { IfOk result (λ text. text ≡ self.entry) }
    {
        Ok(Text::from_string(self.text.into_owned(alloc)?))
    }
}

impl PartialEq for CowStr<'_> {
    ghost eq = { pointwise nat_eq };

    ghost laws = { partial_equiv_from_equiv nat_list_eq_equiv };

    fn eq(&self, other: &Self) -> bool {
        self.as_str() == other.as_str()
    }
}

impl Eq for CowStr<'_> {
    ghost laws = { nat_list_eq_equiv };
}

impl PartialOrd for CowStr<'_> {
    ghost partial_cmp = { λ x y. Some (slice_cmp nat_cmp x y) };

    ghost laws = { texts_po };

    fn partial_cmp(&self, other: &Self) -> Option<Ordering> {
        Some(self.cmp(other))
    }
}

impl Ord for CowStr<'_> {
    ghost cmp = { slice_cmp nat_cmp };

    ghost total = { nat_list_cmp_total };

    ghost matches_partial_cmp = { λ x y. refl };

    ghost matches_eq = { texts_ties };

    fn cmp(&self, other: &Self) -> Ordering {
        self.as_str().cmp(other.as_str())
    }
}
