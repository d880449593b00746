ghost use Rattle.std.specs.Prelude.{◌≡◌, ◌==◌, Some, refl};
ghost use Rattle.std.specs.Cmp.{nat_cmp_total, on_total, on_per};
ghost use Rattle.std.specs.Cmp.{on_equiv, nat_eq_equiv, partial_equiv_from_equiv};
ghost use Rattle.std.specs.Cmp.{partial_order_from_own_ties, partial_order_from_total, unsigned_ties};
ghost use Rattle.deny_base.specs.LicenseCode.{license_code_name, license_code_number, license_code_cmp};
ghost use Rattle.deny_base.specs.LicenseCode.{license_unused_kind};

use crate::entry::EntryKind;
use std::cmp::Ordering;
use std::fmt;

/// A kind of finding of the licence check.
#[derive(Debug, Clone, Copy)]
pub enum LicenseCode {
    Accepted,
    Rejected,
    Unlicensed,
    ParseError,
    SkippedPrivateWorkspaceCrate,
    LicenseNotEncountered,
    LicenseExceptionNotEncountered,
}

impl LicenseCode {
    /// The word that stands for the code in a report.
    #[tactic(auto, unfolding(crate::specs::LicenseCode::license_code_name))]
    pub fn name(self) -> &'static str
        ensures { result.now ≡ license_code_name self }
    {
        match self {
            LicenseCode::Accepted => "accepted",
            LicenseCode::Rejected => "rejected",
            LicenseCode::Unlicensed => "unlicensed",
            LicenseCode::ParseError => "parse-error",
            LicenseCode::SkippedPrivateWorkspaceCrate => "skipped-private-workspace-crate",
            LicenseCode::LicenseNotEncountered => "license-not-encountered",
            LicenseCode::LicenseExceptionNotEncountered => "license-exception-not-encountered",
        }
    }

    /// The number of the code in the order of declaration.
    #[tactic(auto, unfolding(crate::specs::LicenseCode::license_code_number))]
    pub(crate) fn number(self) -> u8
        ensures { result ≡ license_code_number self }
    {
        self as u8
    }

    /// The kind of entry that a finding of this code says is unused, if it says so of one.
    pub fn unused_kind(self) -> Option<EntryKind>
        ensures { result ≡ license_unused_kind self }
    {
        match self {
            LicenseCode::LicenseNotEncountered => Some(EntryKind::LicenseAllow),
            LicenseCode::LicenseExceptionNotEncountered => Some(EntryKind::LicenseException),
            LicenseCode::Accepted
            | LicenseCode::Rejected
            | LicenseCode::Unlicensed
            | LicenseCode::ParseError
            | LicenseCode::SkippedPrivateWorkspaceCrate => None,
        }
    }
}

impl fmt::Display for LicenseCode {
    ghost output = { λ code. Some (license_code_name code) };

    fn fmt<W: fmt::Write>(&self, f: &mut fmt::Formatter<W>) -> fmt::Result {
        f.write_str(self.name())
    }
}

impl PartialEq for LicenseCode {
    ghost eq = { λ a b. license_code_number a == license_code_number b };

    ghost laws = { on_per license_code_number (partial_equiv_from_equiv nat_eq_equiv) };

    fn eq(&self, other: &Self) -> bool {
        self.number() == other.number()
    }
}

impl Eq for LicenseCode {
    ghost laws = { on_equiv license_code_number nat_eq_equiv };
}

impl PartialOrd for LicenseCode {
    ghost partial_cmp = { λ a b. Some (license_code_cmp a b) };

    ghost laws = { partial_order_from_own_ties (partial_order_from_total (on_total license_code_number nat_cmp_total))
        (λ a b. unsigned_ties (license_code_number a) (license_code_number b)) };

    fn partial_cmp(&self, other: &Self) -> Option<Ordering> {
        Some(self.cmp(other))
    }
}

impl Ord for LicenseCode {
    ghost cmp = { license_code_cmp };

    ghost total = { on_total license_code_number nat_cmp_total };

    ghost matches_partial_cmp = { λ a b. refl };

    ghost matches_eq = { λ a b. unsigned_ties (license_code_number a) (license_code_number b) };

    fn cmp(&self, other: &Self) -> Ordering {
        self.number().cmp(&other.number())
    }
}
