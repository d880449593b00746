//! The levels at which a rule reports anything.
ghost use Rattle.std.specs.Prelude.{◌≡◌};
ghost use Rattle.deny_spec_report.specs.Wildcards.{is_active};

use deny_base::LintLevel;

/// Whether a rule at this level reports anything.
pub fn is_active(level: LintLevel) -> bool
    ensures { result ≡ is_active level }
{
    match level {
        LintLevel::Allow => false,
        LintLevel::Warn => true,
        LintLevel::Deny => true,
    }
}
