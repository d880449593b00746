ghost use Rattle.std.specs.Prelude.{ℕ};
ghost use Rattle.deny_cli_generator.specs.PolicyText.{policy_text};
ghost use Rattle.deny_cli_generator_laws.specs.Policies.{IsPolicy, ChecksNoReplacements};

/// Each generated policy is valid, without faults and without clashes, whatever the number of its file and the day,
/// told or not, and does not check for replacements by the standard library.
pub fn made_policies()
    ensures policy { (crates : ℕ) → IsPolicy (policy_text crates) }
    ensures no_table { (crates : ℕ) → ChecksNoReplacements (policy_text crates) }
{}
