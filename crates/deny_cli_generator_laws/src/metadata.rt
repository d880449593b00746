ghost use Rattle.std.specs.Prelude.{ℕ, ◌<◌, ◌^◌};
ghost use Rattle.deny_cli_generator.specs.MetadataText.{metadata_text};
ghost use Rattle.deny_cli_generator_laws.specs.Faults.{HasNoFault};

/// The metadata that is generated for a number of crates below 2^64 has no fault, and so has a graph.
pub fn made_metadata()
    ensures { (crates : ℕ) → crates < 2 ^ 64 → HasNoFault (metadata_text crates) }
{}
