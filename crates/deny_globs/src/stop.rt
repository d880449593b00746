use deny_base_lists::NoMemory;

/// Why the reading of a pattern stops.
#[derive(Drop)]
pub enum Stop {
    /// The character with this number is bad.
    Fault(usize),
    Memory,
}

impl From<NoMemory> for Stop {
    ghost use Rattle.std.specs.Prelude.{◌≡◌};
    ghost use Rattle.deny_globs.specs.declared.stop.Stop.TheVariants.{Memory};

    ghost from_gives = { λ _ e. e ≡ Memory };

    fn from(_error: NoMemory) -> Stop {
        Stop::Memory
    }
}
