/// The check that a finding belongs to.
#[derive(Clone, Copy)]
pub enum Check {
    Advisories,
    Bans,
    Licenses,
    Sources,
}

/// One of the inputs of a run.
#[derive(Clone, Copy)]
pub enum Which {
    Policy,
    Metadata,
    Replacements,
}
