ghost use Rattle.std.specs.Prelude.{◌≡◌};
ghost use Rattle.deny_base.specs.Level.{severity_of};

/// The level that a policy gives a rule.
#[derive(Clone, Copy)]
pub enum LintLevel {
    Allow,
    Warn,
    Deny,
}

impl LintLevel {
    /// The severity of a finding of a rule at this level: a note, a warning or an error.
    pub fn severity(self) -> Severity
        ensures { result ≡ severity_of self }
    {
        match self {
            LintLevel::Allow => Severity::Note,
            LintLevel::Warn => Severity::Warning,
            LintLevel::Deny => Severity::Error,
        }
    }
}

/// How grave a finding is. An error alone makes the verdict a failure.
#[derive(Debug, Clone, Copy)]
pub enum Severity {
    Bug,
    Error,
    Warning,
    Note,
    Help,
}
