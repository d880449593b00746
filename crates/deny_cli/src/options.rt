//! Options among the arguments.
ghost use Rattle.std.specs.Prelude.{◌≡◌};
ghost use Rattle.std.specs.Option.{option_copied};
ghost use Rattle.deny_cli.specs.Options.{behind};

/// The rest of an argument behind a prefix, if it has that.
pub fn behind<'w>(prefix: &str, argument: &'w str) -> Option<&'w str>
    ensures { option_copied result ≡ behind prefix.now argument.now }
{
    argument.strip_prefix(prefix)
}
