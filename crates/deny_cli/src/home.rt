//! The home that an option names.
ghost use Rattle.std.specs.Prelude.{◌≡◌};
ghost use Rattle.std.specs.Option.{option_copied};
ghost use Rattle.deny_cli.specs.Home.{home_of, nonempty_home};

use crate::options::behind;

/// A home that is not empty.
fn nonempty_home(path: &str) -> Option<&str>
    ensures { option_copied result ≡ nonempty_home path.now }
{
    if path.is_empty() { None } else { Some(path) }
}

/// The home that an option names: `--home=PATH`.
#[tactic(auto, unfolding(crate::specs::Home::home_of))]
pub fn home_of(argument: &str) -> Option<&str>
    ensures { option_copied result ≡ home_of argument.now }
{
    match behind("--home=", argument) {
        Some(path) => nonempty_home(path),
        None => None,
    }
}
