//! The day that an option names.
ghost use Rattle.std.specs.Prelude.{◌≡◌, option_map};
ghost use Rattle.deny_cfg_entries.specs.Day.{day_in};
ghost use Rattle.deny_cli.specs.Today.{day_numbered, today_of};

use crate::options::behind;
use deny_cfg::{Day, read_day};
use std::alloc::Global;

/// The day that a text names. It takes no memory.
fn day_in(alloc: Global, text: &str) -> Option<Day>
    ensures { result ≡ option_map day_numbered (day_in text.now) }
{
    match read_day(alloc, text) {
        Ok(day) => Some(day),
        Err(_) => None,
    }
}

/// The day that an option names: `--today=DAY`.
#[tactic(auto, unfolding(crate::specs::Today::today_of))]
pub fn today_of(alloc: Global, argument: &str) -> Option<Day>
    ensures { result ≡ today_of argument.now }
{
    match behind("--today=", argument) {
        Some(text) => day_in(alloc, text),
        None => None,
    }
}
