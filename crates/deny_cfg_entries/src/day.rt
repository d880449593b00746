//! Days of the calendar, as a policy writes them.
ghost use Rattle.std.specs.Prelude.{◌≡◌, ◌<◌, Some, None, IfOk, IfErr, option_map};
ghost use Rattle.deny_cfg_entries.specs.Day.{day_in, day_of, has_form};
ghost use Rattle.deny_cfg_entries.specs.declared.day.DayError.TheVariants.{Form};

use crate::rust_version::number_in;
use jiff_core::civil::Date;
use std::alloc::Global;
use thiserror::Error;

/// A day of the calendar by its number, which is 0 for 1970-01-01.
#[derive(Debug, Clone, Copy, PartialEq, Eq, PartialOrd, Ord)]
pub struct Day(pub i32);

/// Why a text was not read as a day.
#[derive(Debug, Clone, Copy, Error)]
pub enum DayError {
    /// The text does not name a day of the calendar in the form of `2026-01-31`.
    #[error("the text is no day")]
    Form,
    /// Memory ran out.
    #[error("memory ran out")]
    Memory,
}

/// Reads a day: a text of ten bytes, digits with `-` at places 4 and 7, that names a day of the proleptic Gregorian
/// calendar. Another text is `Form`. `Memory` does not come, since no memory is taken.
pub fn read_day(_alloc: Global, text: &str) -> Result<Day, DayError>
    ensures ok { IfOk result (λ day. day_in text.now ≡ Some day.0) }
    ensures form { IfErr result (λ error. day_in text.now ≡ None) }
    ensures no_memory { IfErr result (λ error. error ≡ Form) }
{
    match day_in(text.as_bytes()) {
        Some(day) => Ok(day),
        None => Err(DayError::Form),
    }
}

#[tactic(auto, unfolding(crate::specs::Day::day_in, crate::specs::Day::has_form))]
fn day_in(text: &[u8]) -> Option<Day>
    ensures { option_map (λ day. day.0) result ≡ day_in text.now }
{
    if !has_form(text) {
        return None;
    }
    let year = number_in(&text[..4])?;
    let month = number_in(&text[5..7])?;
    let day = number_in(&text[8..10])?;
    day_of(year, month, day)
}

/// Whether a text is ten bytes with `-` at places 4 and 7.
#[tactic(auto, unfolding(crate::specs::Day::has_form))]
fn has_form(text: &[u8]) -> bool
    ensures { result ≡ has_form text.now }
{
    text.len() == 10 && text[4] == b'-' && text[7] == b'-'
}

/// The day of a year, a month and a day of that month; None where the calendar has no such day.
fn day_of(year: u64, month: u64, day: u64) -> Option<Day>
    requires year { year < 10_000 }
    requires month { month < 100 }
    requires day { day < 100 }
    ensures { option_map (λ day. day.0) result ≡ day_of year month day }
{
    match Date::new(year as i16, month as i8, day as i8) {
        Ok(date) => Some(Day(date.to_unix_epoch_day())),
        Err(_) => None,
    }
}
