//! The last day on which an entry counts, as a value of the policy writes it.
ghost use Rattle.std.specs.Prelude.{◌≡◌, IfOk, option_map};
ghost use Rattle.deny_cfg_entries.specs.Waivers.{ReadsExpiry, day_at, day_text, faults_of_day};

use crate::day::{Day, DayError, read_day};
use deny_base_lists::{NoMemory, Text};
use deny_toml::{DeserError, Deserialize, Value};
use std::alloc::Global;

/// The last day on which an entry counts.
#[derive(Drop)]
pub struct Expiry {
    pub day: Day,
    /// The text that names the day, as the policy writes it.
    pub written: Text,
}

/// The text of a value that is a string, or a date or time.
fn day_text<'v>(value: &'v Value<'_>) -> Option<&'v str>
    ensures { option_map (λ text. text.now) result ≡ day_text value.now }
{
    match value.as_str() {
        Some(text) => Some(text),
        None => value.as_date(),
    }
}

/// The day that a value names, if it names one.
pub fn day_at(alloc: Global, value: &Value<'_>) -> Result<Option<Day>, NoMemory>
    ensures { IfOk result (λ day. option_map (λ d. d.0) day ≡ day_at value.now) }
{
    let Some(text) = day_text(value) else {
        return Ok(None);
    };
    match read_day(alloc, text) {
        Ok(day) => Ok(Some(day)),
        Err(DayError::Form) => Ok(None),
        Err(DayError::Memory) => Err(NoMemory),
    }
}

/// A day is a string, or a date. A value of another kind is `WrongKind`, and another text `Unreadable`.
impl Deserialize for Expiry {
    ghost reads = { ReadsExpiry };

    ghost faults_of = { faults_of_day };

    fn deserialize(alloc: Global, value: &mut Value<'_>) -> Result<Expiry, DeserError> {
        let Some(text) = day_text(value) else {
            return Err(DeserError::wrong_kind(alloc, value.span));
        };
        match read_day(alloc, text) {
            Ok(day) => Ok(Expiry {
                day,
                written: Text::from_str(alloc, text)?,
            }),
            Err(DayError::Form) => Err(DeserError::unreadable(alloc, value.span)),
            Err(DayError::Memory) => Err(DeserError::Memory),
        }
    }
}
