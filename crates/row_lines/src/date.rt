//! Moments as dates.

ghost use Rattle.std.specs.Prelude.{◌≡◌, ◌<◌, ◌≤◌, ◌^◌, IfOk, string_bytes};
ghost use Rattle.row_lines.specs.declared.date.TheConstants.{ERA};
ghost use Rattle.row_lines.specs.Date.{two_digits, time_text, year_of_era, day_of_year, day_text, date_text};

use std::alloc::{AllocError, Global};

/// The seconds of a day.
const DAY: u64 = 86_400;

/// The days of 400 years, after which the calendar begins anew.
const ERA: u64 = 146_097;

/// The days from 1 March of the year 0 to the first day of 1970.
const BEFORE: u64 = 719_468;

/// A moment in half seconds since 1970 as a date and a time of UTC, as `2023-11-14T22:13:20Z`, or
/// `2023-11-14T22:13:20.5Z`.
#[tactic(auto, unfolding(crate::specs::Date::date_text))]
pub fn date_text(alloc: Global, moment: u64) -> Result<String, AllocError>
    ensures { IfOk result (λ text. string_bytes text ≡ date_text moment) }
{
    let day = day_text(alloc, moment / (2 * DAY))?;
    let time = time_text(alloc, moment / 2 % DAY)?;
    if moment % 2 == 0 {
        format!(in alloc; "{day}T{time}Z")
    } else {
        format!(in alloc; "{day}T{time}.5Z")
    }
}

/// The time of a second of a day.
#[tactic(auto, unfolding(crate::specs::Date::time_text))]
fn time_text(alloc: Global, second: u64) -> Result<String, AllocError>
    ensures { IfOk result (λ text. string_bytes text ≡ time_text second) }
{
    let hours = two_digits(alloc, second / 3_600)?;
    let minutes = two_digits(alloc, second / 60 % 60)?;
    let seconds = two_digits(alloc, second % 60)?;
    format!(in alloc; "{hours}:{minutes}:{seconds}")
}

/// A number below 100 as two digits.
fn two_digits(alloc: Global, number: u64) -> Result<String, AllocError>
    ensures { IfOk result (λ text. string_bytes text ≡ two_digits number) }
{
    let (tens, ones) = (number / 10, number % 10);
    format!(in alloc; "{tens}{ones}")
}

/// The date of a day, whose number is 0 on 1 January 1970. A year begins in March here, so that the
/// day which leap years have is its last one.
#[tactic(auto, unfolding(crate::specs::Date::day_text))]
fn day_text(alloc: Global, number: u64) -> Result<String, AllocError>
    requires { number < 2 ^ 48 }
    ensures { IfOk result (λ text. string_bytes text ≡ day_text number) }
{
    let since = number + BEFORE;
    let day = day_of_year(since % ERA);
    let month = (day * 5 + 2) / 153;
    let year = since / ERA * 400 + year_of_era(since % ERA);
    let of_month = two_digits(alloc, day.saturating_sub((month * 153 + 2) / 5) + 1)?;
    if month < 10 {
        let number = two_digits(alloc, month + 3)?;
        format!(in alloc; "{year}-{number}-{of_month}")
    } else {
        let year = year + 1;
        let number = two_digits(alloc, month - 9)?;
        format!(in alloc; "{year}-{number}-{of_month}")
    }
}

/// The year, from 0 on, that a day of an era is in.
#[tactic(auto, unfolding(crate::specs::Date::year_of_era))]
fn year_of_era(day: u64) -> u64
    requires { day < ERA }
    ensures same { result ≡ year_of_era day }
    ensures most { result ≤ 400 }
{
    (day.saturating_sub(day / 1_460) + day / 36_524).saturating_sub(day / 146_096) / 365
}

/// The number of a day of an era in its year, from 0 on.
#[tactic(auto, unfolding(crate::specs::Date::day_of_year))]
fn day_of_year(day: u64) -> u64
    requires { day < ERA }
    ensures same { result ≡ day_of_year day }
    ensures most { result < ERA }
{
    let year = year_of_era(day);
    (day + year / 100).saturating_sub(365 * year + year / 4)
}
