//! Dates and their day numbers, counted by `jiff`'s calendar.

ghost use Rattle.std.specs.Prelude.{◌≡◌, ◌≤ℤ◌, pos};
ghost use Rattle.abl_values.specs.Dates.{date_from, date_in_years, date_of_day, first_day, is_day, last_day, nearest_day};
ghost use Rattle.abl_base.specs.declared.limits.TheConstants.{FIRST_YEAR, LAST_YEAR};
ghost use Rattle.jiff_core.specs.Date.{epoch_day};

use abl_base::limits::{self, FIRST_YEAR, LAST_YEAR};
use jiff_core::civil::Date;

/// The day number of 1 January of the year 1.
const FIRST_DAY: i64 = -(limits::DAYS_BEFORE_1970 as i64);

/// The day number of 31 December of the year 9999.
const LAST_DAY: i64 = limits::LAST_DAY as i64;

/// The day number of a date, with 0 for 1 January 1970: `None` exactly where the three numbers are
/// no date of the years 1 to 9999 of the Gregorian calendar.
pub fn date_of(month: i64, day: i64, year: i64) -> Option<i32>
    ensures { result ≡ date_from month day year }
{
    if year < FIRST_YEAR as i64
        || year > LAST_YEAR as i64
        || month < 1
        || month > 12
        || day < 1
        || day > 31
    {
        return None;
    }
    day_number(year as i16, month as i8, day as i8)
}

/// The day number of a date in the years 1 to 9999, with a month and a day from 1.
fn day_number(year: i16, month: i8, day: i8) -> Option<i32>
    requires first { pos FIRST_YEAR ≤ℤ year }
    requires last { year ≤ℤ pos LAST_YEAR }
    requires month { pos 1 ≤ℤ month }
    requires day { pos 1 ≤ℤ day }
    ensures { result ≡ date_from month day year }
{
    match Date::new(year, month, day) {
        Ok(date) => Some(date.to_unix_epoch_day()),
        Err(_) => None,
    }
}

/// Says whether the day is one of the years 1 to 9999.
pub(crate) fn is_day(day: i64) -> bool
    ensures { result ≡ is_day day }
{
    FIRST_DAY <= day && day <= LAST_DAY
}

/// The month, the day and the year of a day number. A day outside the years 1 to 9999 has those of
/// the nearest day inside.
pub fn date_parts(day: i32) -> (i64, i64, i64)
    ensures month { result.0 ≡ pos (date_of_day day).month }
    ensures day { result.1 ≡ pos (date_of_day day).day }
    ensures year { result.2 ≡ pos (date_of_day day).year }
{
    parts_of(nearest_day(i64::from(day)))
}

/// The day itself, or the nearest one of the years 1 to 9999.
fn nearest_day(day: i64) -> i64
    ensures nearest { result ≡ nearest_day day }
    ensures first { first_day ≤ℤ result }
    ensures last { result ≤ℤ last_day }
{
    if day < FIRST_DAY {
        FIRST_DAY
    } else if LAST_DAY < day {
        LAST_DAY
    } else {
        day
    }
}

/// The month, the day and the year of a day of the years 1 to 9999.
fn parts_of(day: i64) -> (i64, i64, i64)
    requires first { first_day ≤ℤ day }
    requires last { day ≤ℤ last_day }
    ensures month { result.0 ≡ pos (date_in_years day).month }
    ensures day { result.1 ≡ pos (date_in_years day).day }
    ensures year { result.2 ≡ pos (date_in_years day).year }
{
    let date = date_at(day);
    (
        i64::from(date.month),
        i64::from(date.day),
        i64::from(date.year),
    )
}

/// The calendar's date of a day of the years 1 to 9999.
fn date_at(day: i64) -> Date
    requires first { first_day ≤ℤ day }
    requires last { day ≤ℤ last_day }
    ensures { epoch_day result ≡ day }
{
    Date::from_unix_epoch_day(day).unwrap()
}
