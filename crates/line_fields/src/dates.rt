//! Times in the form of RFC 3339, as 2025-11-24T16:00:02.74Z.

ghost use Rattle.std.specs.Prelude.{◌≡◌, ◌++◌, ◌<◌, ◌≤◌, ◌/◌, OnOk};
ghost use Rattle.line_fields.specs.Dates.{carry, clock_text, date_text, day_of_era, day_of_month, day_text};
ghost use Rattle.line_fields.specs.Dates.{day_of_year, digit, end_text, era_of, fraction_text, month_index, month_of};
ghost use Rattle.line_fields.specs.Dates.{time_text, two, when_text, year_of, year_of_era, TimesWorked};

use session_model::push_decimal;
use std::alloc::AllocError;

/// A day, in milliseconds.
const DAY: u64 = 86_400_000;

/// The first time of the year 10,000, in milliseconds since 1970.
const END: u64 = 253_402_300_800_000;

/// The year of a day of an era, from 0 on.
#[tactic(auto, unfolding(crate::specs::Dates::year_of_era))]
fn year_of_era(day: u64) -> u64
    requires { day < 146097 }
    ensures is { result ≡ year_of_era day }
    ensures small { result ≤ 400 }
{
    (day + day / 36_524).saturating_sub(day / 1_460 + day / 146_096) / 365
}

/// The day of the year of a day of an era, from 0 on.
#[tactic(auto, unfolding(crate::specs::Dates::day_of_year))]
fn day_of_year(day: u64) -> u64
    requires { day < 146097 }
    ensures is { result ≡ day_of_year day }
    ensures small { result < 146097 }
{
    let year = year_of_era(day);
    day.saturating_sub((365 * year + year / 4).saturating_sub(year / 100))
}

/// The month of a day of an era, from 0 on, which is March.
#[tactic(auto, unfolding(crate::specs::Dates::month_index))]
fn month_index(day: u64) -> u64
    requires { day < 146097 }
    ensures is { result ≡ month_index day }
    ensures small { result < 146097 }
{
    (5 * day_of_year(day) + 2) / 153
}

/// The month of a day of an era, from 1 on, which is January.
fn month_of(day: u64) -> u64
    requires { day < 146097 }
    ensures is { result ≡ month_of day }
{
    let index = month_index(day);
    if index < 10 {
        index + 3
    } else {
        index.saturating_sub(9)
    }
}

/// The day of the month of a day of an era, from 1 on.
fn day_of_month(day: u64) -> u64
    requires { day < 146097 }
    ensures is { result ≡ day_of_month day }
{
    day_of_year(day).saturating_sub((153 * month_index(day) + 2) / 5) + 1
}

/// 1 for January and February, which are of the next year.
fn carry(month: u64) -> u64
    ensures is { result ≡ carry month }
    ensures small { result ≤ 1 }
{
    if month < 3 { 1 } else { 0 }
}

/// The year of a day, counted from 1970-01-01.
fn year_of(days: u64) -> u64
    requires { days < 2932897 }
    ensures is { result ≡ year_of days }
{
    let day = (days + 719_468) % 146_097;
    let era = (days + 719_468) / 146_097;
    year_of_era(day) + 400 * era + carry(month_of(day))
}

/// The last digit of a number.
fn digit(number: u64) -> u8
    ensures { result ≡ digit number }
{
    b'0' + (number % 10) as u8
}

/// Appends the last two digits of a number.
fn push_two(number: u64, out: &mut Vec<u8>) -> Result<(), AllocError>
    ensures { OnOk result (out.new.items ≡ out.old.items ++ two number) }
{
    out.extend_from_slice(&[digit(number / 10), digit(number)])
}

/// Appends the date of a day, counted from 1970-01-01.
fn push_date(days: u64, out: &mut Vec<u8>) -> Result<(), AllocError>
    requires { days < 2932897 }
    ensures { OnOk result (out.new.items ≡ out.old.items ++ date_text days) }
{
    let day = (days + 719_468) % 146_097;
    let year = year_of(days);
    push_two(year / 100, out)?;
    push_two(year, out)?;
    out.extend_from_slice(b"-")?;
    push_two(month_of(day), out)?;
    out.extend_from_slice(b"-")?;
    push_two(day_of_month(day), out)
}

/// Appends the time of day (UTC) of milliseconds since 1970.
pub fn push_clock(ms: u64, out: &mut Vec<u8>) -> Result<(), AllocError>
    ensures { OnOk result (out.new.items ≡ out.old.items ++ clock_text ms) }
{
    push_two(ms / 3_600_000 % 24, out)?;
    out.extend_from_slice(b":")?;
    push_two(ms / 60_000 % 60, out)?;
    out.extend_from_slice(b":")?;
    push_two(ms / 1_000 % 60, out)
}

/// Appends the thousandths of a second, without zeros at the end.
fn push_fraction(ms: u64, out: &mut Vec<u8>) -> Result<(), AllocError>
    ensures { OnOk result (out.new.items ≡ out.old.items ++ fraction_text ms) }
{
    if ms % 1_000 == 0 {
        return Ok(());
    }
    if ms % 100 == 0 {
        return out.extend_from_slice(&[b'.', digit(ms / 100)]);
    }
    if ms % 10 == 0 {
        return out.extend_from_slice(&[b'.', digit(ms / 100), digit(ms / 10)]);
    }
    out.extend_from_slice(&[b'.', digit(ms / 100), digit(ms / 10), digit(ms)])
}

/// Appends the thousandths of a second, and the sign of UTC.
fn push_end(ms: u64, out: &mut Vec<u8>) -> Result<(), AllocError>
    ensures { OnOk result (out.new.items ≡ out.old.items ++ end_text ms) }
{
    push_fraction(ms, out)?;
    out.extend_from_slice(b"Z")
}

/// Appends a time.
fn push_time(ms: u64, out: &mut Vec<u8>) -> Result<(), AllocError>
    requires { ms / 86400000 < 2932897 }
    ensures { OnOk result (out.new.items ≡ out.old.items ++ time_text ms) }
{
    push_date(ms / DAY, out)?;
    out.extend_from_slice(b"T")?;
    push_clock(ms, out)?;
    push_end(ms, out)
}

/// Appends words and a time in milliseconds since 1970, or nothing if its year has more than four
/// digits.
pub fn push_when(words: &[u8], ms: u64, out: &mut Vec<u8>) -> Result<(), AllocError>
    ensures { OnOk result (out.new.items ≡ out.old.items ++ when_text words.now ms) }
{
    if ms >= END {
        return Ok(());
    }
    out.extend_from_slice(words)?;
    push_time(ms, out)
}

/// Appends the day of a time in milliseconds since 1970, or the milliseconds if its year has more than
/// four digits.
pub fn push_day(ms: u64, out: &mut Vec<u8>) -> Result<(), AllocError>
    ensures { OnOk result (out.new.items ≡ out.old.items ++ day_text ms) }
{
    if ms < END {
        push_date(ms / DAY, out)
    } else {
        push_decimal(ms, out)
    }
}

/// Times at the ends of February and of the years 1969 and 9999, as another calendar has them.
#[tactic(auto, // the calendar's sums
unfolding(crate::specs::Dates::year_of_era, crate::specs::Dates::day_of_year, crate::specs::Dates::month_index))]
pub fn times_worked()
    ensures { TimesWorked }
{}
