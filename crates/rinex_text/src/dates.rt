//! Dates as GPS time.

ghost use Rattle.std.specs.Prelude.{◌≡◌, ◌↔◌, ◌≤◌, ◌<ℤ◌, pos, IsOk, IsSome, IfOk, IfSome};
ghost use Rattle.jiff_core.specs.Calendar.{IsDate, days_from_civil};
ghost use Rattle.rinex_text.specs.Dates.{IsGpsDate, IsGpsTime, days_behind_first, gps_time};

use jiff_core::civil::Date;

/// The date isn't one from 1980-01-06 to 2099-12-31, or the time isn't one of a day.
#[derive(Clone, Copy, Debug, PartialEq, Eq)]
pub struct BadDate;

/// The day number of 1980-01-06, where that of 1970-01-01 is 0.
const FIRST_DAY: i32 = 3_657;

/// The day number of 2099-12-31.
const LAST_DAY: i32 = 47_481;

/// The day number of the date, where that of 1970-01-01 is 0. None where the date isn't one.
fn day_number(year: u16, month: u8, day: u8) -> Option<i32>
    ensures date { IsSome result ↔ IsDate (pos year) (pos month) (pos day) }
    ensures value { IfSome result (λ number. number ≡ days_from_civil (pos year) month day) }
{
    if year > 9999 || month > 12 || day > 31 {
        return None;
    }
    match Date::new(year as i16, month as i8, day as i8) {
        Ok(date) => Some(date.to_unix_epoch_day()),
        Err(_) => None,
    }
}

/// The days from 1980-01-06 to the date, where it is one from then to 2099-12-31.
fn gps_days(year: u16, month: u8, day: u8) -> Option<u32>
    ensures date { IsSome result ↔ IsGpsDate year month day }
    ensures value { IfSome result (λ days. days ≡ days_behind_first year month day) }
    ensures bound { IfSome result (λ days. days ≤ 43824) }
{
    let Some(number) = day_number(year, month, day) else {
        return None;
    };
    if number < FIRST_DAY {
        return None;
    }
    if number > LAST_DAY {
        return None;
    }
    Some((number - FIRST_DAY) as u32)
}

/// The picoseconds of GPS time since 1980-01-06 00:00:00. `tenths` are the seconds, in 10^-7 s.
/// `BadDate` comes exactly where the date isn't one from 1980-01-06 to 2099-12-31, or the hour is
/// over 23, the minute over 59 or the seconds 60 or more.
pub fn gps_ps(
    year: u16,
    month: u8,
    day: u8,
    hour: u8,
    minute: u8,
    tenths: u64,
) -> Result<i128, BadDate>
    ensures date { IsOk result ↔ IsGpsTime year month day hour minute tenths }
    ensures value { IfOk result (λ ps. ps ≡ pos (gps_time year month day hour minute tenths)) }
    ensures bound { IfOk result (λ ps. ps <ℤ pos 4000000000000000000000) }
{
    let Some(days) = gps_days(year, month, day) else {
        return Err(BadDate);
    };
    if hour > 23 {
        return Err(BadDate);
    }
    if minute > 59 {
        return Err(BadDate);
    }
    if tenths >= 600_000_000 {
        return Err(BadDate);
    }
    let seconds = u128::from(days) * 86_400 + u128::from(hour) * 3_600 + u128::from(minute) * 60;
    Ok((seconds * 1_000_000_000_000 + u128::from(tenths) * 100_000) as i128)
}
