//! The fields on the lines of a navigation record.

ghost use Rattle.std.specs.Prelude.{◌≡◌, ◌≤◌, ℤ, pos, ◌<ℤ◌, ◌≤ℤ◌, IfSome, IfNone};
ghost use Rattle.exact_decimal.specs.declared.decimal.Decimal.{Decimal};
ghost use Rattle.rinex_nav.specs.Fields.{Two, Three, Four, FieldAt, SourceFields, Health};
ghost use Rattle.rinex_nav.specs.Fields.{delay_column, HealthFields, LastFields, AllFields, IsClockTime};
ghost use Rattle.rinex_nav.specs.Sources.{is_inav};

use crate::source::{is_healthy, is_inav};
use exact_decimal::{Decimal, read_exp};
use gnss_model::Message;
use rinex_text::{columns, four_digits, gps_ps, two_digits};

/// The number of the field of 19 columns that begins in a column; a blank field is zero. None where
/// the field isn't a number.
pub fn field(text: &[u8], first: u16) -> Option<Decimal>
    requires { first ≤ 62 }
    ensures number { IfSome result (FieldAt text.now first) }
    ensures none { IfNone result ((number : Decimal) → FieldAt text.now first number → ⊥) }
{
    match read_exp(columns(text, first, first + 18)) {
        Ok(Some(number)) => Some(number),
        Ok(None) => Some(Decimal { digits: 0, ten: 0 }),
        Err(_) => None,
    }
}

/// The first field of a line, and the second where the record is one of Galileo; else zero.
pub fn source_fields(text: &[u8], system: u8) -> Option<(Decimal, Decimal)>
    ensures numbers { IfSome result (SourceFields system text.now) }
    ensures none { IfNone result ((numbers : Two) → SourceFields system text.now numbers → ⊥) }
{
    let idot = field(text, 5)?;
    if system != b'E' {
        return Some((idot, Decimal { digits: 0, ten: 0 }));
    }
    let source = field(text, 24)?;
    Some((idot, source))
}

/// In which column the group delay begins.
fn delay_column(inav: bool) -> u16
    ensures value { result ≡ delay_column inav }
    ensures most { result ≤ 62 }
{
    if inav { 62 } else { 43 }
}

/// Whether the satellite is healthy, by the second field of a line, and its group delay: the third,
/// or the fourth where the record is one of Galileo and those of I/NAV are kept.
pub fn health_fields(text: &[u8], galileo: Option<Message>, system: u8) -> Option<(bool, Decimal)>
    ensures given { IfSome result (HealthFields (is_inav galileo system) text.now) }
    ensures none { IfNone result
        ((given : Health) → HealthFields (is_inav galileo system) text.now given → ⊥) }
{
    let inav = is_inav(galileo, system);
    let health = field(text, 24)?;
    let delay = field(text, delay_column(inav))?;
    Some((is_healthy(&health, inav), delay))
}

/// The last three fields of a line.
pub fn last_fields(text: &[u8]) -> Option<(Decimal, Decimal, Decimal)>
    ensures numbers { IfSome result (LastFields text.now) }
    ensures none { IfNone result ((numbers : Three) → LastFields text.now numbers → ⊥) }
{
    let second = field(text, 24)?;
    let third = field(text, 43)?;
    let fourth = field(text, 62)?;
    Some((second, third, fourth))
}

/// The four fields of a line.
pub fn all_fields(text: &[u8]) -> Option<(Decimal, Decimal, Decimal, Decimal)>
    ensures numbers { IfSome result (AllFields text.now) }
    ensures none { IfNone result ((numbers : Four) → AllFields text.now numbers → ⊥) }
{
    let first = field(text, 5)?;
    let second = field(text, 24)?;
    let third = field(text, 43)?;
    let fourth = field(text, 62)?;
    Some((first, second, third, fourth))
}

/// The clock time of a record's first line, in ps since 1980-01-06 00:00:00 GPS time.
pub fn clock_time(text: &[u8]) -> Option<i128>
    ensures time { IfSome result (IsClockTime text.now) }
    ensures none { IfNone result ((toc : ℤ) → IsClockTime text.now toc → ⊥) }
    ensures from { IfSome result (λ toc. pos 0 ≤ℤ toc) }
    ensures under { IfSome result (λ toc. toc <ℤ pos 4000000000000000000000) }
{
    let year = four_digits(text, 5)?;
    let month = two_digits(text, 10)?;
    let day = two_digits(text, 13)?;
    let hour = two_digits(text, 16)?;
    let minute = two_digits(text, 19)?;
    let second = two_digits(text, 22)?;
    match gps_ps(
        year,
        month,
        day,
        hour,
        minute,
        u64::from(second) * 10_000_000,
    ) {
        Ok(toc) => Some(toc),
        Err(_) => None,
    }
}
