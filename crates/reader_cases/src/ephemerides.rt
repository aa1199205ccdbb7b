//! Records by their fields.

ghost use Rattle.std.specs.Prelude.{pos, ◌≤ℤ◌, ◌<ℤ◌, ◌<◌, IfOk};

use crate::fields::Fields;
use exact_decimal::Decimal;
use gnss_model::Sat;
use rinex_nav::NavRecord;
use std::io::{self, ErrorKind};

/// The next number, which is a time in s, in ps. It fails where no record has such a time.
fn time(words: &mut Fields<'_>) -> io::Result<i128>
    ensures from { IfOk result (λ time. pos 0 ≤ℤ time) }
    ensures under { IfOk result (λ time. time <ℤ pos 4000000000000000000000) }
{
    let seconds: i64 = words.number()?;
    if seconds < 0 || 4_000_000_000 <= seconds {
        return Err(ErrorKind::InvalidInput.into());
    }
    Ok(i128::from(seconds) * 1_000_000_000_000)
}

/// The fields of a record: zeros but for sqrtA, 5153 m^(1/2), and the fields of the case, `NUMBER
/// DIGITS TEN` each.
fn decimals(fields: Fields<'_>) -> io::Result<[Decimal; 20]> {
    let mut decimals = [Decimal { digits: 0, ten: 0 }; 20];
    decimals[9] = Decimal {
        digits: 5153,
        ten: 0,
    };
    for field in fields.rest() {
        let mut words = Fields::between(field, ' ');
        let number: usize = words.number()?;
        let decimal = Decimal {
            digits: words.number()?,
            ten: words.number()?,
        };
        match number.checked_sub(1) {
            Some(place) if place < 20 => decimals[place] = decimal,
            _ => return Err(ErrorKind::InvalidInput.into()),
        }
    }
    Ok(decimals)
}

/// Prints the numbers of a record with the clock time TOC, or the first field that is outside its
/// bounds, and how far the time TAG is from its ephemeris time: `TOC TAG`, in s.
pub fn print(rt: &HostRuntime, words: Fields<'_>, fields: Fields<'_>) -> io::Result<()> {
    let mut words = words;
    let toc = time(&mut words)?;
    let tag = time(&mut words)?;
    let record = NavRecord {
        sat: Sat {
            system: b'G',
            number: 1,
        },
        toc,
        healthy: true,
        fields: decimals(fields)?,
    };
    println!(rt; "{:?} {:?}", record.elements(), record.age(tag))
}
