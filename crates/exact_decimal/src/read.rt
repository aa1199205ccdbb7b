//! Number fields of RINEX 3 files as decimals.

ghost use Rattle.std.specs.Prelude.{◌≡◌, ◌↔◌, ℤ, None, Ok};
ghost use Rattle.exact_decimal.specs.NumberFields.{AreBlanks, IsFixed, IsFloating};
ghost use Rattle.exact_decimal.specs.Parts.{fixed_of, floating_of};
ghost use Rattle.exact_decimal.specs.Reading.{Reads};

use crate::decimal::{BadNumber, Decimal};
use crate::parts::{Mantissa, behind_blanks, is_blank_text, split_exponent};
use crate::usual::usual_number;

/// The number of a fixed field: blanks, a sign, 1 to 18 digits with at most one point, blanks.
/// A blank field has none.
pub fn read_fixed(field: &[u8]) -> Result<Option<Decimal>, BadNumber>
    ensures blank { (result ≡ Ok None) ↔ AreBlanks field.now }
    ensures number { (digits ten : ℤ) → Reads result digits ten ↔ IsFixed field.now digits ten }
{
    fixed(field)
}

/// The number of an exponent field: a fixed field that may have a letter `D`, `d`, `E` or `e`, a
/// sign and one or two digits behind its digits. A blank field has none.
pub fn read_exp(field: &[u8]) -> Result<Option<Decimal>, BadNumber>
    ensures blank { (result ≡ Ok None) ↔ AreBlanks field.now }
    ensures number { (digits ten : ℤ) → Reads result digits ten ↔ IsFloating field.now digits ten }
{
    floating(field)
}

/// The fixed field, cut from left to right.
fn fixed(field: &[u8]) -> Result<Option<Decimal>, BadNumber>
    ensures { result ≡ fixed_of field.now }
{
    if is_blank_text(field) {
        return Ok(None);
    }
    let mantissa = Mantissa::at_front(behind_blanks(field));
    if mantissa.has_digits() && is_blank_text(mantissa.rest) {
        Ok(Some(Decimal {
            digits: mantissa.digits(),
            ten: -mantissa.decimals(),
        }))
    } else {
        Err(BadNumber)
    }
}

/// The exponent field, cut from left to right unless it has the usual form.
fn floating(field: &[u8]) -> Result<Option<Decimal>, BadNumber>
    ensures { result ≡ floating_of field.now }
{
    if let Some(number) = usual_number(field) {
        return Ok(Some(number));
    }
    if is_blank_text(field) {
        return Ok(None);
    }
    let mantissa = Mantissa::at_front(behind_blanks(field));
    if !mantissa.has_digits() {
        return Err(BadNumber);
    }
    match split_exponent(mantissa.rest) {
        Some((exponent, rest)) if is_blank_text(rest) => Ok(Some(Decimal {
            digits: mantissa.digits(),
            ten: exponent - mantissa.decimals(),
        })),
        _ => Err(BadNumber),
    }
}
