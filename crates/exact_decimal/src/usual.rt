//! The usual form of the numbers of navigation files, in which they are read in one pass.

ghost use Rattle.std.specs.Prelude.{◌≡◌, ◌<◌, ◌≤◌, ◌^◌, ◌-◌, length, true, [], ◌∷◌, IfSome};
ghost use Rattle.std.specs.Char.{is_ascii_digit};
ghost use Rattle.std.specs.Str.Parse.{digits_value_after};
ghost use Rattle.grid_model.specs.Sizes.{IsWithin};
ghost use Rattle.exact_decimal.specs.NumberFields.{is_exponent_letter, AreDigits, IsSign};
ghost use Rattle.exact_decimal.specs.NumberFields.{IsExponent, IsFloating};
ghost use Rattle.exact_decimal.specs.Parts.{Begins, Opens};

use crate::decimal::Decimal;
use crate::parts::{signed_by, small};
use core::dec2flt::read_digits;

/// The number of a digit.
#[inline]
fn digit(byte: u8) -> Option<u8>
    ensures digit { IfSome result (λ number. is_ascii_digit byte ≡ true) }
    ensures value { IfSome result (λ number. number ≡ byte - 48) }
    ensures bound { IfSome result (λ number. number ≤ 9) }
{
    if byte.is_ascii_digit() {
        Some(byte - b'0')
    } else {
        None
    }
}

/// The number that twelve digits write behind another.
#[inline]
fn twelve_digits(text: &[u8], before: u8) -> Option<u64>
    requires long { length text.now ≡ 12 }
    requires few { before ≤ 9 }
    ensures digits { IfSome result (λ number. AreDigits text.now) }
    ensures value { IfSome result (λ number. number ≡ digits_value_after 10 before text.now) }
    ensures bound { IfSome result (λ number. number < 10 ^ 13) }
{
    let (end, number) = read_digits(text, 0, u64::from(before));
    if end < 12 {
        return None;
    }
    Some(number)
}

/// Whether the byte is a letter of an exponent.
#[inline]
fn is_letter(byte: u8) -> bool
    ensures { result ≡ is_exponent_letter byte }
{
    (byte == b'D' || byte == b'd') || (byte == b'E' || byte == b'e')
}

/// Whether an exponent with this sign is negative.
#[inline]
fn exponent_sign(byte: u8) -> Option<bool>
    ensures { IfSome result (λ negative. IsSign (byte ∷ []) negative) }
{
    match byte {
        b'+' => Some(false),
        b'-' => Some(true),
        _ => None,
    }
}

/// The exponent that a letter, a sign and two digits write.
#[inline]
fn usual_exponent(text: &[u8]) -> Option<i8>
    ensures exponent { IfSome result (λ exponent. IsExponent text.now exponent) }
    ensures bound { IfSome result (λ exponent. IsWithin 99 exponent) }
{
    let [letter, sign, tens, ones] = text else {
        return None;
    };
    if !is_letter(*letter) {
        return None;
    }
    let negative = exponent_sign(*sign)?;
    let number = digit(*tens)? * 10 + digit(*ones)?;
    Some(small(signed_by(negative, u64::from(number))))
}

/// Whether a number that begins so is negative.
#[inline]
fn first_sign(byte: u8) -> Option<bool>
    ensures { IfSome result (λ negative. Begins negative byte) }
{
    match byte {
        b' ' => Some(false),
        b'-' => Some(true),
        _ => None,
    }
}

/// Whether a number is negative that begins with these two bytes in front of its point, and its
/// digit there, which some writers leave out where it is 0.
#[inline]
fn opening(first: u8, second: u8) -> Option<(bool, u8)>
    ensures opens { IfSome result (λ opening. Opens first second opening.0 opening.1) }
    ensures bound { IfSome result (λ opening. opening.1 ≤ 9) }
{
    if let Some(whole) = digit(second) {
        let negative = first_sign(first)?;
        return Some((negative, whole));
    }
    if first != b' ' {
        return None;
    }
    let negative = first_sign(second)?;
    Some((negative, 0))
}

/// The number of a blank or a minus sign, a digit, a point, twelve digits, a letter, a sign and two
/// digits, or without the digit in front of the point. None where the field has another form.
pub fn usual_number(field: &[u8]) -> Option<Decimal>
    ensures { IfSome result (λ number. IsFloating field.now number.digits number.ten) }
{
    let [first, second, point, rest @ ..] = field else {
        return None;
    };
    if *point != b'.' || rest.len() != 16 {
        return None;
    }
    let (fraction, letters) = rest.split_at(12);
    let (negative, before) = opening(*first, *second)?;
    let amount = twelve_digits(fraction, before)?;
    let exponent = usual_exponent(letters)?;
    Some(Decimal {
        digits: signed_by(negative, amount),
        ten: exponent - 12,
    })
}
