//! Count fields of RINEX 3 files.

ghost use Rattle.std.specs.Prelude.{◌≡◌, ◌↔◌, ◌≤◌, ◌<◌, ◌^◌, ℕ, length, Some, IfSome};
ghost use Rattle.exact_decimal.specs.Counts.{IsCount};
ghost use Rattle.exact_decimal.specs.Parts.{count_of};

use crate::parts::{behind_blanks, is_blank_text, number_after, split_digits};

/// The number of a count field: blanks, digits, blanks. None where the field isn't one; a blank
/// field isn't one.
pub fn read_count(field: &[u8]) -> Option<u64>
    requires { length field.now ≤ 18 }
    ensures number { (n : ℕ) → (result ≡ Some n) ↔ IsCount field.now n }
    ensures bound { IfSome result (λ n. n < 10 ^ length field.now) }
{
    count(field)
}

/// The count field, cut from left to right.
fn count(field: &[u8]) -> Option<u64>
    requires { length field.now ≤ 18 }
    ensures { result ≡ count_of field.now }
{
    let (digits, rest) = split_digits(behind_blanks(field));
    if digits.is_empty() {
        return None;
    }
    if !is_blank_text(rest) {
        return None;
    }
    Some(number_after(0, digits))
}
