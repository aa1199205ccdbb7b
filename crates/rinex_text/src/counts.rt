//! Counts on a line.

ghost use Rattle.std.specs.Prelude.{◌≤◌, ◌+◌, ℕ, IfSome, IfNone};
ghost use Rattle.exact_decimal.specs.Counts.{IsCount};
ghost use Rattle.rinex_text.specs.Columns.{columns_of};
ghost use Rattle.rinex_text.specs.Counts.{IsNumber};

use crate::fields::columns;
use exact_decimal::read_count;

/// The count of two columns.
pub fn two_digits(text: &[u8], first: u16) -> Option<u8>
    requires { first ≤ 4000 }
    ensures number { IfSome result (IsCount (columns_of text.now first (first + 1))) }
    ensures none { IfNone result ((number : ℕ) →
        IsCount (columns_of text.now first (first + 1)) number → ⊥) }
    ensures bound { IfSome result (λ number. number ≤ 99) }
{
    match read_count(columns(text, first, first + 1)) {
        Some(number) => Some(number as u8),
        None => None,
    }
}

/// The count of three columns.
pub fn three_digits(text: &[u8], first: u16) -> Option<u16>
    requires { first ≤ 4000 }
    ensures number { IfSome result (IsCount (columns_of text.now first (first + 2))) }
    ensures none { IfNone result ((number : ℕ) →
        IsCount (columns_of text.now first (first + 2)) number → ⊥) }
    ensures bound { IfSome result (λ number. number ≤ 999) }
{
    match read_count(columns(text, first, first + 2)) {
        Some(number) => Some(number as u16),
        None => None,
    }
}

/// The count of four columns.
pub fn four_digits(text: &[u8], first: u16) -> Option<u16>
    requires { first ≤ 4000 }
    ensures number { IfSome result (IsCount (columns_of text.now first (first + 3))) }
    ensures none { IfNone result ((number : ℕ) →
        IsCount (columns_of text.now first (first + 3)) number → ⊥) }
    ensures bound { IfSome result (λ number. number ≤ 9999) }
{
    match read_count(columns(text, first, first + 3)) {
        Some(number) => Some(number as u16),
        None => None,
    }
}

/// The number of the satellite, from 1 to 99, in columns 2 and 3.
pub fn satellite_number(text: &[u8]) -> Option<u8>
    ensures number { IfSome result (IsNumber text.now) }
    ensures none { IfNone result ((number : ℕ) → IsNumber text.now number → ⊥) }
{
    let number = two_digits(text, 2)?;
    if number == 0 {
        return None;
    }
    Some(number)
}
