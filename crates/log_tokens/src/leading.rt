//! Numbers at the front of a text, each with the byte that ends it. Where none is read nothing is
//! said of the text, so that a reader may go on to the words.

ghost use Rattle.std.specs.Prelude.{◌≡◌, ◌<◌, ◌≤◌, ◌^◌, ◌*◌, ◌++◌, ◌∷◌, length, take, slice_index, IsTrue};
ghost use Rattle.std.specs.Prelude.{IfSome};
ghost use Rattle.std.specs.Fmt.{decimal, signed_decimal};
ghost use Rattle.std.specs.Str.Parse.{AllDigits, digits_value};
ghost use Rattle.grid_model.specs.Sizes.{IsWithin};

use core::dec2flt::read_digits;

/// How many bytes are read as one word. The digits of two words are a number of 64 bits.
const WORD: usize = 8;

/// Whether there are digits, and no zero in front of others.
fn is_plain(digits: &[u8]) -> bool
    ensures some { IsTrue result → 0 < length digits.now }
    ensures plain { IsTrue result → 1 < length digits.now → slice_index digits.now 0 ≡ 48 → ⊥ }
{
    match digits {
        [] => false,
        [b'0', _, ..] => false,
        _ => true,
    }
}

/// The number of the first `count` digits, where `end` is behind them, and what stands behind it.
fn number_before(text: &[u8], count: usize, number: u64, end: u8) -> Option<(u64, &[u8])>
    requires within { count < length text.now }
    requires few { count < 2 * WORD }
    requires digits { AllDigits 10 (take count text.now) }
    requires value { number ≡ digits_value 10 (take count text.now) }
    ensures { IfSome result (λ found. text.now ≡ decimal found.0 ++ end ∷ found.1.now) }
{
    if text[count] != end {
        return None;
    }
    if !is_plain(&text[..count]) {
        return None;
    }
    Some((number, &text[count + 1..]))
}

/// The number in front of `end`, and what stands behind `end`.
fn leading_number(text: &[u8], end: u8) -> Option<(u64, &[u8])>
    ensures { IfSome result (λ found. text.now ≡ decimal found.0 ++ end ∷ found.1.now) }
{
    if text.len() < 2 * WORD {
        return None;
    }
    let (first, number) = read_digits(&text[..WORD], 0, 0);
    if first < WORD {
        return number_before(text, first, number, end);
    }
    let (second, number) = read_digits(&text[WORD..2 * WORD], 0, number);
    if second == WORD {
        return None;
    }
    number_before(text, WORD + second, number, end)
}

/// A digit of at most `most` in front of `end`, and what stands behind `end`.
pub fn leading_digit(text: &[u8], end: u8, most: u8) -> Option<(u8, &[u8])>
    requires { most ≤ 9 }
    ensures { IfSome result (λ found. (found.0 ≤ most)
        × (text.now ≡ decimal found.0 ++ end ∷ found.1.now)) }
{
    let [byte, after, behind @ ..] = text else {
        return None;
    };
    let digit = byte.wrapping_sub(b'0');
    if digit > most {
        return None;
    }
    if *after != end {
        return None;
    }
    Some((digit, behind))
}

/// A number of at most `most` without a sign in front of `end`, and what stands behind `end`. It is
/// looked for among seven digits.
pub fn leading_count(text: &[u8], end: u8, most: u32) -> Option<(u32, &[u8])>
    ensures { IfSome result (λ found. (found.0 ≤ most)
        × (text.now ≡ decimal found.0 ++ end ∷ found.1.now)) }
{
    if text.len() < WORD {
        return None;
    }
    let (count, number) = read_digits(&text[..WORD], 0, 0);
    if count == WORD {
        return None;
    }
    let (number, behind) = number_before(text, count, number, end)?;
    if number > u64::from(most) {
        return None;
    }
    Some((number as u32, behind))
}

/// A number of at most `bound` in amount in front of `end`, and what stands behind `end`.
pub fn leading_amount(text: &[u8], end: u8, bound: u64) -> Option<(i64, &[u8])>
    requires { bound < 2 ^ 63 }
    ensures { IfSome result (λ found. IsWithin bound found.0
        × (text.now ≡ signed_decimal found.0 ++ end ∷ found.1.now)) }
{
    if let [b'-', digits @ ..] = text {
        let (amount, behind) = leading_number(digits, end)?;
        if amount == 0 || amount > bound {
            return None;
        }
        return Some((-(amount as i64), behind));
    }
    let (amount, behind) = leading_number(text, end)?;
    if amount > bound {
        return None;
    }
    Some((amount as i64, behind))
}
