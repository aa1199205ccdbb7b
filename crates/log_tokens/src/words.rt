//! The words of a line, from left to right.

ghost use Rattle.std.specs.Prelude.{◌≡◌, ℕ, ◌≤◌, ℤ, ◌≤ℤ◌, [], ◌∷◌, IfSome, IfNone, Some};
ghost use Rattle.std.specs.Prelude.{IsTrue, ◌↔◌};
ghost use Rattle.std.specs.Fmt.{decimal, signed_decimal};
ghost use Rattle.grid_model.specs.Sizes.{IsWithin};
ghost use Rattle.log_tokens.specs.Words.{words_left, ReadsFront};
ghost use Rattle.log_tokens.specs.Fields.{number_words, IsFromTo, IsTime};

use itoa::Buffer;
use memchr::memchr;

/// The last time that a log may have, in picoseconds.
const TIME_END: u128 = 3_999_999_999_999_999_999_999;

/// How many digits a number of 64 bits may have.
const MOST_DIGITS: usize = 19;

/// What is left of a line: nothing, or the bytes after a blank or from the line's beginning.
pub type Rest<'a> = Option<&'a [u8]>;

/// The first word, and what is left after it.
pub fn word(rest: Rest<'_>) -> Option<(&[u8], Rest<'_>)>
    ensures found { IfSome result (λ found. words_left rest.entry ≡ found.0.now
        ∷ words_left found.1) }
    ensures none { IfNone result (words_left rest.entry ≡ []) }
{
    let bytes = rest?;
    match memchr(b' ', bytes) {
        Some(end) => Some((&bytes[..end], Some(&bytes[end + 1..]))),
        None => Some((bytes, None)),
    }
}

/// Whether no word is left.
pub fn is_ended(rest: Rest<'_>) -> bool
    ensures { IsTrue result ↔ (words_left rest.entry ≡ []) }
{
    rest.is_none()
}

/// The number that digits spell: `MOST_DIGITS` of them at most, and no zero in front of others.
fn digits_number(digits: &[u8]) -> Option<u64>
    ensures found { IfSome result (λ n. digits.now ≡ decimal n) }
    ensures none { IfNone result ((n : ℕ) → n ≤ 9999999999999999999 → digits.now ≡ decimal n → ⊥) }
{
    if digits.is_empty() || digits.len() > MOST_DIGITS || digits.len() > 1 && digits[0] == b'0' {
        return None;
    }
    let mut number = 0;
    for byte in digits {
        let digit = byte.wrapping_sub(b'0');
        if digit > 9 {
            return None;
        }
        number = number * 10 + u64::from(digit);
    }
    Some(number)
}

/// The number that the word spells, in the one spelling.
fn signed_number(word: &[u8]) -> Option<i128>
    ensures found { IfSome result (λ n. word.now ≡ signed_decimal n) }
    ensures none { IfNone result ((n : ℤ) → IsWithin 9999999999999999999 n →
        word.now ≡ signed_decimal n → ⊥) }
{
    if let [b'-', digits @ ..] = word {
        let amount = digits_number(digits)?;
        if amount == 0 {
            return None;
        }
        return Some(-i128::from(amount));
    }
    let amount = digits_number(word)?;
    Some(i128::from(amount))
}

/// The number from `low` to `high` that the word spells, in the one spelling.
pub fn number_of(word: &[u8], low: i64, high: i64) -> Option<i64>
    ensures found { IfSome result (λ n. (word.now ≡ signed_decimal n) × (low ≤ℤ n) × (n ≤ℤ high)) }
    ensures none { IfNone result ((n : ℤ) → low ≤ℤ n → n ≤ℤ high → word.now ≡ signed_decimal n →
        ⊥) }
{
    let number = signed_number(word)?;
    if i128::from(low) <= number && number <= i128::from(high) {
        Some(number as i64)
    } else {
        None
    }
}

/// The time in picoseconds that the word spells, in the one spelling.
pub fn time_of(word: &[u8]) -> Option<i128>
    ensures found { IfSome result (λ ps. (word.now ≡ signed_decimal ps) × IsTime ps) }
    ensures none { IfNone result ((ps : ℤ) → IsTime ps → word.now ≡ signed_decimal ps → ⊥) }
{
    let text = match str::from_utf8(word) {
        Ok(text) => text,
        Err(_) => return None,
    };
    let ps = match text.parse::<u128>() {
        Ok(ps) => ps,
        Err(_) => return None,
    };
    let mut buffer = Buffer::new();
    let spelled = buffer.format(ps).as_bytes();
    if ps <= TIME_END && spelled == word {
        Some(ps as i128)
    } else {
        None
    }
}

/// A number from `low` to `high`.
pub fn number(rest: Rest<'_>, low: i64, high: i64) -> Option<(i64, Rest<'_>)>
    ensures { ReadsFront (IsFromTo low high) number_words (words_left rest.entry) result }
{
    let (word, after) = word(rest)?;
    let number = number_of(word, low, high)?;
    Some((number, after))
}
