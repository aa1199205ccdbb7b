//! The fields of a line.

ghost use Rattle.std.specs.Prelude.{◌≡◌, ◌<◌, ◌^◌, pos, neg_ℤ};
ghost use Rattle.log_tokens.specs.Words.{words_left, Reads, ReadsFront};
ghost use Rattle.log_tokens.specs.Fields.{number_words, IsFromTo, span_words, IsSpanWithin};
ghost use Rattle.log_tokens.specs.Fields.{pos_words, IsPosWithin, sat_words, IsNamed, skip_words};
ghost use Rattle.log_tokens.specs.Fields.{IsPlainTest, SkipFits, count_words, IsCountFromTo, IsTime};

use crate::words::{Rest, is_ended, number, time_of, word};
use gnss_model::{Sat, Skip};
use grid_model::{Pos, Span};

/// A number of at most `bound` in amount.
pub fn amount(rest: Rest<'_>, bound: u64) -> Option<(i64, Rest<'_>)>
    requires { bound < 2 ^ 63 }
    ensures { ReadsFront (IsFromTo (neg_ℤ (pos bound)) (pos bound)) number_words
        (words_left rest.entry) result }
{
    number(rest, -(bound as i64), bound as i64)
}

/// A number from `low` to `high` without a sign.
pub fn count(rest: Rest<'_>, low: u32, high: u32) -> Option<(u32, Rest<'_>)>
    ensures { ReadsFront (IsCountFromTo low high) count_words (words_left rest.entry) result }
{
    let (number, rest) = number(rest, i64::from(low), i64::from(high))?;
    Some((number as u32, rest))
}

/// A time in picoseconds.
pub fn time(rest: Rest<'_>) -> Option<(i128, Rest<'_>)>
    ensures { ReadsFront IsTime number_words (words_left rest.entry) result }
{
    let (word, after) = word(rest)?;
    let time = time_of(word)?;
    Some((time, after))
}

/// Two numbers of at most `bound` in amount, in order.
pub fn span(rest: Rest<'_>, bound: u64) -> Option<(Span, Rest<'_>)>
    requires { bound < 2 ^ 63 }
    ensures { ReadsFront (IsSpanWithin bound) span_words (words_left rest.entry) result }
{
    let (lo, rest) = amount(rest, bound)?;
    let (hi, rest) = amount(rest, bound)?;
    if lo <= hi {
        Some((Span { lo, hi }, rest))
    } else {
        None
    }
}

/// Three numbers of at most `bound` in amount.
pub fn place(rest: Rest<'_>, bound: u64) -> Option<(Pos, Rest<'_>)>
    requires { bound < 2 ^ 63 }
    ensures { ReadsFront (IsPosWithin bound) pos_words (words_left rest.entry) result }
{
    let (x, rest) = amount(rest, bound)?;
    let (y, rest) = amount(rest, bound)?;
    let (z, rest) = amount(rest, bound)?;
    Some((Pos { x, y, z }, rest))
}

/// The letter `G` or `E` and a number from 01 to 99.
pub fn satellite(rest: Rest<'_>) -> Option<(Sat, Rest<'_>)>
    ensures { ReadsFront IsNamed sat_words (words_left rest.entry) result }
{
    let (word, rest) = word(rest)?;
    let (system, tens, ones) = match word {
        [
            system @ (b'G' | b'E'),
            tens @ b'0'..=b'9',
            ones @ b'0'..=b'9',
        ] => { (*system, *tens, *ones) }
        _ => return None,
    };
    let number = (tens - b'0') * 10 + (ones - b'0');
    if number == 0 {
        return None;
    }
    Some((Sat { system, number }, rest))
}

/// The number of one of the tests 1 to 5, or 7 to 9, which have no field.
fn plain_skip(rest: Rest<'_>) -> Option<Skip>
    ensures { Reads (λ skip. IsPlainTest skip.number
        × (skip.field ≡ 0)) skip_words (words_left rest.entry) result }
{
    let (number, rest) = count(rest, 1, 9)?;
    if number == 6 {
        return None;
    }
    if !is_ended(rest) {
        return None;
    }
    Some(Skip {
        number: number as u8,
        field: 0,
    })
}

/// Test 6, and the number of the field.
fn field_skip(rest: Rest<'_>) -> Option<Skip>
    ensures { Reads (λ skip. (skip.number ≡ 6) × IsCountFromTo 1 20 skip.field) skip_words
        (words_left rest.entry) result }
{
    let (number, rest) = count(rest, 6, 6)?;
    let (field, rest) = count(rest, 1, 20)?;
    if !is_ended(rest) {
        return None;
    }
    Some(Skip {
        number: number as u8,
        field: field as u8,
    })
}

/// Why a satellite isn't used.
pub fn skip(rest: Rest<'_>) -> Option<Skip>
    ensures { Reads SkipFits skip_words (words_left rest.entry) result }
{
    match plain_skip(rest) {
        Some(skip) => Some(skip),
        None => field_skip(rest),
    }
}
