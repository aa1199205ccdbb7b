//! The fields of the lines of a bound, word by word.

ghost use Rattle.log_tokens.specs.Words.{words_left, Reads, ReadsFront};
ghost use Rattle.bound_lines.specs.BoundLines.{Any, half_space_words, term_words, bound_words};
ghost use Rattle.bound_lines.specs.BoundLines.{sum_words};

use crate::bound_head::BoundHead;
use log_tokens::{Rest, amount, count, is_ended, number};
use sat_model::{HalfSpace, RowSum, Term};

/// The greatest amount of a direction's component.
const GREATEST_COMPONENT: u64 = 1_000_000;
/// The greatest amount of the end of a half-space.
const GREATEST_END: u64 = 9_000_000_000_000_000_000;
/// A bound has as many sums at most.
const MOST_SUMS: u32 = 64;
/// The place of the last row that there may be.
const LAST_PLACE: u32 = 63;
/// The greatest amount of a multiplier of a row, 2^20.
const GREATEST_MULTIPLIER: u64 = 1_048_576;
/// The direction is in a sum as many times at most, 2^44.
const GREATEST_AIM: i64 = 17_592_186_044_416;

/// The direction of a half-space, and its end.
fn half_space(rest: Rest<'_>) -> Option<(HalfSpace, Rest<'_>)>
    ensures { ReadsFront Any half_space_words (words_left rest.entry) result }
{
    let (x, rest) = amount(rest, GREATEST_COMPONENT)?;
    let (y, rest) = amount(rest, GREATEST_COMPONENT)?;
    let (z, rest) = amount(rest, GREATEST_COMPONENT)?;
    let (most, rest) = amount(rest, GREATEST_END)?;
    Some((HalfSpace { x, y, z, most }, rest))
}

/// The place of a row, and its multiplier.
fn term(rest: Rest<'_>) -> Option<(Term, Rest<'_>)>
    ensures { ReadsFront Any term_words (words_left rest.entry) result }
{
    let (place, rest) = count(rest, 0, LAST_PLACE)?;
    let (multiplier, rest) = amount(rest, GREATEST_MULTIPLIER)?;
    Some((
        Term {
            place: place as u8,
            multiplier,
        },
        rest,
    ))
}

/// The half-space and the number of sums whose words are left, which is all of a line but its first
/// word.
pub fn bound_fields(rest: Rest<'_>) -> Option<BoundHead>
    ensures { Reads Any bound_words (words_left rest.entry) result }
{
    let (half, rest) = half_space(rest)?;
    let (sums, rest) = count(rest, 1, MOST_SUMS)?;
    if !is_ended(rest) {
        return None;
    }
    Some(BoundHead {
        half,
        sums: sums as u8,
    })
}

/// The sum of rows whose words are left, which is all of a line but its first word.
pub fn sum_fields(rest: Rest<'_>) -> Option<RowSum>
    ensures { Reads Any sum_words (words_left rest.entry) result }
{
    let (aim, rest) = number(rest, 0, GREATEST_AIM)?;
    let (first, rest) = term(rest)?;
    let (second, rest) = term(rest)?;
    let (third, rest) = term(rest)?;
    let (fourth, rest) = term(rest)?;
    let (fifth, rest) = term(rest)?;
    if !is_ended(rest) {
        return None;
    }
    Some(RowSum {
        aim: aim as u64,
        first,
        second,
        third,
        fourth,
        fifth,
    })
}
