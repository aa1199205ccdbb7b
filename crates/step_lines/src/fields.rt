//! The fields of a step, word by word.

ghost use Rattle.std.specs.Prelude.{◌≡◌};
ghost use Rattle.step_lines.specs.declared.names.StepName.TheVariants as names;
ghost use Rattle.log_tokens.specs.Words.{words_left, Reads};
ghost use Rattle.step_lines.specs.Lines.{step_words, step_name, StepFits};

use crate::names::StepName;
use log_tokens::{Rest, amount, count, is_ended, span};
use sat_model::Step;

/// The greatest number of a box.
pub const LAST_ID: u32 = 400_000;
/// The greatest amount of a bound, in um.
pub const GREATEST_BOUND: u64 = 10_000_000_000_000;
/// The greatest amount of a clock offset, in um.
pub const GREATEST_CLOCK: u64 = 200_000_000_000_000;

/// A box from which the slab between a face and a bound is cut.
fn cut(rest: Rest<'_>) -> Option<Step>
    ensures { Reads (λ step. StepFits step × (step_name step ≡ names.Cut)) step_words
        (words_left rest.entry) result }
{
    let (id, rest) = count(rest, 0, LAST_ID)?;
    let (face, rest) = count(rest, 0, 5)?;
    let (bound, rest) = amount(rest, GREATEST_BOUND)?;
    if !is_ended(rest) {
        return None;
    }
    Some(Step::Cut {
        id,
        face: face as u8,
        bound,
    })
}

/// A box that is split in halves.
fn split(rest: Rest<'_>) -> Option<Step>
    ensures { Reads (λ step. StepFits step × (step_name step ≡ names.Split)) step_words
        (words_left rest.entry) result }
{
    let (id, rest) = count(rest, 0, LAST_ID)?;
    let (axis, rest) = count(rest, 0, 2)?;
    if !is_ended(rest) {
        return None;
    }
    Some(Step::Split {
        id,
        axis: axis as u8,
    })
}

/// A box without a fitting point.
fn out(rest: Rest<'_>) -> Option<Step>
    ensures { Reads (λ step. StepFits step × (step_name step ≡ names.Out)) step_words
        (words_left rest.entry) result }
{
    let (id, rest) = count(rest, 0, LAST_ID)?;
    if !is_ended(rest) {
        return None;
    }
    Some(Step::Outside { id })
}

/// A box whose points all fit, with a clock offset of theirs and a span of clock offsets.
fn inside(rest: Rest<'_>) -> Option<Step>
    ensures { Reads (λ step. StepFits step × (step_name step ≡ names.In)) step_words
        (words_left rest.entry) result }
{
    let (id, rest) = count(rest, 0, LAST_ID)?;
    let (clock, rest) = amount(rest, GREATEST_CLOCK)?;
    let (clocks, rest) = span(rest, GREATEST_CLOCK)?;
    if !is_ended(rest) {
        return None;
    }
    Some(Step::Inside {
        id,
        clock,
        lo: clocks.lo,
        hi: clocks.hi,
    })
}

/// An undecided box with a span of clock offsets.
fn edge(rest: Rest<'_>) -> Option<Step>
    ensures { Reads (λ step. StepFits step × (step_name step ≡ names.Edge)) step_words
        (words_left rest.entry) result }
{
    let (id, rest) = count(rest, 0, LAST_ID)?;
    let (clock, rest) = span(rest, GREATEST_CLOCK)?;
    if !is_ended(rest) {
        return None;
    }
    Some(Step::Edge {
        id,
        lo: clock.lo,
        hi: clock.hi,
    })
}

/// The step of this name whose words behind the first are left.
pub fn step_fields(name: StepName, rest: Rest<'_>) -> Option<Step>
    ensures { Reads (λ step. StepFits step × (step_name step ≡ name)) step_words
        (words_left rest.entry) result }
{
    match name {
        StepName::Cut => cut(rest),
        StepName::Split => split(rest),
        StepName::Out => out(rest),
        StepName::In => inside(rest),
        StepName::Edge => edge(rest),
    }
}
