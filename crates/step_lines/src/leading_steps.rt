//! A fast way to read the line of a step at the front of a text. `None` says nothing of the text:
//! the exact reader decides.

ghost use Rattle.std.specs.Prelude.{IfSome};
ghost use Rattle.step_lines.specs.declared.names.StepName.TheVariants as names;
ghost use Rattle.step_lines.specs.Leading.{HasFields, HasStep};

use crate::fields::{GREATEST_BOUND, GREATEST_CLOCK, LAST_ID};
use log_tokens::{leading_amount, leading_count, leading_digit};
use sat_model::Step;

/// The fields of a cut.
fn leading_cut(fields: &[u8]) -> Option<(Step, &[u8])>
    ensures { IfSome result (λ found. HasFields names.Cut fields.now found.0 found.1.now) }
{
    let (id, rest) = leading_count(fields, b' ', LAST_ID)?;
    let (face, rest) = leading_digit(rest, b' ', 5)?;
    let (bound, rest) = leading_amount(rest, b'\n', GREATEST_BOUND)?;
    Some((Step::Cut { id, face, bound }, rest))
}

/// The fields of a split.
fn leading_split(fields: &[u8]) -> Option<(Step, &[u8])>
    ensures { IfSome result (λ found. HasFields names.Split fields.now found.0 found.1.now) }
{
    let (id, rest) = leading_count(fields, b' ', LAST_ID)?;
    let (axis, rest) = leading_digit(rest, b'\n', 2)?;
    Some((Step::Split { id, axis }, rest))
}

/// The field of a box without a fitting point.
fn leading_out(fields: &[u8]) -> Option<(Step, &[u8])>
    ensures { IfSome result (λ found. HasFields names.Out fields.now found.0 found.1.now) }
{
    let (id, rest) = leading_count(fields, b'\n', LAST_ID)?;
    Some((Step::Outside { id }, rest))
}

/// The fields of a box whose points all fit.
fn leading_inside(fields: &[u8]) -> Option<(Step, &[u8])>
    ensures { IfSome result (λ found. HasFields names.In fields.now found.0 found.1.now) }
{
    let (id, rest) = leading_count(fields, b' ', LAST_ID)?;
    let (clock, rest) = leading_amount(rest, b' ', GREATEST_CLOCK)?;
    let (lo, rest) = leading_amount(rest, b' ', GREATEST_CLOCK)?;
    let (hi, rest) = leading_amount(rest, b'\n', GREATEST_CLOCK)?;
    if lo > hi {
        return None;
    }
    Some((Step::Inside { id, clock, lo, hi }, rest))
}

/// The fields of an undecided box.
fn leading_edge(fields: &[u8]) -> Option<(Step, &[u8])>
    ensures { IfSome result (λ found. HasFields names.Edge fields.now found.0 found.1.now) }
{
    let (id, rest) = leading_count(fields, b' ', LAST_ID)?;
    let (lo, rest) = leading_amount(rest, b' ', GREATEST_CLOCK)?;
    let (hi, rest) = leading_amount(rest, b'\n', GREATEST_CLOCK)?;
    if lo > hi {
        return None;
    }
    Some((Step::Edge { id, lo, hi }, rest))
}

/// The step whose line stands at the front, and what stands behind its LF.
pub fn leading_step(text: &[u8]) -> Option<(Step, &[u8])>
    ensures { IfSome result (λ found. HasStep text.now found.0 found.1.now) }
{
    match text {
        [b'c', b'u', b't', b' ', fields @ ..] => leading_cut(fields),
        [b'e', b'd', b'g', b'e', b' ', fields @ ..] => leading_edge(fields),
        [b's', b'p', b'l', b'i', b't', b' ', fields @ ..] => leading_split(fields),
        [b'o', b'u', b't', b' ', fields @ ..] => leading_out(fields),
        [b'i', b'n', b' ', fields @ ..] => leading_inside(fields),
        _ => None,
    }
}
