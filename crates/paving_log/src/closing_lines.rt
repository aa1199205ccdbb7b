//! What stands behind a root up to the bounds: in a log the steps and renewals, and the number of
//! splits.

ghost use Rattle.std.specs.Prelude.{◌≡◌, ℕ, List, ◌++◌, [], ◌∷◌, cond, map, length, IfOk, IfErr};
ghost use Rattle.std.specs.List.{flat_map};
ghost use Rattle.grid_model.specs.Boxes.{grid_box};
ghost use Rattle.sat_model.specs.StepKinds.{is_kept_step};
ghost use Rattle.log_lines.specs.declared.line.Form.TheVariants as forms;
ghost use Rattle.log_lines.specs.declared.line.LogLine.TheVariants as line;
ghost use Rattle.log_lines.specs.declared.line.Place.TheVariants as place;
ghost use Rattle.paving_log.specs.EventValues.{events_of};
ghost use Rattle.log_lines.specs.Order.{place_behind_root, place_behind_done};
ghost use Rattle.log_lines.specs.Rows.{CornersFit, corners_of};
ghost use Rattle.paving_log.specs.Taking.{Takes, Refuses, IsEndOf, HasBetween, stepped_lines};
ghost use Rattle.paving_log.specs.Taking.{place_behind_steps, AllStepsFit};
ghost use Rattle.step_lines.specs.Steps.{steps_of};
ghost use Rattle.step_lines.specs.Texts.{AreLines, told_steps};
ghost use Rattle.log_lines.specs.Text.{row_line, event_lines};

use crate::events::Events;
use crate::lines::Lines;
use crate::log::LogError;
use crate::renewal::Renewal;
use crate::take::{take_line, take_step};
use grid_model::Box3;
use log_lines::{ClosingLine, Corners, Form, LogForm, LogLine, Place};
use sat_model::{Row, SatEntry, Step};
use std::alloc::{AllocError, Global};
use std::rc::Rc;
use step_lines::{LoggedSteps, is_kept};

/// The box with these corners.
pub fn box_of(corners: Corners) -> Box3
    requires { CornersFit corners }
    ensures { corners_of (grid_box result) ≡ corners }
{
    Box3 {
        lo: corners.lo,
        hi: corners.hi,
    }
}

/// The lines of the rows behind the box of a renewal.
fn renewed_rows(
    alloc: Global,
    may: LogForm,
    n: u32,
    lines: Lines<'_>,
) -> Result<(Vec<Row>, Lines<'_>), LogError>
    ensures taken { IfOk result
        (λ t. Takes (place.Steps may n n) lines.entry (map row_line t.0.items)
        (place.Steps may n 0) t.1) }
    ensures many { IfOk result (λ t. length t.0.items ≡ n) }
    ensures refused { IfErr result (Refuses (place.Steps may n n) lines.entry) }
{
    let mut rows = Vec::new(alloc);
    let mut behind = lines;
    let mut left = n;
    'rows: while 0 < left {
        let (line, _, after) = take_line(behind, Place::Steps(may, n, left))?;
        behind = after;
        match line {
            LogLine::Sat(entry) => match entry {
                SatEntry::Row(row) => rows.push(row)?,
                SatEntry::Skipped { .. } => unreachable!(),
            },
            _ => unreachable!(),
        }
        left -= 1;
    }
    rows.shrink_to_fit();
    Ok((rows, behind))
}

/// The steps, as many as told, whose lines stand in the text between what was left of it before and
/// what is left now. As many as told close a box inside or at the edge. Want of memory is the only
/// error.
fn steps_between(
    text: &Rc<Vec<u8>>,
    before: Lines<'_>,
    now: Lines<'_>,
    count: u32,
    kept: u32,
) -> Result<LoggedSteps, AllocError>
    requires whole { IsEndOf before.rest.now text.now.value.items }
    requires between { HasBetween before.rest.now now.rest.now count kept }
    ensures { IfOk result (λ steps. (part : List ℕ) →
        before.entry.rest.now ≡ part ++ now.entry.rest.now →
        (found : AreLines part) → steps_of steps ≡ told_steps part found) }
{
    let bytes: &Vec<u8> = text;
    let from = bytes.len() - before.rest.len();
    let to = bytes.len() - now.rest.len();
    let text = text.clone()?;
    Ok(LoggedSteps::of_lines(text, from, to, count as usize, kept as usize))
}

/// How many boxes a step closes inside or at the edge: one or none.
fn kept_count(step: &Step) -> u32
    ensures { result ≡ cond (is_kept_step step.now) 1 0 }
{
    if is_kept(step) { 1 } else { 0 }
}

/// The steps and renewals of an epoch, and the number of splits behind them.
fn events<'a>(
    alloc: Global,
    text: &Rc<Vec<u8>>,
    may: LogForm,
    n: u32,
    lines: Lines<'a>,
) -> Result<(Events, u32, Lines<'a>), LogError>
    requires { IsEndOf lines.rest.now text.now.value.items }
    ensures taken { IfOk result
        (λ t. Takes (place.Steps may n 0) lines.entry (flat_map event_lines (events_of t.0)
        ++ line.Done t.1 ∷ []) (place_behind_done may) t.2) }
    ensures fits { IfOk result (λ t. AllStepsFit (forms.Log may) n (events_of t.0) t.1) }
    ensures refused { IfErr result (Refuses (place.Steps may n 0) lines.entry) }
{
    let mut renewals = Vec::new(alloc);
    let mut count = 0;
    let mut kept = 0;
    let mut left = lines;
    'events: loop {
        let (line, behind) = take_step(left, may, n)?;
        match line {
            ClosingLine::Step(step) => {
                count += 1;
                kept += kept_count(&step);
                left = behind;
            }
            ClosingLine::Renew(corners) => {
                let (rows, behind) = renewed_rows(alloc, may, n, behind)?;
                let part = box_of(corners);
                let renewal = Renewal {
                    at: count,
                    part,
                    rows,
                };
                renewals.push(renewal)?;
                left = behind;
            }
            ClosingLine::Done(splits) => {
                renewals.shrink_to_fit();
                let steps = steps_between(text, lines, left, count, kept)?;
                return Ok((Events { steps, renewals }, splits, behind));
            }
        }
    }
}

/// What stands behind a root up to the bounds: the steps and renewals and the number of splits, and
/// nothing in the rows form.
pub fn closing<'a>(
    alloc: Global,
    text: &Rc<Vec<u8>>,
    form: Form,
    n: u32,
    lines: Lines<'a>,
) -> Result<(Events, u32, Lines<'a>), LogError>
    requires { IsEndOf lines.rest.now text.now.value.items }
    ensures taken { IfOk result
        (λ t. Takes (place_behind_root form n) lines.entry (stepped_lines form (events_of t.0) t.1)
        (place_behind_steps form) t.2) }
    ensures fits { IfOk result (λ t. AllStepsFit form n (events_of t.0) t.1) }
    ensures refused { IfErr result (Refuses (place_behind_root form n) lines.entry) }
{
    match form {
        Form::Log(may) => events(alloc, text, may, n, lines),
        Form::Rows => Ok((Events::new(alloc), 0, lines)),
    }
}
