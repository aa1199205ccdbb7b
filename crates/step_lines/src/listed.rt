//! Steps given one by one, as the lines of a text.

ghost use Rattle.std.specs.Prelude.{◌≡◌, ◌≤ℤ◌, false, List, [], ◌∷◌, ◌++◌, IfOk, IfSome, IfNone, IsTrue};
ghost use Rattle.std.specs.List.{AllByRecursion, count_by};
ghost use Rattle.grid_model.specs.Sizes.{IsWithin, IsClockSize};
ghost use Rattle.sat_model.specs.StepKinds.{is_kept_step};
ghost use Rattle.sat_model.specs.declared.steps.Step.{Step};
ghost use Rattle.step_lines.specs.Lines.{StepFits};
ghost use Rattle.step_lines.specs.Texts.{AreWritten};

use crate::fields::{GREATEST_BOUND, GREATEST_CLOCK, LAST_ID};
use crate::kinds::is_kept;
use crate::steps::LoggedSteps;
use crate::write::step_line;
use sat_model::Step;
use std::alloc::{AllocError, Global};
use std::rc::Rc;

/// Whether the number is at most `bound` in amount.
fn is_within(number: i64, bound: u64) -> bool
    ensures within { IsTrue result → IsWithin bound number }
    ensures beyond { result ≡ false → IsWithin bound number → ⊥ }
{
    number.unsigned_abs() <= bound
}

/// Whether the clock offsets are in order and fit in a line.
fn span_fits(lo: i64, hi: i64) -> bool
    ensures fits { IsTrue result → IsClockSize lo × IsClockSize hi × (lo ≤ℤ hi) }
    ensures none { result ≡ false → IsClockSize lo × IsClockSize hi × (lo ≤ℤ hi) → ⊥ }
{
    is_within(lo, GREATEST_CLOCK) && is_within(hi, GREATEST_CLOCK) && lo <= hi
}

/// Whether the step fits in a line.
fn fits(step: &Step) -> bool
    ensures fits { IsTrue result → StepFits step.now }
    ensures none { result ≡ false → StepFits step.now → ⊥ }
{
    match step {
        Step::Cut { id, face, bound } => {
            *id <= LAST_ID && *face <= 5 && is_within(*bound, GREATEST_BOUND)
        }
        Step::Split { id, axis } => *id <= LAST_ID && *axis <= 2,
        Step::Outside { id } => *id <= LAST_ID,
        Step::Inside { id, clock, lo, hi } => {
            *id <= LAST_ID && is_within(*clock, GREATEST_CLOCK) && span_fits(*lo, *hi)
        }
        Step::Edge { id, lo, hi } => *id <= LAST_ID && span_fits(*lo, *hi),
    }
}

/// Puts the line of a step behind a text, and tells whether the step fits in one. Want of memory is
/// the only error.
fn push_line(text: &mut Vec<u8>, step: &Step) -> Result<bool, AllocError>
    ensures written { IfOk result (λ fits. IsTrue fits → (steps : List Step) →
        AreWritten text.old.items steps → AreWritten text.new.items (steps ++ step.now ∷ [])) }
    ensures none { IfOk result (λ fits. fits ≡ false → StepFits step.now → ⊥) }
{
    if fits(step) {
        let line = step_line(step);
        text.extend_from_slice(line.as_bytes())?;
        return Ok(true);
    }
    Ok(false)
}

/// How many steps close a box inside or at the edge.
fn kept_among(steps: &[Step]) -> usize
    ensures { result ≡ count_by is_kept_step steps.now }
{
    steps.iter().filter(|step| is_kept(step)).count()
}

impl LoggedSteps {
    ghost use Rattle.step_lines.specs.Steps.{steps_of};

    /// These steps, in a text of their lines, and none exactly where one of them fits in no line.
    /// Want of memory is the only error.
    pub fn from_slice(alloc: Global, steps: &[Step]) -> Result<Option<LoggedSteps>, AllocError>
        ensures told { IfOk result (λ logged. IfSome logged (λ told. steps_of told ≡ steps.now)) }
        ensures none { IfOk result (λ logged. IfNone logged
            (AllByRecursion StepFits steps.now → ⊥)) }
    {
        let mut text = Vec::new(alloc);
        for step in steps {
            let fits = push_line(&mut text, step)?;
            if !fits {
                return Ok(None);
            }
        }
        let to = text.len();
        let text = Rc::new(alloc, text)?;
        Ok(Some(LoggedSteps::of_lines(text, 0, to, steps.len(), kept_among(steps))))
    }
}
