//! The steps of an epoch, as the lines of a text.

ghost use Rattle.std.specs.Prelude.{◌≤◌, length, slice_range};
ghost use Rattle.step_lines.specs.Texts.{AreCounted};
ghost use Rattle.step_lines.specs.OneSpelling.{AreCounted-prop};

use crate::ahead::StepsAhead;
use std::rc::Rc;

/// The bytes of a text in which so many lines of steps stand, and none but those of renewals among
/// them. So many of the steps close a box inside or at the edge.
#[derive(Debug, Drop)]
pub struct Part {
    text: Rc<Vec<u8>>,
    from: usize,
    to: usize,
    count: usize,
    kept: usize,
    ghost ordered: { from ≤ to },
    ghost within: { to ≤ length text.value.items },
    ghost counted: { AreCounted (slice_range text.value.items from to) count kept } by { AreCounted-prop (slice_range text.value.items from to) count kept },
}

/// Steps in their order. They take no memory beside the text that has their lines.
#[derive(Debug, Drop)]
pub struct LoggedSteps {
    part: Option<Part>,
}

impl LoggedSteps {
    ghost use Rattle.std.specs.Prelude.{◌≡◌, ◌<◌, ◌^◌, [], count_by};
    ghost use Rattle.sat_model.specs.StepKinds.{is_kept_step};
    ghost use Rattle.step_lines.specs.Texts.{AreLines, told_steps};
    ghost use Rattle.step_lines.specs.Steps.{steps_of, steps_left};

    /// No steps.
    pub fn new() -> LoggedSteps
        ensures { steps_of result ≡ [] }
    {
        LoggedSteps { part: None }
    }

    /// The steps, as many as told, whose lines stand in a text from one byte up to another. As many
    /// as told close a box inside or at the edge.
    pub fn of_lines(
        text: Rc<Vec<u8>>,
        from: usize,
        to: usize,
        count: usize,
        kept: usize,
    ) -> LoggedSteps
        requires ordered { from ≤ to }
        requires within { to ≤ length text.value.items }
        requires counted { AreCounted (slice_range text.value.items from to) count kept }
        ensures { (found : AreLines (slice_range text.value.items from to)) →
            steps_of result ≡ told_steps (slice_range text.value.items from to) found }
    {
        let part = Part {
            text,
            from,
            to,
            count,
            kept,
        };
        LoggedSteps { part: Some(part) }
    }

    /// How many steps there are.
    pub fn len(&self) -> usize
        ensures { result ≡ length (steps_of self.now) }
    {
        match &self.part {
            Some(part) => part.count,
            None => 0,
        }
    }

    /// How many steps close a box inside or at the edge.
    pub fn kept(&self) -> usize
        ensures { result ≡ count_by is_kept_step (steps_of self.now) }
    {
        match &self.part {
            Some(part) => part.kept,
            None => 0,
        }
    }

    /// The steps from the first one on.
    pub fn ahead(&self) -> StepsAhead<'_>
        ensures all { steps_left result ≡ steps_of self.now }
        ensures few { length (steps_of self.now) < 2 ^ 62 }
    {
        let Some(part) = &self.part else {
            return StepsAhead { text: &[] };
        };
        let text: &Vec<u8> = &part.text;
        StepsAhead {
            text: &text[part.from..part.to],
        }
    }
}
