//! The steps that are left, read one after another.

ghost use Rattle.step_lines.specs.Texts.{AreLines};
ghost use Rattle.step_lines.specs.OneSpelling.{AreLines-prop};

use crate::first_line::first_line;
use sat_model::Step;

/// The steps whose lines a text has, one after another.
#[derive(Clone, Copy)]
pub struct StepsAhead<'a> {
    pub(crate) text: &'a [u8],
    ghost found: { AreLines text.now } by { AreLines-prop text.now },
}

impl<'a> Iterator for StepsAhead<'a> {
    ghost use Rattle.std.specs.Iterator.{YieldsFirst, item_count};
    ghost use Rattle.step_lines.specs.Steps.{steps_left};

    type Item = Step;

    ghost next_gives = { YieldsFirst steps_left };

    ghost remaining = { item_count steps_left };

    fn next(&mut self) -> Option<Step> {
        'lines: loop {
            let (first, behind) = first_line(self.text)?;
            self.text = behind;
            if let Some(step) = first {
                return Some(step);
            }
        }
    }
}
