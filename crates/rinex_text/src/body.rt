//! What stands behind the header of a file.

ghost use Rattle.std.specs.Prelude.{◌≡◌, ◌<◌, ◌+◌, ◌∷◌, [], IfSome, IfNone};
ghost use Rattle.rinex_text.specs.Bodies.{counted};
ghost use Rattle.rinex_text.specs.Reading.{plain_line, lines_left, body_left};

use crate::fields::is_blank_text;
use crate::lines::{Line, Lines};

/// The lines behind a header: all but the blank ones at the end of the file.
#[derive(Clone, Copy)]
pub struct Body<'a> {
    pub lines: Lines<'a>,
    /// So many of the lines count.
    pub left: usize,
}

impl<'a> Body<'a> {
    /// The body of which these are the lines behind the header. It reads each of them once.
    pub fn new(lines: Lines<'a>) -> Body<'a>
        ensures lines { body_left result ≡ counted (lines_left lines.entry) }
        ensures number { result.lines.number ≡ lines.entry.number }
    {
        let mut seen = 0;
        let mut left = 0;
        let mut rest = lines;
        'lines: while let Some((line, behind)) = rest.split_first() {
            seen += 1;
            if !is_blank_text(line.text) {
                left = seen;
            }
            rest = behind;
        }
        Body { lines, left }
    }

    /// The next line and the body behind it, none at the end.
    pub fn split_first(self) -> Option<(Line<'a>, Body<'a>)>
        ensures line { IfSome result (λ t. body_left self.entry ≡ plain_line t.0 ∷ body_left t.1) }
        ensures number { IfSome result (λ t. t.1.lines.number ≡ self.entry.lines.number + 1) }
        ensures shorter { IfSome result (λ t. t.1.left < self.entry.left) }
        ensures end { IfNone result (body_left self.entry ≡ []) }
    {
        if self.left == 0 {
            return None;
        }
        let (line, lines) = self.lines.split_first()?;
        let left = self.left - 1;
        Some((line, Body { lines, left }))
    }
}
