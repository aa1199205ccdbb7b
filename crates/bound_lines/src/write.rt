//! The lines of a bound, in their one spelling with their LF. They take no memory.

ghost use Rattle.std.specs.Prelude.{◌≡◌, ◌+◌, ◌≤◌, [], ◌∷◌, ◌++◌, length};
ghost use Rattle.std.specs.Fmt.{decimal, signed_decimal};
ghost use Rattle.bound_lines.specs.BoundLines.{bound_text, sum_text};

use crate::bound_head::BoundHead;
use sat_model::{RowSum, Term};
use step_lines::{Line, push_number, push_numbers, push_three};

/// The place of a row and its multiplier, each behind a blank.
fn push_term(line: &mut Line, term: &Term)
    requires { length line.old.bytes ≤ 214 }
    ensures pushed { line.new.bytes ≡ line.old.bytes ++ 32
        ∷ (decimal term.now.place ++ 32 ∷ signed_decimal term.now.multiplier) }
    ensures length { length line.new.bytes ≤ length line.old.bytes + 42 }
{
    push_numbers(line, i64::from(term.place), term.multiplier);
}

/// The line of a half-space and of the number of its sums.
pub fn bound_line(head: &BoundHead) -> Line
    ensures { result.bytes ≡ bound_text head.now ++ 10 ∷ [] }
{
    let mut line = Line::new();
    line.push_str("bound");
    push_three(&mut line, head.half.x, head.half.y, head.half.z);
    push_numbers(&mut line, head.half.most, i64::from(head.sums));
    line.push_str("\n");
    line
}

/// The line of a sum of rows.
pub fn sum_line(sum: &RowSum) -> Line
    ensures { result.bytes ≡ sum_text sum.now ++ 10 ∷ [] }
{
    let mut line = Line::new();
    line.push_str("by");
    push_number(&mut line, sum.aim as i64);
    push_term(&mut line, &sum.first);
    push_term(&mut line, &sum.second);
    push_term(&mut line, &sum.third);
    push_term(&mut line, &sum.fourth);
    push_term(&mut line, &sum.fifth);
    line.push_str("\n");
    line
}
