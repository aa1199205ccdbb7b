//! The line of a step, in its one spelling with its LF. It takes no memory.

ghost use Rattle.std.specs.Prelude.{◌≡◌, ◌+◌, ◌≤◌, [], ◌∷◌, ◌++◌, length};
ghost use Rattle.std.specs.Fmt.{signed_decimal};
ghost use Rattle.sat_model.specs.declared.steps.Step.TheVariants as steps;
ghost use Rattle.step_lines.specs.Lines.{step_text};

use arrayvec::ArrayString;
use itoa::Buffer;
use sat_model::Step;

/// A line of a log. The longest, that of a row with the ends of what is surely allowed, has at most
/// 196 bytes.
pub type Line = ArrayString<256>;

/// A blank and a number.
pub fn push_number(line: &mut Line, number: i64)
    requires { length line.old.bytes ≤ 235 }
    ensures pushed { line.new.bytes ≡ line.old.bytes ++ 32 ∷ signed_decimal number }
    ensures length { length line.new.bytes ≤ length line.old.bytes + 21 }
{
    let mut buffer = Buffer::new();
    line.push_str(" ");
    line.push_str(buffer.format(number));
}

/// Two numbers, each behind a blank.
pub fn push_numbers(line: &mut Line, first: i64, second: i64)
    requires { length line.old.bytes ≤ 214 }
    ensures pushed { line.new.bytes ≡ line.old.bytes ++ 32
        ∷ (signed_decimal first ++ 32 ∷ signed_decimal second) }
    ensures length { length line.new.bytes ≤ length line.old.bytes + 42 }
{
    push_number(line, first);
    push_number(line, second);
}

/// Three numbers, each behind a blank.
pub fn push_three(line: &mut Line, first: i64, second: i64, third: i64)
    requires { length line.old.bytes ≤ 193 }
    ensures pushed { line.new.bytes ≡ line.old.bytes ++ 32
        ∷ (signed_decimal first ++ 32 ∷ (signed_decimal second ++ 32 ∷ signed_decimal third)) }
    ensures length { length line.new.bytes ≤ length line.old.bytes + 63 }
{
    push_numbers(line, first, second);
    push_number(line, third);
}

fn cut_line(id: u32, face: u8, bound: i64) -> Line
    ensures { result.bytes ≡ step_text (steps.Cut id face bound) ++ 10 ∷ [] }
{
    let mut line = Line::new();
    line.push_str("cut");
    push_numbers(&mut line, i64::from(id), i64::from(face));
    push_number(&mut line, bound);
    line.push_str("\n");
    line
}

fn split_line(id: u32, axis: u8) -> Line
    ensures { result.bytes ≡ step_text (steps.Split id axis) ++ 10 ∷ [] }
{
    let mut line = Line::new();
    line.push_str("split");
    push_numbers(&mut line, i64::from(id), i64::from(axis));
    line.push_str("\n");
    line
}

fn out_line(id: u32) -> Line
    ensures { result.bytes ≡ step_text (steps.Outside id) ++ 10 ∷ [] }
{
    let mut line = Line::new();
    line.push_str("out");
    push_number(&mut line, i64::from(id));
    line.push_str("\n");
    line
}

fn in_line(id: u32, clock: i64, lo: i64, hi: i64) -> Line
    ensures { result.bytes ≡ step_text (steps.Inside id clock lo hi) ++ 10 ∷ [] }
{
    let mut line = Line::new();
    line.push_str("in");
    push_number(&mut line, i64::from(id));
    push_three(&mut line, clock, lo, hi);
    line.push_str("\n");
    line
}

fn edge_line(id: u32, lo: i64, hi: i64) -> Line
    ensures { result.bytes ≡ step_text (steps.Edge id lo hi) ++ 10 ∷ [] }
{
    let mut line = Line::new();
    line.push_str("edge");
    push_number(&mut line, i64::from(id));
    push_numbers(&mut line, lo, hi);
    line.push_str("\n");
    line
}

/// The line of a step.
pub fn step_line(step: &Step) -> Line
    ensures { result.bytes ≡ step_text step.now ++ 10 ∷ [] }
{
    match step {
        Step::Cut { id, face, bound } => cut_line(*id, *face, *bound),
        Step::Split { id, axis } => split_line(*id, *axis),
        Step::Outside { id } => out_line(*id),
        Step::Inside { id, clock, lo, hi } => in_line(*id, *clock, *lo, *hi),
        Step::Edge { id, lo, hi } => edge_line(*id, *lo, *hi),
    }
}
