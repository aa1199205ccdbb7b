//! The lines of a report, each with its LF.

ghost use Rattle.std.specs.Prelude.{◌≡◌, ◌↔◌, ◌+◌, ◌≤◌, ◌∷◌, ◌++◌, length, IfSome, true};
ghost use Rattle.std.specs.Fmt.{decimal};
ghost use Rattle.log_tokens.specs.Words.{joined};
ghost use Rattle.grid_model.specs.Boxes.{grid_box};
ghost use Rattle.sat_model.specs.StepKinds.{is_split};
ghost use Rattle.epoch_report.specs.Metres.{metres_text};
ghost use Rattle.epoch_report.specs.ReportLines.{counted_name, box_words, in_words, edge_words};
ghost use Rattle.epoch_report.specs.ReportLines.{out_words, line_of, epoch_text_of, step_text_of};
ghost use Rattle.epoch_report.specs.ReportLines.{total_text_of};

use crate::counts::Counts4;
use crate::lengths::{push_metres, push_seconds};
use grid_model::Box3;
use itoa::Buffer;
use log_lines::Line;
use sat_model::Step;

/// A blank and a count.
fn push_count(line: &mut Line, count: u32)
    requires { length line.old.bytes ≤ 240 }
    ensures pushed { line.new.bytes ≡ line.old.bytes ++ 32 ∷ decimal count }
    ensures length { length line.new.bytes ≤ length line.old.bytes + 11 }
{
    let mut buffer = Buffer::new();
    line.push_str(" ");
    line.push_str(buffer.format(count));
}

/// Two lengths, each behind a blank.
fn push_two(line: &mut Line, lo: i64, hi: i64)
    requires { length line.old.bytes ≤ 205 }
    ensures pushed { line.new.bytes ≡ line.old.bytes ++ 32
        ∷ (metres_text lo ++ 32 ∷ metres_text hi) }
    ensures length { length line.new.bytes ≤ length line.old.bytes + 50 }
{
    push_metres(line, lo);
    push_metres(line, hi);
}

/// The ends of a box on each axis.
fn push_box(line: &mut Line, part: &Box3)
    requires { length line.old.bytes ≤ 50 }
    ensures pushed { line.new.bytes ≡ line.old.bytes ++ 32
        ∷ joined (box_words (grid_box part.now)) }
    ensures length { length line.new.bytes ≤ length line.old.bytes + 150 }
{
    push_two(line, part.lo.x, part.hi.x);
    push_two(line, part.lo.y, part.hi.y);
    push_two(line, part.lo.z, part.hi.z);
}

fn out_line(part: &Box3) -> Line
    ensures { result.bytes ≡ line_of (out_words (grid_box part.now)) }
{
    let mut line = Line::new();
    line.push_str("out");
    push_box(&mut line, part);
    line.push_str("\n");
    line
}

fn in_line(part: &Box3, clock: i64) -> Line
    ensures { result.bytes ≡ line_of (in_words (grid_box part.now) clock) }
{
    let mut line = Line::new();
    line.push_str("in");
    push_box(&mut line, part);
    line.push_str(" clock");
    push_metres(&mut line, clock);
    line.push_str("\n");
    line
}

fn edge_line(part: &Box3, lo: i64, hi: i64) -> Line
    ensures { result.bytes ≡ line_of (edge_words (grid_box part.now) lo hi) }
{
    let mut line = Line::new();
    line.push_str("edge");
    push_box(&mut line, part);
    line.push_str(" clock");
    push_two(&mut line, lo, hi);
    line.push_str("\n");
    line
}

/// The line of a step with the box that it closes or the slab that it cuts off. A split has none.
pub fn step_text(step: &Step, part: &Box3) -> Option<Line>
    ensures split { (result ≡ None) ↔ (is_split step.now ≡ true) }
    ensures text { IfSome result (λ line. line.bytes ≡ step_text_of step.now (grid_box part.now)) }
{
    match step {
        Step::Split { .. } => None,
        Step::Cut { .. } | Step::Outside { .. } => Some(out_line(part)),
        Step::Inside { clock, .. } => Some(in_line(part, *clock)),
        Step::Edge { lo, hi, .. } => Some(edge_line(part, *lo, *hi)),
    }
}

/// What the number of satellites of an epoch is called.
fn counted(few: bool) -> &'static str
    ensures named { result.now ≡ counted_name few }
    ensures length { length result.now ≤ 10 }
{
    if few { "few" } else { "satellites" }
}

/// The first line of an epoch: its index, its time in ps, and the number of its satellites.
pub fn epoch_text(few: bool, index: u32, ps: i128, n: u32) -> Line
    ensures { result.bytes ≡ epoch_text_of few index ps n }
{
    let mut line = Line::new();
    line.push_str("epoch");
    push_count(&mut line, index);
    line.push_str(" gps");
    push_seconds(&mut line, ps);
    line.push_str(" ");
    line.push_str(counted(few));
    push_count(&mut line, n);
    line.push_str("\n");
    line
}

/// The last line of a paved epoch.
pub fn total_text(counts: &Counts4) -> Line
    ensures { result.bytes ≡ total_text_of counts.now }
{
    let mut line = Line::new();
    line.push_str("total in");
    push_count(&mut line, counts.inside);
    line.push_str(" edge");
    push_count(&mut line, counts.edge);
    line.push_str(" out");
    push_count(&mut line, counts.outside);
    line.push_str(" bisections");
    push_count(&mut line, counts.bisections);
    line.push_str("\n");
    line
}
