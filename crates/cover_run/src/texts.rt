//! The lines of a verdict.

ghost use Rattle.std.specs.Prelude.{◌≡◌, ◌≤◌, length};
ghost use Rattle.cover_run.specs.Texts.{yes_text, no_text, test_name};

use crate::Fault;
use arrayvec::ArrayString;
use itoa::Buffer;

/// A line with its LF.
pub type Line = ArrayString<128>;

/// `yes BOXES`: the log is right.
pub fn yes_line(boxes: u64) -> Line
    ensures { result.bytes ≡ yes_text boxes }
{
    let mut buffer = Buffer::new();
    let mut line = Line::new();
    line.push_str("yes ");
    line.push_str(buffer.format(boxes));
    line.push_str("\n");
    line
}

/// `no NUMBER NAME line LINE`: the log's first fault.
pub fn no_line(fault: &Fault) -> Line
    ensures { result.bytes ≡ no_text fault.now.number fault.now.line }
{
    let mut buffer = Buffer::new();
    let mut line = Line::new();
    line.push_str("no ");
    line.push_str(buffer.format(fault.number));
    line.push_str(" ");
    line.push_str(name_of_test(fault.number));
    line.push_str(" line ");
    line.push_str(buffer.format(fault.line));
    line.push_str("\n");
    line
}

/// The name of a test of a log's lines, and nothing for another number.
pub fn name_of_test(number: u8) -> &'static str
    ensures name { result.now ≡ test_name number }
    ensures short { length result.now ≤ 16 }
{
    match number {
        50 => "RulesDiffer",
        51 => "EpochDiffers",
        52 => "SatelliteDiffers",
        53 => "RowNarrow",
        54 => "BoundDiffers",
        55 => "RootDiffers",
        56 => "NotLive",
        57 => "CutNotShown",
        58 => "OutNotShown",
        59 => "InNotShown",
        60 => "ClockNarrow",
        61 => "BadSplit",
        62 => "OverBudget",
        63 => "NotClosed",
        64 => "CountDiffers",
        65 => "BadRenew",
        66 => "BoundNotShown",
        _ => "",
    }
}
