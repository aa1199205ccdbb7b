//! The rows and the box of a case, each a line of a log.

ghost use Rattle.std.specs.Prelude.{IfSome};
ghost use Rattle.log_lines.specs.Lines.{LineFits};
ghost use Rattle.log_lines.specs.Rows.{CornersFit};

use grid_model::Box3;
use log_lines::{Corners, Form, LogLine, Place, line_at};
use sat_model::{Row, SatEntry};

/// A line of a block, where its rows and its root come.
fn block_line(line: &[u8]) -> Option<LogLine>
    ensures { IfSome result (λ l. LineFits l) }
{
    match line_at(Place::Satellites(Form::Rows, 64, 0), line) {
        Ok((line, _)) => Some(line),
        Err(_) => None,
    }
}

/// The row of the line.
pub fn row_at(line: &[u8]) -> Option<Row> {
    match block_line(line)? {
        LogLine::Sat(SatEntry::Row(row)) => Some(row),
        _ => None,
    }
}

/// The box of the line of a root.
pub fn box_at(line: &[u8]) -> Option<Box3> {
    match block_line(line)? {
        LogLine::Root(corners) => Some(box_of(corners)),
        _ => None,
    }
}

/// The box with these corners.
fn box_of(corners: Corners) -> Box3
    requires { CornersFit corners }
{
    Box3 {
        lo: corners.lo,
        hi: corners.hi,
    }
}
