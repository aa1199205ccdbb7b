//! The satellite lines of a block.

ghost use Rattle.std.specs.Prelude.{◌≡◌, ◌≤◌, pos, IfOk};
ghost use Rattle.epoch_rows.specs.Grown.{IsGrownRow, IsGrownLine, AreGrownLines, greatest_spare};
ghost use Rattle.epoch_rows.specs.Grown.{greatest_err_spare, skips_of};
ghost use Rattle.grid_model.specs.Boxes.{grid_box};
ghost use Rattle.grid_model.specs.Lengths.{spare_of};
ghost use Rattle.gnss_model.specs.Delays.{AreDelays, err_spare_of};
ghost use Rattle.sat_rows.specs.OwnRows.{IsSmallRow, IsSmallLine, AreSmall};

use gnss_model::{Delays, err_spare, spare};
use grid_model::{Box3, NoMemory};
use sat_model::{Row, SatEntry};
use sat_rows::{SatLine, grown};
use std::alloc::Global;

/// By how much a row over this root is made wider at each end, in um: as much as its spans may be
/// wide.
fn room_over(root: &Box3) -> i64
    ensures value { result ≡ pos (spare_of (grid_box root.now)) }
    ensures most { spare_of (grid_box root.now) ≤ greatest_spare }
{
    spare(root)
}

/// The same of the spans of its low and of its high ends of the error.
fn err_room_over(root: &Box3, delays: Delays) -> i64
    requires { AreDelays delays }
    ensures value { result ≡ pos (err_spare_of (grid_box root.now) delays) }
    ensures most { err_spare_of (grid_box root.now) delays ≤ greatest_err_spare }
{
    err_spare(root, delays)
}

/// The row of a box, wider by this at both ends.
pub fn grown_row(row: &Row, part: &Box3, delays: Delays) -> Row
    requires small { IsSmallRow row.now }
    requires delays { AreDelays delays }
    ensures { IsGrownRow (pos (spare_of (grid_box part.now)))
        (pos (err_spare_of (grid_box part.now) delays)) row.now result }
{
    grown(row, room_over(part), err_room_over(part, delays))
}

/// The line, whose row is wider by this at both ends.
fn grown_line(line: &SatLine, root: &Box3, delays: Delays) -> SatEntry
    requires small { IsSmallLine line.now }
    requires delays { AreDelays delays }
    ensures { IsGrownLine (pos (spare_of (grid_box root.now)))
        (pos (err_spare_of (grid_box root.now) delays)) line.now result }
{
    match line {
        SatLine::Usable(row) => SatEntry::Row(grown_row(row, root, delays)),
        SatLine::Skipped { sat, skip } => SatEntry::Skipped {
            sat: *sat,
            skip: *skip,
        },
    }
}

/// All lines, their rows wider in this way.
pub fn grown_lines(
    alloc: Global,
    lines: &[SatLine],
    root: &Box3,
    delays: Delays,
) -> Result<Vec<SatEntry>, NoMemory>
    requires small { AreSmall lines.now }
    requires delays { AreDelays delays }
    ensures { IfOk result (λ sats. AreGrownLines (pos (spare_of (grid_box root.now)))
        (pos (err_spare_of (grid_box root.now) delays)) lines.now sats.items) }
{
    let mut sats = Vec::new(alloc);
    for line in lines {
        sats.push(grown_line(line, root, delays))?;
    }
    Ok(sats)
}

/// The lines of the satellites that aren't usable.
pub fn skip_lines(alloc: Global, lines: &[SatLine]) -> Result<Vec<SatEntry>, NoMemory>
    ensures { IfOk result (λ sats. sats.items ≡ skips_of lines.now) }
{
    let mut sats = Vec::new(alloc);
    for line in lines {
        match line {
            SatLine::Usable(_) => {}
            SatLine::Skipped { sat, skip } => sats.push(SatEntry::Skipped {
                sat: *sat,
                skip: *skip,
            })?,
        }
    }
    Ok(sats)
}
