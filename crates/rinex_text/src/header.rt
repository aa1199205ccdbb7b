//! The header of a file.

ghost use Rattle.std.specs.Prelude.{◌≤◌, ◌↔◌, IsTrue, length};
ghost use Rattle.rinex_text.specs.Lines.{lines_of};
ghost use Rattle.rinex_text.specs.Headers.{IsVersion, IsSystemOf, IsShort, version_line_of};
ghost use Rattle.rinex_text.specs.Headers.{version_of, version_by, header_from};
ghost use Rattle.rinex_text.specs.Reading.{plain_line, lines_left, left_of};

use crate::fault::{Fault, Refusal};
use crate::fields::{column, columns, is_labelled};
use crate::lines::{Line, Lines};
use exact_decimal::{Unit, read_fixed, to_unit_between};

/// The most bytes that a line may have, without its LF.
const LONGEST_LINE: usize = 4_096;

/// Versions 3.00 and 3.05, in units of 10^-16.
const FIRST_VERSION: i128 = 30_000_000_000_000_000;

const LAST_VERSION: i128 = 30_500_000_000_000_000;

/// Whether the field is a version from 3.00 to 3.05.
fn is_version(field: &[u8]) -> bool
    ensures { IsTrue result ↔ IsVersion field.now }
{
    let Ok(Some(number)) = read_fixed(field) else {
        return false;
    };
    to_unit_between(number, Unit::Ratio, FIRST_VERSION, LAST_VERSION).is_some()
}

/// Whether the letter stands for GPS or for mixed files, or is blank; where both systems are read
/// it may stand for Galileo.
fn is_system(letter: u8, both: bool) -> bool
    ensures { IsTrue result ↔ IsSystemOf both letter }
{
    matches!(letter, b'G' | b'M' | b' ' | b'\t') || (both && letter == b'E')
}

/// Whether the line has at most 4,096 bytes.
pub fn is_short(line: Line<'_>) -> bool
    ensures { IsTrue result ↔ IsShort (plain_line line.entry) }
{
    line.size <= LONGEST_LINE
}

/// The tests of the version line of a file of this kind, `b'N'` or `b'O'`.
fn version_line(line: Line<'_>, kind: u8, both: bool) -> Result<(), Fault>
    ensures { version_line_of both kind (plain_line line.entry) result }
{
    if !is_short(line) {
        return Err(Fault::LongLine);
    }
    if !is_labelled(line.text, b"RINEX VERSION / TYPE") {
        return Err(Fault::NotRinex);
    }
    if !is_version(columns(line.text, 1, 9)) {
        return Err(Fault::Version);
    }
    if column(line.text, 21) != kind {
        return Err(Fault::Kind);
    }
    if !is_system(column(line.text, 41), both) {
        return Err(Fault::System);
    }
    Ok(())
}

/// The lines behind the version line of a file of this kind, `b'N'` or `b'O'`, of which the
/// satellites of GPS are read, or those of `both` systems.
pub fn behind_version_of(bytes: &[u8], kind: u8, both: bool) -> Result<Lines<'_>, Refusal>
    requires { length bytes.now ≤ 4000000000 }
    ensures { version_by both kind (lines_of bytes.now) (left_of result) }
{
    let Some((line, behind)) = Lines::new(bytes).split_first() else {
        return Err(Refusal::new(Fault::NotRinex, 1));
    };
    match version_line(line, kind, both) {
        Ok(()) => Ok(behind),
        Err(fault) => Err(Refusal::new(fault, 1)),
    }
}

/// Where the satellites of GPS are read.
pub fn behind_version(bytes: &[u8], kind: u8) -> Result<Lines<'_>, Refusal>
    requires { length bytes.now ≤ 4000000000 }
    ensures { version_of kind (lines_of bytes.now) (left_of result) }
{
    behind_version_of(bytes, kind, false)
}

/// The lines behind `END OF HEADER`. Nothing else of these header lines is read.
pub fn behind_header(lines: Lines<'_>) -> Result<Lines<'_>, Refusal>
    ensures { header_from lines.entry.number (lines_left lines.entry) (left_of result) }
{
    let mut left = lines;
    'header: while let Some((line, behind)) = left.split_first() {
        if !is_short(line) {
            return Err(Refusal::new(Fault::LongLine, left.number));
        }
        left = behind;
        if is_labelled(line.text, b"END OF HEADER") {
            return Ok(left);
        }
    }
    Err(Refusal::new(Fault::NoEndOfHeader, left.number))
}
