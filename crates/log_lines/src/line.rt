//! The lines of a log, and where each may come.

use crate::limits::Limits;
use grid_model::Pos;
use sat_model::{HalfSpace, RowSum, SatEntry, Step};
use step_lines::StepName;

/// The fields of the first line of a block.
#[derive(Clone, Copy, Debug, PartialEq, Eq)]
pub struct Header {
    pub index: u32,
    pub ps: i128,
    pub n: u32,
}

/// The low and the high corner of a root, or of the box of a renewal.
#[derive(Clone, Copy, Debug, PartialEq, Eq)]
pub struct Corners {
    pub lo: Pos,
    pub hi: Pos,
}

/// A line.
#[derive(Clone, Copy, Debug, PartialEq, Eq)]
pub enum LogLine {
    /// The version, which tells whether pairs of rows show boxes empty, whether rows may be renewed,
    /// and whether there may be bounds.
    Version(u8),
    Rules(Limits),
    Few(Header),
    Epoch(Header),
    Sat(SatEntry),
    Root(Corners),
    Step(Step),
    /// The box of a renewal.
    Renew(Corners),
    Done(u32),
    /// A half-space that holds what fits, and how many sums of rows behind it show it.
    Bound(HalfSpace, u8),
    /// One of these sums.
    By(RowSum),
}

/// A line behind the root of a log, up to that of the splits, but for those of renewed rows.
#[derive(Clone, Copy, Debug, PartialEq, Eq)]
pub enum ClosingLine {
    Step(Step),
    /// The box of a renewal.
    Renew(Corners),
    /// The number of splits.
    Done(u32),
}

/// The first word of a line.
#[derive(Clone, Copy, Debug, PartialEq, Eq)]
pub enum LineName {
    Gpscover,
    Rules,
    Few,
    Epoch,
    Sat,
    Skip,
    Root,
    Step(StepName),
    Renew,
    Done,
    Bound,
    By,
}

/// What is read: a log, or its rows alone.
#[derive(Clone, Copy, Debug, PartialEq, Eq)]
pub enum Kind {
    Log,
    Rows,
}

/// What a log may have behind a root, by its version.
#[derive(Clone, Copy, Debug, PartialEq, Eq)]
pub struct LogForm {
    /// Whether rows may be renewed.
    pub renews: bool,
    /// Whether there may be bounds.
    pub bounds: bool,
}

/// Which lines a text has: those of a log, or those of its rows alone, where each block with a root
/// ends with the line of the root.
#[derive(Clone, Copy, Debug, PartialEq, Eq)]
pub enum Form {
    Log(LogForm),
    Rows,
}

/// What may come next.
#[derive(Clone, Copy, Debug, PartialEq, Eq)]
pub enum Place {
    /// The line of the version.
    First(Kind),
    /// The line of the rules.
    Second(Form),
    /// A block, or the end.
    Between(Form),
    /// In a block of so many usable satellites, behind so many satellite lines.
    Satellites(Form, u32, usize),
    /// Behind so many satellite lines of a block of few satellites.
    Few(Form, usize),
    /// Behind the root of a log: of how many satellites rows are renewed, and how many rows of a
    /// renewal are still to come.
    Steps(LogForm, u32, u32),
    /// Behind the number of splits where there may be bounds: how many sums of a bound are still to
    /// come.
    Bounds(LogForm, u32),
}

/// Why a line doesn't fit.
#[derive(Clone, Copy, Debug, PartialEq, Eq)]
pub enum Fault {
    /// The first word can't come here.
    Word,
    /// The fields are wrong.
    Fields,
}
