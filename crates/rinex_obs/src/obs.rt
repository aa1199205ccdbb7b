//! The observations of a file.

ghost use Rattle.std.specs.Prelude.{pos, ◌≤ℤ◌, ◌<ℤ◌, ◌≤◌, length};

use exact_decimal::Decimal;
use gnss_model::Sat;
use grid_model::Pos;

/// What was observed of a satellite: the values of its system's wanted codes as the file writes
/// them, none where the field is blank or zero. `second` is none where one code is wanted.
#[derive(Clone, Copy, Debug, PartialEq, Eq)]
pub struct SatObs {
    pub sat: Sat,
    pub first: Option<Decimal>,
    pub second: Option<Decimal>,
}

/// An epoch with its satellites of the systems that are read, in file order, at most 64.
#[derive(Debug, Drop)]
pub struct ObsEpoch {
    /// The number of the epoch in the file, from 1; events don't count.
    pub index: u32,
    /// The receiver's time, in ps since 1980-01-06 00:00:00 GPS time.
    pub tag: i128,
    pub sats: Vec<SatObs>,
    pub ghost tag_from: { pos 0 ≤ℤ tag },
    pub ghost tag_under: { tag <ℤ pos 4000000000000000000000 },
    pub ghost few: { length sats.items ≤ 64 },
}

/// The observations of a file: at most 200,000 epochs.
#[derive(Debug, Drop)]
pub struct Obs {
    /// The position of the header, each coordinate rounded down to um; none where it isn't wanted.
    pub position: Option<Pos>,
    pub epochs: Vec<ObsEpoch>,
}
