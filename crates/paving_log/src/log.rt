//! A log as a value, and why a text is none.

ghost use Rattle.std.specs.Prelude.{◌≡◌, ◌≤◌, length};
ghost use Rattle.paving_log.specs.Renewing.{AreAmong, AreAmong-prop};
ghost use Rattle.paving_log.specs.declared.log.LogError.TheVariants.{NoMemory};

use crate::renewal::Renewal;
use grid_model::Box3;
use sat_model::{HalfSpace, RowSum, Rules, SatEntry};
use std::alloc::{AllocError, AllocFailed};
use step_lines::LoggedSteps;

/// A half-space that holds what fits in an epoch, and the sums of rows that show it.
#[derive(Debug, Drop)]
pub struct Bound {
    pub half: HalfSpace,
    pub sums: Vec<RowSum>,
}

/// How an epoch was paved.
#[derive(Debug, Drop)]
pub struct Body {
    /// The search box.
    pub root: Box3,
    pub steps: LoggedSteps,
    /// The renewals among the steps, in order.
    pub renewals: Vec<Renewal>,
    /// The number of splits.
    pub done: u32,
    /// The bounds behind it.
    pub bounds: Vec<Bound>,
    pub ghost places: { AreAmong steps renewals.items } by { AreAmong-prop steps renewals.items },
}

/// What a log says of one epoch.
#[derive(Debug, Drop)]
pub struct LogEpoch {
    /// The number of the epoch's first line, from 1.
    pub line: u32,
    /// The epoch's place in its observation file, from 1.
    pub index: u32,
    /// The tag of the epoch, in ps since 1980-01-06 00:00:00 GPS time.
    pub ps: i128,
    /// The number of satellites that count.
    pub n: u32,
    pub sats: Vec<SatEntry>,
    /// How it was paved, none where too few satellites count.
    pub body: Option<Body>,
    pub ghost at_most: { length sats.items ≤ 64 },
}

impl LogEpoch {
    ghost use Rattle.sat_model.specs.Logs.{is_few};
    ghost use Rattle.paving_log.specs.Values.{block_of};

    /// Whether too few satellites count, so nothing is paved.
    pub fn is_few(&self) -> bool
        ensures { result ≡ is_few (block_of self.now) }
    {
        self.body.is_none()
    }
}

/// The version of a log, the rules of its search, and its epochs in order.
#[derive(Debug, Drop)]
pub struct Log {
    /// 1, 2 where rows may be renewed, 3 where they may and pairs of rows show boxes empty, or 4
    /// where there may be bounds too.
    pub version: u8,
    pub rules: Rules,
    pub epochs: Vec<LogEpoch>,
}

/// Why a text is no log.
#[derive(Clone, Copy, Debug, PartialEq, Eq)]
pub enum LogError {
    /// The number of the first line that doesn't fit, and how: 1 in the two head lines, 2 by its
    /// first word, 3 by its fields, 4 where the text ends too early or lacks its last LF. In the
    /// text of rows, where all lines fit, the first that fails a test: 5.
    BadLog { line: u32, kind: u8 },
    NoMemory,
}

impl From<AllocError> for LogError {
    ghost from_gives = { λ _ error. error ≡ NoMemory };

    fn from(_error: AllocError) -> LogError {
        LogError::NoMemory
    }
}

impl<T: Drop> From<AllocFailed<T>> for LogError {
    ghost from_gives = { λ _ error. error ≡ NoMemory };

    fn from(_error: AllocFailed<T>) -> LogError {
        LogError::NoMemory
    }
}
