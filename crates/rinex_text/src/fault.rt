//! Why a file is refused.

ghost use Rattle.std.specs.Prelude.{◌≡◌};
ghost use Rattle.rinex_text.specs.declared.fault.ReadError.TheVariants.{Refused, NoMemory};

use std::alloc::{AllocError, AllocFailed};

/// What is wrong with a line, or with the place where the file ends. Each has its number.
#[derive(Clone, Copy, Debug, PartialEq, Eq)]
pub enum Fault {
    /// The first line isn't labelled `RINEX VERSION / TYPE`, or the file is empty.
    NotRinex = 10,
    /// The version isn't one from 3.00 to 3.05.
    Version = 11,
    /// The file is of another type.
    Kind = 12,
    /// The satellite system is neither GPS nor mixed nor blank.
    System = 13,
    /// The file ends before `END OF HEADER`.
    NoEndOfHeader = 14,
    /// A line has over 4,096 bytes.
    LongLine = 15,
    /// A wanted observation code isn't among the types of GPS.
    CodeAbsent = 16,
    /// The time system is neither GPS nor blank.
    TimeSystem = 17,
    /// Observations of GPS are scaled.
    ScaleFactor = 18,
    /// The line of an epoch is malformed, or a date is none.
    BadEpoch = 19,
    /// A count is malformed, or the observation types of GPS are.
    BadCount = 20,
    /// A satellite is malformed.
    BadSatellite = 21,
    /// A satellite stands twice in an epoch.
    RepeatSatellite = 22,
    /// A field that is read isn't a number.
    BadNumber = 23,
    /// The file ends, or a record begins, where a line of a record is needed.
    Truncated = 24,
    /// An event changes the observation types.
    HeaderChange = 25,
    /// A line that is read behind the header isn't printable ASCII.
    NotAscii = 26,
    /// There are more epochs, satellites or records than can be kept.
    TooMany = 27,
    /// The position is wanted, and absent or out of bounds.
    NoPosition = 28,
    /// The time of an epoch of a station isn't later than that of the epoch before.
    NotRising = 43,
}

/// The first fault of a file: its number, and the number of its line, from 1.
#[derive(Clone, Copy, Debug, PartialEq, Eq)]
pub struct Refusal {
    pub number: u8,
    pub line: u32,
}

/// Why a file couldn't be read.
#[derive(Clone, Copy, Debug, PartialEq, Eq)]
pub enum ReadError {
    Refused(Refusal),
    NoMemory,
}

impl Fault {
    ghost use Rattle.rinex_text.specs.Faults.{number_of};

    /// The number of the fault.
    pub fn number(self) -> u8
        ensures { result ≡ number_of self }
    {
        self as u8
    }
}

impl Refusal {
    ghost use Rattle.rinex_text.specs.Faults.{refusal};

    /// The refusal for a fault of a line.
    pub fn new(fault: Fault, line: u32) -> Refusal
        ensures { result ≡ refusal fault line }
    {
        Refusal {
            number: fault.number(),
            line,
        }
    }
}

impl From<Refusal> for ReadError {
    ghost from_gives = { λ refusal error. error ≡ Refused refusal };

    fn from(refusal: Refusal) -> ReadError {
        ReadError::Refused(refusal)
    }
}

impl From<AllocError> for ReadError {
    ghost from_gives = { λ _ error. error ≡ NoMemory };

    fn from(_error: AllocError) -> ReadError {
        ReadError::NoMemory
    }
}

impl<T: Drop> From<AllocFailed<T>> for ReadError {
    ghost from_gives = { λ _ error. error ≡ NoMemory };

    fn from(_error: AllocFailed<T>) -> ReadError {
        ReadError::NoMemory
    }
}
