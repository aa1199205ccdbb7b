//! A zone, and what is said of it.

use arrayvec::ArrayString;
use grid_model::Box3;
use std::alloc::{AllocError, AllocFailed};

/// A box of the grid with a name: 1 to 16 characters of a to z, 0 to 9 and `-`.
#[derive(Clone, Copy, PartialEq, Eq)]
pub struct Zone {
    pub name: ArrayString<16>,
    pub part: Box3,
}

/// Why a text of zones wasn't read.
#[derive(Clone, Copy, Debug, PartialEq, Eq)]
pub enum ZoneError {
    /// The first line that doesn't fit, lacks its LF or repeats a name; 1 where there is no line.
    BadZones { line: u32 },
    /// There wasn't memory enough.
    NoMemory,
}

/// Where a receiver is, as an epoch's boxes show it.
#[derive(Clone, Copy, Debug, PartialEq, Eq)]
pub enum ZoneAnswer {
    /// No box shares a grid point with the zone.
    Outside,
    /// Each box lies in the zone, and there is one.
    Inside,
    /// Neither.
    Open,
}

impl From<AllocError> for ZoneError {
    ghost use Rattle.std.specs.Prelude.{◌≡◌};
    ghost use Rattle.zone_guard.specs.declared.zone.ZoneError.TheVariants.{NoMemory};

    ghost from_gives = { λ _ e. e ≡ NoMemory };

    fn from(_error: AllocError) -> ZoneError {
        ZoneError::NoMemory
    }
}

impl<T: Drop> From<AllocFailed<T>> for ZoneError {
    ghost use Rattle.std.specs.Prelude.{◌≡◌};
    ghost use Rattle.zone_guard.specs.declared.zone.ZoneError.TheVariants.{NoMemory};

    ghost from_gives = { λ _ e. e ≡ NoMemory };

    fn from(_error: AllocFailed<T>) -> ZoneError {
        ZoneError::NoMemory
    }
}
