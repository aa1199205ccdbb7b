//! What is written of an epoch.

/// The pseudorange of GPS satellite `number` by the code C1C, in mm.
#[derive(Clone, Copy, Debug, PartialEq, Eq)]
pub struct SatCode {
    pub number: u8,
    pub code: i64,
}

/// A time of 2024-01-07, and the satellites of the epoch.
#[derive(Debug, Drop)]
pub struct EpochCodes {
    pub hour: u8,
    pub minute: u8,
    pub second: u8,
    pub sats: Vec<SatCode>,
}
