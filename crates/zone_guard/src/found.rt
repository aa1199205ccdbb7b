//! What is found of a zone or a direction.

use crate::planes::Extent;
use crate::zone::ZoneAnswer;

/// What is found in an epoch.
#[derive(Clone, Copy, Debug, PartialEq, Eq)]
pub enum Finding {
    /// Of a zone.
    Zone(ZoneAnswer),
    /// Of a direction: none where no box is kept.
    Reach(Option<Extent>),
}

/// In how many epochs a zone is so, and how many have too few satellites.
#[derive(Clone, Copy, Debug, PartialEq, Eq)]
pub struct Counts {
    pub outside: u32,
    pub inside: u32,
    pub undecided: u32,
    pub few: u32,
}

/// What is found in an epoch of a log.
#[derive(Drop)]
pub struct EpochFindings {
    /// The epoch's place in its observation file, from 1.
    pub index: u32,
    /// Of each zone and direction, in order; none where the epoch has too few satellites.
    pub found: Option<Vec<Finding>>,
}
