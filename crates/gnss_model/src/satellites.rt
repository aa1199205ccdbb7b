//! Satellites, which codes of them are used, and why one isn't.

use crate::systems::Message;

/// A satellite: the letter of its system (`b'G'` for GPS, `b'E'` for Galileo) and its number.
#[derive(Clone, Copy, Debug, PartialEq, Eq, PartialOrd, Ord, Hash)]
pub struct Sat {
    pub system: u8,
    pub number: u8,
}

/// Why a satellite isn't used: the number of the first usability test that fails, and the number
/// of the first field outside its bounds where that test is 6, else 0.
#[derive(Clone, Copy, Debug, PartialEq, Eq)]
pub struct Skip {
    pub number: u8,
    pub field: u8,
}

/// The observation codes that are used: one, or two for the ionosphere-free combination.
#[derive(Clone, Copy, Debug, PartialEq, Eq)]
pub enum Signal {
    Single { code: [u8; 3] },
    Dual { first: [u8; 3], second: [u8; 3] },
}

/// How the satellites of Galileo are used: by the ephemerides of which message, and with which
/// codes.
#[derive(Clone, Copy, Debug, PartialEq, Eq)]
pub struct GalileoUse {
    pub message: Message,
    pub signal: Signal,
}
