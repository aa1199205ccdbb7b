//! A place in space as three intervals.

use crate::exact::Exact;

/// The points whose coordinates the three intervals hold, in um.
#[derive(Clone, Copy, Debug, PartialEq, Eq)]
pub struct Place {
    pub x: Exact,
    pub y: Exact,
    pub z: Exact,
}
