//! A station, which is a second receiver at a known place.

ghost use Rattle.std.specs.Prelude.{◌≤◌};
ghost use Rattle.error_bounds.specs.Sizes.{IsStationPlace};

use crate::settings::Centre;

/// What the table `station` gives.
#[derive(Clone, Copy, Debug, PartialEq, Eq)]
pub struct DeclaredStation {
    /// Where the phase centre of its antenna is: at the approximate position in the header of its
    /// observation file, or at a point within 6,600 km of the origin, in um.
    pub place: Centre,
    /// How far, in s, its epochs may be from those of the receiver: 1 to 600.
    pub age: u32,
    pub ghost near: { IsStationPlace place },
    pub ghost some_age: { 1 ≤ age },
    pub ghost short_age: { age ≤ 600 },
}
