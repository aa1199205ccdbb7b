//! What is read of a station.

ghost use Rattle.std.specs.Prelude.{◌≤◌};
ghost use Rattle.error_bounds.specs.Sizes.{IsNearGround};
ghost use Rattle.rinex_obs.specs.Facts.{AreRising};

use grid_model::Pos;
use rinex_obs::Obs;

/// A station, which is a second receiver at a known place: where it stands, in um and within 6,600
/// km of the origin, how far in s its epochs may be from those of the receiver, up to 600, and its
/// epochs, whose times rise.
#[derive(Drop)]
pub struct StationFile {
    pub place: Pos,
    pub age: u32,
    pub obs: Obs,
    pub ghost ground: { IsNearGround place },
    pub ghost short_age: { age ≤ 600 },
    pub ghost rising: { AreRising obs.epochs.items },
}
