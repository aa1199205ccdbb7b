//! A station and its epochs.

ghost use Rattle.std.specs.Prelude.{◌≤◌};
ghost use Rattle.error_bounds.specs.Sizes.{IsNearGround};
ghost use Rattle.rinex_obs.specs.Facts.{AreRising};

use crate::nearest::{Near, is_later, nearer, time_between};
use grid_model::Pos;
use rinex_obs::ObsEpoch;

/// The ps in a second.
const PS_PER_S: u128 = 1_000_000_000_000;

/// Where a station stands, in um and within 6,600 km of the origin, how far in s its epochs may be
/// from those of the receiver, up to 600, and its epochs, whose tags rise.
#[derive(Clone, Copy)]
pub struct KnownStation<'a> {
    pub place: Pos,
    pub age: u32,
    pub epochs: &'a [ObsEpoch],
    pub ghost ground: { IsNearGround place },
    pub ghost short_age: { age ≤ 600 },
    pub ghost rising: { AreRising epochs.now },
}

impl<'a> KnownStation<'a> {
    ghost use Rattle.std.specs.Prelude.{MatchOption};
    ghost use Rattle.rinex_obs.specs.declared.obs.ObsEpoch.{ObsEpoch};
    ghost use Rattle.station_epochs.specs.Search.{IsAtPlace, IsLastOf, IsSplitAt};
    ghost use Rattle.station_epochs.specs.Stations.{IsStationEpoch, station_of};

    /// The station's epoch that goes with one of the receiver: of those that are near enough the
    /// nearest, and the later of two.
    pub fn nearest(&self, epoch: &ObsEpoch) -> Option<&'a ObsEpoch>
        ensures { MatchOption result
            ((e : ObsEpoch) → IsStationEpoch (station_of self.now) epoch.now.tag e → ⊥)
            (λ e. IsStationEpoch (station_of self.now) epoch.now.tag e.now) }
    {
        let count = self.count_until(epoch);
        let early = self.last_of(count, epoch);
        let late = self.near_at(count, epoch);
        match nearer(early, late) {
            Some(near) => Some(&self.epochs[near.place]),
            None => None,
        }
    }

    /// How many of the epochs aren't later than that of the receiver.
    fn count_until(&self, epoch: &ObsEpoch) -> usize
        ensures { IsSplitAt self.now.epochs.now epoch.now.tag result }
    {
        let mut low = 0;
        let mut high = self.epochs.len();
        'halving: while low < high {
            let middle = low + (high - low) / 2;
            let other = &self.epochs[middle];
            if is_later(other, epoch) {
                high = middle;
            } else {
                low = middle + 1;
            }
        }
        low
    }

    /// The last of so many epochs, where it is near enough.
    fn last_of(&self, count: usize, epoch: &ObsEpoch) -> Option<Near>
        ensures { IsLastOf (station_of self.now) epoch.now.tag count result }
    {
        if count == 0 {
            return None;
        }
        self.near_at(count - 1, epoch)
    }

    /// The epoch at a place, where there is one that is near enough.
    fn near_at(&self, place: usize, epoch: &ObsEpoch) -> Option<Near>
        ensures { IsAtPlace (station_of self.now) epoch.now.tag place result }
    {
        let other = self.epochs.get(place)?;
        let apart = time_between(epoch, other);
        if apart > u128::from(self.age) * PS_PER_S {
            return None;
        }
        Some(Near { place, apart })
    }
}
