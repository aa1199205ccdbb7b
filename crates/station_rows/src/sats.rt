//! The satellites that a receiver and a station observed.

ghost use Rattle.std.specs.Prelude.{◌+◌, ◌≤◌};

use crate::found::observed_in;
use crate::observations::Observation;
use error_bounds::Settings;
use gnss_model::GalileoUse;
use rinex_nav::Nav;
use rinex_obs::{ObsEpoch, SatObs};
use station_epochs::KnownStation;
use usable_sats::{codes_in_range, use_of};

/// What a navigation file, settings and a station say of the satellites of a receiver. Those of
/// Galileo are used where its codes are given. Records and the station's epochs are so near to an
/// epoch that both its times are within 14,400 s of the ephemeris time.
#[derive(Clone, Copy)]
pub(crate) struct StationSats<'a> {
    pub(crate) nav: &'a Nav,
    pub(crate) settings: &'a Settings,
    pub(crate) galileo: Option<GalileoUse>,
    pub(crate) station: KnownStation<'a>,
    pub ghost short_ages: { settings.now.max_age + station.age ≤ 14400 },
}

impl<'a> StationSats<'a> {
    ghost use Rattle.std.specs.Prelude.{MatchOption};
    ghost use Rattle.station_epochs.specs.Stations.{station_of};
    ghost use Rattle.station_rows.specs.Judgements.{IsItsObservation, sighting_of};
    ghost use Rattle.station_rows.specs.Stations.{IsSeenByStation};

    /// What the station observed of the satellite in its epoch that goes with that of the receiver,
    /// where the wanted codes are there and in range.
    pub(crate) fn observed_by_station(&self, seen: &SatObs, epoch: &ObsEpoch) -> Option<Observation>
        ensures { MatchOption result
            (IsSeenByStation (station_of self.now.station)
            (sighting_of self.now epoch.now.tag seen.now) → ⊥)
            (IsItsObservation (station_of self.now.station)
            (sighting_of self.now epoch.now.tag seen.now)) }
    {
        let nearest = self.station.nearest(epoch)?;
        let theirs = observed_in(nearest, seen)?;
        let (system, signal) = use_of(seen.sat, self.settings, &self.galileo);
        let codes = codes_in_range(theirs, &signal, system)?;
        Some(Observation {
            tag: nearest.tag,
            codes,
        })
    }
}
