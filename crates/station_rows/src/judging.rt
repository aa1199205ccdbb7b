//! The judgement of a satellite that a receiver and a station may have observed.

ghost use Rattle.std.specs.Prelude.{◌≡◌};
ghost use Rattle.gnss_model.specs.declared.satellites.Skip.{Skip};

use crate::nearby::are_nearby;
use crate::observations::{CommonSat, Observation};
use crate::rows::base_of_both;
use crate::sats::StationSats;
use gnss_model::{Delays, Elements, Skip};
use grid_model::Box3;
use rinex_obs::{ObsEpoch, SatObs};
use sat_rows::{Base, SatBases};
use usable_sats::{Judgement, judge_satellite, use_of};

/// The number of the test behind those of a receiver alone: the station observed the satellite.
const NO_STATION: u8 = 8;

/// ... and of the last: both observed it near to the record and to each other.
const FAR_OFF: u8 = 9;

/// A satellite that is usable by both, and the elements of its record.
#[derive(Clone, Copy)]
struct CommonUse {
    sat: CommonSat,
    elements: Elements,
}

/// A satellite that fails a test which tells of no field.
fn skipped(number: u8) -> Skip
    ensures { result ≡ record { number = number; field = 0 } }
{
    Skip { number, field: 0 }
}

impl<'a> StationSats<'a> {
    ghost use Rattle.std.specs.Prelude.{Some, IfOk, IfErr};
    ghost use Rattle.grid_model.specs.Boxes.{grid_box};
    ghost use Rattle.station_epochs.specs.Stations.{station_of};
    ghost use Rattle.station_rows.specs.Judgements.{IsKnownByBoth, sighting_of};
    ghost use Rattle.station_rows.specs.Observations.{view_of};
    ghost use Rattle.station_rows.specs.Stations.{IsJudgedByBoth};

    /// Judges a satellite by what both observed, for a receiver in the search box.
    fn judge(&self, seen: &SatObs, epoch: &ObsEpoch, root: &Box3) -> Result<CommonUse, Skip>
        ensures known { IfOk result (λ common. IsKnownByBoth self.now.settings.now.delays
            (grid_box root.now) (station_of self.now.station)
            (sighting_of self.now epoch.now.tag seen.now) (view_of common.sat common.elements)) }
        ensures sat { IfOk result (λ common. common.sat.sat ≡ seen.now.sat) }
        ensures skip { IfErr result (λ skip. IsJudgedByBoth self.now.settings.now.delays
            (grid_box root.now) (station_of self.now.station)
            (sighting_of self.now epoch.now.tag seen.now) (Some skip)) }
    {
        match judge_satellite(seen, epoch, self.nav, self.settings, &self.galileo, root) {
            Judgement::Skipped(skip) => Err(skip),
            Judgement::Usable { codes, elements } => {
                let Some(station) = self.observed_by_station(seen, epoch) else {
                    return Err(skipped(NO_STATION));
                };
                let (system, _) = use_of(seen.sat, self.settings, &self.galileo);
                let sat = CommonSat {
                    system,
                    sat: seen.sat,
                    receiver: Observation {
                        tag: epoch.tag,
                        codes,
                    },
                    station,
                    place: self.station.place,
                };
                if are_nearby(&sat, &elements) {
                    Ok(CommonUse { sat, elements })
                } else {
                    Err(skipped(FAR_OFF))
                }
            }
        }
    }
}

impl<'a> SatBases for StationSats<'a> {
    ghost use Rattle.station_epochs.specs.Stations.{station_of};
    ghost use Rattle.station_rows.specs.Stations.{station_meaning};

    ghost meaning = { λ sats. station_meaning sats.galileo sats.nav.now sats.settings.now
        (station_of sats.station) };

    fn base_in(&self, seen: &SatObs, epoch: &ObsEpoch, root: &Box3) -> Result<Base, Skip> {
        let common = self.judge(seen, epoch, root)?;
        let declared = self.settings.bound_of(seen.sat);
        Ok(base_of_both(&common.sat, &common.elements, declared))
    }

    fn delays(&self) -> Delays {
        self.settings.delays
    }
}
