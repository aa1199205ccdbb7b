//! The judgement of a satellite.

ghost use Rattle.std.specs.Prelude.{◌≡◌, ◌↔◌, IsTrue};
ghost use Rattle.grid_model.specs.Boxes.{grid_box};
ghost use Rattle.usable_sats.specs.Answers.{IsReading};
ghost use Rattle.usable_sats.specs.Judgements.{IsOwnJudgement, IsJudgement};
ghost use Rattle.usable_sats.specs.Usability.{IsHigh, sighting_by, use_of};
ghost use Rattle.usable_sats.specs.declared.judging.Judgement.TheVariants.{Skipped};

use crate::choice::{Choice, choose};
use crate::codes::{Measured, Reading, read_codes};
use elevation_mapping::is_far_from_origin;
use error_bounds::Settings;
use gnss_model::{Elements, GalileoUse, Sat, Signal, Skip, System};
use grid_model::Box3;
use rinex_nav::Nav;
use rinex_obs::{ObsEpoch, SatObs};

/// The number of the first test of a satellite: the wanted codes are there.
const CODE_MISSING: u8 = 1;

/// ... and in range.
const CODE_OUT_OF_RANGE: u8 = 2;

/// ... it has a record.
const NO_RECORD: u8 = 3;

/// ... one that is healthy.
const NONE_HEALTHY: u8 = 4;

/// ... one of these that is fresh.
const NONE_FRESH: u8 = 5;

/// ... and one of these with all fields within their bounds.
const NONE_FIT: u8 = 6;

/// The number of the last test: where the bound of the troposphere is mapped by elevation, the
/// search box is far enough from the origin.
const LOW_PLACE: u8 = 7;

/// What is known of a satellite that is usable, or why it isn't used.
#[derive(Clone, Copy, Debug, PartialEq, Eq)]
pub enum Judgement {
    Usable { codes: Measured, elements: Elements },
    Skipped(Skip),
}

/// The system as which a satellite is used, and its wanted codes.
pub fn use_of(sat: Sat, settings: &Settings, galileo: &Option<GalileoUse>) -> (System, Signal)
    ensures { result ≡ use_of settings.now.signal galileo.now sat }
{
    if sat.system == b'E' {
        if let Some(galileo) = galileo {
            return (System::Galileo(galileo.message), galileo.signal);
        }
    }
    (System::Gps, settings.signal)
}

/// The wanted codes of a satellite, where they are there and in range.
fn wanted_codes(seen: &SatObs, settings: &Settings, galileo: &Option<GalileoUse>) -> Reading
    ensures { IsReading (use_of settings.now.signal galileo.now seen.now.sat).0
        (use_of settings.now.signal galileo.now seen.now.sat).1 seen.now result }
{
    let (system, signal) = use_of(seen.sat, settings, galileo);
    read_codes(seen, &signal, system)
}

/// Judges a satellite of the epoch by the records and the settings, wherever the receiver is.
fn judge_itself(
    seen: &SatObs,
    epoch: &ObsEpoch,
    nav: &Nav,
    settings: &Settings,
    galileo: &Option<GalileoUse>,
) -> Judgement
    ensures { IsOwnJudgement (sighting_by galileo.now nav.now settings.now epoch.now.tag seen.now)
        result }
{
    let codes = match wanted_codes(seen, settings, galileo) {
        Reading::Missing => return skipped(CODE_MISSING),
        Reading::OutOfRange => return skipped(CODE_OUT_OF_RANGE),
        Reading::Within(codes) => codes,
    };
    match choose(seen, epoch, nav, settings) {
        Choice::NoRecord => skipped(NO_RECORD),
        Choice::Unhealthy => skipped(NONE_HEALTHY),
        Choice::Old => skipped(NONE_FRESH),
        Choice::Unfit { field, .. } => Judgement::Skipped(Skip {
            number: NONE_FIT,
            field,
        }),
        Choice::Fit { elements, .. } => Judgement::Usable { codes, elements },
    }
}

/// Whether the delays that the settings declare straight up, where they do, can be mapped at all
/// points of the search box.
fn is_high(settings: &Settings, root: &Box3) -> bool
    ensures { IsTrue result ↔ IsHigh settings.now.delays (grid_box root.now) }
{
    if settings.delays.is_plain() {
        return true;
    }
    is_far_from_origin(root)
}

/// Judges a satellite of the epoch by the records and the settings, for a receiver in the search
/// box. Where a message and codes of `galileo` are given, its satellites are used by these.
pub fn judge_satellite(
    seen: &SatObs,
    epoch: &ObsEpoch,
    nav: &Nav,
    settings: &Settings,
    galileo: &Option<GalileoUse>,
    root: &Box3,
) -> Judgement
    ensures { IsJudgement settings.now.delays (grid_box root.now)
        (sighting_by galileo.now nav.now settings.now epoch.now.tag seen.now) result }
{
    match judge_itself(seen, epoch, nav, settings, galileo) {
        Judgement::Skipped(skip) => Judgement::Skipped(skip),
        Judgement::Usable { codes, elements } => {
            if is_high(settings, root) {
                Judgement::Usable { codes, elements }
            } else {
                skipped(LOW_PLACE)
            }
        }
    }
}

/// A satellite that fails a test which tells of no field.
fn skipped(number: u8) -> Judgement
    ensures { result ≡ Skipped (record { number = number; field = 0 }) }
{
    Judgement::Skipped(Skip { number, field: 0 })
}
