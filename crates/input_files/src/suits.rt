//! What a command asks of settings that have no fault of their own.

ghost use Rattle.std.specs.Prelude.{◌≡◌, IfErr, IfOk};
ghost use Rattle.error_bounds.specs.Reading.{value_of_settings};
ghost use Rattle.input_files.specs.Suits.{MayTell, NamesMisfit, Suits, misfit_in, station_misfit};

use crate::input_fault::InputFault;
use crate::notice::Notice;
use error_bounds::{Fault, Settings, SettingsFault};

/// The settings, where a receiver that moves has its greatest speed in them, and a station its place
/// exactly where its file is named; else 31 or 33 at the key.
pub fn suited(settings: Settings, moving: bool, stationed: bool) -> Result<Settings, Notice>
    ensures same { IfOk result (λ kept. kept ≡ settings) }
    ensures suits { IfOk result (Suits moving stationed) }
    ensures misfit { IfErr result (NamesMisfit moving stationed settings) }
{
    match misfit_of(&settings, moving, stationed) {
        Some(fault) => Err(Notice::BadInput(InputFault::Settings(fault))),
        None => Ok(settings),
    }
}

/// What is amiss of settings.
fn misfit_of(settings: &Settings, moving: bool, stationed: bool) -> Option<SettingsFault>
    ensures { MayTell (misfit_in moving stationed (value_of_settings settings.now)) result }
{
    match (moving, settings.speed) {
        (true, None) => Some(SettingsFault::new(Fault::Missing, "motion.speed")),
        _ => station_misfit(settings, stationed),
    }
}

/// What is amiss of the station in them.
fn station_misfit(settings: &Settings, stationed: bool) -> Option<SettingsFault>
    ensures { MayTell (station_misfit stationed (value_of_settings settings.now).station) result }
{
    match (stationed, settings.station) {
        (true, None) => Some(SettingsFault::new(Fault::Missing, "station.place")),
        (false, Some(_)) => Some(SettingsFault::new(Fault::Outside, "station.place")),
        _ => None,
    }
}
