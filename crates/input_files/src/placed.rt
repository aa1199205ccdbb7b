//! Where a station stands.

ghost use Rattle.std.specs.Prelude.{◌≡◌, IfErr, IfOk, true};
ghost use Rattle.error_bounds.specs.Reading.{IsKnown, centre_with};
ghost use Rattle.grid_model.specs.Squares.{sum_of_squares};
ghost use Rattle.input_files.specs.Inputs.{wants_position};
ghost use Rattle.input_files.specs.Placed.{IsPlaced, NamesFar};
ghost use Rattle.rinex_obs.specs.Facts.{AreRising};

use crate::input_fault::InputFault;
use crate::notice::Notice;
use crate::station_file::StationFile;
use error_bounds::{Centre, DeclaredStation, Fault, SettingsFault};
use grid_model::Pos;
use rinex_obs::Obs;

/// The greatest distance of a station from the origin, in um: 6,600 km.
const STATION_REACH: u128 = 6_600_000_000_000;

/// The square of a point's distance from the origin, in um^2.
fn squared_distance(point: &Pos) -> u128
    ensures { result ≡ sum_of_squares point.now.x point.now.y point.now.z }
{
    let x = u128::from(point.x.unsigned_abs());
    let y = u128::from(point.y.unsigned_abs());
    let z = u128::from(point.z.unsigned_abs());
    x * x + y * y + z * z
}

/// The declared place of a station, or that of its file's header.
fn place_of(centre: Centre, header: Option<Pos>) -> Option<Pos>
    ensures { result ≡ centre_with header centre }
{
    match centre {
        Centre::Header => header,
        Centre::At(point) => Some(point),
    }
}

/// The station with these observations; 33 at the key of its place where that of the header is too
/// far from the origin.
pub fn placed(obs: Obs, declared: &DeclaredStation) -> Result<StationFile, Notice>
    requires known { wants_position declared.now.place ≡ true → IsKnown obs.position }
    requires rising { AreRising obs.epochs.items }
    ensures placed { IfOk result (IsPlaced declared.now obs) }
    ensures far { IfErr result (NamesFar declared.now obs) }
{
    let Some(place) = place_of(declared.place, obs.position) else {
        unreachable!();
    };
    if squared_distance(&place) <= STATION_REACH * STATION_REACH {
        return Ok(StationFile {
            place,
            age: declared.age,
            obs,
        });
    }
    let fault = SettingsFault::new(Fault::Outside, "station.place");
    Err(Notice::BadInput(InputFault::Settings(fault)))
}
