//! The rows of the files that were read.

ghost use Rattle.std.specs.Prelude.{◌≡◌, option_map};
ghost use Rattle.cover_run.specs.Solving.{station_in};
ghost use Rattle.input_files.specs.Inputs.{AreEnough};
ghost use Rattle.station_epochs.specs.Stations.{station_of};

use input_files::{Inputs, StationFile};
use station_epochs::KnownStation;
use station_rows::FileRows;

/// The station of a file.
fn known_station(station: &StationFile) -> KnownStation<'_>
    ensures station { station_of result ≡ station_in station.now }
    ensures age { result.age ≡ station.now.age }
{
    KnownStation {
        place: station.place,
        age: station.age,
        epochs: &station.obs.epochs,
    }
}

/// The rows that the files give, alone or with the station.
pub fn rows_of(inputs: &Inputs) -> FileRows<'_>
    requires { AreEnough inputs.now }
    ensures nav { result.nav.now ≡ inputs.now.nav }
    ensures settings { result.settings.now ≡ inputs.now.settings }
    ensures station { option_map station_of result.station
        ≡ option_map station_in inputs.now.station }
{
    let (nav, settings) = (&inputs.nav, &inputs.settings);
    match &inputs.station {
        None => FileRows {
            nav,
            settings,
            station: None,
        },
        Some(station) => FileRows {
            nav,
            settings,
            station: Some(known_station(station)),
        },
    }
}
