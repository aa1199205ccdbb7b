//! The table of a station, which may be absent.

ghost use Rattle.std.specs.Prelude.{◌≡◌, ◌+◌, ◌-◌, ◌≤◌, min, None, Ok, option_map, IfOk, IfErr, OnOk};
ghost use Rattle.std.specs.Option.{ForSome};
ghost use Rattle.toml.specs.View.{table_view};
ghost use Rattle.error_bounds.specs.Keys.{value_of, records_age, station_place, station_age, station_keys, station_tests, first_found};
ghost use Rattle.error_bounds.specs.Reading.{station_value, TellsFirst};
ghost use Rattle.error_bounds.specs.Texts.{IsStation};

use crate::fault::SettingsFault;
use crate::form::Count;
use crate::key::required;
use crate::places::GroundPlace;
use crate::station::DeclaredStation;
use toml::Table;

/// The greatest age of a station's epochs, in s.
const MOST_AGE: u32 = 600;

/// The greatest age of records and of a station's epochs together, in s.
const MOST_TOGETHER: u32 = 14_400;

/// The greatest age of a station's epochs beside that of records, in s.
fn most_age(max_age: u32) -> u32
    requires { max_age ≤ 14400 }
    ensures { result ≡ min 600 (14400 - max_age) }
{
    MOST_AGE.min(MOST_TOGETHER - max_age)
}

/// The keys of the table, where records may have this age.
fn read_keys(tree: &Table, max_age: u32) -> Result<DeclaredStation, SettingsFault>
    requires { max_age ≤ 14400 }
    ensures none { OnOk result (first_found (station_keys max_age (table_view tree.now)) ≡ None) }
    ensures place { IfOk result (λ station.
        value_of station_place (table_view tree.now) ≡ Ok station.place) }
    ensures age { IfOk result (λ station.
        value_of (station_age max_age) (table_view tree.now) ≡ Ok station.age) }
    ensures together { IfOk result (λ station. max_age + station.age ≤ 14400) }
    ensures fault { IfErr result (TellsFirst (station_keys max_age (table_view tree.now))) }
{
    let place = required(tree, "station", "place", &GroundPlace)?;
    let age = required(
        tree,
        "station",
        "age",
        &Count {
            lo: 1,
            hi: most_age(max_age),
        },
    )?;
    Ok(DeclaredStation { place, age })
}

/// What the table gives, where it is there, and records may have this age.
pub fn read_station(tree: &Table, max_age: u32) -> Result<Option<DeclaredStation>, SettingsFault>
    requires age { records_age (table_view tree.now) ≡ max_age }
    requires short { max_age ≤ 14400 }
    ensures none { OnOk result (first_found (station_tests (table_view tree.now)) ≡ None) }
    ensures value { IfOk result (λ station.
        IsStation (table_view tree.now) (option_map station_value station)) }
    ensures together { IfOk result (λ station.
        ForSome station (λ declared. max_age + declared.age ≤ 14400)) }
    ensures fault { IfErr result (TellsFirst (station_tests (table_view tree.now))) }
{
    let Some(_members) = tree.get("station") else {
        return Ok(None);
    };
    match read_keys(tree, max_age) {
        Ok(station) => Ok(Some(station)),
        Err(fault) => Err(fault),
    }
}
