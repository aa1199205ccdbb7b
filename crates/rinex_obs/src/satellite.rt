//! The line of a satellite.

ghost use Rattle.std.specs.Prelude.{◌≡◌, ◌↔◌, ◌<◌, Option, IsTrue, IfOk, IfSome, IfNone, length};
ghost use Rattle.std.specs.List.{list_any};
ghost use Rattle.exact_decimal.specs.declared.decimal.Decimal.{Decimal};
ghost use Rattle.rinex_text.specs.Reading.{plain_line};
ghost use Rattle.rinex_obs.specs.Epochs.{IsObserved, IsSecond, IsOtherSystem, ArePlacesOf};
ghost use Rattle.rinex_obs.specs.Epochs.{field_at, has_sat, satellite_line};
ghost use Rattle.rinex_obs.specs.Header.{CodePlaces};
ghost use Rattle.rinex_obs.specs.Reading.{code_places, wanted_of, with_line};

use crate::found::{Places, WantedPlaces};
use crate::obs::SatObs;
use crate::types::is_read;
use exact_decimal::{Decimal, read_fixed};
use gnss_model::Sat;
use rinex_text::{Fault, Line, column, columns, is_printable_text, is_short, satellite_number};

/// The most satellites of an epoch.
const MOST_SATELLITES: usize = 64;

/// The value of the type at a place, none where its field is blank or zero. None where the field
/// isn't a number.
fn observed(text: &[u8], place: u16) -> Option<Option<Decimal>>
    requires { place < 999 }
    ensures value { IfSome result (IsObserved (field_at text.now place)) }
    ensures none { IfNone result ((value : Option Decimal) →
        IsObserved (field_at text.now place) value → ⊥) }
{
    match read_fixed(columns(text, 4 + 16 * place, 17 + 16 * place)) {
        Ok(Some(number)) => {
            if number.digits == 0 {
                return Some(None);
            }
            Some(Some(number))
        }
        Ok(None) => Some(None),
        Err(_) => None,
    }
}

/// The value of the second wanted code, none where one is wanted.
fn second_observed(text: &[u8], place: Option<u16>) -> Option<Option<Decimal>>
    requires { IfSome place (λ place. place < 999) }
    ensures value { IfSome result (IsSecond text.now place) }
    ensures none { IfNone result ((value : Option Decimal) → IsSecond text.now place value → ⊥) }
{
    match place {
        Some(place) => observed(text, place),
        None => Some(None),
    }
}

/// Whether the byte is a capital letter, and not that of a system that is read.
fn is_other_system(letter: u8, both: bool) -> bool
    ensures { IsTrue result ↔ IsOtherSystem both letter }
{
    b'A' <= letter && letter <= b'Z' && !is_read(letter, both)
}

/// The places of the wanted codes of the system with this letter, where it is read.
fn places_of(places: &WantedPlaces, letter: u8) -> Option<Places>
    ensures places { IfSome result
        (λ own. ArePlacesOf (wanted_of places.now) letter (code_places own)) }
    ensures none { IfNone result ((own : CodePlaces) →
        ArePlacesOf (wanted_of places.now) letter own → ⊥) }
{
    if letter == b'G' {
        return Some(places.gps);
    }
    if letter == b'E' {
        return places.galileo;
    }
    None
}

/// Whether the satellite is among these.
fn have_sat(sats: &[SatObs], sat: Sat) -> bool
    ensures { result ≡ list_any (has_sat sat) sats.now }
{
    sats.iter().any(|obs| obs.sat.number == sat.number && obs.sat.system == sat.system)
}

/// The satellite of a line, behind those before. None for systems that aren't read.
pub fn satellite_line(
    line: Line<'_>,
    places: &WantedPlaces,
    sats: &[SatObs],
) -> Result<Option<SatObs>, Fault>
    ensures line { satellite_line (wanted_of places.now) sats.now (plain_line line.entry)
        (with_line sats.now result) }
    ensures few { IfOk result (λ found. IfSome found (λ sat. length sats.now < 64)) }
{
    if !is_short(line) {
        return Err(Fault::LongLine);
    }
    let system = column(line.text, 1);
    if is_other_system(system, places.galileo.is_some()) {
        return Ok(None);
    }
    if !is_printable_text(line.text) {
        return Err(Fault::NotAscii);
    }
    let Some(own) = places_of(places, system) else {
        return Err(Fault::BadSatellite);
    };
    let Some(number) = satellite_number(line.text) else {
        return Err(Fault::BadSatellite);
    };
    let sat = Sat { system, number };
    if have_sat(sats, sat) {
        return Err(Fault::RepeatSatellite);
    }
    if sats.len() >= MOST_SATELLITES {
        return Err(Fault::TooMany);
    }
    let Some(first) = observed(line.text, own.first) else {
        return Err(Fault::BadNumber);
    };
    let Some(second) = second_observed(line.text, own.second) else {
        return Err(Fault::BadNumber);
    };
    Ok(Some(SatObs { sat, first, second }))
}
