//! The header of an observation file.

ghost use Rattle.std.specs.Prelude.{◌≡◌, ◌↔◌, ◌<◌, IsTrue, IfOk, IfErr, IfSome, IfNone, Ok, Err};
ghost use Rattle.std.specs.Prelude.{Option, option_map, true, codes};
ghost use Rattle.rinex_text.specs.Columns.{label_of};
ghost use Rattle.rinex_text.specs.Reading.{plain_line, lines_left};
ghost use Rattle.rinex_text.specs.declared.lines.Lines.{Lines};
ghost use Rattle.rinex_obs.specs.Header.{Header as Known, IsTimeSystem, CodePlaces, ArePlaces};
ghost use Rattle.rinex_obs.specs.Header.{MayBePlaces, Wanted, are_both, AreWanted, types_behind};
ghost use Rattle.rinex_obs.specs.Header.{header_line, header_end, header_lines};
ghost use Rattle.rinex_obs.specs.Types.{Types, AreComplete, codes_of};
ghost use Rattle.rinex_obs.specs.Files.{unread};
ghost use Rattle.rinex_obs.specs.Reading.{Stands, MayBeFound, AreFoundOf, IsHeader, code_places};
ghost use Rattle.rinex_obs.specs.Reading.{wanted_of, end_of, start_of};

use crate::found::{Found, Places, WantedPlaces};
use crate::position::{Coordinates, position, position_line};
use crate::sought::Sought;
use crate::types::{galileo_line, is_read, types_line};
use gnss_model::Signal;
use grid_model::Pos;
use rinex_text::{
    Fault, Line, Lines, Refusal, column, columns, is_blank_text, is_labelled, is_short,
};

/// What is known behind some of the lines.
#[derive(Clone, Copy)]
pub struct Header {
    pub gps: Option<Found>,
    pub galileo: Option<Found>,
    pub position: Option<Coordinates>,
}

/// Whether the field stands for GPS time or is blank.
fn is_time_system(field: &[u8]) -> bool
    ensures { IsTrue result ↔ IsTimeSystem field.now }
{
    field == b"GPS".as_slice() || is_blank_text(field)
}

/// Whether the line has a position that is wanted.
fn is_wanted_position(text: &[u8], wanted: bool) -> bool
    ensures { IsTrue result ↔ ((label_of text.now ≡ codes "APPROX POSITION XYZ")
        × (wanted ≡ true)) }
{
    wanted && is_labelled(text, b"APPROX POSITION XYZ")
}

/// What is known behind a line of types.
fn types_behind(header: Header, text: &[u8], sought: &Sought) -> Result<Header, Fault>
    ensures { (known : Known) → IsHeader sought.now known header →
        Stands (IsHeader sought.now) (types_behind (are_both sought.now) known text.now) result }
{
    let gps = match types_line(header.gps, text, &sought.gps, b'G') {
        Ok(gps) => gps,
        Err(fault) => return Err(fault),
    };
    match galileo_line(header.galileo, text, &sought.galileo) {
        Ok(galileo) => Ok(Header {
            gps,
            galileo,
            position: header.position,
        }),
        Err(fault) => Err(fault),
    }
}

/// What is known behind a line that doesn't end the header.
fn header_line(
    header: Header,
    line: Line<'_>,
    sought: &Sought,
    position: bool,
) -> Result<Header, Fault>
    ensures { (known : Known) → IsHeader sought.now known header →
        Stands (IsHeader sought.now) (header_line (are_both sought.now) position known
        (plain_line line.entry)) result }
{
    let text = line.text;
    if is_labelled(text, b"SYS / # / OBS TYPES") {
        return types_behind(header, text, sought);
    }
    if is_labelled(text, b"TIME OF FIRST OBS") {
        if !is_time_system(columns(text, 49, 51)) {
            return Err(Fault::TimeSystem);
        }
        return Ok(header);
    }
    if is_labelled(text, b"SYS / SCALE FACTOR") {
        if is_read(column(text, 1), sought.are_both()) {
            return Err(Fault::ScaleFactor);
        }
        return Ok(header);
    }
    if is_wanted_position(text, position) {
        return match position_line(text) {
            Ok(coordinates) => Ok(Header {
                gps: header.gps,
                galileo: header.galileo,
                position: coordinates,
            }),
            Err(fault) => Err(fault),
        };
    }
    Ok(header)
}

/// Whether no type is missing.
fn are_complete(found: Option<Found>) -> bool
    ensures { (signal : Signal) → (types : Option Types) → MayBeFound signal types found →
        (IsTrue result ↔ AreComplete types) }
{
    match found {
        Some(found) => found.count <= found.seen,
        None => true,
    }
}

/// Whether no type of the systems that are read is missing.
fn are_all_complete(header: Header, sought: &Sought) -> bool
    ensures { (known : Known) → IsHeader sought.now known header →
        (IsTrue result ↔ (AreComplete known.gps × AreComplete known.galileo)) }
{
    if !are_complete(header.gps) {
        return false;
    }
    are_complete(header.galileo)
}

/// The places of the wanted codes of a system, where they were all found.
fn places_in(found: Option<Found>, signal: &Signal) -> Option<Places>
    ensures places { (types : Option Types) → MayBeFound signal.now types found →
        IfSome result (λ own. ArePlaces signal.now (codes_of types) (code_places own)) }
    ensures none { (types : Option Types) → MayBeFound signal.now types found →
        IfNone result ((own : CodePlaces) → ArePlaces signal.now (codes_of types) own → ⊥) }
{
    match found {
        Some(found) => found.places(signal),
        None => None,
    }
}

/// The places of those of Galileo, where its codes are wanted.
fn galileo_places(found: Option<Found>, galileo: &Option<Signal>) -> Option<Option<Places>>
    ensures places { (types : Option Types) → AreFoundOf galileo.now types found →
        IfSome result (λ own. MayBePlaces galileo.now (codes_of types)
        (option_map code_places own)) }
    ensures none { (types : Option Types) → AreFoundOf galileo.now types found →
        IfNone result ((own : Option CodePlaces) → MayBePlaces galileo.now (codes_of types) own →
        ⊥) }
{
    match galileo {
        Some(signal) => match places_in(found, signal) {
            Some(own) => Some(Some(own)),
            None => None,
        },
        None => Some(None),
    }
}

/// The places of the wanted codes of each system, where they were all found.
fn wanted_places(header: Header, sought: &Sought) -> Option<WantedPlaces>
    ensures places { (known : Known) → IsHeader sought.now known header →
        IfSome result (λ places. AreWanted sought.now (codes_of known.gps) (codes_of known.galileo)
        (wanted_of places)) }
    ensures none { (known : Known) → IsHeader sought.now known header →
        IfNone result ((wanted : Wanted) →
        AreWanted sought.now (codes_of known.gps) (codes_of known.galileo) wanted → ⊥) }
{
    let gps = places_in(header.gps, &sought.gps)?;
    let galileo = galileo_places(header.galileo, &sought.galileo)?;
    Some(WantedPlaces { gps, galileo })
}

/// What the end of the header gives.
fn header_end(
    header: Header,
    sought: &Sought,
    wanted: bool,
) -> Result<(WantedPlaces, Option<Pos>), Fault>
    ensures { (known : Known) → IsHeader sought.now known header →
        header_end sought.now wanted known (end_of result) }
{
    if !are_all_complete(header, sought) {
        return Err(Fault::BadCount);
    }
    let Some(places) = wanted_places(header, sought) else {
        return Err(Fault::CodeAbsent);
    };
    let Some(point) = position(wanted, header.position) else {
        return Err(Fault::NoPosition);
    };
    Ok((places, point))
}

/// Reads the lines of a header up to its end: the places of the wanted codes, the position where it
/// is wanted, and the lines behind.
pub fn read_header<'a>(
    lines: Lines<'a>,
    sought: &Sought,
    position: bool,
) -> Result<(WantedPlaces, Option<Pos>, Lines<'a>), Refusal>
    ensures start { IfOk result
        (λ t. header_lines sought.now position unread lines.entry.number (lines_left lines.entry)
        (Ok (start_of t.0 t.1 t.2))) }
    ensures fault { IfErr result
        (λ e. header_lines sought.now position unread lines.entry.number (lines_left lines.entry)
        (Err e)) }
{
    let mut header = Header {
        gps: None,
        galileo: None,
        position: None,
    };
    let mut left = lines;
    'header: while let Some((line, behind)) = left.split_first() {
        let number = left.number;
        if !is_short(line) {
            return Err(Refusal::new(Fault::LongLine, number));
        }
        if is_labelled(line.text, b"END OF HEADER") {
            return match header_end(header, sought, position) {
                Ok((places, point)) => Ok((places, point, behind)),
                Err(fault) => Err(Refusal::new(fault, number)),
            };
        }
        match header_line(header, line, sought, position) {
            Ok(known) => header = known,
            Err(fault) => return Err(Refusal::new(fault, number)),
        }
        left = behind;
    }
    Err(Refusal::new(Fault::NoEndOfHeader, left.number))
}
