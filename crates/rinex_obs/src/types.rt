//! The header lines with the observation types of the systems.

ghost use Rattle.std.specs.Prelude.{◌≡◌, ◌<◌, ◌↔◌, IsTrue, Option, is_some};
ghost use Rattle.rinex_obs.specs.Types.{Types, code_at, more_codes, first_codes, IsOf, IsRead};
ghost use Rattle.rinex_obs.specs.Types.{is_read, GoesOn, types_line, galileo_line};
ghost use Rattle.rinex_obs.specs.Reading.{Stands, IsFound, MayBeFound, AreFoundOf};

use crate::found::Found;
use gnss_model::Signal;
use rinex_text::{Fault, column, columns, is_blank_text, three_digits};

/// The most types on a line.
const MOST_ON_LINE: u16 = 13;

/// The code at a place of a line, from 0.
fn code_at(text: &[u8], place: u16) -> [u8; 3]
    requires { place < 13 }
    ensures { result ≡ code_at text.now place }
{
    [
        column(text, 8 + 4 * place),
        column(text, 9 + 4 * place),
        column(text, 10 + 4 * place),
    ]
}

/// The types of a line behind those before.
fn more_codes(text: &[u8], found: Found, signal: &Signal) -> Result<Found, Fault>
    ensures { (types : Types) → IsFound signal.now types found →
        Stands (IsFound signal.now) (more_codes text.now types) result }
{
    let missing = (found.count - found.seen).min(MOST_ON_LINE);
    let mut more = found;
    'codes: for place in 0..missing {
        let code = code_at(text, place);
        if is_blank_text(&code) {
            return Err(Fault::BadCount);
        }
        more = more.with(&code, signal);
    }
    Ok(more)
}

/// The types of the first line of a system.
fn first_codes(text: &[u8], signal: &Signal) -> Result<Found, Fault>
    ensures { Stands (IsFound signal.now) (first_codes text.now) result }
{
    let Some(count) = three_digits(text, 4) else {
        return Err(Fault::BadCount);
    };
    if count == 0 {
        return Err(Fault::BadCount);
    }
    let none = Found {
        count,
        seen: 0,
        first: None,
        second: None,
    };
    more_codes(text, none, signal)
}

/// Whether the line belongs to the system with this letter.
fn is_of(text: &[u8], letter: u8) -> bool
    ensures { IsTrue result ↔ IsOf letter text.now }
{
    column(text, 1) == letter
}

/// Whether the letter is that of a system that is read.
pub fn is_read(letter: u8, both: bool) -> bool
    ensures test { IsTrue result ↔ IsRead both letter }
    ensures value { result ≡ is_read both letter }
{
    letter == b'G' || (both && letter == b'E')
}

/// Whether the line goes on with the types of the line before.
fn goes_on(text: &[u8]) -> bool
    ensures { IsTrue result ↔ GoesOn text.now }
{
    is_blank_text(columns(text, 1, 6))
}

/// The types of the system with this letter behind a line of types.
pub fn types_line(
    known: Option<Found>,
    text: &[u8],
    signal: &Signal,
    letter: u8,
) -> Result<Option<Found>, Fault>
    ensures { (types : Option Types) → MayBeFound signal.now types known →
        Stands (MayBeFound signal.now) (types_line letter types text.now) result }
{
    let Some(found) = known else {
        if !is_of(text, letter) {
            return Ok(None);
        }
        return match first_codes(text, signal) {
            Ok(first) => Ok(Some(first)),
            Err(fault) => Err(fault),
        };
    };
    if found.seen < found.count {
        if !goes_on(text) {
            return Err(Fault::BadCount);
        }
        return match more_codes(text, found, signal) {
            Ok(more) => Ok(Some(more)),
            Err(fault) => Err(fault),
        };
    }
    if is_of(text, letter) {
        return Err(Fault::BadCount);
    }
    Ok(known)
}

/// Those of Galileo, where its codes are wanted.
pub fn galileo_line(
    known: Option<Found>,
    text: &[u8],
    galileo: &Option<Signal>,
) -> Result<Option<Found>, Fault>
    ensures { (types : Option Types) → AreFoundOf galileo.now types known →
        Stands (AreFoundOf galileo.now) (galileo_line (is_some galileo.now) types text.now) result }
{
    match galileo {
        Some(signal) => types_line(known, text, signal, b'E'),
        None => Ok(known),
    }
}
