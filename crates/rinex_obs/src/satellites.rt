//! The satellite lines of an epoch.

ghost use Rattle.std.specs.Prelude.{◌<◌, ◌≤◌, [], IfOk, IfErr, IfSome, Ok, length};
ghost use Rattle.rinex_text.specs.Reading.{body_behind, Takes, Fails, Leaves, Refuses};
ghost use Rattle.rinex_obs.specs.Epochs.{satellite_line, satellites_from};
ghost use Rattle.rinex_obs.specs.Reading.{wanted_of, with_found};

use crate::found::WantedPlaces;
use crate::obs::SatObs;
use crate::satellite::satellite_line;
use rinex_text::{Body, Fault, ReadError, Refusal};
use std::alloc::Global;

/// The satellite of the next line, behind those before.
fn take_satellite<'a>(
    body: Body<'a>,
    places: &WantedPlaces,
    sats: &[SatObs],
) -> Result<(Option<SatObs>, Body<'a>), Refusal>
    ensures took { IfOk result
        (λ t. Takes (satellite_line (wanted_of places.now) sats.now) body.entry
        (with_found sats.now t.0) t.1) }
    ensures few { IfOk result (λ t. IfSome t.0 (λ sat. length sats.now < 64)) }
    ensures failed { IfErr result
        (Fails (satellite_line (wanted_of places.now) sats.now) body.entry) }
{
    let Some((line, behind)) = body.split_first() else {
        return Err(Refusal::new(Fault::Truncated, body.lines.number));
    };
    match satellite_line(line, places, sats) {
        Ok(found) => Ok((found, behind)),
        Err(fault) => Err(Refusal::new(fault, body.lines.number)),
    }
}

/// The satellites of so many lines.
pub fn take_satellites<'a>(
    alloc: Global,
    body: Body<'a>,
    places: &WantedPlaces,
    lines: u16,
) -> Result<(Vec<SatObs>, Body<'a>), ReadError>
    ensures sats { IfOk result (λ t. satellites_from
        (wanted_of places.now) lines [] (body_behind body.entry) (Ok t.0.items)) }
    ensures few { IfOk result (λ t. length t.0.items ≤ 64) }
    ensures left { IfOk result (λ t. Leaves body.entry lines t.1) }
    ensures fault { IfErr result
        (Refuses (satellites_from (wanted_of places.now) lines [] (body_behind body.entry))) }
{
    let mut sats = Vec::new(alloc);
    let mut left = body;
    let mut missing = lines;
    'lines: while missing > 0 {
        let (found, behind) = take_satellite(left, places, &sats)?;
        missing -= 1;
        left = behind;
        if let Some(sat) = found {
            sats.push(sat)?;
        }
    }
    Ok((sats, left))
}
