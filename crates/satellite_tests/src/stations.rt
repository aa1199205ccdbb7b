//! A satellite that a receiver and a station observed, and the row of their difference.

ghost use Rattle.std.specs.Prelude.{◌≡◌, ◌≤◌, length, IfOk};

use crate::rows_overhead::around;
use crate::usable_satellites::{FRESH, SAT, SETTINGS, TAG, nav_of};
use error_bounds::{Settings, read_settings};
use exact_decimal::Decimal;
use gnss_model::{Sat, Skip};
use grid_model::Pos;
use rinex_nav::Nav;
use rinex_obs::{ObsEpoch, SatObs};
use sat_rows::{RowSource, SatLine};
use station_epochs::KnownStation;
use station_rows::FileRows;
use std::alloc::Global;
use std::test::Fail;

/// 20,000 km, in mm.
const CODE: i64 = 20_000_000_000;

/// 5,000 km less.
const NEARER: i64 = 15_000_000_000;

/// How far, in s, the station's epoch may be from that of the receiver.
const AGE: u32 = 30;

/// The same in ps.
const APART: i128 = 30_000_000_000_000;

/// A GPS satellite that was observed with a code in mm, or with none.
fn observed(alloc: Global, number: u8, code: Option<i64>) -> Result<Vec<SatObs>, Fail>
    ensures { IfOk result (λ sats. length sats.items ≤ 64) }
{
    let mut sats = Vec::new(alloc);
    sats.push(SatObs {
        sat: Sat {
            system: b'G',
            number,
        },
        first: code.map(|mm| Decimal {
            digits: mm,
            ten: -3,
        }),
        second: None,
    })?;
    Ok(sats)
}

/// A station on the equator with at most one epoch.
fn on_the_equator(epochs: &[ObsEpoch]) -> KnownStation<'_>
    requires { length epochs.now ≤ 1 }
    ensures { result.age ≡ AGE }
{
    KnownStation {
        place: Pos {
            x: 6_378_137_000_000,
            y: 0,
            z: 0,
        },
        age: AGE,
        epochs,
    }
}

/// The rows of these files with such a station.
fn beside<'a>(nav: &'a Nav, settings: &'a Settings, epochs: &'a [ObsEpoch]) -> FileRows<'a>
    requires few { length epochs.now ≤ 1 }
    requires short { settings.now.max_age ≤ 14000 }
{
    let station = Some(on_the_equator(epochs));
    FileRows {
        nav,
        settings,
        station,
    }
}

/// The line of G01, which was observed with a code in mm, beside a station that observed a
/// satellite at most once, so many ps later.
fn line_beside(
    alloc: Global,
    code: i64,
    later: i128,
    station: Option<Vec<SatObs>>,
) -> Result<SatLine, Fail> {
    let nav = nav_of(alloc, &[FRESH])?;
    let settings = read_settings(alloc, SETTINGS.as_bytes())
        .ok()
        .ok_or("settings")?;
    let mut epochs = Vec::new(alloc);
    if let Some(sats) = station {
        if sats.len() > 64 || !(0..=APART + 1).contains(&later) {
            return Err(Fail::from("many"));
        }
        epochs.push(ObsEpoch {
            index: 1,
            tag: TAG + later,
            sats,
        })?;
    }
    if settings.max_age > 14_000 || epochs.len() > 1 {
        return Err(Fail::from("old"));
    }
    let source = beside(&nav, &settings, &epochs);
    let epoch = ObsEpoch {
        index: 1,
        tag: TAG,
        sats: observed(alloc, SAT.number, Some(code))?,
    };
    let rows = source.lines(alloc, &epoch, &around()).ok().ok_or("memory")?;
    let line = rows.lines.first().ok_or("no line")?;
    Ok(*line)
}

/// That of a satellite which isn't used.
fn skipped(number: u8) -> SatLine {
    SatLine::Skipped {
        sat: SAT,
        skip: Skip { number, field: 0 },
    }
}

#[test]
fn a_satellite_that_a_station_lacks(rt: HostRuntime) -> Result<(), Fail> {
    let alloc = rt.alloc();
    let none = line_beside(alloc, CODE, 0, None)?;
    assert_eq!(rt; none, skipped(8), "no epoch");
    let other = Some(observed(alloc, 2, Some(CODE))?);
    let line = line_beside(alloc, CODE, 0, other)?;
    assert_eq!(rt; line, skipped(8), "another satellite");
    let blank = Some(observed(alloc, 1, None)?);
    assert_eq!(rt; line_beside(alloc, CODE, 0, blank)?, skipped(8), "no code");
    let late = Some(observed(alloc, 1, Some(CODE))?);
    let line = line_beside(alloc, CODE, APART + 1, late)?;
    assert_eq!(rt; line, skipped(8), "too late");
    let far = Some(observed(alloc, 1, Some(NEARER))?);
    let line = line_beside(alloc, CODE + 1, 0, far)?;
    assert_eq!(rt; line, skipped(9), "too far");
    Ok(())
}

#[test]
fn the_row_of_a_difference(rt: HostRuntime) -> Result<(), Fail> {
    // By the second checker's equations: the code less that of the station, and the station's
    // range to the satellite, in um.
    let alloc = rt.alloc();
    for (later, code, range) in [
        (0, CODE, 21_648_988_552_083),
        (APART, NEARER, 26_656_880_046_837),
    ] {
        let station = Some(observed(alloc, 1, Some(code))?);
        let SatLine::Usable(row) = line_beside(alloc, CODE, later, station)? else {
            return Err(Fail::from("skipped"));
        };
        assert!(rt; row.range.lo <= range, "no more");
        assert!(rt; range <= row.range.hi, "no less");
    }
    Ok(())
}
