//! What satellites are judged to be.

use error_bounds::read_settings;
use exact_decimal::Decimal;
use gnss_model::{Sat, Skip};
use grid_model::{Box3, Pos, Wide};
use rinex_nav::{Nav, read_nav};
use rinex_obs::{ObsEpoch, SatObs};
use std::alloc::{AllocError, Global};
use std::test::Fail;
use usable_sats::{Judgement, Measured, judge_satellite};

/// 2024-01-07 02:00:01, 7,201 s into a week, in ps.
pub(crate) const TAG: i128 = 1_388_628_001_000_000_000_000;

pub(crate) const SAT: Sat = Sat {
    system: b'G',
    number: 1,
};

/// Fields of a navigation record; the others are zero, but for the root of the axis.
pub(crate) struct Ephemeris {
    af0: &'static str,
    toe: &'static str,
    e: &'static str,
    health: &'static str,
}

/// A record of age 7,200 s.
pub(crate) const FRESH: Ephemeris = Ephemeris {
    af0: "0",
    toe: "1",
    e: "0",
    health: "0",
};

const OLD: Ephemeris = Ephemeris { toe: "0", ..FRESH };

const ECCENTRIC: Ephemeris = Ephemeris { e: "0.3", ..FRESH };

/// One of age 0 that is as eccentric.
const NEAR_ECCENTRIC: Ephemeris = Ephemeris {
    toe: "7201",
    ..ECCENTRIC
};

const UNHEALTHY: Ephemeris = Ephemeris {
    health: "63",
    ..FRESH
};

/// Of the same age, with a clock that is 10 us ahead.
const AHEAD: Ephemeris = Ephemeris {
    af0: "0.00001",
    toe: "14401",
    ..FRESH
};

/// Blanks and a word.
fn put(text: &mut Vec<u8>, blanks: usize, word: &str) -> Result<(), AllocError> {
    for _ in 0..blanks {
        text.push(b' ')?;
    }
    text.extend_from_slice(word.as_bytes())
}

/// The eight lines of a record of G01.
fn put_record(text: &mut Vec<u8>, record: &Ephemeris) -> Result<(), AllocError> {
    put(text, 0, "G01 2024 01 07 00 00 00")?;
    put(text, 0, record.af0)?;
    put(text, 0, "\n\n")?;
    put(text, 23, record.e)?;
    put(text, 38 - record.e.len().min(38), "5200\n")?;
    put(text, 4, record.toe)?;
    put(text, 0, "\n\n\n")?;
    put(text, 23, record.health)?;
    put(text, 0, "\n    0\n")
}

/// A navigation file with these records.
pub(crate) fn nav_of(alloc: Global, records: &[Ephemeris]) -> Result<Nav, Fail> {
    let mut text = Vec::new(alloc);
    put(&mut text, 5, "3.05")?;
    put(&mut text, 11, "N")?;
    put(&mut text, 19, "G")?;
    put(&mut text, 19, "RINEX VERSION / TYPE\n")?;
    put(&mut text, 60, "END OF HEADER\n")?;
    for record in records {
        put_record(&mut text, record)?;
    }
    if text.len() > 4_000 {
        return Err(Fail::from("long"));
    }
    let nav = read_nav(alloc, &text).ok().ok_or("refused")?;
    Ok(nav)
}

/// Single codes, and records of an age up to 7,200 s.
pub(crate) const SETTINGS: &str = "[search]
centre = \"header\"
half = 1000
outliers = 1
bisections = 0
width = 1000
max_age = 7200
[signal]
mode = \"single\"
codes = [\"C1C\"]
[bounds]
receiver = [0, 0]
orbit_clock = [0, 0]
ionosphere = [0, 0]
troposphere = [0, 0]
";

/// The same with a delay at the zenith.
const MAPPED: &str = "[search]
centre = \"header\"
half = 1000
outliers = 1
bisections = 0
width = 1000
max_age = 7200
[signal]
mode = \"single\"
codes = [\"C1C\"]
[bounds]
receiver = [0, 0]
orbit_clock = [0, 0]
ionosphere = [0, 0]
troposphere = [0, 0]
zenith = [1800, 3000]
";

/// The same with a delay at the vertical in its place.
const SHELL: &str = "[search]
centre = \"header\"
half = 1000
outliers = 1
bisections = 0
width = 1000
max_age = 7200
[signal]
mode = \"single\"
codes = [\"C1C\"]
[bounds]
receiver = [0, 0]
orbit_clock = [0, 0]
ionosphere = [0, 0]
troposphere = [0, 0]
vertical = [0, 35000]
";

/// Two points on the x axis.
const HIGH: Box3 = Box3 {
    lo: Pos {
        x: 6_000_000_000_000,
        y: 0,
        z: 0,
    },
    hi: Pos {
        x: 6_000_000_000_001,
        y: 0,
        z: 0,
    },
};

/// The lower of them, and the one below.
const LOW: Box3 = Box3 {
    lo: Pos {
        x: 5_999_999_999_999,
        y: 0,
        z: 0,
    },
    hi: Pos {
        x: 6_000_000_000_000,
        y: 0,
        z: 0,
    },
};

/// What G01 is judged to be where it was observed with this code, in mm.
fn judged(alloc: Global, code: Option<i64>, records: &[Ephemeris]) -> Result<Judgement, Fail> {
    judged_in(alloc, code, records, SETTINGS, &LOW)
}

/// The same by these settings and in this search box.
fn judged_in(
    alloc: Global,
    code: Option<i64>,
    records: &[Ephemeris],
    settings: &str,
    root: &Box3,
) -> Result<Judgement, Fail> {
    let nav = nav_of(alloc, records)?;
    let settings = read_settings(alloc, settings.as_bytes())
        .ok()
        .ok_or("settings")?;
    let seen = SatObs {
        sat: SAT,
        first: code.map(|mm| Decimal {
            digits: mm,
            ten: -3,
        }),
        second: None,
    };
    let epoch = ObsEpoch {
        index: 1,
        tag: TAG,
        sats: Vec::new(alloc),
    };
    Ok(judge_satellite(&seen, &epoch, &nav, &settings, &None, root))
}

/// The code of G01, its records, and the test that fails first with the field that it names.
static SKIPPED: [(Option<i64>, &[Ephemeris], u8, u8); 6] = [
    (None, &[], 1, 0),
    (Some(14_999_999_999), &[], 2, 0),
    (Some(15_000_000_000), &[], 3, 0),
    (Some(15_000_000_000), &[UNHEALTHY], 4, 0),
    (Some(15_000_000_000), &[OLD], 5, 0),
    (Some(15_000_000_000), &[OLD, ECCENTRIC], 6, 8),
];

#[test]
fn the_first_test_that_fails(rt: HostRuntime) -> Result<(), Fail> {
    for &(code, records, number, field) in &SKIPPED {
        let told = judged(rt.alloc(), code, records)?;
        assert_eq!(rt; told, Judgement::Skipped(Skip { number, field }));
    }
    Ok(())
}

/// 15,000 km, in mm.
const CODE: Option<i64> = Some(15_000_000_000);

/// The same of this code, in the higher box or the lower one.
fn judged_over(
    alloc: Global,
    records: &[Ephemeris],
    settings: &str,
    is_high: bool,
) -> Result<Judgement, Fail> {
    if is_high {
        return judged_in(alloc, CODE, records, settings, &HIGH);
    }
    judged_in(alloc, CODE, records, settings, &LOW)
}

/// A record, settings, whether the box is the higher one, and the test that fails, if one does.
static MAPPING: [(&[Ephemeris], &str, bool, Option<u8>); 6] = [
    (&[FRESH], MAPPED, false, Some(7)),
    // By the delay at the vertical.
    (&[FRESH], SHELL, false, Some(7)),
    (&[FRESH], SHELL, true, None),
    (&[FRESH], MAPPED, true, None),
    (&[FRESH], SETTINGS, false, None),
    (&[OLD], MAPPED, false, Some(5)),
];

#[test]
fn a_bound_is_mapped_from_high_places_alone(rt: HostRuntime) -> Result<(), Fail> {
    for &(records, settings, is_high, skipped) in &MAPPING {
        let told = judged_over(rt.alloc(), records, settings, is_high)?;
        match skipped {
            Some(number) => {
                assert_eq!(rt; told, Judgement::Skipped(Skip { number, field: 0 }));
            }
            None => assert!(rt; matches!(told, Judgement::Usable { .. }), "usable"),
        }
    }
    Ok(())
}

/// Two records that are as near, and the offset of the later one's clock in 10^-16 s.
static AS_NEAR: [(&[Ephemeris], i128); 2] = [
    (&[FRESH, AHEAD], 100_000_000_000),
    (&[AHEAD, FRESH], 0),
];

#[test]
fn of_two_records_as_near_the_later(rt: HostRuntime) -> Result<(), Fail> {
    for &(records, offset) in &AS_NEAR {
        let told = judged(rt.alloc(), CODE, records)?;
        let Judgement::Usable { codes, elements } = told else {
            return Err(Fail::from("skipped"));
        };
        let code = Wide {
            lo: 15_000_000_000_000,
            hi: 15_000_000_000_000,
        };
        assert_eq!(rt; codes, Measured::Single(code));
        assert_eq!(rt; elements.af0.lo, offset);
        assert_eq!(rt; elements.af0.hi, offset);
    }
    Ok(())
}

/// A record that is farther than an unfit one, in both orders.
static FARTHER: [&[Ephemeris]; 2] = [&[AHEAD, NEAR_ECCENTRIC], &[NEAR_ECCENTRIC, AHEAD]];

#[test]
fn a_farther_record_where_the_nearest_is_unfit(rt: HostRuntime) -> Result<(), Fail> {
    for &records in &FARTHER {
        let told = judged(rt.alloc(), CODE, records)?;
        let Judgement::Usable { elements, .. } = told else {
            return Err(Fail::from("skipped"));
        };
        assert_eq!(rt; elements.af0.lo, 100_000_000_000);
    }
    Ok(())
}
