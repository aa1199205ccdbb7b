use epoch_rows::ObsBlocks;
use epoch_selection::{LAST_EPOCH, Searches, Selection};
use error_bounds::read_settings;
use gnss_model::{Sat, Signal, Skip};
use grid_model::{Box3, Pos};
use log_writer::Blocks;
use paving_log::LogEpoch;
use rinex_nav::{Nav, read_nav};
use rinex_obs::read_obs_both;
use sat_model::SatEntry;
use sat_rows::GpsRows;
use std::alloc::{AllocError, Global};
use std::test::Fail;

const OBS: &str = "     3.05           OBSERVATION DATA    G                   RINEX VERSION / TYPE
G    1 C1C                                                  SYS / # / OBS TYPES
E    2 C1C C5Q                                              SYS / # / OBS TYPES
                                                            END OF HEADER
> 2024 01 07 02 00  1.0000000  0  5
G01  20000000.000
G02  20000000.000
G05  20000000.000
G03  20000000.000
G04  20000000.000
> 2024 01 07 02 00 31.0000000  0  3
G01  20000000.000
G02
G05  20000000.000
";

const SETTINGS: &str = "[search]
centre = [6378137000, 0, 0]
half = 1000
outliers = 0
bisections = 0
width = 1000
max_age = 14400
[signal]
mode = \"single\"
codes = [\"C1C\"]
[bounds]
receiver = [0, 0]
orbit_clock = [0, 0]
ionosphere = [0, 0]
troposphere = [0, 0]
";

/// What a row over a root with sides of 2 m may be wide, in um: 2,000 and 2,000,000/40,000.
const ROOM: i128 = 2050;

/// Blanks and a word.
fn put(text: &mut Vec<u8>, blanks: usize, word: &str) -> Result<(), AllocError> {
    for _ in 0..blanks {
        text.push(b' ')?;
    }
    text.extend_from_slice(word.as_bytes())
}

/// The eight lines of a record of this satellite: all fields are zero but for the root of the axis.
fn put_record(text: &mut Vec<u8>, sat: &str) -> Result<(), AllocError> {
    put(text, 0, sat)?;
    put(text, 0, " 2024 01 07 00 00 00 0\n\n")?;
    put(text, 61, "5200\n")?;
    put(text, 4, "1\n\n\n\n    0\n")
}

/// A navigation file with records of G01 to G04.
fn nav_of(alloc: Global) -> Result<Nav, Fail> {
    let mut text = Vec::new(alloc);
    put(&mut text, 5, "3.05")?;
    put(&mut text, 11, "N")?;
    put(&mut text, 19, "G")?;
    put(&mut text, 19, "RINEX VERSION / TYPE\n")?;
    put(&mut text, 60, "END OF HEADER\n")?;
    for sat in ["G01", "G02", "G03", "G04"] {
        put_record(&mut text, sat)?;
    }
    if text.len() > 4_000 {
        return Err(Fail::from("long"));
    }
    let nav = read_nav(alloc, &text).ok().ok_or("refused")?;
    Ok(nav)
}

/// A header's position, which settings with a centre of their own don't ask for.
const ORIGIN: Pos = Pos { x: 0, y: 0, z: 0 };

/// The search box of the settings, with sides of 2 m.
fn root() -> Box3 {
    Box3 {
        lo: Pos {
            x: 6_378_136_000_000,
            y: -1_000_000,
            z: -1_000_000,
        },
        hi: Pos {
            x: 6_378_138_000_000,
            y: 1_000_000,
            z: 1_000_000,
        },
    }
}

/// The blocks of the selected epochs.
fn blocks_of(alloc: Global, selection: Selection) -> Result<Vec<LogEpoch>, Fail> {
    let text = OBS.as_bytes();
    if text.len() > 4_000 {
        return Err(Fail::from("long"));
    }
    let gps = Signal::Single { code: *b"C1C" };
    let galileo = Signal::Dual {
        first: *b"C1C",
        second: *b"C5Q",
    };
    let obs = match read_obs_both(alloc, text, &gps, &galileo, false) {
        Ok(obs) => obs,
        Err(_) => return Err(Fail::from("observations")),
    };
    let nav = nav_of(alloc)?;
    let settings = read_settings(alloc, SETTINGS.as_bytes())
        .ok()
        .ok_or("settings")?;
    let source = GpsRows {
        nav: &nav,
        settings: &settings,
    };
    let searches = Searches {
        left: &obs.epochs,
        selection,
        root: settings.root(Some(ORIGIN)),
    };
    let mut left = ObsBlocks::of_walk(alloc, &source, searches, &settings.rules, settings.renew);
    let mut blocks = Vec::new(alloc);
    for _ in 0..3 {
        match left.next(alloc, None) {
            Ok(Some(block)) => blocks.push(block)?,
            Ok(None) => return Ok(blocks),
            Err(_) => return Err(Fail::from("memory")),
        }
    }
    Err(Fail::from("more than two blocks"))
}

/// The skip of a GPS satellite.
fn skip(number: u8, test: u8) -> SatEntry {
    SatEntry::Skipped {
        sat: Sat {
            system: b'G',
            number,
        },
        skip: Skip {
            number: test,
            field: 0,
        },
    }
}

/// The first and the last epoch that are selected, and how many blocks they have.
static SELECTIONS: [(u32, u32, usize); 4] = [(2, 2, 1), (1, 1, 1), (3, LAST_EPOCH, 0), (2, 1, 0)];

#[test]
fn a_selection_takes_its_epochs_alone(rt: HostRuntime) -> Result<(), Fail> {
    for &(from, to, count) in &SELECTIONS {
        let blocks = blocks_of(rt.alloc(), Selection { from, to })?;
        assert_eq!(rt; blocks.len(), count);
    }
    Ok(())
}

#[test]
fn blocks_of_all_epochs(rt: HostRuntime) -> Result<(), Fail> {
    let blocks = blocks_of(rt.alloc(), Selection::all())?;
    assert_eq!(rt; blocks.len(), 2);
    let first = blocks.first().ok_or("first")?;
    assert_eq!(rt; (first.index, first.n, first.is_few()), (1, 4, false));
    assert_eq!(rt; first.ps, 1_388_628_001_000_000_000_000);
    assert_eq!(rt; first.sats.len(), 5);
    assert_eq!(rt; first.body.as_ref().map(|body| body.root), Some(root()));
    assert_eq!(rt; first.sats.get(2), Some(&skip(5, 3)));
    let Some(SatEntry::Row(row)) = first.sats.first() else {
        return Err(Fail::from("no row"));
    };
    for span in [row.x, row.y, row.z, row.range] {
        let width = i128::from(span.hi) - i128::from(span.lo);
        assert!(rt;
            2 * ROOM <= width && width <= 3 * ROOM,
            "room at both ends of a span"
        );
    }
    let second = blocks.get(1).ok_or("second")?;
    assert_eq!(rt; (second.index, second.n, second.is_few()), (2, 1, true));
    assert_eq!(rt; second.sats.as_slice(), [skip(2, 1), skip(5, 3)].as_slice());
    Ok(())
}
