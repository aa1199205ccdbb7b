//! The three texts as they are written, and that their readers take them.

use error_bounds::read_settings;
use gnss_model::Signal;
use made_texts::{
    Ephemeris, EpochCodes, FieldNumber, SatCode, ZERO, nav_text, obs_text, settings_text,
};
use rinex_nav::read_nav;
use rinex_obs::read_obs;
use std::test::Fail;

const NAV: &str = "     3.05           N: GNSS NAV DATA    G                   RINEX VERSION / TYPE
                                                            END OF HEADER
G02 2024 01 07 02 00 00 2.000000000000D-05 0.000000000000D+00 0.000000000000D+00
     0.000000000000D+00 0.000000000000D+00 0.000000000000D+00 1.442000000000D+00
     0.000000000000D+00 2.000000000000D-03 0.000000000000D+00 5.153600000000D+03
     7.200000000000D+03 0.000000000000D+00 2.000000000000D+00 0.000000000000D+00
     9.600000000000D-01 0.000000000000D+00 5.000000000000D-01-8.000000000000D-09
     0.000000000000D+00 0.000000000000D+00 0.000000000000D+00 0.000000000000D+00
     0.000000000000D+00 0.000000000000D+00-1.000000000000D-08 0.000000000000D+00
     0.000000000000D+00 0.000000000000D+00 0.000000000000D+00 0.000000000000D+00
";

const OBS: &str = "     3.05           OBSERVATION DATA    G                   RINEX VERSION / TYPE
G    1 C1C                                                  SYS / # / OBS TYPES
  2024     1     7     1     0    0.0000000     GPS         TIME OF FIRST OBS
                                                            END OF HEADER
> 2024 01 07 01 00  0.0000000  0  2
G01  20985472.060
G02        -0.001
> 2024 01 07 02 59 30.0000000  0  0
";

const SETTINGS: &str = "[bounds]
ionosphere = [0, 0]
orbit_clock = [0, 0]
receiver = [-2500, 2500]
troposphere = [0, 0]

[search]
bisections = 64
centre = [4000007000, 2999995000, 3900003000]
half = 50000
max_age = 7200
outliers = 1
width = 1000

[signal]
codes = [\"C1C\"]
mode = \"single\"
";

/// A digit, and behind the point the thousandths, times a power of ten.
fn number(negative: bool, thousandths: u16, negative_power: bool, power: u8) -> FieldNumber {
    FieldNumber {
        negative,
        digits: u64::from(thousandths) * 1_000_000_000,
        negative_power,
        power,
    }
}

#[test]
fn nav_is_written(rt: HostRuntime) -> Result<(), Fail> {
    let record = Ephemeris {
        number: 2,
        af0: number(false, 2_000, true, 5),
        af1: ZERO,
        af2: ZERO,
        crs: ZERO,
        dn: ZERO,
        m0: number(false, 1_442, false, 0),
        cuc: ZERO,
        e: number(false, 2_000, true, 3),
        cus: ZERO,
        root_a: FieldNumber {
            negative: false,
            digits: 5_153_600_000_000,
            negative_power: false,
            power: 3,
        },
        toe: number(false, 7_200, false, 3),
        cic: ZERO,
        om0: number(false, 2_000, false, 0),
        cis: ZERO,
        i0: number(false, 9_600, true, 1),
        crc: ZERO,
        omega: number(false, 5_000, true, 1),
        om_dot: number(true, 8_000, true, 9),
        idot: ZERO,
        tgd: number(true, 1_000, true, 8),
    };
    let text = nav_text(rt.alloc(), &[record]).expect(&rt, "memory");
    assert_eq!(rt; str::from_utf8(text.as_slice()).expect(&rt, "a text"), NAV);
    let nav = read_nav(rt.alloc(), text.as_slice()).expect(&rt, "a file");
    assert_eq!(rt; nav.count(), 1);
    Ok(())
}

#[test]
fn obs_is_written(rt: HostRuntime) -> Result<(), Fail> {
    let mut sats = Vec::new(rt.alloc());
    sats.push(SatCode {
        number: 1,
        code: 20_985_472_060,
    })?;
    sats.push(SatCode {
        number: 2,
        code: -1,
    })?;
    let mut epochs = Vec::new(rt.alloc());
    epochs.push(EpochCodes {
        hour: 1,
        minute: 0,
        second: 0,
        sats,
    })?;
    epochs.push(EpochCodes {
        hour: 2,
        minute: 59,
        second: 30,
        sats: Vec::new(rt.alloc()),
    })?;
    let text = obs_text(rt.alloc(), epochs.as_slice()).expect(&rt, "memory");
    assert_eq!(rt; str::from_utf8(text.as_slice()).expect(&rt, "a text"), OBS);
    let signal = Signal::Single { code: *b"C1C" };
    let obs = read_obs(rt.alloc(), text.as_slice(), &signal, false).expect(&rt, "a file");
    assert_eq!(rt; obs.epochs.len(), 2);
    Ok(())
}

#[test]
fn settings_are_written(rt: HostRuntime) -> Result<(), Fail> {
    let text = settings_text(rt.alloc(), 4_000_007_000, 2_999_995_000, 3_900_003_000).expect(
        &rt, "memory",
    );
    assert_eq!(rt;
        str::from_utf8(text.as_slice()).expect(&rt, "a text"),
        SETTINGS
    );
    let Ok(settings) = read_settings(rt.alloc(), text.as_slice()) else {
        panic!(rt; "no settings");
    };
    assert_eq!(rt; settings.max_age, 7_200);
    assert!(rt; !settings.renew);
    Ok(())
}
