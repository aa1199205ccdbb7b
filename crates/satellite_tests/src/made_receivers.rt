//! What is made of the seed 7. The draws are those of the printed generator, found by ten lines of
//! Python: 278, 231, 753 for the place, 73, 45, 19, 64, 64, 39, 86, 95 for the mean anomalies.

use gnss_model::Signal;
use grid_model::Pos;
use made_input::make;
use rinex_obs::read_obs;
use std::test::Fail;

const NAV_BEGINS: &str =
    "     3.05           N: GNSS NAV DATA    G                   RINEX VERSION / TYPE
                                                            END OF HEADER
G01 2024 01 07 02 00 00 1.000000000000D-05 0.000000000000D+00 0.000000000000D+00
     0.000000000000D+00 0.000000000000D+00 0.000000000000D+00 7.730000000000D-01
     0.000000000000D+00 1.000000000000D-03 0.000000000000D+00 5.153600000000D+03
     7.200000000000D+03 0.000000000000D+00 1.000000000000D+00 0.000000000000D+00
     9.600000000000D-01 0.000000000000D+00 5.000000000000D-01-8.000000000000D-09
     0.000000000000D+00 0.000000000000D+00 0.000000000000D+00 0.000000000000D+00
     0.000000000000D+00 0.000000000000D+00-1.000000000000D-08 0.000000000000D+00
     0.000000000000D+00 0.000000000000D+00 0.000000000000D+00 0.000000000000D+00
G02 2024 01 07 02 00 00 2.000000000000D-05 0.000000000000D+00 0.000000000000D+00
     0.000000000000D+00 0.000000000000D+00 0.000000000000D+00 1.445000000000D+00
";

#[test]
fn a_seed_gives_its_place_and_texts(rt: HostRuntime) -> Result<(), Fail> {
    let made = make(rt.alloc(), 7, 3).expect(&rt, "memory");
    let place = Pos {
        x: 4_000_278_000_000,
        y: 3_000_231_000_000,
        z: 3_900_753_000_000,
    };
    assert_eq!(rt; made.place, place);
    let nav = str::from_utf8(made.nav.as_slice()).expect(&rt, "a text");
    assert!(rt; nav.starts_with(NAV_BEGINS));
    let settings = str::from_utf8(made.settings.as_slice()).expect(&rt, "a text");
    assert!(rt; settings.contains("centre = [4000285000, 3000226000, 3900756000]\n"));
    let signal = Signal::Single { code: *b"C1C" };
    assert!(rt; made.obs.len() < 10_000);
    let obs = read_obs(rt.alloc(), made.obs.as_slice(), &signal, false).expect(&rt, "a file");
    assert_eq!(rt; obs.epochs.len(), 3);
    for epoch in &obs.epochs {
        assert_eq!(rt; epoch.sats.len(), 8);
    }
    Ok(())
}
