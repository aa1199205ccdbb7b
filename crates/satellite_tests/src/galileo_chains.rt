//! Mean motions and pseudoranges of Galileo satellites.

ghost use Rattle.std.specs.Prelude.{◌≡◌};

use fix_interval::Exact;
use galileo_rows::{gal_dual, gal_motion};
use gnss_model::{Elements, Message};
use grid_model::Wide;
use std::test::Fail;

/// 2024-01-07 00:00:00, a Sunday, in ps.
const WEEK_START: i128 = 1_388_620_800_000_000_000_000;

const ZERO: Wide = Wide { lo: 0, hi: 0 };

/// A number that a field gives exactly.
fn exact(x: i128) -> Wide
    ensures low { result.lo ≡ x }
    ensures high { result.hi ≡ x }
{
    Wide { lo: x, hi: x }
}

/// Numbers as a Galileo satellite sends them.
fn usual() -> Elements {
    Elements {
        toc: WEEK_START + 7_200_000_000_000_000,
        week_start: WEEK_START,
        toe_week: exact(7_200_000_000_000_000),
        af0: exact(-4_123_456_789_012),
        af1: exact(-11_368_683_772),
        af2: exact(100_000_000_000),
        tgd: exact(-111_758_709),
        root_a: exact(5_440_600_000_000_000),
        e: exact(123_456_789_012_345),
        m0: exact(12_345_678_901_234_567),
        dn: exact(45_000_000_000_000),
        cuc: ZERO,
        cus: ZERO,
        crc: ZERO,
        crs: ZERO,
        cic: ZERO,
        cis: ZERO,
        i0: ZERO,
        idot: ZERO,
        om0: ZERO,
        om_dot: ZERO,
        omega: ZERO,
    }
}

fn holds(x: Exact, n: i128) -> bool {
    x.lo <= n && n <= x.hi
}

#[test]
fn mean_motion_of_galileo(rt: HostRuntime) {
    // The whole-number root of mu * 10^116 / S^6 by Python's `isqrt`, and the correction. By the mu
    // of GPS it is 1239734045735644270, which isn't held.
    let held = gal_motion(&usual(), Message::Inav);
    assert!(rt; holds(held, 1_239_733_955_228_326_673 + 45_000_000_000_000));
    assert!(rt; !holds(held, 1_239_734_045_735_644_270 + 45_000_000_000_000));
}

#[test]
fn ionosphere_free_range(rt: HostRuntime) -> Result<(), Fail> {
    // 23716 * 20000000000000 - 13225 * 20000005000000, over 10491, is 19999993696978.4.
    let first = exact(20_000_000_000_000);
    let second = exact(20_000_005_000_000);
    let free = gal_dual(first, second, Message::Fnav);
    assert!(rt; holds(free, 19_999_993_696_978));
    assert!(rt; holds(free, 19_999_993_696_979));
    assert!(rt; free.hi - free.lo <= 8);
    Ok(())
}

#[test]
fn ionosphere_free_range_of_e5b(rt: HostRuntime) -> Result<(), Fail> {
    // 23716 * 20000000000000 - 13924 * 20000005000000, over 9792, is 19999992890114.3.
    let first = exact(20_000_000_000_000);
    let second = exact(20_000_005_000_000);
    let free = gal_dual(first, second, Message::Inav);
    assert!(rt; holds(free, 19_999_992_890_114));
    assert!(rt; holds(free, 19_999_992_890_115));
    assert!(rt; free.hi - free.lo <= 8);
    Ok(())
}
