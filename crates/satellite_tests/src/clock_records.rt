//! Records for the tests.

ghost use Rattle.std.specs.Prelude.{◌≡◌, ◌^◌, pos, ◌-ℤ◌};
ghost use Rattle.grid_model.specs.Sizes.{IsWithin};

use gnss_model::{
    AGEING_BOUND, ANGLE_BOUND, DELAY_BOUND, DRIFT_BOUND, ECCENTRICITY_BOUND, Elements,
    GREATEST_ROOT_A, LEAST_ROOT_A, OFFSET_BOUND, RATE_BOUND,
};
use grid_model::Wide;

/// 2024-01-07 00:00:00, a Sunday, in ps.
const WEEK_START: i128 = 1_388_620_800_000_000_000_000;

/// How far the extreme records' clock time is before their ephemeris time.
const CLOCK_BEFORE: i128 = 302_401_000_000_000_000;

const ZERO: Wide = Wide { lo: 0, hi: 0 };

/// A number that a field gives exactly.
fn exact(x: i128) -> Wide
    ensures low { result.lo ≡ x }
    ensures high { result.hi ≡ x }
{
    Wide { lo: x, hi: x }
}

/// A number between two of the field's.
fn below(x: i128) -> Wide
    requires { IsWithin (10 ^ 20) x }
    ensures low { result.lo ≡ x -ℤ pos 1 }
    ensures high { result.hi ≡ x }
{
    Wide { lo: x - 1, hi: x }
}

/// A circle of 5,200^2 m, the rest zero, and a group delay of 10^-8 s.
pub(crate) fn circle() -> Elements {
    Elements {
        toc: WEEK_START,
        week_start: WEEK_START,
        toe_week: ZERO,
        af0: ZERO,
        af1: ZERO,
        af2: ZERO,
        tgd: exact(100_000_000),
        root_a: exact(5_200_000_000_000_000),
        e: ZERO,
        m0: ZERO,
        dn: ZERO,
        cuc: ZERO,
        cus: ZERO,
        crc: ZERO,
        crs: ZERO,
        cic: ZERO,
        cis: ZERO,
        i0: ZERO,
        idot: ZERO,
        om0: ZERO,
        om_dot: ZERO,
        omega: ZERO,
    }
}

/// Numbers as a satellite sends them.
pub(crate) fn usual() -> Elements {
    Elements {
        toc: WEEK_START + 7_200_000_000_000_000,
        week_start: WEEK_START,
        toe_week: exact(7_200_000_000_000_000),
        af0: exact(-4_123_456_789_012),
        af1: exact(-11_368_683_772),
        af2: exact(100_000_000_000),
        tgd: exact(-111_758_709),
        root_a: exact(5_153_600_000_000_000),
        e: exact(123_456_789_012_345),
        m0: exact(12_345_678_901_234_567),
        dn: exact(45_000_000_000_000),
        cuc: ZERO,
        cus: ZERO,
        crc: ZERO,
        crs: ZERO,
        cic: ZERO,
        cis: ZERO,
        i0: ZERO,
        idot: ZERO,
        om0: ZERO,
        om_dot: ZERO,
        omega: ZERO,
    }
}

/// Each number at its greatest, between two numbers of the field.
pub(crate) fn greatest() -> Elements {
    Elements {
        toc: WEEK_START - CLOCK_BEFORE,
        week_start: WEEK_START,
        toe_week: ZERO,
        af0: below(OFFSET_BOUND),
        af1: below(DRIFT_BOUND),
        af2: below(AGEING_BOUND),
        tgd: below(DELAY_BOUND),
        root_a: below(GREATEST_ROOT_A),
        e: below(ECCENTRICITY_BOUND),
        m0: below(ANGLE_BOUND),
        dn: below(RATE_BOUND),
        cuc: ZERO,
        cus: ZERO,
        crc: ZERO,
        crs: ZERO,
        cic: ZERO,
        cis: ZERO,
        i0: ZERO,
        idot: ZERO,
        om0: ZERO,
        om_dot: ZERO,
        omega: ZERO,
    }
}

/// The signed numbers that change the offset most at their least, the smallest orbit.
pub(crate) fn least() -> Elements {
    Elements {
        toc: WEEK_START - CLOCK_BEFORE,
        week_start: WEEK_START,
        toe_week: ZERO,
        af0: exact(-OFFSET_BOUND),
        af1: below(DRIFT_BOUND),
        af2: exact(-AGEING_BOUND),
        tgd: below(DELAY_BOUND),
        root_a: exact(LEAST_ROOT_A),
        e: below(ECCENTRICITY_BOUND),
        m0: exact(-ANGLE_BOUND),
        dn: exact(-RATE_BOUND),
        cuc: ZERO,
        cus: ZERO,
        crc: ZERO,
        crs: ZERO,
        cic: ZERO,
        cis: ZERO,
        i0: ZERO,
        idot: ZERO,
        om0: ZERO,
        om_dot: ZERO,
        omega: ZERO,
    }
}
