//! Records for the tests.

ghost use Rattle.std.specs.Prelude.{◌≡◌, ◌^◌, pos, ◌+ℤ◌};
ghost use Rattle.grid_model.specs.Sizes.{IsWithin};

use gnss_model::Elements;
use grid_model::Wide;

/// 2011-01-09 00:00:00, the start of week 1618, in ps.
const WEEK_START: i128 = 978_566_400_000_000_000_000;

const ZERO: Wide = Wide { lo: 0, hi: 0 };

/// A number that a field gives exactly.
fn exact(x: i128) -> Wide
    ensures low { result.lo ≡ x }
    ensures high { result.hi ≡ x }
{
    Wide { lo: x, hi: x }
}

/// A number of a field between this one and the next.
fn above(x: i128) -> Wide
    requires { IsWithin (10 ^ 20) x }
    ensures low { result.lo ≡ x }
    ensures high { result.hi ≡ x +ℤ pos 1 }
{
    Wide { lo: x, hi: x + 1 }
}

/// A circle of 5,200^2 m over the equator, the rest zero.
pub(crate) fn circle() -> Elements {
    Elements {
        toc: WEEK_START,
        week_start: WEEK_START,
        toe_week: ZERO,
        af0: ZERO,
        af1: ZERO,
        af2: ZERO,
        tgd: ZERO,
        root_a: exact(5_200_000_000_000_000),
        e: ZERO,
        m0: ZERO,
        dn: ZERO,
        cuc: ZERO,
        cus: ZERO,
        crc: ZERO,
        crs: ZERO,
        cic: ZERO,
        cis: ZERO,
        i0: ZERO,
        idot: ZERO,
        om0: ZERO,
        om_dot: ZERO,
        omega: ZERO,
    }
}

/// An ellipse over the equator with e = 0.1, the satellite at its lowest point.
pub(crate) fn ellipse() -> Elements {
    Elements {
        toc: WEEK_START,
        week_start: WEEK_START,
        toe_week: ZERO,
        af0: ZERO,
        af1: ZERO,
        af2: ZERO,
        tgd: ZERO,
        root_a: exact(5_200_000_000_000_000),
        e: exact(1_000_000_000_000_000),
        m0: ZERO,
        dn: ZERO,
        cuc: ZERO,
        cus: ZERO,
        crc: ZERO,
        crs: ZERO,
        cic: ZERO,
        cis: ZERO,
        i0: ZERO,
        idot: ZERO,
        om0: ZERO,
        om_dot: ZERO,
        omega: ZERO,
    }
}

/// The widest ellipse of a record, the satellite at its highest point.
pub(crate) fn far_ellipse() -> Elements {
    Elements {
        toc: WEEK_START,
        week_start: WEEK_START,
        toe_week: ZERO,
        af0: ZERO,
        af1: ZERO,
        af2: ZERO,
        tgd: ZERO,
        root_a: exact(6_600_000_000_000_000),
        e: exact(2_000_000_000_000_000),
        m0: exact(31_415_926_535_897_932),
        dn: ZERO,
        cuc: ZERO,
        cus: ZERO,
        crc: ZERO,
        crs: ZERO,
        cic: ZERO,
        cis: ZERO,
        i0: ZERO,
        idot: ZERO,
        om0: ZERO,
        om_dot: ZERO,
        omega: ZERO,
    }
}

/// G01 for 2011-01-14 22:00:00, as a receiver recorded it, without its clock.
pub(crate) fn recorded() -> Elements {
    Elements {
        toc: WEEK_START + 511_200_000_000_000_000,
        week_start: WEEK_START,
        toe_week: exact(511_200_000_000_000_000),
        af0: ZERO,
        af1: ZERO,
        af2: ZERO,
        tgd: ZERO,
        root_a: exact(5_153_552_478_790_000),
        e: exact(44_262_455_776_300),
        m0: exact(30_087_841_432_100_000),
        dn: exact(41_644_591_807_300),
        cuc: above(-32_018_870_116),
        cus: above(90_654_939_413),
        crc: exact(209_593_750),
        crs: exact(-62_593_750),
        cic: above(596_046_447),
        cis: above(-223_517_418),
        i0: exact(9_676_442_552_500_000),
        idot: exact(2_657_253_542_420),
        om0: exact(-5_836_723_181_460_000),
        om_dot: exact(-77_024_636_956_700),
        omega: exact(9_029_965_813_860_000),
    }
}
