//! Rows of a satellite over a search box and its parts.

ghost use Rattle.std.specs.Prelude.{◌≡◌, pos};
ghost use Rattle.grid_model.specs.Boxes.{grid_box};
ghost use Rattle.grid_model.specs.SearchBoxes.{IsSearchBox};
ghost use Rattle.gnss_model.specs.Delays.{AreDelays};
ghost use Rattle.gnss_model.specs.declared.systems.System.TheVariants.{Gps};
ghost use Rattle.usable_sats.specs.Measured.{codes_of};
ghost use Rattle.sat_rows.specs.Bases.{IsNarrowBase};
ghost use Rattle.sat_rows.specs.OwnRows.{IsSmallRow};
ghost use Rattle.sat_rows.specs.RowSizes.{AreNarrow};
ghost use Rattle.usable_sats.specs.Usability.{ArePlausible};

use elevation_mapping::is_far_from_origin;
use fix_interval::{Exact, Place};
use gnss_model::{Delays, Elements, Layer, Sat, System};
use grid_model::{Box3, Pos, Span, Wide};
use sat_model::Row;
use sat_rows::{Base, base_of, grown, mapped, renewed};
use std::process::Abort;
use usable_sats::Measured;

/// 2024-01-07 00:00:00, a Sunday, in ps.
const WEEK_START: i128 = 1_388_620_800_000_000_000_000;

/// 0.07 s of light, in um.
const RANGE: i128 = 20_985_472_060_000;

/// The error that is declared, in um.
const ERROR: Span = Span {
    lo: -1_000,
    hi: 2_000,
};

/// No delay straight up.
const NONE: Delays = Delays {
    zenith: None,
    vertical: None,
};

/// A number that a field gives exactly.
fn exact(x: i128) -> Wide
    ensures low { result.lo ≡ x }
    ensures high { result.hi ≡ x }
{
    Wide { lo: x, hi: x }
}

/// A circle of 5,200^2 m over the equator, and a group delay of 10^-8 s.
fn circle() -> Elements
    ensures start { result.week_start ≡ WEEK_START }
    ensures low { result.toe_week.lo ≡ pos 0 }
    ensures high { result.toe_week.hi ≡ pos 0 }
{
    let zero = exact(0);
    Elements {
        toc: WEEK_START,
        week_start: WEEK_START,
        toe_week: zero,
        af0: zero,
        af1: zero,
        af2: zero,
        tgd: exact(100_000_000),
        root_a: exact(5_200_000_000_000_000),
        e: zero,
        m0: zero,
        dn: zero,
        cuc: zero,
        cus: zero,
        crc: zero,
        crs: zero,
        cic: zero,
        cis: zero,
        i0: zero,
        idot: zero,
        om0: zero,
        om_dot: zero,
        omega: zero,
    }
}

/// A cube of 2 m round a point of the equator.
pub(crate) fn around() -> Box3
    ensures { IsSearchBox (grid_box result) }
{
    Box3 {
        lo: Pos {
            x: 6_378_136_000_000,
            y: -1_000_000,
            z: -1_000_000,
        },
        hi: Pos {
            x: 6_378_138_000_000,
            y: 1_000_000,
            z: 1_000_000,
        },
    }
}

/// A satellite overhead.
const SAT: Sat = Sat {
    system: b'G',
    number: 1,
};

/// When it was received: 0.07 s after the ephemeris time.
const TAG: i128 = WEEK_START + 70_000_000_000;

/// What was received over the cube.
fn seen_by(codes: &Measured) -> Row
    requires plausible { ArePlausible Gps (codes_of codes.now) }
    requires narrow { AreNarrow (codes_of codes.now) }
    ensures { IsSmallRow result }
{
    let base = base_of(System::Gps, SAT, TAG, codes, &circle(), ERROR);
    renewed(&base, NONE, &around())
}

fn holds(span: Span, n: i64) -> bool {
    span.lo <= n && n <= span.hi
}

#[test]
fn a_satellite_overhead_with_one_code_and_with_two(rt: HostRuntime) {
    // A group delay of 10 ns is taken off of one code alone: the range is 2997924.58 um shorter,
    // and the satellite has gone on by 18.7 um to the east.
    let one = seen_by(&Measured::Single(exact(RANGE)));
    assert!(rt;
        holds(one.range, 20_985_472_060_000 - 2_997_925),
        "the range by one"
    );
    assert!(rt; holds(one.y, -135_896_703), "the place by one");
    let two = seen_by(&Measured::Dual(exact(RANGE), exact(RANGE)));
    assert!(rt; holds(two.range, 20_985_472_060_000), "the range by two");
    assert!(rt; holds(two.y, -135_896_721), "136 m to the west");
    for row in [one, two] {
        assert!(rt; holds(row.x, 27_039_999_999_658), "nearly as far as sent");
        assert!(rt; -135_899_000 <= row.y.lo, "no farther to the west");
        assert!(rt; row.y.hi <= -135_894_000, "no less far");
        assert!(rt; holds(row.z, 0), "over the equator");
        assert_eq!(rt; row.err, ERROR, "the error");
        assert_eq!(rt;
            (row.sure_lo, row.sure_hi),
            (ERROR.lo, ERROR.hi),
            "its ends"
        );
    }
}

/// A row by delays straight up alone.
fn seen_through(rt: &impl Abort, delays: Delays) -> Row
    requires { AreDelays delays }
{
    let root = around();
    assert!(rt; is_far_from_origin(&root), "high enough");
    let codes = Measured::Single(exact(RANGE));
    let none = Span { lo: 0, hi: 0 };
    let base = base_of(System::Gps, SAT, TAG, &codes, &circle(), none);
    renewed(&base, delays, &root)
}

#[test]
fn delays_of_a_satellite_overhead(rt: HostRuntime) {
    // The sine of its elevation is 2 * 10^-11 less than 1, and so a delay is hardly more.
    let zenith = Some(Span {
        lo: 2_000_000,
        hi: 2_500_000,
    });
    let row = seen_through(&rt, Delays { zenith, ..NONE });
    for delay in [2_000_000, 2_000_001] {
        assert!(rt; holds(row.low_bounds(), delay), "a low end");
    }
    for delay in [2_500_000, 2_500_001] {
        assert!(rt; holds(row.high_bounds(), delay), "a high end");
    }
    assert!(rt; row.err.lo >= 1_998_000, "no less than that");
    assert!(rt; row.err.hi <= 2_502_000, "and no more");
    let vertical = Some(Span {
        lo: 0,
        hi: 35_000_000,
    });
    let both = seen_through(&rt, Delays { zenith, vertical });
    for delay in [2_000_000, 2_000_001] {
        assert!(rt; holds(both.low_bounds(), delay), "a low end of both");
    }
    for delay in [37_500_000, 37_500_001] {
        assert!(rt; holds(both.high_bounds(), delay), "a high end of both");
    }
    assert!(rt; both.err.lo >= 1_996_000, "no less than that");
    assert!(rt; both.err.hi <= 37_504_000, "and no more");
}

#[test]
fn the_mapping_of_a_satellite_on_the_horizon(rt: HostRuntime) {
    let place = Place {
        x: Exact {
            lo: 6_378_137_000_000,
            hi: 6_378_137_000_000,
        },
        y: Exact {
            lo: 20_000_000_000_000,
            hi: 20_000_000_000_000,
        },
        z: Exact { lo: 0, hi: 0 },
    };
    let point = Pos {
        x: 6_378_137_000_000,
        y: 0,
        z: 0,
    };
    let part = Box3 {
        lo: point,
        hi: point,
    };
    let found = mapped(place, &part, Layer::Troposphere);
    assert!(rt; 223_773_000_000_000_000 <= found.lo, "no less");
    assert!(rt; found.hi <= 223_776_000_000_000_000, "no more");
}

/// The base of a satellite that was 27,040 km from the earth's centre at the longitude 0 when it
/// sent.
fn sent_over_the_equator() -> Base
    ensures { IsNarrowBase result }
{
    let codes = Measured::Dual(exact(RANGE), exact(RANGE));
    base_of(System::Gps, SAT, TAG, &codes, &circle(), ERROR)
}

/// A search box of 20 km at the longitude of 45 degrees.
fn root() -> Box3
    ensures { IsSearchBox (grid_box result) }
{
    Box3 {
        lo: Pos {
            x: 4_500_000_000_000,
            y: 4_500_000_000_000,
            z: -10_000_000_000,
        },
        hi: Pos {
            x: 4_520_000_000_000,
            y: 4_520_000_000_000,
            z: 10_000_000_000,
        },
    }
}

/// The cube of 2 m in its low corner.
fn low_part() -> Box3
    ensures { IsSearchBox (grid_box result) }
{
    Box3 {
        lo: Pos {
            x: 4_500_000_000_000,
            y: 4_500_000_000_000,
            z: -10_000_000_000,
        },
        hi: Pos {
            x: 4_500_002_000_000,
            y: 4_500_002_000_000,
            z: -9_998_000_000,
        },
    }
}

/// The point of its high corner.
fn high_part() -> Box3
    ensures { IsSearchBox (grid_box result) }
{
    let corner = Pos {
        x: 4_520_000_000_000,
        y: 4_520_000_000_000,
        z: 10_000_000_000,
    };
    Box3 {
        lo: corner,
        hi: corner,
    }
}

/// What is seen of the satellite from a point, in um: where its place is turned to, and the ends of
/// its error by delays from 2 m to 2.5 m at the zenith and from 0 to 10 m at the vertical.
struct View {
    y: i64,
    low_end: i64,
    high_end: i64,
}

/// From the low corner the signal is under way for 22,984,844,149,618 um. The sine of the elevation
/// is 0.554977, so the delays are 1.797847 and 1.626235 times as long as straight up.
const FROM_LOW: View = View {
    y: -151_175_379,
    low_end: 3_594_693,
    high_end: 20_758_964,
};

/// From the high corner it is for 22,969,159,011,523 um. The sine is 0.554125, the delays are
/// 1.800594 and 1.628065 times as long.
const FROM_HIGH: View = View {
    y: -151_072_215,
    low_end: 3_600_189,
    high_end: 20_784_134,
};

/// The row over a part of the root.
fn seen_from(rt: &impl Abort, part: &Box3) -> Row
    requires { IsSearchBox (grid_box part.now) }
{
    assert!(rt; is_far_from_origin(part), "high enough");
    let delays = Delays {
        zenith: Some(Span {
            lo: 2_000_000,
            hi: 2_500_000,
        }),
        vertical: Some(Span {
            lo: 0,
            hi: 10_000_000,
        }),
    };
    let row = renewed(&sent_over_the_equator(), delays, part);
    assert!(rt; holds(row.x, 27_039_999_999_578), "0.4 mm less than sent");
    assert!(rt; holds(row.z, 0), "over the equator");
    assert!(rt; holds(row.range, 20_985_472_060_000), "the range");
    row
}

/// Whether the row's spans hold the turned place, the low and the high end of the error.
fn sees(row: &Row, view: &View) -> (bool, bool, bool) {
    (
        holds(row.y, view.y),
        holds(row.low_bounds(), view.low_end),
        holds(row.high_bounds(), view.high_end),
    )
}

#[test]
fn rows_over_a_search_box_and_its_parts(rt: HostRuntime) {
    let all = (true, true, true);
    let none = (false, false, false);
    let whole = seen_from(&rt, &root());
    let low = seen_from(&rt, &low_part());
    let high = seen_from(&rt, &high_part());
    for (row, from_low, from_high) in [(whole, all, all), (low, all, none), (high, none, all)] {
        assert_eq!(rt; sees(&row, &FROM_LOW), from_low, "from the low corner");
        assert_eq!(rt; sees(&row, &FROM_HIGH), from_high, "from the high corner");
    }
}

#[test]
fn growth_is_at_both_ends(rt: HostRuntime) {
    let row = seen_by(&Measured::Single(exact(RANGE)));
    let wide = grown(&row, 3, 2);
    for (span, more) in [
        (row.x, wide.x),
        (row.y, wide.y),
        (row.z, wide.z),
        (row.range, wide.range),
    ] {
        assert_eq!(rt; more.lo.checked_add(3), Some(span.lo));
        assert_eq!(rt; span.hi.checked_add(3), Some(more.hi));
    }
    for (span, more) in [
        (row.low_bounds(), wide.low_bounds()),
        (row.high_bounds(), wide.high_bounds()),
    ] {
        assert_eq!(rt; more.lo.checked_add(2), Some(span.lo));
        assert_eq!(rt; span.hi.checked_add(2), Some(more.hi));
    }
    assert_eq!(rt; wide.sat, row.sat, "the same satellite");
}
