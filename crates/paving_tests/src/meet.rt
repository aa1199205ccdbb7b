ghost use Rattle.std.specs.Prelude.{◌≤ℤ◌};
ghost use Rattle.grid_model.specs.Sizes.{IsErrorSize};

use crate::small_rows::{FAR, cuboid, metre_row, only, row};
use gnss_model::Sat;
use grid_model::{Box3, Pos, Span};
use relaxed_meet::{
    Deciding, bounds_offsets, clock_hull, clock_span, inner_span, near_far, relaxed, shown_inner,
};
use sat_model::Row;
use std::test::Fail;

#[test]
fn spans_meet_where_enough_hold(rt: HostRuntime) -> Result<(), Fail> {
    let apart = [
        Span { lo: 0, hi: 10 },
        Span { lo: 5, hi: 15 },
        Span { lo: 12, hi: 20 },
        Span { lo: 14, hi: 30 },
    ];
    assert_eq!(rt; relaxed(&apart, 4), None);
    assert_eq!(rt; relaxed(&apart, 3), Some(Span { lo: 14, hi: 15 }));
    assert_eq!(rt; relaxed(&apart, 2), Some(Span { lo: 5, hi: 20 }));
    assert_eq!(rt; relaxed(&apart, 1), Some(Span { lo: 0, hi: 30 }));
    let twice = [only(0), only(0), only(1)];
    assert_eq!(rt; relaxed(&twice, 2), Some(only(0)));
    assert_eq!(rt; relaxed(&twice, 3), None);
    let wide = [only(i64::MIN), only(i64::MAX)];
    assert_eq!(rt;
        relaxed(&wide, 1),
        Some(Span {
            lo: i64::MIN,
            hi: i64::MAX
        })
    );
    Ok(())
}

#[test]
fn a_row_overhead_shows_its_box(rt: HostRuntime) -> Result<(), Fail> {
    let far = 20_000_000_000_000;
    let row = Row {
        sat: Sat {
            system: b'G',
            number: 1,
        },
        x: only(0),
        y: only(0),
        z: only(far),
        range: only(far),
        err: only(0),
        sure_lo: 0,
        sure_hi: 0,
    };
    let column = Box3 {
        lo: Pos {
            x: 0,
            y: 0,
            z: -1_000_000,
        },
        hi: Pos {
            x: 0,
            y: 0,
            z: 1_000_000,
        },
    };
    assert_eq!(rt;
        near_far(&row, &column),
        (19_999_999_000_000, 20_000_001_000_000)
    );
    assert_eq!(rt;
        clock_span(&row, &column),
        Span {
            lo: -1_000_000,
            hi: 1_000_000
        }
    );
    assert_eq!(rt; inner_span(&row, &column), None);
    let rows = [row];
    assert_eq!(rt;
        clock_hull(&rows, &column, 0),
        Some(Span {
            lo: -1_000_000,
            hi: 1_000_000
        })
    );
    assert!(rt; !Deciding::default().shown_empty(&rows, &column, 0));
    assert_eq!(rt; shown_inner(&rows, &column, 0), None);
    let point = Box3 {
        lo: Pos { x: 0, y: 0, z: 5 },
        hi: Pos { x: 0, y: 0, z: 5 },
    };
    assert_eq!(rt; shown_inner(&rows, &point, 0), Some(5));
    Ok(())
}

#[test]
fn inner_spans_go_by_what_is_surely_allowed(rt: HostRuntime) -> Result<(), Fail> {
    // Over the cuboid the satellite is up to 1 m nearer or farther, which leaves one offset.
    let all_is_sure = metre_row(-1_000_000, 1_000_000);
    assert_eq!(rt; inner_span(&all_is_sure, &cuboid()), Some(only(0)));
    let all_but_the_ends = metre_row(-999_999, 999_999);
    assert_eq!(rt; inner_span(&all_but_the_ends, &cuboid()), None);
    // At the origin it is at its range, so the offsets mirror the errors.
    let origin = Box3 {
        lo: Pos { x: 0, y: 0, z: 0 },
        hi: Pos { x: 0, y: 0, z: 0 },
    };
    let metre = Span {
        lo: -1_000_000,
        hi: 1_000_000,
    };
    assert_eq!(rt; inner_span(&all_is_sure, &origin), Some(metre));
    let less_is_sure = metre_row(-300_000, 400_000);
    assert_eq!(rt; clock_span(&less_is_sure, &origin), metre);
    assert_eq!(rt;
        inner_span(&less_is_sure, &origin),
        Some(Span {
            lo: -400_000,
            hi: 300_000
        })
    );
    let none_is_sure = metre_row(999_999, -999_999);
    assert_eq!(rt; clock_span(&none_is_sure, &origin), metre);
    assert_eq!(rt; inner_span(&none_is_sure, &origin), None);
    assert_eq!(rt; shown_inner(&[none_is_sure], &origin, 0), None);
    Ok(())
}

/// The row of a satellite on the x axis whose error lies between these, at its range from the
/// origin.
fn with_error(lo: i64, hi: i64) -> Row
    requires ordered { lo ≤ℤ hi }
    requires sizes { IsErrorSize lo × IsErrorSize hi }
{
    let place = Pos { x: FAR, y: 0, z: 0 };
    row(1, place, FAR, Span { lo, hi })
}

#[test]
fn hulls_are_bounded_where_spans_part(rt: HostRuntime) -> Result<(), Fail> {
    let origin = Box3 {
        lo: Pos { x: 0, y: 0, z: 0 },
        hi: Pos { x: 0, y: 0, z: 0 },
    };
    // Offsets from 0 to 10, 5 to 15, 12 to 20 and 14 to 30, and their mirror images.
    let rows = [
        with_error(-10, 0),
        with_error(-15, -5),
        with_error(-20, -12),
        with_error(-30, -14),
    ];
    let mirrored = [
        with_error(0, 10),
        with_error(5, 15),
        with_error(12, 20),
        with_error(14, 30),
    ];
    // Three hold 14 to 15, two 5 to 20; all hold none, so that nothing lies beyond any bounds.
    let cases: [(u8, i64, i64, bool); 8] = [
        (1, 14, 15, true),
        (1, 15, 15, false),
        (1, 14, 14, false),
        (2, 5, 20, true),
        (2, 6, 20, false),
        (2, 5, 19, false),
        (3, 0, 30, true),
        (0, 100, -100, true),
    ];
    for (q, lo, hi, bounded) in cases {
        assert!(rt; q < 4, "fewer than the rows");
        assert_eq!(rt; bounds_offsets(&rows, &origin, q, lo, hi), bounded);
        assert_eq!(rt; bounds_offsets(&mirrored, &origin, q, -hi, -lo), bounded);
    }
    Ok(())
}
