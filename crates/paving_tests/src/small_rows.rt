//! Rows of a few satellites and small boxes, whose clock spans are easily worked out by hand.

ghost use Rattle.std.specs.Prelude.{◌≡◌, ◌≤◌, ◌≤ℤ◌, negsuc, pos, length};
ghost use Rattle.grid_model.specs.Sizes.{IsPlaceSize, IsErrorSize};

use gnss_model::Sat;
use grid_model::{Box3, Pos, Span};
use sat_model::{Row, Rules, Step};

/// The distance of the satellites from the origin.
pub const FAR: i64 = 20_000_000_000_000;

/// The span of one number.
pub fn only(number: i64) -> Span
    ensures lo { result.lo ≡ number }
    ensures hi { result.hi ≡ number }
{
    Span {
        lo: number,
        hi: number,
    }
}

/// The errors of at most this amount.
pub fn up_to(amount: i64) -> Span
    requires { (pos 0 ≤ℤ amount) × (amount ≤ℤ pos 1000000000000) }
    ensures { IsErrorSize result.lo × IsErrorSize result.hi }
{
    Span {
        lo: -amount,
        hi: amount,
    }
}

/// The row of a satellite whose place is known exactly, with its range in um.
pub fn row(number: u8, place: Pos, range: i64, err: Span) -> Row
    requires place { IsPlaceSize place.x × IsPlaceSize place.y × IsPlaceSize place.z }
    requires range { IsPlaceSize range }
    requires err { IsErrorSize err.lo × IsErrorSize err.hi }
{
    Row {
        sat: Sat {
            system: b'G',
            number,
        },
        x: only(place.x),
        y: only(place.y),
        z: only(place.z),
        range: only(range),
        err,
        sure_lo: err.lo,
        sure_hi: err.hi,
    }
}

/// The row of a satellite on the x axis, 20,000 km from the origin and at that range, whose error
/// is at most 1 m; from `sure_lo` to `sure_hi` it is surely allowed.
pub fn metre_row(sure_lo: i64, sure_hi: i64) -> Row
    requires low { (negsuc 999999 ≤ℤ sure_lo) × (sure_lo ≤ℤ pos 1000000) }
    requires high { (negsuc 999999 ≤ℤ sure_hi) × (sure_hi ≤ℤ pos 1000000) }
{
    Row {
        sat: Sat {
            system: b'G',
            number: 1,
        },
        x: only(FAR),
        y: only(0),
        z: only(0),
        range: only(FAR),
        err: Span {
            lo: -1_000_000,
            hi: 1_000_000,
        },
        sure_lo,
        sure_hi,
    }
}

/// Satellites 20,000 km from the origin, three of them on the axes; the first has this range.
pub fn four_rows(first_range: i64, err: Span) -> [Row; 4]
    requires range { IsPlaceSize first_range }
    requires err { IsErrorSize err.lo × IsErrorSize err.hi }
    ensures { length result ≡ 4 }
{
    let on_x = Pos { x: FAR, y: 0, z: 0 };
    let on_y = Pos { x: 0, y: FAR, z: 0 };
    let on_z = Pos { x: 0, y: 0, z: FAR };
    let between = Pos {
        x: 12_000_000_000_000,
        y: 16_000_000_000_000,
        z: 0,
    };
    [
        row(1, on_x, first_range, err),
        row(2, on_y, FAR, err),
        row(3, on_z, FAR, err),
        row(4, between, FAR, err),
    ]
}

/// The same four, all at their ranges, and one opposite the third.
pub fn five_rows(err: Span) -> [Row; 5]
    requires { IsErrorSize err.lo × IsErrorSize err.hi }
    ensures { length result ≡ 5 }
{
    let [first, second, third, fourth] = four_rows(FAR, err);
    let below = Pos {
        x: 0,
        y: 0,
        z: -FAR,
    };
    [first, second, third, fourth, row(5, below, FAR, err)]
}

/// A box with sides of 2, 1.8 and 1.8 m round the origin.
pub fn cuboid() -> Box3 {
    Box3 {
        lo: Pos {
            x: -1_000_000,
            y: -900_000,
            z: -900_000,
        },
        hi: Pos {
            x: 1_000_000,
            y: 900_000,
            z: 900_000,
        },
    }
}

/// Rules of a paving, the width in um.
pub fn rules(outliers: u8, bisections: u32, width: i64) -> Rules
    requires counts { (outliers ≤ 8) × (bisections ≤ 200000) }
    requires width { (pos 1000 ≤ℤ width) × (width ≤ℤ pos 10000000000) }
    ensures { result.outliers ≡ outliers }
{
    Rules {
        outliers,
        bisections,
        width,
        pairs: false,
    }
}

pub fn edge(id: u32, lo: i64, hi: i64) -> Step {
    Step::Edge { id, lo, hi }
}

pub fn split(id: u32) -> Step {
    Step::Split { id, axis: 0 }
}

/// A cut of box 0.
pub fn cut(face: u8, bound: i64) -> Step {
    cut_of(0, face, bound)
}

pub fn cut_of(id: u32, face: u8, bound: i64) -> Step {
    Step::Cut { id, face, bound }
}
