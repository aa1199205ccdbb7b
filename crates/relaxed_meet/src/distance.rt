//! How near and how far a row's satellite may be from a box.

ghost use Rattle.std.specs.Prelude.{◌≡◌, ◌+◌, ◌≤◌, ◌↔◌, IsTrue};
ghost use Rattle.relaxed_meet.specs.SmallEnds.{SmallEnds};
ghost use Rattle.grid_model.specs.Roots.{IsRoot};
ghost use Rattle.grid_model.specs.Sizes.{IsWithin};
ghost use Rattle.grid_model.specs.Amounts.{least_amount, greatest_amount, square};
ghost use Rattle.grid_model.specs.Boxes.{grid_box};
ghost use Rattle.sat_model.specs.ClockSpans.{near_of, far_of, near_square, far_square};

use grid_model::{Box3, Span, root_u128};
use sat_model::Row;

/// The least amount of a difference between a number from `a` to `b` and one from `c` to `d`.
fn least(a: i64, b: i64, c: i64, d: i64) -> u64
    requires { SmallEnds a b c d }
    ensures value { result ≡ least_amount a b c d }
    ensures bound { result ≤ 80000000000000 }
{
    if a > d {
        (a - d) as u64
    } else if c > b {
        (c - b) as u64
    } else {
        0
    }
}

/// The greatest amount of such a difference.
fn greatest(a: i64, b: i64, c: i64, d: i64) -> u64
    requires { SmallEnds a b c d }
    ensures value { result ≡ greatest_amount a b c d }
    ensures bound { result ≤ 80000000000000 }
{
    (b - c).max(d - a) as u64
}

/// Three squares, added.
fn sum_of_squares(x: u64, y: u64, z: u64) -> u128
    requires { (x ≤ 80000000000000) × (y ≤ 80000000000000) × (z ≤ 80000000000000) }
    ensures value { result ≡ square x + square y + square z }
    ensures bound { result ≤ 19200000000000000000000000000 }
{
    let (x, y, z) = (u128::from(x), u128::from(y), u128::from(z));
    x * x + y * y + z * z
}

/// The least squared distance in um^2 between a place in three spans and a point of the box, each
/// axis taken for itself.
pub fn near_square_of(x: &Span, y: &Span, z: &Span, part: &Box3) -> u128
    requires x { IsWithin 70000000000000 x.now.lo × IsWithin 70000000000000 x.now.hi }
    requires y { IsWithin 70000000000000 y.now.lo × IsWithin 70000000000000 y.now.hi }
    requires z { IsWithin 70000000000000 z.now.lo × IsWithin 70000000000000 z.now.hi }
    ensures value { result ≡ square (least_amount x.now.lo x.now.hi part.now.lo.x part.now.hi.x)
        + square (least_amount y.now.lo y.now.hi part.now.lo.y part.now.hi.y)
        + square (least_amount z.now.lo z.now.hi part.now.lo.z part.now.hi.z) }
    ensures bound { result ≤ 19200000000000000000000000000 }
{
    sum_of_squares(
        least(x.lo, x.hi, part.lo.x, part.hi.x),
        least(y.lo, y.hi, part.lo.y, part.hi.y),
        least(z.lo, z.hi, part.lo.z, part.hi.z),
    )
}

/// The greatest such squared distance in um^2.
pub fn far_square_of(x: &Span, y: &Span, z: &Span, part: &Box3) -> u128
    requires x { IsWithin 70000000000000 x.now.lo × IsWithin 70000000000000 x.now.hi }
    requires y { IsWithin 70000000000000 y.now.lo × IsWithin 70000000000000 y.now.hi }
    requires z { IsWithin 70000000000000 z.now.lo × IsWithin 70000000000000 z.now.hi }
    ensures value { result ≡ square (greatest_amount x.now.lo x.now.hi part.now.lo.x part.now.hi.x)
        + square (greatest_amount y.now.lo y.now.hi part.now.lo.y part.now.hi.y)
        + square (greatest_amount z.now.lo z.now.hi part.now.lo.z part.now.hi.z) }
    ensures bound { result ≤ 19200000000000000000000000000 }
{
    sum_of_squares(
        greatest(x.lo, x.hi, part.lo.x, part.hi.x),
        greatest(y.lo, y.hi, part.lo.y, part.hi.y),
        greatest(z.lo, z.hi, part.lo.z, part.hi.z),
    )
}

/// The least squared distance in um^2 between a place of the row and a point of the box.
pub(crate) fn near_square(row: &Row, part: &Box3) -> u128
    ensures value { result ≡ near_square row.now (grid_box part.now) }
    ensures bound { result ≤ 19200000000000000000000000000 }
{
    near_square_of(&row.x, &row.y, &row.z, part)
}

/// The greatest such squared distance in um^2.
pub(crate) fn far_square(row: &Row, part: &Box3) -> u128
    ensures value { result ≡ far_square row.now (grid_box part.now) }
    ensures bound { result ≤ 19200000000000000000000000000 }
{
    far_square_of(&row.x, &row.y, &row.z, part)
}

/// The whole-number roots of the least and of the greatest squared distance in um between a place
/// of the row and a point of the box, each axis taken for itself.
pub fn near_far(row: &Row, part: &Box3) -> (u64, u64)
    ensures near { result.0 ≡ near_of row.now (grid_box part.now) }
    ensures far { result.1 ≡ far_of row.now (grid_box part.now) }
    ensures order { result.0 ≤ result.1 }
    ensures bounds { (result.0 ≤ 200000000000000) × (result.1 ≤ 200000000000000) }
{
    let near = root_u128(near_square(row, part));
    let far = root_beside(far_square(row, part), near);
    (near, far)
}

/// The whole-number root of a number that is mostly not much greater than the square of `near`.
fn root_beside(a: u128, near: u64) -> u64
    ensures { IsRoot a result }
{
    let guess = guess_beside(a, near);
    let less = guess.wrapping_sub(1);
    if is_root(a, guess) {
        guess
    } else if is_root(a, less) {
        less
    } else {
        root_u128(a)
    }
}

/// Whether `v` is the whole-number root of `a`.
fn is_root(a: u128, v: u64) -> bool
    ensures { IsTrue result ↔ IsRoot a v }
{
    let square = u128::from(v) * u128::from(v);
    square <= a && a - square <= 2 * u128::from(v)
}

/// A guess of that root, by the first two terms of its series around the square of `near`. It is
/// right or one too great for roots from 2^40 on that are at most 2^28 greater than `near`.
fn guess_beside(a: u128, near: u64) -> u64 {
    let beyond = a.wrapping_sub(u128::from(near) * u128::from(near)) >> 12;
    let step = (beyond & u128::from(u64::MAX)) as u64 / (near >> 11).max(1);
    near.wrapping_add(step)
        .wrapping_sub(step.wrapping_mul(step) / near.max(1) / 2)
}
