//! What a half-space along an axis leaves of a box.

ghost use Rattle.std.specs.Prelude.{◌≡◌, ℤ, pos, negsuc, ◌-ℤ◌};
ghost use Rattle.grid_model.specs.Boxes.{grid_box, side_at, side_holds, with_side};
ghost use Rattle.grid_model.specs.Sizes.{IsWithin};
ghost use Rattle.sat_model.specs.MovedFaces.{alone, side_under, box_under};

use grid_model::Box3;
use sat_model::HalfSpace;

/// The first number where the two others are 0, and else 0.
fn alone(d: i64, e: i64, f: i64) -> i64
    ensures { result ≡ alone d e f }
{
    if e == 0 && f == 0 { d } else { 0 }
}

/// Whether a number is one of those of the side on an axis.
fn holds_on(part: &Box3, axis: u8, n: i64) -> bool
    ensures { result ≡ side_holds (side_at axis (grid_box part.now)) n }
{
    let (lo, hi) = part.side(axis);
    lo <= n && n <= hi
}

/// The part with coordinates of at most `hi` on the axis, where that is one of them, and else all.
fn up_to(part: &Box3, axis: u8, hi: i64) -> Box3
    ensures { grid_box result ≡ with_side axis (grid_box part.now)
        (side_under (pos 1) hi (side_at axis (grid_box part.now))) }
{
    if holds_on(part, axis, hi) {
        part.up_to(axis, hi)
    } else {
        *part
    }
}

/// The part with coordinates of at least `lo` on the axis, where that is one of them, and else all.
fn from_on(part: &Box3, axis: u8, lo: i64) -> Box3
    ensures { (most : ℤ) → lo ≡ pos 0 -ℤ most → grid_box result
        ≡ with_side axis (grid_box part.now)
        (side_under (negsuc 0) most (side_at axis (grid_box part.now))) }
{
    if holds_on(part, axis, lo) {
        part.from_on(axis, lo)
    } else {
        *part
    }
}

/// What is left of a box where so much, in um, is the most of d times its coordinates on an axis.
fn under_on(d: i64, most: i64, axis: u8, part: &Box3) -> Box3
    requires { IsWithin 9000000000000000000 most }
    ensures { grid_box result ≡ with_side axis (grid_box part.now)
        (side_under d most (side_at axis (grid_box part.now))) }
{
    if d == 1 {
        return up_to(part, axis, most);
    }
    if d == -1 {
        return from_on(part, axis, -most);
    }
    *part
}

/// What a half-space leaves of a box: one along an axis moves a face to its end, where that lies in
/// the box, and any other leaves all of it.
pub fn box_under(half: &HalfSpace, part: &Box3) -> Box3
    ensures { grid_box result ≡ box_under half.now (grid_box part.now) }
{
    let HalfSpace { x, y, z, most } = *half;
    let left = under_on(alone(x, y, z), most, 0, part);
    let left = under_on(alone(y, x, z), most, 1, &left);
    under_on(alone(z, x, y), most, 2, &left)
}
