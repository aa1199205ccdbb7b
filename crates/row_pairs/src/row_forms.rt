//! The form of a row.

ghost use Rattle.std.specs.Prelude.{◌≡◌, ◌-ℤ◌};
ghost use Rattle.grid_model.specs.Boxes.{grid_box};
ghost use Rattle.grid_model.specs.Sizes.{IsWithin};
ghost use Rattle.sat_model.specs.Pairs.{form_of};
ghost use Rattle.row_pairs.specs.FormValues.{form_value};

use crate::axes::axis_of;
use crate::bounds::{
    arm_of, away_square, inverse_of, lower_of, play_of, slope_of, spread_of, upper_of,
};
use crate::forms::Form;
use grid_model::Box3;
use sat_model::Row;

/// The row's form around the box.
pub fn form_of(row: &Row, part: &Box3) -> Form
    ensures { form_value result ≡ form_of (grid_box part.now) row.now }
{
    let x = axis_of(&row.x, part.lo.x, part.hi.x);
    let y = axis_of(&row.y, part.lo.y, part.hi.y);
    let z = axis_of(&row.z, part.lo.z, part.hi.z);
    let square = away_square(&x, &y, &z);
    let arm = arm_of(square);
    let inverse = inverse_of(arm);
    let play = play_of(&x, &y, &z);
    let spread = spread_of(&x, &y, &z);
    let rounding = x.side + y.side + z.side;
    Form {
        x: slope_of(arm, inverse, x.away),
        y: slope_of(arm, inverse, y.away),
        z: slope_of(arm, inverse, z.away),
        upper: upper_of(arm, inverse, most_end(row), square, play, rounding),
        lower: lower_of(arm, inverse, least_end(row), square, play, spread, rounding),
    }
}

/// The offset and the range are together at most this, in um.
fn most_end(row: &Row) -> i64
    ensures value { result ≡ row.now.range.hi -ℤ row.now.err.lo }
    ensures bound { IsWithin 61000000000000 result }
{
    row.range.hi - row.err.lo
}

/// And at least this.
fn least_end(row: &Row) -> i64
    ensures value { result ≡ row.now.range.lo -ℤ row.now.err.hi }
    ensures bound { IsWithin 61000000000000 result }
{
    row.range.lo - row.err.hi
}
