//! Squared distances over any kind of interval.

ghost use Rattle.std.specs.Prelude.{◌≡◌, ◌+◌, ◌^◌, ◌≤◌, ℤ};
ghost use Rattle.grid_model.specs.Sizes.{IsWithin};
ghost use Rattle.grid_model.specs.Intervals.{Between};
ghost use Rattle.grid_model.specs.Squares.{least_square, greatest_square, sum_of_squares};

use crate::interval::Interval;

/// From the least to the greatest squared length of a vector whose parts are members of `dx`,
/// `dy` and `dz`: of the differences of a box and a satellite's place, their squared distances.
pub fn squared_distance<I: Interval>(dx: I, dy: I, dz: I) -> I::Area
    requires x_low { IsWithin (2 ^ 47) (I.low dx) }
    requires x_high { IsWithin (2 ^ 47) (I.high dx) }
    requires y_low { IsWithin (2 ^ 47) (I.low dy) }
    requires y_high { IsWithin (2 ^ 47) (I.high dy) }
    requires z_low { IsWithin (2 ^ 47) (I.low dz) }
    requires z_high { IsWithin (2 ^ 47) (I.high dz) }
    requires sum_size { greatest_square (I.low dx) (I.high dx)
        + greatest_square (I.low dy) (I.high dy) + greatest_square (I.low dz) (I.high dz) ≤ 2 ^ 95 }
    ensures low { I.area_low result ≡ least_square (I.low dx) (I.high dx)
        + least_square (I.low dy) (I.high dy) + least_square (I.low dz) (I.high dz) }
    ensures high { I.area_high result ≡ greatest_square (I.low dx) (I.high dx)
        + greatest_square (I.low dy) (I.high dy) + greatest_square (I.low dz) (I.high dz) }
    ensures from { (a b c : ℤ) → Between (I.low dx) (I.high dx) a →
        Between (I.low dy) (I.high dy) b → Between (I.low dz) (I.high dz) c →
        I.area_low result ≤ sum_of_squares a b c }
    ensures to { (a b c : ℤ) → Between (I.low dx) (I.high dx) a → Between (I.low dy) (I.high dy) b →
        Between (I.low dz) (I.high dz) c → sum_of_squares a b c ≤ I.area_high result }
{
    I::area_sum(I::area_sum(dx.square(), dy.square()), dz.square())
}
