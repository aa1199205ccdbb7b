//! Adding a row's form to a sum.

ghost use Rattle.std.specs.Prelude.{◌≡◌, ◌<◌, ◌+◌, ◌*ℤ◌};
ghost use Rattle.grid_model.specs.Sizes.{IsWithin};
ghost use Rattle.row_pairs.specs.FormValues.{form_value};
ghost use Rattle.sat_model.specs.HalfSpaces.{IsUsableBound, add_form, end_of};
ghost use Rattle.row_sums.specs.SumValues.{sum_value};

use crate::form_sum::FormSum;
use row_pairs::Form;

/// A slope, so many times.
fn times_slope(multiplier: i64, slope: i64) -> i64
    requires multiplier { IsWithin 1048576 multiplier }
    requires slope { IsWithin 4194304 slope }
    ensures value { result ≡ multiplier *ℤ slope }
    ensures bound { IsWithin 4398046511104 result }
{
    multiplier * slope
}

/// A bound, so many times.
fn times_bound(multiplier: i64, bound: i128) -> i128
    requires multiplier { IsWithin 1048576 multiplier }
    requires bound { IsUsableBound bound }
    ensures value { result ≡ multiplier *ℤ bound }
    ensures bound { IsWithin 1048576000000000000000000000000000000 result }
{
    i128::from(multiplier) * bound
}

/// The bound of a form that goes with a multiplier.
fn end_of(multiplier: i64, form: &Form) -> i128
    requires upper { IsUsableBound form.now.upper }
    requires lower { IsUsableBound form.now.lower }
    ensures value { result ≡ end_of multiplier (form_value form.now) }
    ensures bound { IsUsableBound result }
{
    if multiplier >= 0 {
        form.upper
    } else {
        form.lower
    }
}

/// The sum with so many times the form added to it.
pub(crate) fn added(sum: &FormSum, form: &Form, multiplier: i64) -> FormSum
    requires room { sum.now.count < 5 }
    requires multiplier { IsWithin 1048576 multiplier }
    requires upper { IsUsableBound form.now.upper }
    requires lower { IsUsableBound form.now.lower }
    ensures value { sum_value result ≡ add_form multiplier (form_value form.now)
        (sum_value sum.now) }
    ensures count { result.count ≡ sum.now.count + 1 }
{
    FormSum {
        count: sum.count + 1,
        multipliers: sum.multipliers + multiplier,
        x: sum.x + times_slope(multiplier, form.x),
        y: sum.y + times_slope(multiplier, form.y),
        z: sum.z + times_slope(multiplier, form.z),
        most: sum.most + times_bound(multiplier, end_of(multiplier, form)),
    }
}
