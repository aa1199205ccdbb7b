//! Whether one sum shows a half-space.

ghost use Rattle.std.specs.Prelude.{◌≡◌, ◌↔◌, ◌≤◌, ℤ, pos, ◌+ℤ◌, ◌-ℤ◌, ◌*ℤ◌, IsTrue, map};
ghost use Rattle.grid_model.specs.Boxes.{grid_box, middle};
ghost use Rattle.grid_model.specs.Sizes.{IsWithin};
ghost use Rattle.row_pairs.specs.FormValues.{form_value};
ghost use Rattle.row_pairs.specs.Leasts.{IsLeastLead};
ghost use Rattle.sat_model.specs.HalfSpaces.{IsAbove, IsShownBy};
ghost use Rattle.row_sums.specs.SumValues.{sum_value, slope_form, aim_form};

use crate::axes::{aimed_slope, least_term, middle_along};
use crate::form_sum::FormSum;
use crate::totals::total;
use grid_model::Box3;
use row_pairs::Form;
use sat_model::{HalfSpace, RowSum};

/// The least over the box of what the sum's linear function is above `aim` times the direction's,
/// both from the middle of the box: it is at a corner, which signs tell.
fn least_lead(sum: &FormSum, half: &HalfSpace, aim: u64, part: &Box3) -> i128
    requires { aim ≤ 17592186044416 }
    ensures least { IsLeastLead (grid_box part.now) (slope_form (sum_value sum.now))
        (aim_form aim half.now) result }
    ensures bound { IsWithin 1200000000000000000000000000000000 result }
{
    let x = least_term(aimed_slope(sum.x, aim, half.x), part.lo.x, part.hi.x);
    let y = least_term(aimed_slope(sum.y, aim, half.y), part.lo.y, part.hi.y);
    let z = least_term(aimed_slope(sum.z, aim, half.z), part.lo.z, part.hi.z);
    x + y + z
}

/// How much further along the direction than the middle of the box the first points beyond the
/// half-space are.
fn middle_slack(half: &HalfSpace, part: &Box3) -> i128
    ensures value { result ≡ half.now.most +ℤ pos 1
        -ℤ ((half.now.x *ℤ middle (grid_box part.now).x)
        +ℤ (half.now.y *ℤ middle (grid_box part.now).y)
        +ℤ (half.now.z *ℤ middle (grid_box part.now).z)) }
    ensures bound { IsWithin 40000000000000000000 result }
{
    i128::from(half.most) + 1 - middle_along(half, part)
}

/// `aim` times that.
fn aimed_slack(half: &HalfSpace, aim: u64, part: &Box3) -> i128
    requires { aim ≤ 17592186044416 }
    ensures value { result ≡ pos aim *ℤ (half.now.most +ℤ pos 1
        -ℤ ((half.now.x *ℤ middle (grid_box part.now).x)
        +ℤ (half.now.y *ℤ middle (grid_box part.now).y)
        +ℤ (half.now.z *ℤ middle (grid_box part.now).z))) }
    ensures bound { IsWithin 1000000000000000000000000000000000 result }
{
    i128::from(aim) * middle_slack(half, part)
}

/// Whether at each point of the box the sum's linear function, and `aim` times how far the point is
/// from those beyond the half-space, are together above the sum's bound.
fn is_above(sum: &FormSum, half: &HalfSpace, aim: u64, part: &Box3) -> bool
    requires { aim ≤ 17592186044416 }
    ensures { IsTrue result ↔ IsAbove (grid_box part.now) half.now aim (sum_value sum.now) }
{
    sum.most < least_lead(sum, half, aim, part) + aimed_slack(half, aim, part)
}

/// Whether the sum of rows shows the half-space over the box.
pub(crate) fn is_shown_by(forms: &[Form], part: &Box3, half: &HalfSpace, sum: &RowSum) -> bool
    ensures { IsTrue result
        ↔ IsShownBy (map form_value forms.now) (grid_box part.now) half.now sum.now }
{
    let terms = sum.terms();
    let Some(value) = total(forms, &terms) else {
        return false;
    };
    if value.multipliers != 0 {
        return false;
    }
    is_above(&value, half, sum.aim, part)
}
