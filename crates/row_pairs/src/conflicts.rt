//! Forms in conflict over a box.

ghost use Rattle.std.specs.Prelude.{◌≡◌, ℤ, ◌↔◌, ◌*ℤ◌, ◌≤ℤ◌, ◌-ℤ◌, IsTrue};
ghost use Rattle.grid_model.specs.Boxes.{grid_box, side_at};
ghost use Rattle.grid_model.specs.Sizes.{IsWithin};
ghost use Rattle.sat_model.specs.Pairs.{IsBelow, Conflict};
ghost use Rattle.row_pairs.specs.FormValues.{form_value};
ghost use Rattle.row_pairs.specs.Leasts.{IsLeastTerm, IsLeastLead};

use crate::axes::middle_of;
use crate::forms::Form;
use grid_model::Box3;

/// A slope times a way in um, in um of 1 / S.
fn times(slope: i64, way: i64) -> i128
    requires slope { IsWithin 8388608 slope }
    requires way { IsWithin 20000000000000 way }
    ensures value { result ≡ slope *ℤ way }
    ensures bound { IsWithin 200000000000000000000 result }
{
    i128::from(slope) * i128::from(way)
}

/// The least product of the slope and a way from the middle of a side to one of its points.
fn least_term(slope: i64, lo: i64, hi: i64) -> i128
    requires slope { IsWithin 8388608 slope }
    requires ordered { lo ≤ℤ hi }
    requires lo { IsWithin 10000000000000 lo }
    requires hi { IsWithin 10000000000000 hi }
    ensures least { IsLeastTerm slope lo hi result }
    ensures bound { IsWithin 200000000000000000000 result }
{
    let middle = middle_of(lo, hi);
    if slope >= 0 {
        times(slope, lo - middle)
    } else {
        times(slope, hi - middle)
    }
}

/// The least term of the difference of two slopes on an axis of the box.
fn least_on(f: i64, g: i64, part: &Box3, axis: u8) -> i128
    requires f { IsWithin 4194304 f }
    requires g { IsWithin 4194304 g }
    ensures least { IsLeastTerm (f -ℤ g) (side_at axis (grid_box part.now)).lo
        (side_at axis (grid_box part.now)).hi result }
    ensures bound { IsWithin 200000000000000000000 result }
{
    let (lo, hi) = part.side(axis);
    least_term(f - g, lo, hi)
}

/// The least of what the first form's linear function is above the second's at the points of the
/// box.
fn least_lead(f: &Form, g: &Form, part: &Box3) -> i128
    ensures least { IsLeastLead (grid_box part.now) (form_value f.now) (form_value g.now) result }
    ensures bound { IsWithin 600000000000000000000 result }
{
    least_on(f.x, g.x, part, 0) + least_on(f.y, g.y, part, 1) + least_on(f.z, g.z, part, 2)
}

/// Whether at each point of the box what the first form leaves of S b ends below what the second
/// does. At the middle of the box it is the bounds alone that tell.
fn is_below(f: &Form, g: &Form, part: &Box3) -> bool
    ensures { IsTrue result ↔ IsBelow (grid_box part.now) (form_value f.now) (form_value g.now) }
{
    let end = f.upper - g.lower;
    if 0 <= end {
        return false;
    }
    end < least_lead(f, g, part)
}

/// Whether no offset at any point of the box suits both.
pub(crate) fn conflict(f: &Form, g: &Form, part: &Box3) -> bool
    ensures { IsTrue result ↔ Conflict (grid_box part.now) (form_value f.now) (form_value g.now) }
{
    is_below(f, g, part) || is_below(g, f, part)
}
