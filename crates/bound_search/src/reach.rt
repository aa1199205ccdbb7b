//! How far along a direction a sum of rows leaves points.

use crate::fixed::{floor_ratio, ratio};
use bound_directions::Direction;
use grid_model::Box3;
use row_pairs::{Form, middle_of};
use sat_model::RowSum;

/// The greatest aim of a sum, 2^44.
const MOST_AIM: u64 = 17_592_186_044_416;

/// The slopes of a sum of rows and its bound, in um of 1 / S.
#[derive(Clone, Copy)]
struct SlopeSum {
    x: i128,
    y: i128,
    z: i128,
    most: i128,
}

impl SlopeSum {
    /// With so many times a form added.
    fn with(&self, form: &Form, multiplier: i64) -> SlopeSum {
        let times = i128::from(multiplier);
        let bound = if multiplier >= 0 {
            form.upper
        } else {
            form.lower
        };
        SlopeSum {
            x: self.x.wrapping_add(times.wrapping_mul(i128::from(form.x))),
            y: self.y.wrapping_add(times.wrapping_mul(i128::from(form.y))),
            z: self.z.wrapping_add(times.wrapping_mul(i128::from(form.z))),
            most: self.most.wrapping_add(times.wrapping_mul(bound)),
        }
    }

    /// The least over the box of the slopes, without `aim` times the direction, times a point's way
    /// from the middle.
    fn least(&self, direction: &Direction, aim: u64, part: &Box3) -> i128 {
        let aim = i128::from(aim);
        let x = self
            .x
            .wrapping_sub(aim.wrapping_mul(i128::from(direction.x)));
        let y = self
            .y
            .wrapping_sub(aim.wrapping_mul(i128::from(direction.y)));
        let z = self
            .z
            .wrapping_sub(aim.wrapping_mul(i128::from(direction.z)));
        least_on(x, part.lo.x, part.hi.x, middle_of(part.lo.x, part.hi.x))
            .wrapping_add(least_on(y, part.lo.y, part.hi.y, middle_of(part.lo.y, part.hi.y)))
            .wrapping_add(least_on(z, part.lo.z, part.hi.z, middle_of(part.lo.z, part.hi.z)))
    }
}

/// The slopes and the bound of a sum.
fn slopes_of(forms: &[Form], sum: &RowSum) -> SlopeSum {
    let mut total = SlopeSum {
        x: 0,
        y: 0,
        z: 0,
        most: 0,
    };
    for term in &sum.terms() {
        if let Some(form) = forms.get(usize::from(term.place)) {
            total = total.with(form, term.multiplier);
        }
    }
    total
}

/// The least product of a slope and a way from the middle of a side.
fn least_on(slope: i128, lo: i64, hi: i64, middle: i64) -> i128 {
    let end = if slope >= 0 { lo } else { hi };
    slope.wrapping_mul(i128::from(end.wrapping_sub(middle)))
}

/// The sum with the aim by which it ends nearest along a direction: that of its slopes or that of the
/// search, where sides of the box may have a part in it. None where it bounds the direction not at
/// all.
pub(crate) fn aimed(
    forms: &[Form],
    part: &Box3,
    direction: &Direction,
    sum: &RowSum,
    of_search: i128,
) -> Option<RowSum> {
    let searched = with_aim(sum, of_search);
    let sloped = with_aim(sum, aim_of_slopes(forms, direction, sum));
    if end_of(forms, part, direction, &sloped) < end_of(forms, part, direction, &searched) {
        sloped
    } else {
        searched
    }
}

/// Where a sum ends, further than any where there is none.
fn end_of(forms: &[Form], part: &Box3, direction: &Direction, sum: &Option<RowSum>) -> i128 {
    match *sum {
        Some(sum) => reach(forms, part, direction, &sum),
        None => i128::MAX,
    }
}

/// V.d / d.d to the nearest, V being the slopes of a sum.
fn aim_of_slopes(forms: &[Form], direction: &Direction, sum: &RowSum) -> i128 {
    let slopes = slopes_of(forms, sum);
    let along = direction.dot(slopes.x, slopes.y, slopes.z);
    let square = direction.dot(
        i128::from(direction.x),
        i128::from(direction.y),
        i128::from(direction.z),
    );
    let twice = along.wrapping_mul(2).wrapping_add(square);
    ratio(twice, square.wrapping_mul(2))
}

/// The sum with this aim; None where a sum can't have it.
fn with_aim(sum: &RowSum, aim: i128) -> Option<RowSum> {
    let aim = u64::try_from(aim).ok()?;
    if aim == 0 || aim > MOST_AIM {
        return None;
    }
    Some(RowSum {
        aim,
        first: sum.first,
        second: sum.second,
        third: sum.third,
        fourth: sum.fourth,
        fifth: sum.fifth,
    })
}

/// The least end of a half-space in the direction that a sum with an aim shows.
pub(crate) fn reach(forms: &[Form], part: &Box3, direction: &Direction, sum: &RowSum) -> i128 {
    let slopes = slopes_of(forms, sum);
    let middle = direction.dot(
        i128::from(middle_of(part.lo.x, part.hi.x)),
        i128::from(middle_of(part.lo.y, part.hi.y)),
        i128::from(middle_of(part.lo.z, part.hi.z)),
    );
    let above = slopes
        .most
        .wrapping_sub(slopes.least(direction, sum.aim, part));
    middle.wrapping_add(floor_ratio(above, i128::from(sum.aim)))
}
