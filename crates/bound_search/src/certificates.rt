//! What a search gives: multipliers of constraints, and the sum of rows that they make.

ghost use Rattle.std.specs.Prelude.{◌<◌, IfSome};

use crate::basis::Basis;
use crate::constraints::{SCALE, SIDES};
use crate::fixed::{ONE, ratio};
use bound_directions::Direction;
use sat_model::{RowSum, Term};

/// The greatest multiplier of a sum: with 16 bits a bound is some millimetres further than the exact
/// one.
const GREATEST: i128 = 65_535;

/// The multipliers of up to five constraints, by their places.
#[derive(Clone, Copy)]
pub(crate) struct Certificate {
    places: [usize; 5],
    multipliers: [i64; 5],
    /// Whether no point meets these constraints, whatever the direction.
    pub is_contradiction: bool,
}

impl Certificate {
    /// That of a basis whose vertex violates nothing: an optimum's.
    pub(crate) fn of_optimum(basis: &Basis) -> Certificate {
        let [a, b, c, d] = basis.places;
        let [s, t, u, v] = basis.costs;
        Certificate {
            places: [a, b, c, d, 0],
            multipliers: [s, t, u, v, 0],
            is_contradiction: false,
        }
    }

    /// That of a constraint which can't be met beside the four of a basis.
    pub(crate) fn of_contradiction(
        basis: &Basis,
        place: usize,
        above: bool,
        combination: &[i64; 4],
    ) -> Certificate {
        let [a, b, c, d] = basis.places;
        let [s, t, u, v] = *combination;
        let upward = [s, t, u, v, -ONE];
        Certificate {
            places: [a, b, c, d, place],
            multipliers: if above { upward } else { turned(&upward) },
            is_contradiction: true,
        }
    }

    /// The sum of the rows among its constraints, with whole multipliers that add up to zero and an
    /// aim of 0. The box's sides are left out of it.
    pub(crate) fn sum(&self) -> Option<RowSum> {
        let greatest = self.greatest();
        if greatest >= 5 {
            return None;
        }
        let idle = row_at(self.places[greatest])?;
        let multipliers = balanced(&self.whole(greatest), greatest);
        Some(RowSum {
            aim: 0,
            first: term(self.places[0], multipliers[0], idle)?,
            second: term(self.places[1], multipliers[1], idle)?,
            third: term(self.places[2], multipliers[2], idle)?,
            fourth: term(self.places[3], multipliers[3], idle)?,
            fifth: term(self.places[4], multipliers[4], idle)?,
        })
    }

    /// How many times a direction is in the sum by the search, to the nearest: where the costs have it
    /// once, with its longest component as one, and once where no row has a part in the sum.
    pub(crate) fn aim(&self, direction: &Direction) -> i128 {
        let greatest = i128::from(self.of_row(self.greatest()).unsigned_abs());
        if greatest == 0 {
            return 1;
        }
        let all = SCALE.wrapping_mul(GREATEST).wrapping_mul(i128::from(ONE));
        let share = greatest.wrapping_mul(i128::from(direction.longest()));
        ratio(
            all.wrapping_mul(2).wrapping_add(share),
            share.wrapping_mul(2),
        )
    }

    /// Whether the constraint is a row, and no side of the box.
    fn is_row(&self, k: usize) -> bool {
        k < 5 && self.places[k] >= SIDES
    }

    /// The multiplier of a row, and 0 for a side of the box.
    fn of_row(&self, k: usize) -> i64 {
        if k < 5 && self.places[k] >= SIDES {
            self.multipliers[k]
        } else {
            0
        }
    }

    /// Which of the five is the row with the greatest multiplier in amount.
    fn greatest(&self) -> usize {
        let mut greatest = 0;
        for k in 0..5 {
            let is_first = self.is_row(k) && !self.is_row(greatest);
            if is_first || self.of_row(k).unsigned_abs() > self.of_row(greatest).unsigned_abs() {
                greatest = k;
            }
        }
        greatest
    }

    /// The rows' multipliers as whole numbers, the greatest of which is `GREATEST`. A row at its low
    /// end bounds the sum from below, so it stands in it with the other sign.
    fn whole(&self, greatest: usize) -> [i128; 5] {
        let most = self.of_row(greatest).unsigned_abs();
        let mut whole = [0_i128; 5];
        for k in 0..5 {
            whole[k] = rounded(self.of_row(k), most).wrapping_neg();
        }
        whole
    }
}

/// The same multipliers with the other signs.
fn turned(multipliers: &[i64; 5]) -> [i64; 5] {
    let mut turned = [0_i64; 5];
    for k in 0..5 {
        turned[k] = multipliers[k].wrapping_neg();
    }
    turned
}

/// A multiplier over the greatest, times `GREATEST`, to the nearest whole number.
fn rounded(multiplier: i64, most: u64) -> i128 {
    let whole = i128::from(most);
    let twice = i128::from(multiplier)
        .wrapping_mul(GREATEST)
        .wrapping_mul(2);
    let half = if multiplier >= 0 {
        whole
    } else {
        whole.wrapping_neg()
    };
    ratio(twice.wrapping_add(half), whole.wrapping_mul(2))
}

/// The multipliers, with what they add up to taken from the greatest.
fn balanced(multipliers: &[i128; 5], greatest: usize) -> [i128; 5] {
    let mut sum = 0_i128;
    for k in 0..5 {
        sum = sum.wrapping_add(multipliers[k]);
    }
    let mut balanced = *multipliers;
    if greatest < 5 {
        balanced[greatest] = balanced[greatest].wrapping_sub(sum);
    }
    balanced
}

/// The row of a constraint.
fn row_at(place: usize) -> Option<u8>
    ensures { IfSome result (λ row. row < 64) }
{
    if place < SIDES {
        return None;
    }
    let row = u8::try_from(place - SIDES).ok()?;
    if row < 64 { Some(row) } else { None }
}

/// The term of a constraint; with a multiplier of 0 that of the row `idle`.
fn term(place: usize, multiplier: i128, idle: u8) -> Option<Term>
    requires { idle < 64 }
{
    if multiplier == 0 {
        return Some(Term {
            place: idle,
            multiplier: 0,
        });
    }
    let place = row_at(place)?;
    let multiplier = i64::try_from(multiplier).ok()?;
    if -1_048_576 <= multiplier && multiplier <= 1_048_576 {
        Some(Term { place, multiplier })
    } else {
        None
    }
}
