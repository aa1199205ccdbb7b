//! A basis: four constraints, each met at one of its ends, and the vertex that they give.

use crate::constraints::{Constraint, SIDES, constraint_at};
use crate::fixed::{ONE, narrowed, product, quotient, wide_product};

/// Four constraints by their places, whether each is met at its high end, what it costs to move it
/// from there, and the inverse of the four's coefficients.
#[derive(Clone, Copy)]
pub(crate) struct Basis {
    pub places: [usize; 4],
    pub at_high: [bool; 4],
    pub costs: [i64; 4],
    inverse: [[i64; 4]; 4],
}

impl Basis {
    /// The corner of the box at which the costs are least, and the low end of a row, which takes the
    /// offset with it.
    pub(crate) fn at_corner(constraints: &[Constraint], row: usize, costs: [i64; 3]) -> Basis {
        let [x, y, z, _] = constraint_at(constraints, row).coefficients;
        Basis {
            places: [0, 1, 2, row],
            at_high: [costs[0] < 0, costs[1] < 0, costs[2] < 0, false],
            costs: [costs[0], costs[1], costs[2], 0],
            inverse: [
                [ONE, 0, 0, 0],
                [0, ONE, 0, 0],
                [0, 0, ONE, 0],
                [x.wrapping_neg(), y.wrapping_neg(), z.wrapping_neg(), ONE],
            ],
        }
    }

    /// The ends at which its constraints are met.
    fn ends(&self, constraints: &[Constraint]) -> [i64; 4] {
        let mut ends = [0_i64; 4];
        for k in 0..4 {
            let constraint = constraint_at(constraints, self.places[k]);
            ends[k] = if self.at_high[k] {
                constraint.high
            } else {
                constraint.low
            };
        }
        ends
    }

    /// The vertex: the point and the offset at which they are met.
    pub(crate) fn vertex(&self, constraints: &[Constraint]) -> [i64; 4] {
        let ends = self.ends(constraints);
        let mut vertex = [0_i64; 4];
        for i in 0..4 {
            vertex[i] = combined(&self.inverse[i], &ends);
        }
        vertex
    }

    /// A constraint's coefficients as a combination of those of the four.
    pub(crate) fn combination(&self, constraint: &Constraint) -> [i64; 4] {
        let mut combination = [0_i64; 4];
        for k in 0..4 {
            combination[k] = combined(&constraint.coefficients, &self.column(k));
        }
        combination
    }

    /// A column of the inverse.
    fn column(&self, k: usize) -> [i64; 4] {
        let mut column = [0_i64; 4];
        for i in 0..4 {
            column[i] = if k < 4 { self.inverse[i][k] } else { 0 };
        }
        column
    }

    /// The pivot: the constraint with this combination comes in for the one at `leaving`, at its high
    /// end or its low one.
    pub(crate) fn pivot(
        &mut self,
        place: usize,
        at_high: bool,
        combination: &[i64; 4],
        leaving: usize,
    ) {
        if leaving >= 4 {
            return;
        }
        let pivot = combination[leaving];
        for i in 0..4 {
            self.inverse[i] = pivoted(&self.inverse[i], combination, leaving, pivot);
        }
        self.costs = pivoted(&self.costs, combination, leaving, pivot);
        self.places[leaving] = place;
        self.at_high[leaving] = at_high;
    }
}

/// The sum of the products of two rows of four numbers.
fn combined(a: &[i64; 4], b: &[i64; 4]) -> i64 {
    let sum = wide_product(a[0], b[0])
        .wrapping_add(wide_product(a[1], b[1]))
        .wrapping_add(wide_product(a[2], b[2]))
        .wrapping_add(wide_product(a[3], b[3]));
    narrowed(sum)
}

/// A row of the inverse, or the costs, behind a pivot.
fn pivoted(row: &[i64; 4], combination: &[i64; 4], leaving: usize, pivot: i64) -> [i64; 4] {
    let share = if leaving < 4 {
        quotient(row[leaving], pivot)
    } else {
        0
    };
    let mut after = [0_i64; 4];
    for k in 0..4 {
        after[k] = if k == leaving {
            share
        } else {
            row[k].wrapping_sub(product(share, combination[k]))
        };
    }
    after
}

/// The first row that isn't left out.
pub(crate) fn first_row(constraints: &[Constraint]) -> Option<usize> {
    for place in SIDES..constraints.len() {
        if constraints[place].active {
            return Some(place);
        }
    }
    None
}
