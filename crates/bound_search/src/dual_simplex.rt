//! The dual simplex method: as long as the vertex violates a constraint, it comes into the basis.

use crate::basis::{Basis, first_row};
use crate::certificates::Certificate;
use crate::constraints::{Constraint, constraint_at};
use crate::fixed::quotient;

/// Coefficients up to this amount, 2^-22, are taken for 0.
const TINY: i64 = 64;

/// Violations up to this amount, 2^-20 units of length, are none.
const TOLERANCE: i64 = 256;

/// Pivots are some five on average; a search that takes more than this is given up.
const MOST_PIVOTS: usize = 80;

/// A constraint that a point violates: its value is above its high end or below its low one.
#[derive(Clone, Copy)]
struct Violation {
    place: usize,
    above: bool,
    by: i64,
}

/// How far a point is beyond a constraint's ends, at most 0 where it meets it.
fn measured(constraint: &Constraint, place: usize, point: &[i64; 4]) -> Violation {
    let value = constraint.value(point);
    let below = constraint.low.wrapping_sub(value);
    let above = value.wrapping_sub(constraint.high);
    Violation {
        place,
        above: above > below,
        by: above.max(below),
    }
}

/// The constraint that a point violates most.
fn most_violated(constraints: &[Constraint], point: &[i64; 4]) -> Option<Violation> {
    let mut worst = Violation {
        place: 0,
        above: false,
        by: TOLERANCE,
    };
    for place in 0..constraints.len() {
        let constraint = constraints[place];
        let found = measured(&constraint, place, point);
        if constraint.active && found.by > worst.by {
            worst = found;
        }
    }
    if worst.by > TOLERANCE {
        Some(worst)
    } else {
        None
    }
}

/// The ratio test: which of the basis goes out, the one whose cost is used up first. None where none
/// can, so that no point meets all constraints.
fn leaving(basis: &Basis, combination: &[i64; 4], above: bool) -> Option<usize> {
    let mut leaving = 0;
    let mut least = i64::MAX;
    for k in 0..4 {
        let towards = if above {
            combination[k].wrapping_neg()
        } else {
            combination[k]
        };
        let gives_way = if basis.at_high[k] {
            towards < -TINY
        } else {
            towards > TINY
        };
        let ratio = quotient(basis.costs[k], towards);
        if gives_way && ratio < least {
            leaving = k;
            least = ratio;
        }
    }
    if least < i64::MAX {
        Some(leaving)
    } else {
        None
    }
}

/// The constraints that bound the point at which the costs of x, y and z are least, with their
/// multipliers, or those of which no point meets all.
pub(crate) fn minimum(constraints: &[Constraint], costs: [i64; 3]) -> Option<Certificate> {
    let row = first_row(constraints)?;
    let mut basis = Basis::at_corner(constraints, row, costs);
    for _ in 0..MOST_PIVOTS {
        let vertex = basis.vertex(constraints);
        let Some(worst) = most_violated(constraints, &vertex) else {
            return Some(Certificate::of_optimum(&basis));
        };
        let entering = constraint_at(constraints, worst.place);
        let combination = basis.combination(&entering);
        let Some(out) = leaving(&basis, &combination, worst.above) else {
            return Some(Certificate::of_contradiction(
                &basis,
                worst.place,
                worst.above,
                &combination,
            ));
        };
        basis.pivot(worst.place, worst.above, &combination, out);
    }
    None
}
