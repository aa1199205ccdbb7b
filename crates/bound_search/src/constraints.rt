//! What bounds a point and an offset from both sides: the sides of the box, and the rows.

ghost use Rattle.std.specs.Prelude.{◌≤◌, length};

use crate::fixed::{ONE, cut, narrowed, wide_product};
use arrayvec::ArrayVec;
use grid_model::Box3;
use row_pairs::{Form, middle_of};

/// How many constraints come before those of the rows: one for each axis of the box.
pub(crate) const SIDES: usize = 3;

/// S, of whose part of an um the bounds of a form are.
pub(crate) const SCALE: i128 = 4_194_304;

/// By which a number of 1 / S becomes one with 28 bits behind the point.
const TO_FIXED: i64 = 64;

/// The coefficients times x, y, z and the offset add up to a number from `low` to `high`. All are
/// fixed-point numbers: lengths are from the middle of the box, in units of its size, and the offset
/// is relative to the first row's.
#[derive(Clone, Copy)]
pub(crate) struct Constraint {
    pub coefficients: [i64; 4],
    pub low: i64,
    pub high: i64,
    /// Whether it is asked for: not where its row is left out.
    pub active: bool,
}

impl Default for Constraint {
    fn default() -> Self {
        Constraint {
            coefficients: [0, 0, 0, 0],
            low: 0,
            high: 0,
            active: false,
        }
    }
}

impl Constraint {
    /// What its coefficients make of a point and an offset.
    pub(crate) fn value(&self, point: &[i64; 4]) -> i64 {
        let sum = wide_product(self.coefficients[0], point[0])
            .wrapping_add(wide_product(self.coefficients[1], point[1]))
            .wrapping_add(wide_product(self.coefficients[2], point[2]))
            .wrapping_add(wide_product(self.coefficients[3], point[3]));
        narrowed(sum)
    }
}

/// The constraint at a place, or one that bounds nothing.
pub(crate) fn constraint_at(constraints: &[Constraint], place: usize) -> Constraint {
    match constraints.get(place) {
        Some(constraint) => *constraint,
        None => Constraint::default(),
    }
}

/// The unit of length: a power of two um, at least an eighth of the longest side.
fn unit_of(part: &Box3) -> i128 {
    let (_, longest) = part.longest_axis();
    let mut unit = 1_i128;
    for _ in 0..50 {
        if unit.wrapping_mul(8) < i128::from(longest) {
            unit = unit.wrapping_mul(2);
        }
    }
    unit
}

/// A length in um of 1 / S, in units.
fn in_units(length: i128, unit: i128) -> i64 {
    cut(
        length
            .wrapping_mul(i128::from(TO_FIXED))
            .checked_div_euclid(unit)
            .unwrap_or(0),
    )
}

/// A side of the box, from the middle of it.
fn side_constraint(
    lo: i64,
    hi: i64,
    middle: i64,
    unit: i128,
    coefficients: [i64; 4],
) -> Constraint {
    let below = i128::from(lo.wrapping_sub(middle)).wrapping_mul(SCALE);
    let above = i128::from(hi.wrapping_sub(middle)).wrapping_mul(SCALE);
    Constraint {
        coefficients,
        low: in_units(below, unit),
        high: in_units(above, unit),
        active: true,
    }
}

/// The x, y and z of the box.
fn side_constraints(part: &Box3, unit: i128) -> [Constraint; 3] {
    let x = middle_of(part.lo.x, part.hi.x);
    let y = middle_of(part.lo.y, part.hi.y);
    let z = middle_of(part.lo.z, part.hi.z);
    [
        side_constraint(part.lo.x, part.hi.x, x, unit, [ONE, 0, 0, 0]),
        side_constraint(part.lo.y, part.hi.y, y, unit, [0, ONE, 0, 0]),
        side_constraint(part.lo.z, part.hi.z, z, unit, [0, 0, ONE, 0]),
    ]
}

/// A row's form, its bounds relative to `base`.
fn row_constraint(form: &Form, base: i128, unit: i128) -> Constraint {
    Constraint {
        coefficients: [
            form.x.wrapping_mul(TO_FIXED),
            form.y.wrapping_mul(TO_FIXED),
            form.z.wrapping_mul(TO_FIXED),
            ONE,
        ],
        low: in_units(form.lower.wrapping_sub(base), unit),
        high: in_units(form.upper.wrapping_sub(base), unit),
        active: true,
    }
}

/// The middle of the first form's bounds, to which the others' are relative.
fn base_of(forms: &[Form]) -> i128 {
    match forms.first() {
        Some(form) => form.lower.wrapping_add(form.upper) / 2,
        None => 0,
    }
}

/// The three sides of the box, and then the rows.
pub(crate) fn constraints_of(forms: &[Form], part: &Box3) -> ArrayVec<Constraint, 67>
    requires { length forms.now ≤ 64 }
{
    let unit = unit_of(part);
    let base = base_of(forms);
    let [x, y, z] = side_constraints(part, unit);
    let mut constraints = ArrayVec::new();
    constraints.push(x);
    constraints.push(y);
    constraints.push(z);
    for form in forms {
        constraints.push(row_constraint(form, base, unit));
    }
    constraints
}

/// Asks for the rows that are kept alone.
pub(crate) fn keep_rows(constraints: &mut [Constraint], kept: &[bool; 64]) {
    for place in SIDES..constraints.len() {
        if place < SIDES + 64 {
            constraints[place].active = kept[place - SIDES];
        }
    }
}
