//! Where the deepest conflicts of pairs propose the faces of a box.

use crate::forms::Form;
use crate::reaches::{Reach, reaches_of, sides_of};
use grid_model::Box3;

/// What is left of a box where slabs at its faces are cut off in which pairs of rows conflict,
/// whichever `q` rows are left out, by the rows' forms around it. It is a guess: the forms around
/// each slab show whether it is empty.
pub fn proposed_by_pairs(forms: &[Form], q: u8, part: &Box3) -> Box3 {
    let sides = sides_of(part);
    let reaches = reaches_of(forms, &sides);
    let mut proposed = *part;
    for face in 0..6_u8 {
        let depth = depth_at(&reaches, face, 0, q);
        proposed = moved(&proposed, face, depth.wrapping_mul(sides.unit));
    }
    proposed
}

/// How deep a slab at the face is in which some pair conflicts, whichever `q` more rows than these
/// are left out: of the deepest pair either row may be one of them.
fn depth_at(reaches: &[Reach], face: u8, out: u64, q: u8) -> u64 {
    let Some(deepest) = deepest_at(reaches, face, out) else {
        return 0;
    };
    if q == 0 {
        return deepest.depth;
    }
    let first = depth_at(reaches, face, out | deepest.first, q - 1);
    if first == 0 {
        return 0;
    }
    let second = depth_at(reaches, face, out | deepest.second, q - 1);
    if second < first { second } else { first }
}

/// The pair of rows, none of which is left out, that reaches deepest from the face.
fn deepest_at(reaches: &[Reach], face: u8, out: u64) -> Option<Reach> {
    let mut deepest: Option<Reach> = None;
    for reach in reaches {
        if is_at(reach, face, out) && is_deeper(reach, &deepest) {
            deepest = Some(*reach);
        }
    }
    deepest
}

/// Whether a pair without these rows reaches in from the face.
fn is_at(reach: &Reach, face: u8, out: u64) -> bool {
    if (reach.first | reach.second) & out != 0 {
        return false;
    }
    match reach.face {
        Some(own) => own == face,
        None => true,
    }
}

/// Whether a reach is deeper than another, or there is no other.
fn is_deeper(reach: &Reach, other: &Option<Reach>) -> bool {
    match other {
        Some(other) => reach.depth > other.depth,
        None => true,
    }
}

/// The box with its face moved in by so much, in um, or as it is where that leaves no point.
fn moved(part: &Box3, face: u8, depth: u64) -> Box3 {
    let axis = face / 2;
    let (lo, hi) = part.side(axis);
    if depth > (hi - lo) as u64 {
        return *part;
    }
    if face % 2 == 0 {
        part.from_on(axis, lo + depth as i64)
    } else {
        part.up_to(axis, hi - depth as i64)
    }
}
