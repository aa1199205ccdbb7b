//! Directions of bounds.

ghost use Rattle.std.specs.Prelude.{◌≡◌, ◌≤◌, ℤ, true, length, map, option_map, is_some, unsigned_abs, [], ◌∷◌};
ghost use Rattle.bound_directions.specs.declared.direction.Direction.{Direction};
ghost use Rattle.toml.specs.View.{view, items_view};
ghost use Rattle.arrayvec.specs.ArrayVec.{ArrayVec as Items};
ghost use Rattle.error_bounds.specs.Forms.{Azimuths as so_many, all_members, right, each, is_within, is_count, is_vector, vector_of, as_integers, as_vector, is_few, some_vectors, directions_with, directions as form_of};
ghost use Rattle.error_bounds.specs.Reading.{components, directions_in};

use crate::fault::Fault;
use crate::form::{Form, are_integers, is_within};
use crate::places::three;
use arrayvec::ArrayVec;
use bound_directions::{Azimuths, Direction, Directions};
use toml::Value;

/// The greatest amount of a component.
const GREATEST: u64 = 1_000_000;

/// A bound is sought along so many directions at most.
const MOST: usize = 64;

/// 4, 8 or 16 azimuths, or a list of 1 to 64 vectors, where there are `pairs`.
#[derive(Clone, Copy)]
pub struct DirectionsWith {
    pub pairs: bool,
}

impl Form for DirectionsWith {
    type Output = Directions;

    ghost reads = { λ form d r. directions_in r ≡ directions_with form.pairs d };

    ghost allows = { λ form given. form.pairs ≡ true };

    fn read(&self, value: &Value) -> Result<Directions, Fault> {
        match directions_of(value) {
            Ok(directions) => {
                if self.pairs {
                    Ok(directions)
                } else {
                    Err(Fault::Outside)
                }
            }
            Err(fault) => Err(fault),
        }
    }
}

/// So many azimuths, or a list of vectors.
fn directions_of(value: &Value) -> Result<Directions, Fault>
    ensures { directions_in result ≡ form_of (view value.now) }
{
    if let Some(n) = value.as_integer() {
        return azimuths(n);
    }
    let Some(items) = value.as_array() else {
        return Err(Fault::WrongKind);
    };
    if !are_lists(items) {
        return Err(Fault::WrongKind);
    }
    listed(items)
}

/// So many azimuths.
fn azimuths(n: i64) -> Result<Directions, Fault>
    ensures { directions_in result ≡ right (is_count n) (so_many (unsigned_abs n)) }
{
    match n {
        4 => Ok(Directions::Azimuths(Azimuths::Four)),
        8 => Ok(Directions::Azimuths(Azimuths::Eight)),
        16 => Ok(Directions::Azimuths(Azimuths::Sixteen)),
        _ => Err(Fault::Outside),
    }
}

/// The vectors of a list of lists of whole numbers.
fn listed(items: &[Value]) -> Result<Directions, Fault>
    ensures { directions_in result ≡ some_vectors (all_members as_vector (items_view items.now)) }
{
    if !is_few(items.len()) {
        return Err(Fault::Outside);
    }
    match vectors(items) {
        Some(vectors) => Ok(Directions::Vectors(vectors)),
        None => Err(Fault::Outside),
    }
}

/// Whether there may be so many.
fn is_few(count: usize) -> bool
    ensures { result ≡ is_few count }
{
    1 <= count && count <= MOST
}

/// Whether each member is a list of whole numbers.
fn are_lists(items: &[Value]) -> bool
    ensures { result ≡ is_some (all_members as_integers (items_view items.now)) }
{
    'items: for item in items {
        if !is_list(item) {
            return false;
        }
    }
    true
}

/// Whether a value is a list of whole numbers.
fn is_list(value: &Value) -> bool
    ensures { result ≡ is_some (as_integers (view value.now)) }
{
    match value.as_array() {
        Some(items) => are_integers(items),
        None => false,
    }
}

/// The vectors of a list, where each member is one.
fn vectors(items: &[Value]) -> Option<ArrayVec<Direction, 64>>
    requires { length items.now ≤ 64 }
    ensures { option_map (λ (v : Items Direction). map components v.items) result
        ≡ all_members as_vector (items_view items.now) }
{
    let mut vectors: ArrayVec<Direction, 64> = ArrayVec::new();
    'items: for item in items {
        let Some(vector) = vector(item) else {
            return None;
        };
        vectors.push(vector);
    }
    Some(vectors)
}

/// A vector: three whole numbers within 10^6 that aren't all 0.
fn vector(value: &Value) -> Option<Direction>
    ensures { option_map components result ≡ as_vector (view value.now) }
{
    match three(value) {
        Ok((x, y, z)) => direction(x, y, z),
        Err(_) => None,
    }
}

/// The direction with these components, each within 10^6 and not all 0.
fn direction(x: i64, y: i64, z: i64) -> Option<Direction>
    ensures { option_map components result ≡ vector_of (x ∷ y ∷ z ∷ []) }
{
    if is_vector(x, y, z) {
        Some(Direction { x, y, z })
    } else {
        None
    }
}

/// Whether three numbers are within 10^6, and aren't all 0.
fn is_vector(x: i64, y: i64, z: i64) -> bool
    ensures { result ≡ is_vector x y z }
{
    are_within(GREATEST, x, y, z) && !are_within(0, x, y, z)
}

/// Whether three numbers are at most `most` in amount.
fn are_within(most: u64, x: i64, y: i64, z: i64) -> bool
    ensures { result ≡ each (is_within most) x y z }
{
    is_within(most, x) && is_within(most, y) && is_within(most, z)
}
