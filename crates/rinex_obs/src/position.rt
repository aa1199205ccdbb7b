//! The approximate position of a header.

ghost use Rattle.std.specs.Prelude.{◌≡◌, ◌≤◌, ℤ, Option, IfOk, IfErr, IfSome, IfNone};
ghost use Rattle.exact_decimal.specs.declared.decimal.Decimal.{Decimal};
ghost use Rattle.rinex_text.specs.Columns.{columns_of};
ghost use Rattle.grid_model.specs.declared.boxes.Pos.{Pos};
ghost use Rattle.rinex_obs.specs.Header.{IsFixedField, all_three, position_line, IsCoordinate};
ghost use Rattle.rinex_obs.specs.Header.{IsPoint, IsPosition};

use exact_decimal::{Decimal, Unit, read_fixed, to_unit_between};
use grid_model::Pos;
use rinex_text::{Fault, columns};

/// The most that a coordinate may be off zero, in um.
const MOST_UM: i128 = 8_500_000_000_000;

/// x, y and z, in m.
pub type Coordinates = (Decimal, Decimal, Decimal);

/// The number of a fixed field, none where it is blank.
fn fixed_field(text: &[u8], first: u16, last: u16) -> Result<Option<Decimal>, Fault>
    requires { last ≤ 4096 }
    ensures number { IfOk result (IsFixedField (columns_of text.now first last)) }
    ensures none { IfErr result (λ f. (number : Option Decimal) →
        IsFixedField (columns_of text.now first last) number → ⊥) }
{
    match read_fixed(columns(text, first, last)) {
        Ok(number) => Ok(number),
        Err(_) => Err(Fault::BadNumber),
    }
}

/// The coordinates, where none is blank.
fn all_three(x: Option<Decimal>, y: Option<Decimal>, z: Option<Decimal>) -> Option<Coordinates>
    ensures { result ≡ all_three x y z }
{
    match (x, y, z) {
        (Some(x), Some(y), Some(z)) => Some((x, y, z)),
        _ => None,
    }
}

/// The coordinates of a line with a position, none where one of them is blank.
pub fn position_line(text: &[u8]) -> Result<Option<Coordinates>, Fault>
    ensures { position_line text.now result }
{
    let Ok(x) = fixed_field(text, 1, 14) else {
        return Err(Fault::BadNumber);
    };
    let Ok(y) = fixed_field(text, 15, 28) else {
        return Err(Fault::BadNumber);
    };
    let Ok(z) = fixed_field(text, 29, 42) else {
        return Err(Fault::BadNumber);
    };
    Ok(all_three(x, y, z))
}

/// A coordinate in um, rounded down, where it is within 8,500 km.
fn coordinate(number: Decimal) -> Option<i64>
    ensures um { IfSome result (IsCoordinate number) }
    ensures none { IfNone result ((um : ℤ) → IsCoordinate number um → ⊥) }
{
    let held = to_unit_between(number, Unit::Length, -MOST_UM, MOST_UM)?;
    Some(held.lo as i64)
}

/// The point with these coordinates.
fn point(coordinates: Coordinates) -> Option<Pos>
    ensures point { IfSome result (IsPoint coordinates) }
    ensures none { IfNone result ((point : Pos) → IsPoint coordinates point → ⊥) }
{
    let (x, y, z) = coordinates;
    let x = coordinate(x)?;
    let y = coordinate(y)?;
    let z = coordinate(z)?;
    Some(Pos { x, y, z })
}

/// The position, where it is wanted: none where it is absent or out of bounds.
pub fn position(wanted: bool, coordinates: Option<Coordinates>) -> Option<Option<Pos>>
    ensures position { IfSome result (IsPosition wanted coordinates) }
    ensures none { IfNone result ((point : Option Pos) → IsPosition wanted coordinates point → ⊥) }
{
    if !wanted {
        return Some(None);
    }
    let Some(coordinates) = coordinates else {
        return None;
    };
    match point(coordinates) {
        Some(point) => Some(Some(point)),
        None => None,
    }
}
