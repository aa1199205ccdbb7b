//! The centre of the search box and its half sides, and the place of a station.

ghost use Rattle.std.specs.Prelude.{◌≡◌, ◌+◌, ◌^◌, ◌≤◌, [], ◌∷◌, codes, IfOk};
ghost use Rattle.grid_model.specs.Amounts.{square};
ghost use Rattle.grid_model.specs.Sizes.{IsWithin};
ghost use Rattle.toml.specs.View.{view};
ghost use Rattle.error_bounds.specs.Forms.{place, ground_place, half_sides, three, each, um, is_half, is_coordinate, is_near_ground, is_text, right};
ghost use Rattle.error_bounds.specs.Reading.{AreThree};
ghost use Rattle.error_bounds.specs.Sizes.{IsNearEarth, IsCentre, IsNearGround, IsStationPlace, AreHalfSides};

use crate::fault::Fault;
use crate::form::{Form, are_integers, is_within};
use crate::settings::Centre;
use grid_model::Pos;
use toml::Value;

/// The greatest amount of a coordinate, in mm.
const MAX_COORDINATE: u64 = 8_500_000_000;

/// The greatest distance of a station from the origin, in mm.
const STATION_REACH: u128 = 6_600_000_000;

/// The greatest half side, in mm.
const MAX_HALF: i64 = 100_000_000;

/// `"header"`, or three coordinates in mm.
#[derive(Clone, Copy)]
pub struct Place;

/// `"header"`, or three coordinates in mm of a point within 6,600 km of the origin.
#[derive(Clone, Copy)]
pub struct GroundPlace;

/// One half side in mm for all three axes, or one for each.
#[derive(Clone, Copy)]
pub struct HalfSides;

impl Form for Place {
    type Output = Centre;

    ghost reads = { λ form d r. r ≡ place d };

    ghost allows = { λ form centre. IsCentre centre };

    fn read(&self, value: &Value) -> Result<Centre, Fault> {
        if let Some(text) = value.as_str() {
            return header(text);
        }
        let (x, y, z) = match three(value) {
            Ok(numbers) => numbers,
            Err(fault) => return Err(fault),
        };
        match point(x, y, z) {
            Ok(p) => Ok(Centre::At(p)),
            Err(fault) => Err(fault),
        }
    }
}

impl Form for GroundPlace {
    type Output = Centre;

    ghost reads = { λ form d r. r ≡ ground_place d };

    ghost allows = { λ form place. IsStationPlace place };

    fn read(&self, value: &Value) -> Result<Centre, Fault> {
        if let Some(text) = value.as_str() {
            return header(text);
        }
        let (x, y, z) = match three(value) {
            Ok(numbers) => numbers,
            Err(fault) => return Err(fault),
        };
        match ground_point(x, y, z) {
            Ok(p) => Ok(Centre::At(p)),
            Err(fault) => Err(fault),
        }
    }
}

impl Form for HalfSides {
    type Output = Pos;

    ghost reads = { λ form d r. r ≡ half_sides d };

    ghost allows = { λ form half. AreHalfSides half };

    fn read(&self, value: &Value) -> Result<Pos, Fault> {
        if let Some(n) = value.as_integer() {
            return halves(n, n, n);
        }
        match three(value) {
            Ok((x, y, z)) => halves(x, y, z),
            Err(fault) => Err(fault),
        }
    }
}

/// The centre of this word.
fn header(text: &str) -> Result<Centre, Fault>
    ensures { result ≡ right (is_text text.now (codes "header")) Centre.Header }
{
    if text == "header" {
        Ok(Centre::Header)
    } else {
        Err(Fault::Outside)
    }
}

/// Three whole numbers.
pub fn three(value: &Value) -> Result<(i64, i64, i64), Fault>
    ensures { AreThree (view value.now) result }
{
    let Some(items) = value.as_array() else {
        return Err(Fault::WrongKind);
    };
    if !are_integers(items) {
        return Err(Fault::WrongKind);
    }
    let [x, y, z] = items.as_slice() else {
        return Err(Fault::Outside);
    };
    match (x.as_integer(), y.as_integer(), z.as_integer()) {
        (Some(x), Some(y), Some(z)) => Ok((x, y, z)),
        _ => Err(Fault::WrongKind),
    }
}

/// The point with these coordinates in mm, each within 8,500 km.
fn point(x: i64, y: i64, z: i64) -> Result<Pos, Fault>
    ensures value { result ≡ three (each is_coordinate) (x ∷ y ∷ z ∷ []) }
    ensures near { IfOk result IsNearEarth }
{
    if is_within(MAX_COORDINATE, x)
        && is_within(MAX_COORDINATE, y)
        && is_within(MAX_COORDINATE, z)
    {
        Ok(in_um(x, y, z))
    } else {
        Err(Fault::Outside)
    }
}

/// The point with these coordinates in mm, within 6,600 km of the origin.
fn ground_point(x: i64, y: i64, z: i64) -> Result<Pos, Fault>
    ensures value { result ≡ three is_near_ground (x ∷ y ∷ z ∷ []) }
    ensures near { IfOk result IsNearGround }
{
    if is_near_ground(x, y, z) {
        Ok(in_um(x, y, z))
    } else {
        Err(Fault::Outside)
    }
}

/// Whether a point with these coordinates in mm is within 6,600 km of the origin.
fn is_near_ground(x: i64, y: i64, z: i64) -> bool
    ensures { result ≡ is_near_ground x y z }
{
    let sum = sum_of_squares(x.unsigned_abs(), y.unsigned_abs(), z.unsigned_abs());
    sum <= STATION_REACH * STATION_REACH
}

/// Three squares, added.
fn sum_of_squares(x: u64, y: u64, z: u64) -> u128
    requires x_fits { x ≤ 2 ^ 63 }
    requires y_fits { y ≤ 2 ^ 63 }
    requires z_fits { z ≤ 2 ^ 63 }
    ensures { result ≡ square x + square y + square z }
{
    let (x, y, z) = (u128::from(x), u128::from(y), u128::from(z));
    x * x + y * y + z * z
}

/// The half sides of these lengths in mm, each from 1 mm to 100 km.
fn halves(x: i64, y: i64, z: i64) -> Result<Pos, Fault>
    ensures value { result ≡ three (each is_half) (x ∷ y ∷ z ∷ []) }
    ensures allowed { IfOk result AreHalfSides }
{
    if is_half(x) && is_half(y) && is_half(z) {
        Ok(in_um(x, y, z))
    } else {
        Err(Fault::Outside)
    }
}

/// Whether a half side is from 1 mm to 100 km.
fn is_half(n: i64) -> bool
    ensures { result ≡ is_half n }
{
    1 <= n && n <= MAX_HALF
}

/// The point with these coordinates in mm.
fn in_um(x: i64, y: i64, z: i64) -> Pos
    requires x_within { IsWithin 8500000000 x }
    requires y_within { IsWithin 8500000000 y }
    requires z_within { IsWithin 8500000000 z }
    ensures { result ≡ record { x = um x; y = um y; z = um z } }
{
    Pos {
        x: x * 1_000,
        y: y * 1_000,
        z: z * 1_000,
    }
}
