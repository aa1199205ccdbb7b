//! A half-space.

ghost use Rattle.grid_model.specs.Sizes.{IsWithin};

/// The points p, in um, at which x p.x + y p.y + z p.z is at most `most`. The direction x, y, z is
/// any whole vector: a unit vector in millionths suits, and `most` is then in millionths of an um.
#[derive(Clone, Copy, Debug, PartialEq, Eq)]
pub struct HalfSpace {
    pub x: i64,
    pub y: i64,
    pub z: i64,
    pub most: i64,
    pub ghost x_within: { IsWithin 1000000 x },
    pub ghost y_within: { IsWithin 1000000 y },
    pub ghost z_within: { IsWithin 1000000 z },
    pub ghost most_within: { IsWithin 9000000000000000000 most },
}
