//! The direction along which a half-space is sought.

ghost use Rattle.grid_model.specs.Sizes.{IsWithin};

/// A whole vector of any length: a unit vector in millionths suits.
#[derive(Clone, Copy, Debug, PartialEq, Eq)]
pub struct Direction {
    pub x: i64,
    pub y: i64,
    pub z: i64,
    pub ghost x_within: { IsWithin 1000000 x },
    pub ghost y_within: { IsWithin 1000000 y },
    pub ghost z_within: { IsWithin 1000000 z },
}

impl Default for Direction {
    fn default() -> Self {
        Direction { x: 0, y: 0, z: 0 }
    }
}

impl Direction {
    /// The direction's product with a vector.
    pub fn dot(&self, x: i128, y: i128, z: i128) -> i128 {
        x.wrapping_mul(i128::from(self.x))
            .wrapping_add(y.wrapping_mul(i128::from(self.y)))
            .wrapping_add(z.wrapping_mul(i128::from(self.z)))
    }

    /// Its longest component, in amount.
    pub fn longest(&self) -> u64 {
        self.x
            .unsigned_abs()
            .max(self.y.unsigned_abs())
            .max(self.z.unsigned_abs())
    }

    /// The opposite direction.
    pub(crate) fn opposite(&self) -> Direction {
        Direction {
            x: -self.x,
            y: -self.y,
            z: -self.z,
        }
    }
}
