//! A row's form around a box.

ghost use Rattle.grid_model.specs.Sizes.{IsWithin};

/// What a row says of a point of a box and an offset b, in um: S b plus the slopes times the
/// point's way from the middle of the box is from `lower` to `upper`. S is 2^22, and `x`, `y` and
/// `z` are the slopes.
#[derive(Clone, Copy)]
pub struct Form {
    pub x: i64,
    pub y: i64,
    pub z: i64,
    pub upper: i128,
    pub lower: i128,
    pub ghost x_within: { IsWithin 4194304 x },
    pub ghost y_within: { IsWithin 4194304 y },
    pub ghost z_within: { IsWithin 4194304 z },
    pub ghost upper_within: { IsWithin 500000000000000000000000000000000000 upper },
    pub ghost lower_within: { IsWithin 500000000000000000000000000000000000 lower },
}

impl Default for Form {
    fn default() -> Self {
        Form {
            x: 0,
            y: 0,
            z: 0,
            upper: 0,
            lower: 0,
        }
    }
}
